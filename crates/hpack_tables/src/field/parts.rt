ghost use Rattle.std.specs.Prelude.{◌≡◌, ◌+◌, ◌<◌, ◌^◌, length, IfOk};
ghost use Rattle.hpack_tables.specs.EntrySizes.{size_of};

use super::Field;
use bytes::Bytes;
use std::alloc::AllocError;

impl Field {
    /// A field of static bytes. Takes no memory.
    pub fn from_static(name: &'static [u8], value: &'static [u8]) -> Field
        ensures { result ≡ record { name = name.now; value = value.now } }
    {
        Field {
            name: Bytes::from_static(name),
            value: Bytes::from_static(value),
        }
    }

    /// What it counts for in a table or a list: its bytes and 32 (RFC 7541, section 4.1).
    pub fn size(&self) -> u64
        requires { size_of self.now < 2 ^ 64 }
        ensures { result ≡ size_of self.now }
    {
        self.name.len() as u64 + self.value.len() as u64 + 32
    }
}

// Another owner of the same bytes.
impl Clone for Field {
    ghost is_clone = { λ f copy. copy ≡ f };

    fn clone(&self) -> Result<Field, AllocError> {
        Ok(Field {
            name: self.name.clone()?,
            value: self.value.clone()?,
        })
    }
}
