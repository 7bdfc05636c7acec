ghost use Rattle.std.specs.Prelude.{◌≡◌};

use bytes::Bytes;
use std::alloc::AllocError;
use std::marker::Model;

/// The text of a status: a fixed one, which takes no memory, or bytes of its own, which need not be
/// UTF-8. A contract sees its bytes.
#[derive(Debug, Drop)]
pub struct Text {
    bytes: Bytes,
}

impl Model for Text {
    ghost use Rattle.std.specs.Prelude.{List, ℕ};

    ghost Value = { List ℕ };

    ghost view = { λ t. t.bytes };
}

impl Text {
    /// A fixed text. Takes no memory.
    pub fn fixed(text: &'static [u8]) -> Text
        ensures { result ≡ text.now }
    {
        Text {
            bytes: Bytes::from_static(text),
        }
    }

    /// A text of its own.
    pub fn from_bytes(bytes: Bytes) -> Text
        ensures { result ≡ bytes }
    {
        Text { bytes }
    }

    /// The text as bytes.
    pub fn as_slice(&self) -> &[u8]
        ensures { result.now ≡ self.now }
    {
        self.bytes.as_slice()
    }
}

// Another owner of the same bytes.
impl Clone for Text {
    ghost is_clone = { λ x y. y ≡ x };

    fn clone(&self) -> Result<Text, AllocError> {
        Ok(Text {
            bytes: self.bytes.clone()?,
        })
    }
}
