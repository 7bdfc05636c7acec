//! Which names and values are those of `http_header`.
ghost use Rattle.std.specs.Prelude.{◌≡◌, ◌↔◌, IsTrue};
ghost use Rattle.http_header.specs.FieldName.{IsHeaderName};
ghost use Rattle.http_header.specs.FieldValue.{IsFieldValue};
ghost use Rattle.http_header.specs.Token.{is_value_byte};
ghost use Rattle.hpack_tables.specs.Marks.{is_name_byte, AreNameBytes};

use super::Field;

// 1 at each byte of a token in lower case
#[rattlefmt::skip]
static NAME_BYTES: [u8; 256] = [
    0, 0, 0, 0, 0, 0, 0, 0, 0, 0, 0, 0, 0, 0, 0, 0,
    0, 0, 0, 0, 0, 0, 0, 0, 0, 0, 0, 0, 0, 0, 0, 0,
    0, 1, 0, 1, 1, 1, 1, 1, 0, 0, 1, 1, 0, 1, 1, 0,
    1, 1, 1, 1, 1, 1, 1, 1, 1, 1, 0, 0, 0, 0, 0, 0,
    0, 0, 0, 0, 0, 0, 0, 0, 0, 0, 0, 0, 0, 0, 0, 0,
    0, 0, 0, 0, 0, 0, 0, 0, 0, 0, 0, 0, 0, 0, 1, 1,
    1, 1, 1, 1, 1, 1, 1, 1, 1, 1, 1, 1, 1, 1, 1, 1,
    1, 1, 1, 1, 1, 1, 1, 1, 1, 1, 1, 0, 1, 0, 1, 0,
    0, 0, 0, 0, 0, 0, 0, 0, 0, 0, 0, 0, 0, 0, 0, 0,
    0, 0, 0, 0, 0, 0, 0, 0, 0, 0, 0, 0, 0, 0, 0, 0,
    0, 0, 0, 0, 0, 0, 0, 0, 0, 0, 0, 0, 0, 0, 0, 0,
    0, 0, 0, 0, 0, 0, 0, 0, 0, 0, 0, 0, 0, 0, 0, 0,
    0, 0, 0, 0, 0, 0, 0, 0, 0, 0, 0, 0, 0, 0, 0, 0,
    0, 0, 0, 0, 0, 0, 0, 0, 0, 0, 0, 0, 0, 0, 0, 0,
    0, 0, 0, 0, 0, 0, 0, 0, 0, 0, 0, 0, 0, 0, 0, 0,
    0, 0, 0, 0, 0, 0, 0, 0, 0, 0, 0, 0, 0, 0, 0, 0,
];

fn is_name_byte(b: u8) -> bool
    ensures { result ≡ is_name_byte b }
{
    NAME_BYTES[usize::from(b)] == 1
}

fn is_value_byte(b: u8) -> bool
    ensures { result ≡ is_value_byte b }
{
    b == b'\t' || (b >= 32 && b != 127)
}

fn are_name_bytes(bytes: &[u8]) -> bool
    ensures { IsTrue result ↔ AreNameBytes bytes.now }
{
    bytes.iter().all(|b| is_name_byte(*b))
}

fn are_value_bytes(bytes: &[u8]) -> bool
    ensures { IsTrue result ↔ IsFieldValue bytes.now }
{
    bytes.iter().all(|b| is_value_byte(*b))
}

impl Field {
    /// Whether the name is a header name, in lower case, as `http_header` has them. A pseudo
    /// field's is none (RFC 9113, section 8.2).
    #[tactic(auto, using(crate::proofs::NameBytes::is_name, crate::proofs::NameBytes::name_is))]
    pub fn has_header_name(&self) -> bool
        ensures { IsTrue result ↔ IsHeaderName self.now.name }
    {
        let name = self.name.as_slice();
        !name.is_empty() && name.len() <= 65_535 && are_name_bytes(name)
    }

    /// Whether the value is a header value, as `http_header` has them: no CR, LF or NUL, and no
    /// other control byte than a tab.
    pub fn has_header_value(&self) -> bool
        ensures { IsTrue result ↔ IsFieldValue self.now.value }
    {
        are_value_bytes(self.value.as_slice())
    }
}
