ghost use Rattle.std.specs.Prelude.{◌≡◌, IfOk};
ghost use Rattle.aft_messages.specs.Reading.{text_of, embedded_at as embedded, uint_value_at as uint_value, string_value_at as string_value};

use aft_entries::Name;
use proto_schema::{MergedBytes, message_at, number_at, text_at};
use std::alloc::{AllocError, Global};

/// The text that these bytes are. Bytes that are not UTF-8, which a message without a fault does not have in a known text, are
/// read as no text.
#[tactic(auto, using(crate::proofs::Texts::utf8), unfolding(crate::specs::Reading::text_of))]
pub fn text_in(bytes: &[u8]) -> &str
    ensures { result.now ≡ text_of bytes.now }
{
    match std::str::from_utf8(bytes) {
        Ok(text) => text,
        Err(_) => "",
    }
}

/// A copy of the text of these bytes, or want of memory. Bytes that are not UTF-8 are read as no text.
pub fn read_text(alloc: Global, bytes: &[u8]) -> Result<Name, AllocError>
    ensures { IfOk result (λ name. name ≡ text_of bytes.now) }
{
    Ok(Name::from_string(String::from_str(alloc, text_in(bytes))?))
}

/// An embedded message, its occurrences one behind the other, or want of memory. An absent one has no bytes.
pub fn embedded_at<'a>(
    alloc: Global,
    number: u32,
    bytes: &'a [u8],
) -> Result<MergedBytes<'a>, AllocError>
    ensures { IfOk result (λ inner. inner ≡ embedded number bytes.now) }
{
    match message_at(alloc, number, bytes)? {
        None => Ok(MergedBytes::new(&[])),
        Some(inner) => Ok(inner),
    }
}

/// The number in a UintValue, or want of memory. None is an absent wrapper; one that is there and empty says 0.
pub fn uint_value_at(alloc: Global, number: u32, bytes: &[u8]) -> Result<Option<u64>, AllocError>
    ensures { IfOk result (λ value. value ≡ uint_value number bytes.now) }
{
    match message_at(alloc, number, bytes)? {
        None => Ok(None),
        Some(wrapper) => Ok(Some(number_at(1, wrapper.as_bytes()))),
    }
}

/// The text in a StringValue, or want of memory. None is an absent wrapper; one that is there and empty says the
/// empty text.
pub fn string_value_at(alloc: Global, number: u32, bytes: &[u8]) -> Result<Option<Name>, AllocError>
    ensures { IfOk result (λ value. value ≡ string_value number bytes.now) }
{
    match message_at(alloc, number, bytes)? {
        None => Ok(None),
        Some(wrapper) => {
            let text = text_at(1, wrapper.as_bytes());
            Ok(Some(read_text(alloc, text)?))
        }
    }
}
