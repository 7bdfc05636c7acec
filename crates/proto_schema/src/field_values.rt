ghost use Rattle.std.specs.Prelude.{◌≡◌, ◌++◌, [], IfOk, unwrap_or};
ghost use Rattle.std.specs.Option.{option_map, option_copied};
ghost use Rattle.proto_wire.specs.Wire.{value_of};
ghost use Rattle.proto_schema.specs.FieldValues.{number_in, piece_in, member_in, last_number_at as last_number, number_at as number_said, text_at as last_text, message_at as merged_at, oneof_at as oneof_member, with_occurrence};
ghost use Rattle.proto_schema.specs.OneofMember.{oneof_member_view};

use crate::merged_bytes::MergedBytes;
use proto_wire::{Field, FieldReader, Next, WireValue};
use std::alloc::{AllocError, Global};

/// The number that this field gives the wanted one.
pub fn number_of(wanted: u32, field: &Field<'_>) -> Option<u64>
    ensures { result ≡ number_in wanted field.now.number (value_of field.now.value) }
{
    match field.value {
        WireValue::Varint(value) if field.number == wanted => Some(value),
        _ => None,
    }
}

/// The bytes that this field gives the wanted one.
pub fn piece_of<'a>(wanted: u32, field: &Field<'a>) -> Option<&'a [u8]>
    ensures { option_copied result ≡ piece_in wanted field.now.number (value_of field.now.value) }
{
    match field.value {
        WireValue::Bytes(bytes) if field.number == wanted => Some(bytes),
        _ => None,
    }
}

/// The bytes that this field gives one of the members of a oneof.
pub fn member_of<'a>(among: &[u32], field: &Field<'a>) -> Option<&'a [u8]>
    ensures { option_map (λ b. (field.now.number, b.now)) result ≡ member_in among.now field.now.number (value_of field.now.value) }
{
    match field.value {
        WireValue::Bytes(bytes) if among.contains(&field.number) => Some(bytes),
        _ => None,
    }
}

/// The last number of a field, if it has one.
#[tactic(auto, unfolding(crate::specs::FieldValues::last_number_at))]
pub fn last_number_at(wanted: u32, bytes: &[u8]) -> Option<u64>
    ensures { result ≡ last_number wanted bytes.now }
{
    let mut last = None;
    let mut reader = FieldReader::new(bytes);
    loop {
        match reader.next() {
            Next::Field(field) => last = number_of(wanted, &field).or(last),
            _ => return last,
        }
    }
}

/// The last number of a field, or 0.
#[tactic(auto, unfolding(crate::specs::FieldValues::number_at))]
pub fn number_at(wanted: u32, bytes: &[u8]) -> u64
    ensures { result ≡ number_said wanted bytes.now }
{
    last_number_at(wanted, bytes).unwrap_or(0)
}

/// The last bytes of a field, or none.
#[tactic(auto, unfolding(crate::specs::FieldValues::text_at))]
pub fn text_at(wanted: u32, bytes: &[u8]) -> &[u8]
    ensures { result.now ≡ last_text wanted bytes.now }
{
    let mut last = None;
    let mut reader = FieldReader::new(bytes);
    loop {
        match reader.next() {
            Next::Field(field) => last = piece_of(wanted, &field).or(last),
            _ => return last.unwrap_or(&[]),
        }
    }
}

/// The pieces so far, and one more behind them.
pub fn merge_bytes<'a>(
    alloc: Global,
    before: Option<MergedBytes<'a>>,
    piece: &'a [u8],
) -> Result<MergedBytes<'a>, AllocError>
    ensures { IfOk result (λ all. all ≡ unwrap_or before.entry [] ++ piece.now) }
{
    match before {
        Some(all) => all.with(alloc, piece),
        None => Ok(MergedBytes::new(piece)),
    }
}

/// An embedded message: its occurrences, one behind the other.
#[tactic(auto, using(crate::proofs::Nothing::no_message))]
#[inline(always)]
pub fn message_at<'a>(
    alloc: Global,
    wanted: u32,
    bytes: &'a [u8],
) -> Result<Option<MergedBytes<'a>>, AllocError>
    ensures { IfOk result (λ all. all ≡ merged_at wanted bytes.now) }
{
    // Most messages that may be embedded are not there.
    if bytes.is_empty() {
        return Ok(None);
    }
    message_in(alloc, wanted, bytes)
}

// The same of any bytes, field by field.
#[tactic(auto, unfolding(crate::specs::FieldValues::message_at))]
#[inline(never)]
fn message_in<'a>(
    alloc: Global,
    wanted: u32,
    bytes: &'a [u8],
) -> Result<Option<MergedBytes<'a>>, AllocError>
    ensures { IfOk result (λ all. all ≡ merged_at wanted bytes.now) }
{
    let mut all = None;
    let mut reader = FieldReader::new(bytes);
    loop {
        match reader.next() {
            Next::Field(field) => {
                if let Some(piece) = piece_of(wanted, &field) {
                    all = Some(merge_bytes(alloc, all, piece)?);
                }
            }
            _ => return Ok(all),
        }
    }
}

/// A member of a oneof, and its bytes.
#[derive(Drop)]
pub struct OneofMember<'a> {
    pub number: u32,
    pub bytes: MergedBytes<'a>,
}

/// The members so far, and one more occurrence: behind those of the same member, in place of another one.
pub fn merge_oneof<'a>(
    alloc: Global,
    before: Option<OneofMember<'a>>,
    number: u32,
    piece: &'a [u8],
) -> Result<OneofMember<'a>, AllocError>
    ensures { IfOk result (λ now. oneof_member_view now ≡ with_occurrence (option_map oneof_member_view before.entry) (number, piece.now)) }
{
    if let Some(chosen) = before {
        if chosen.number == number {
            let bytes = chosen.bytes.with(alloc, piece)?;
            return Ok(OneofMember { number, bytes });
        }
    }
    Ok(OneofMember {
        number,
        bytes: MergedBytes::new(piece),
    })
}

/// The last member of a oneof, and its occurrences behind the last one of another member.
#[tactic(auto, unfolding(crate::specs::FieldValues::oneof_at))]
pub fn oneof_at<'a>(
    alloc: Global,
    among: &[u32],
    bytes: &'a [u8],
) -> Result<Option<OneofMember<'a>>, AllocError>
    ensures { IfOk result (λ found. option_map oneof_member_view found ≡ oneof_member among.now bytes.now) }
{
    let mut found = None;
    let mut reader = FieldReader::new(bytes);
    loop {
        match reader.next() {
            Next::Field(field) => {
                if let Some(piece) = member_of(among, &field) {
                    found = Some(merge_oneof(alloc, found, field.number, piece)?);
                }
            }
            _ => return Ok(found),
        }
    }
}
