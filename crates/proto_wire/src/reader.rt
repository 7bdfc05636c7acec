ghost use Rattle.std.specs.Prelude.{◌≡◌, ◌+◌, ◌<◌, ◌≤◌, ◌^◌, ℕ, List, length, IfOk};
ghost use Rattle.proto_wire.specs.Wire.{varint_at, value_at, tagged_value_at, value_view, tagged_value_view, value_of, bytes_len};
ghost use Rattle.proto_wire.specs.Fields.{Reads, IsWithin, HasNumber};

use std::marker::Model;

/// What is wrong with a field. Where a field has several faults, it is the first of: `BadVarint` or
/// `Truncated` of the tag, `BadTag`, `BadType`, and those of the value.
#[derive(Clone, Copy, Debug, PartialEq, Eq)]
pub enum WireFault {
    /// The message ends inside the field.
    Truncated,
    /// The tenth byte of the tag, of the length or of a varint value is above 1.
    BadVarint,
    /// The field's number is 0, or the tag is above 2^32 - 1.
    BadTag,
    /// The wire type is 3, 4, 6 or 7.
    BadType,
}

/// The value of a field, by its wire type.
#[derive(Clone, Copy, Debug)]
pub enum WireValue<'a> {
    /// Wire type 0: a number of one to ten bytes.
    Varint(u64),
    /// Wire type 1: eight bytes, as they stand.
    Eight([u8; 8]),
    /// Wire type 2: the bytes behind their length.
    Bytes(&'a [u8]),
    /// Wire type 5: four bytes, as they stand.
    Four([u8; 4]),
}

/// A field of a message.
#[derive(Clone, Copy, Debug)]
pub struct Field<'a> {
    /// From 1 to 536,870,911.
    pub number: u32,
    /// Where the first byte of the field's tag stands in the outermost message, from 0.
    pub place: usize,
    pub value: WireValue<'a>,
}

/// What stands next in a message.
#[derive(Clone, Copy, Debug)]
pub enum Next<'a> {
    Field(Field<'a>),
    /// The message is over.
    End,
    /// The field whose tag begins at this place is no legal field.
    Refused(usize, WireFault),
}

/// Reads the fields of a message in the Protocol Buffers encoding, one after another.
///
/// It takes no memory, and looks at each byte of a tag or a length once.
#[derive(Drop)]
pub struct FieldReader<'a> {
    rest: &'a [u8],
    place: usize,
}

impl<'a> Model for FieldReader<'a> {
    ghost use Rattle.std.specs.Prelude.{ℕ, List, ◌+◌, ◌<◌, ◌^◌, length};

    ghost Value = { ℕ × List ℕ };

    ghost view = { λ r. (r.place, r.rest.now) };

    ghost invariant = { λ r. r.place + length r.rest.now < 2 ^ 64 };
}

// What reads a field is inlined into the loops over fields, which then keep it in registers.

/// The number of the varint at the front, and how many bytes it takes.
#[inline(always)]
fn varint_at(bytes: &[u8]) -> Result<(u64, usize), WireFault>
    ensures value { result ≡ varint_at bytes.now }
    ensures within { IfOk result (λ r. (1 ≤ r.1) × (r.1 ≤ length bytes.now)) }
{
    // Most numbers take one byte.
    match bytes {
        [first, ..] if *first < 128 => Ok((u64::from(*first), 1)),
        _ => long_varint_at(bytes),
    }
}

#[inline(never)]
fn long_varint_at(bytes: &[u8]) -> Result<(u64, usize), WireFault>
    ensures value { result ≡ varint_at bytes.now }
    ensures within { IfOk result (λ r. (1 ≤ r.1) × (r.1 ≤ length bytes.now)) }
{
    let mut value: u64 = 0;
    let mut scale: u64 = 1;
    for (i, b) in bytes.iter().enumerate() {
        let part = u64::from(*b);
        if i == 9 {
            return if part <= 1 {
                Ok((value + part * scale, 10))
            } else {
                Err(WireFault::BadVarint)
            };
        }
        if part < 128 {
            return Ok((value + part * scale, i + 1));
        }
        value += (part - 128) * scale;
        scale *= 128;
    }
    Err(WireFault::Truncated)
}

#[tactic(auto, unfolding(crate::specs::Wire::value_at))]
#[inline(always)]
fn bytes_at(bytes: &[u8]) -> Result<(WireValue<'_>, usize), WireFault>
    ensures value { value_view result ≡ value_at 2 bytes.now }
    ensures within { IfOk result (λ r. r.1 ≤ length bytes.now) }
    ensures holds { IfOk result (λ r. bytes_len (value_of r.0) ≤ r.1) }
{
    let (count, skipped) = varint_at(bytes)?;
    let rest = &bytes[skipped..];
    if (rest.len() as u64) < count {
        return Err(WireFault::Truncated);
    }
    let count = count as usize;
    Ok((WireValue::Bytes(&rest[..count]), skipped + count))
}

#[tactic(auto, unfolding(crate::specs::Wire::value_at))]
#[inline(always)]
fn eight_at(bytes: &[u8]) -> Result<(WireValue<'_>, usize), WireFault>
    ensures value { value_view result ≡ value_at 1 bytes.now }
    ensures within { IfOk result (λ r. r.1 ≤ length bytes.now) }
    ensures holds { IfOk result (λ r. bytes_len (value_of r.0) ≤ r.1) }
{
    if bytes.len() < 8 {
        return Err(WireFault::Truncated);
    }
    let mut eight = [0; 8];
    eight.copy_from_slice(&bytes[..8]);
    Ok((WireValue::Eight(eight), 8))
}

#[tactic(auto, unfolding(crate::specs::Wire::value_at))]
#[inline(always)]
fn four_at(bytes: &[u8]) -> Result<(WireValue<'_>, usize), WireFault>
    ensures value { value_view result ≡ value_at 5 bytes.now }
    ensures within { IfOk result (λ r. r.1 ≤ length bytes.now) }
    ensures holds { IfOk result (λ r. bytes_len (value_of r.0) ≤ r.1) }
{
    if bytes.len() < 4 {
        return Err(WireFault::Truncated);
    }
    let mut four = [0; 4];
    four.copy_from_slice(&bytes[..4]);
    Ok((WireValue::Four(four), 4))
}

#[tactic(auto, unfolding(crate::specs::Wire::value_at))]
#[inline(always)]
fn value_at(kind: u64, bytes: &[u8]) -> Result<(WireValue<'_>, usize), WireFault>
    ensures value { value_view result ≡ value_at kind bytes.now }
    ensures within { IfOk result (λ r. r.1 ≤ length bytes.now) }
    ensures holds { IfOk result (λ r. bytes_len (value_of r.0) ≤ r.1) }
{
    match kind {
        0 => {
            let (value, size) = varint_at(bytes)?;
            Ok((WireValue::Varint(value), size))
        }
        1 => eight_at(bytes),
        2 => bytes_at(bytes),
        5 => four_at(bytes),
        _ => Err(WireFault::BadType),
    }
}

#[tactic(auto, unfolding(crate::specs::Wire::tagged_value_at))]
#[inline(always)]
fn tagged_value_at(bytes: &[u8]) -> Result<(u32, WireValue<'_>, usize), WireFault>
    ensures value { tagged_value_view result ≡ tagged_value_at bytes.now }
    ensures within { IfOk result (λ r. (1 ≤ r.2) × (r.2 ≤ length bytes.now)) }
    ensures holds { IfOk result (λ r. bytes_len (value_of r.1) ≤ r.2) }
    ensures number { IfOk result (λ r. (1 ≤ r.0) × (r.0 < 2 ^ 29)) }
{
    let (tag, skipped) = varint_at(bytes)?;
    if tag < 8 || tag > 0xffff_ffff {
        return Err(WireFault::BadTag);
    }
    let (value, size) = value_at(tag % 8, &bytes[skipped..])?;
    Ok(((tag / 8) as u32, value, skipped + size))
}

impl<'a> FieldReader<'a> {
    /// A reader of an outermost message.
    pub fn new(message: &'a [u8]) -> FieldReader<'a>
        ensures { result ≡ (0, message.now) }
    {
        FieldReader {
            rest: message,
            place: 0,
        }
    }

    /// A reader of a message that stands at this place, in bytes from 0, of the outermost one.
    pub fn at(message: &'a [u8], place: usize) -> FieldReader<'a>
        requires { place + length message.now < 2 ^ 64 }
        ensures { result ≡ (place, message.now) }
    {
        FieldReader {
            rest: message,
            place,
        }
    }

    /// The place of the next field's tag, or of the message's end.
    pub fn place(&self) -> usize
        ensures { result ≡ self.now.0 }
    {
        self.place
    }

    /// Reads the next field. After `End` or a refusal it answers the same again.
    #[tactic(auto, unfolding(crate::specs::Fields::fields_from, crate::specs::Fields::fields_upto))]
    #[inline(always)]
    pub fn next(&mut self) -> Next<'a>
        ensures reads { Reads self.old result self.new }
        ensures holds { IsWithin result self.new.0 }
        ensures number { HasNumber result }
    {
        if self.rest.is_empty() {
            return Next::End;
        }
        match tagged_value_at(self.rest) {
            Ok((number, value, size)) => {
                let place = self.place;
                self.rest = &self.rest[size..];
                self.place += size;
                Next::Field(Field {
                    number,
                    place,
                    value,
                })
            }
            Err(fault) => Next::Refused(self.place, fault),
        }
    }
}
