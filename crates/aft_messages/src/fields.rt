ghost use Rattle.std.specs.Prelude.{◌≡◌, ◌≤◌, ◌++◌, ◌+◌, ◌*◌, [], OnOk, OnErr, length, take, drop};
ghost use Rattle.std.specs.Option.{option_copied};
ghost use Rattle.proto_wire.specs.Written.{varint, bytes_field};
ghost use Rattle.aft_messages.specs.Writing.{nonzero_uint_field, nonempty_field, uint_value_field, string_value_field, label_field};

use crate::sizes::nonzero_uint_size;
use proto_wire::{roll_back, write_bytes, write_uint, write_varint};
use std::alloc::AllocError;

/// Appends a field of a number, and nothing where the number is 0. Without memory `out` is unchanged.
#[tactic(auto, unfolding(crate::specs::Writing::nonzero_uint_field))]
pub fn write_nonzero_uint(number: u32, value: u64, out: &mut Vec<u8>) -> Result<(), AllocError>
    ensures ok { OnOk result (out.new.items ≡ out.old.items ++ nonzero_uint_field number value) }
    ensures err { OnErr result (out.new.items ≡ out.old.items) }
{
    if value == 0 {
        Ok(())
    } else {
        write_uint(number, value, out)
    }
}

/// Appends two numbers, one behind the other. Without memory `out` is unchanged.
pub fn write_two_uints(
    number: u32,
    value: u64,
    next_number: u32,
    next_value: u64,
    out: &mut Vec<u8>,
) -> Result<(), AllocError>
    ensures ok { OnOk result (out.new.items ≡ out.old.items ++ nonzero_uint_field number value ++ nonzero_uint_field next_number next_value) }
    ensures err { OnErr result (out.new.items ≡ out.old.items) }
{
    let before = out.len();
    write_nonzero_uint(number, value, out)?;
    if write_nonzero_uint(next_number, next_value, out).is_err() {
        return Err(roll_back(out, before));
    }
    Ok(())
}

/// Appends what stands before the bytes of an embedded message of this size in bytes. Without memory `out` is unchanged.
pub fn write_length_prefix(number: u32, size: usize, out: &mut Vec<u8>) -> Result<(), AllocError>
    ensures ok { OnOk result (out.new.items ≡ out.old.items ++ varint (number * 8 + 2) ++ varint size) }
    ensures err { OnErr result (out.new.items ≡ out.old.items) }
{
    let before = out.len();
    write_varint(u64::from(number) * 8 + 2, out)?;
    if write_varint(size as u64, out).is_err() {
        return Err(roll_back(out, before));
    }
    Ok(())
}

/// Makes the bytes of `out` from `start` on an embedded message. Without memory `out` is unchanged.
pub fn write_length_delimited(
    number: u32,
    start: usize,
    out: &mut Vec<u8>,
) -> Result<(), AllocError>
    requires { start ≤ length out.old.items }
    ensures ok { OnOk result (out.new.items ≡ take start out.old.items ++ bytes_field number (drop start out.old.items)) }
    ensures err { OnErr result (out.new.items ≡ out.old.items) }
{
    let size = out.len() - start;
    write_length_prefix(number, size, out)?;
    let (_, tail) = out.as_mut_slice().split_at_mut(start);
    tail.rotate_left(size);
    Ok(())
}

/// Makes the bytes of `out` from `start` on an embedded message, where there are some. Without memory `out` is unchanged.
#[tactic(auto, using(crate::proofs::NonEmpty::nonempty))]
pub fn write_nonempty_length_delimited(
    number: u32,
    start: usize,
    out: &mut Vec<u8>,
) -> Result<(), AllocError>
    requires { start ≤ length out.old.items }
    ensures ok { OnOk result (out.new.items ≡ take start out.old.items ++ nonempty_field number (drop start out.old.items)) }
    ensures err { OnErr result (out.new.items ≡ out.old.items) }
{
    if out.len() == start {
        Ok(())
    } else {
        write_length_delimited(number, start, out)
    }
}

/// Appends a field of a text, and nothing where the text is empty. Without memory `out` is unchanged.
#[tactic(auto, unfolding(crate::specs::Writing::nonempty_field))]
pub fn write_nonempty_text(number: u32, text: &[u8], out: &mut Vec<u8>) -> Result<(), AllocError>
    ensures ok { OnOk result (out.new.items ≡ out.old.items ++ nonempty_field number text.now) }
    ensures err { OnErr result (out.new.items ≡ out.old.items) }
{
    match text {
        [] => Ok(()),
        _ => write_bytes(number, text, out),
    }
}

/// Appends a UintValue, where there is a number. Without memory `out` is unchanged.
pub fn write_uint_value(
    number: u32,
    value: Option<u64>,
    out: &mut Vec<u8>,
) -> Result<(), AllocError>
    ensures ok { OnOk result (out.new.items ≡ out.old.items ++ uint_value_field number value) }
    ensures err { OnErr result (out.new.items ≡ out.old.items) }
{
    match value {
        None => Ok(()),
        Some(value) => write_wrapped_number(number, value, out),
    }
}

fn write_wrapped_number(number: u32, value: u64, out: &mut Vec<u8>) -> Result<(), AllocError>
    ensures ok { OnOk result (out.new.items ≡ out.old.items ++ bytes_field number (nonzero_uint_field 1 value)) }
    ensures err { OnErr result (out.new.items ≡ out.old.items) }
{
    let before = out.len();
    write_length_prefix(number, nonzero_uint_size(1, value), out)?;
    if write_nonzero_uint(1, value, out).is_err() {
        return Err(roll_back(out, before));
    }
    Ok(())
}

/// Appends a StringValue, where there is a text. Without memory `out` is unchanged.
pub fn write_string_value(
    number: u32,
    text: Option<&[u8]>,
    out: &mut Vec<u8>,
) -> Result<(), AllocError>
    ensures ok { OnOk result (out.new.items ≡ out.old.items ++ string_value_field number (option_copied text.entry)) }
    ensures err { OnErr result (out.new.items ≡ out.old.items) }
{
    match text {
        None => Ok(()),
        Some(text) => write_wrapped_text(number, text, out),
    }
}

fn write_wrapped_text(number: u32, text: &[u8], out: &mut Vec<u8>) -> Result<(), AllocError>
    ensures ok { OnOk result (out.new.items ≡ out.old.items ++ bytes_field number (nonempty_field 1 text.now)) }
    ensures err { OnErr result (out.new.items ≡ out.old.items) }
{
    let before = out.len();
    write_nonempty_text(1, text, out)?;
    if write_length_delimited(number, before, out).is_err() {
        return Err(roll_back(out, before));
    }
    Ok(())
}

/// Appends a label, where it is there: also one that is 0. Without memory `out` is unchanged.
pub fn write_label(number: u32, label: Option<u64>, out: &mut Vec<u8>) -> Result<(), AllocError>
    ensures ok { OnOk result (out.new.items ≡ out.old.items ++ label_field number label) }
    ensures err { OnErr result (out.new.items ≡ out.old.items) }
{
    match label {
        None => Ok(()),
        Some(label) => write_uint(number, label, out),
    }
}
