ghost use Rattle.std.specs.Prelude.{◌≡◌, ◌++◌, take, OnOk, OnErr};
ghost use Rattle.proto_wire.specs.Written.{varint, uint_field, bytes_field};

use std::alloc::AllocError;

/// Appends a number as a varint, in as few bytes as it takes. Without memory `out` is unchanged.
#[tactic(auto, using(crate::proofs::Writing::short_varint))]
#[inline(always)]
pub fn write_varint(value: u64, out: &mut Vec<u8>) -> Result<(), AllocError>
    ensures ok { OnOk result (out.new.items ≡ out.old.items ++ varint value) }
    ensures err { OnErr result (out.new.items ≡ out.old.items) }
{
    // Most numbers take one byte.
    if value < 128 {
        out.push(value as u8)?;
        return Ok(());
    }
    write_long_varint(value, out)
}

#[inline(never)]
fn write_long_varint(value: u64, out: &mut Vec<u8>) -> Result<(), AllocError>
    ensures ok { OnOk result (out.new.items ≡ out.old.items ++ varint value) }
    ensures err { OnErr result (out.new.items ≡ out.old.items) }
{
    let mut bytes = [0u8; 10];
    let mut count = 0;
    let mut rest = value;
    while rest >= 128 && count < 9 {
        bytes[count] = (rest % 128 + 128) as u8;
        rest /= 128;
        count += 1;
    }
    bytes[count] = (rest % 128) as u8;
    out.extend_from_slice(&bytes[..count + 1])
}

/// Appends a field of a number, also where the number is 0. Without memory `out` is unchanged.
pub fn write_uint(number: u32, value: u64, out: &mut Vec<u8>) -> Result<(), AllocError>
    ensures ok { OnOk result (out.new.items ≡ out.old.items ++ uint_field number value) }
    ensures err { OnErr result (out.new.items ≡ out.old.items) }
{
    let before = out.len();
    write_varint(u64::from(number) * 8, out)?;
    if write_varint(value, out).is_err() {
        return Err(roll_back(out, before));
    }
    Ok(())
}

/// Appends a field of bytes, also where there are none. Without memory `out` is unchanged.
pub fn write_bytes(number: u32, value: &[u8], out: &mut Vec<u8>) -> Result<(), AllocError>
    ensures ok { OnOk result (out.new.items ≡ out.old.items ++ bytes_field number value.now) }
    ensures err { OnErr result (out.new.items ≡ out.old.items) }
{
    let before = out.len();
    write_varint(u64::from(number) * 8 + 2, out)?;
    if write_varint(value.len() as u64, out).is_err() || out.extend_from_slice(value).is_err() {
        return Err(roll_back(out, before));
    }
    Ok(())
}

/// Drops what was appended behind the first `len` bytes, and answers want of memory: what a writer answers where it
/// could write the beginning alone.
pub fn roll_back(out: &mut Vec<u8>, len: usize) -> AllocError
    ensures { out.new.items ≡ take len out.old.items }
{
    out.truncate(len);
    AllocError
}
