ghost use Rattle.std.specs.Prelude.{◌≡◌, ◌++◌, ◌<◌, ◌^◌, length, OnOk, OnErr};
ghost use Rattle.message_run.specs.Outcomes.{flagged_item, trailer as trailer_spec};

use itoa::Buffer;
use std::alloc::AllocError;

/// Appends an item as it stands in a stream: the flag byte, four bytes of length, the highest first, and the bytes. Without
/// memory `out` is unchanged.
pub fn append_item(flag: u8, bytes: &[u8], out: &mut Vec<u8>) -> Result<(), AllocError>
    requires { length bytes.now < 2 ^ 32 }
    ensures ok { OnOk result (out.new.items ≡ out.old.items ++ flagged_item flag bytes.now) }
    ensures err { OnErr result (out.new.items ≡ out.old.items) }
{
    let count = bytes.len() as u32;
    let before = out.len();
    if out.push(flag).is_err()
        || out.extend_from_slice(&count.to_be_bytes()).is_err()
        || out.extend_from_slice(bytes).is_err()
    {
        out.truncate(before);
        return Err(AllocError);
    }
    Ok(())
}

/// Makes `out` a last item.
pub fn trailer(flag: u8, number: u128, out: &mut Vec<u8>) -> Result<(), AllocError>
    ensures { OnOk result (out.new.items ≡ trailer_spec flag number) }
{
    let mut buffer = Buffer::new();
    let digits = buffer.format(number).as_bytes();
    out.clear();
    append_item(flag, digits, out)
}
