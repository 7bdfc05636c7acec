//! Frames that are written where there is room for them.
ghost use Rattle.std.specs.Prelude.{◌≡◌, ◌+◌, ◌≤◌, ◌++◌, length};
ghost use Rattle.std.specs.Vec.{vec_capacity, vec_len};
ghost use Rattle.h2_frames.specs.Layout.{text_of};
ghost use Rattle.h2_exchange.specs.Sending.{reset_text, update_text};
ghost use Rattle.std.specs.Int.{w32, to_be_bytes};

use h2_frames::ErrorCode;

/// Adds bytes for which there is room.
pub fn put(out: &mut Vec<u8>, bytes: &[u8])
    requires { vec_len out.old + length bytes.now ≤ vec_capacity out.old }
    ensures items { out.new.items ≡ out.old.items ++ bytes.now }
    ensures len { vec_len out.new ≡ vec_len out.old + length bytes.now }
    ensures capacity { vec_capacity out.old ≤ vec_capacity out.new }
{
    match out.extend_from_slice(bytes) {
        Ok(()) => {}
        Err(_) => {}
    }
}

/// Adds a frame for which there is room.
pub fn put_frame(out: &mut Vec<u8>, number: u8, flags: u8, stream: u32, payload: &[u8])
    requires small { length payload.now ≤ 16384 }
    requires room { vec_len out.old + 9 + length payload.now ≤ vec_capacity out.old }
    ensures items { out.new.items ≡ out.old.items ++ text_of number flags stream payload.now }
    ensures len { vec_len out.new ≡ vec_len out.old + 9 + length payload.now }
    ensures capacity { vec_capacity out.old ≤ vec_capacity out.new }
{
    let [_, a, b, c] = (payload.len() as u32).to_be_bytes();
    let [d, e, f, g] = stream.to_be_bytes();
    put(out, &[a, b, c, number, flags, d, e, f, g]);
    put(out, payload);
}

pub fn put_reset(out: &mut Vec<u8>, stream: u32, code: ErrorCode)
    requires { vec_len out.old + 13 ≤ vec_capacity out.old }
    ensures items { out.new.items ≡ out.old.items ++ reset_text stream code }
    ensures len { vec_len out.new ≡ vec_len out.old + 13 }
    ensures capacity { vec_capacity out.old ≤ vec_capacity out.new }
{
    put_frame(out, 3, 0, stream, &code.0.to_be_bytes());
}

pub fn put_update(out: &mut Vec<u8>, stream: u32, n: u32)
    requires { vec_len out.old + 13 ≤ vec_capacity out.old }
    ensures items { out.new.items ≡ out.old.items ++ update_text stream n }
    ensures len { vec_len out.new ≡ vec_len out.old + 13 }
    ensures capacity { vec_capacity out.old ≤ vec_capacity out.new }
{
    put_frame(out, 8, 0, stream, &n.to_be_bytes());
}

pub fn put_goaway(out: &mut Vec<u8>, last: u32, code: ErrorCode)
    requires { vec_len out.old + 17 ≤ vec_capacity out.old }
    ensures items { out.new.items ≡ out.old.items ++ text_of 7 0 0 (to_be_bytes w32 last ++ to_be_bytes w32 code.0) }
{
    let [a, b, c, d] = last.to_be_bytes();
    let [e, f, g, h] = code.0.to_be_bytes();
    put_frame(out, 7, 0, 0, &[a, b, c, d, e, f, g, h]);
}
