//! Header blocks in frames.
ghost use Rattle.std.specs.Prelude.{◌≡◌, ◌+◌, ◌-◌, ◌*◌, ◌/◌, ◌≤◌, ◌<◌, ◌++◌, List, ℕ, length, take, drop, sum_by, OnOk, OnErr, IsOk};
ghost use Rattle.std.specs.Vec.{vec_capacity, vec_len};
ghost use Rattle.hpack_tables.specs.EntrySizes.{size_of};
ghost use Rattle.hpack_tables.specs.Laws.{AreBytes};
ghost use Rattle.hpack_tables.specs.Writing.{Writes};
ghost use Rattle.hpack_tables.specs.declared.encoder.Style.TheVariants.{Plain};
ghost use Rattle.http_connection.specs.Sends.{block_room, text_room};
ghost use Rattle.h2_conn.specs.Blocks.{header_text, frames_text, more_frames, block_text};

use crate::texts;
use hpack_tables::{EncodedBlock, Fields, HeaderEncoder};
use std::alloc::AllocError;

fn more_frames(len: usize) -> usize
    ensures { result ≡ more_frames len }
{
    len.saturating_sub(1) / 16_384
}

/// How many bytes the frames of a block of these fields have at most.
fn room_for(fields: &Fields) -> usize
    requires { sum_by size_of fields.now ≤ 65536 }
    ensures { result ≡ block_room fields.now }
{
    let text = hpack_tables::block_room(fields.as_slice());
    text + 9 * (1 + text / 16_384)
}

fn rotate_tail(out: &mut Vec<u8>, at: usize)
    requires { at + 9 ≤ vec_len out.old }
    ensures items { out.new.items ≡ take at out.old.items ++ (drop (length (drop at out.old.items) - 9) (drop at out.old.items)
        ++ take (length (drop at out.old.items) - 9) (drop at out.old.items)) }
    ensures len { vec_len out.new ≡ vec_len out.old }
    ensures capacity { vec_capacity out.new ≡ vec_capacity out.old }
{
    out[at..].rotate_right(9);
}

/// Puts the header of a frame before the bytes that stand from a place on.
#[tactic(auto, using(crate::proofs::Framing::in_front))]
fn put_header(out: &mut Vec<u8>, at: usize, len: u32, number: u8, flags: u8, stream: u32)
    requires place { at ≤ vec_len out.old }
    requires room { vec_len out.old + 9 ≤ vec_capacity out.old }
    ensures items { out.new.items ≡ take at out.old.items ++ (header_text number flags stream len ++ drop at out.old.items) }
    ensures len { vec_len out.new ≡ vec_len out.old + 9 }
    ensures capacity { vec_capacity out.old ≤ vec_capacity out.new }
{
    let [_, a, b, c] = len.to_be_bytes();
    let [d, e, f, g] = stream.to_be_bytes();
    texts::put(out, &[a, b, c, number, flags, d, e, f, g]);
    rotate_tail(out, at);
}

/// Makes frames of the bytes that stand from a place on: one of this type, and so many CONTINUATION frames behind it.
fn frame(out: &mut Vec<u8>, at: usize, more: usize, number: u8, flags: u8, stream: u32)
    requires place { at ≤ vec_len out.old }
    requires few { vec_len out.old ≤ at + 16384 * (more + 1) }
    requires full { at + 16384 * more ≤ vec_len out.old }
    requires count { more < 5 }
    requires flags { flags ≤ 1 }
    requires room { vec_len out.old + 9 * (more + 1) ≤ vec_capacity out.old }
    ensures items { out.new.items ≡ take at out.old.items ++ frames_text more number flags stream (drop at out.old.items) }
    ensures len { vec_len out.new ≡ vec_len out.old + 9 * (more + 1) }
    ensures capacity { vec_capacity out.old ≤ vec_capacity out.new }
{
    if more == 0 {
        let len = (out.len() - at) as u32;
        put_header(out, at, len, number, flags + 4, stream);
        return;
    }
    put_header(out, at, 16_384, number, flags, stream);
    frame(out, at + 16_393, more - 1, 9, 0, stream);
}

/// Makes the frames of a header block of the bytes that stand from a place on.
#[tactic(auto, using(crate::proofs::Framing::frame_bounds))]
fn frame_block(out: &mut Vec<u8>, at: usize, stream: u32, last: bool)
    requires place { at ≤ vec_len out.old }
    requires small { vec_len out.old ≤ at + 65542 }
    requires room { vec_len out.old + 9 * (more_frames (vec_len out.old - at) + 1) ≤ vec_capacity out.old }
    ensures items { out.new.items ≡ take at out.old.items ++ block_text stream last (drop at out.old.items) }
    ensures len { vec_len out.new ≡ vec_len out.old + 9 * (more_frames (vec_len out.old - at) + 1) }
    ensures capacity { vec_capacity out.old ≤ vec_capacity out.new }
{
    let more = more_frames(out.len() - at);
    frame(out, at, more, 1, if last { 1 } else { 0 }, stream);
}

/// Adds the header block of the fields. A plain one takes no memory where there is room for it. Without memory nothing
/// changes.
#[tactic(auto, using(crate::proofs::Framing::behind, crate::proofs::Framing::most_frames))]
pub fn put_block(
    encoder: &mut HeaderEncoder,
    out: &mut Vec<u8>,
    stream: u32,
    last: bool,
    fields: &Fields,
) -> Result<(), AllocError>
    requires { sum_by size_of fields.now ≤ 65536 }
    ensures ok { OnOk result ((text : List ℕ) × Writes encoder.old fields.now text encoder.new × (length text ≤ text_room fields.now)
        × (out.new.items ≡ out.old.items ++ block_text stream last text)) }
    ensures bytes { OnOk result (AreBytes fields.now) }
    ensures err { OnErr result ((out.new.items ≡ out.old.items) × (encoder.new ≡ encoder.old)) }
    ensures plain { encoder.old.style ≡ Plain → vec_len out.old + block_room fields.now ≤ vec_capacity out.old → IsOk result }
    ensures len { OnOk result (vec_len out.new ≤ vec_len out.old + block_room fields.now) }
    ensures capacity { vec_capacity out.old ≤ vec_capacity out.new }
{
    let at = out.len();
    out.reserve(room_for(fields))?;
    encoder.block(fields, out)?;
    frame_block(out, at, stream, last);
    Ok(())
}

/// Makes room for the frames of a block that is written.
pub fn reserve_draft(draft: &EncodedBlock, out: &mut Vec<u8>) -> Result<(), AllocError>
    requires { length draft.now.text ≤ 65542 }
    ensures items { out.new.items ≡ out.old.items }
    ensures len { vec_len out.new ≡ vec_len out.old }
    ensures room { OnOk result (vec_len out.new + length draft.now.text + 9 * (more_frames (length draft.now.text) + 1) ≤ vec_capacity out.new) }
    ensures capacity { vec_capacity out.old ≤ vec_capacity out.new }
{
    let len = draft.text().len();
    out.reserve(len + 9 * (more_frames(len) + 1))
}

/// Adds the frames of a block that is written, for which there is room.
#[tactic(auto, using(crate::proofs::Framing::behind))]
pub fn put_draft(draft: &EncodedBlock, out: &mut Vec<u8>, stream: u32, last: bool)
    requires small { length draft.now.text ≤ 65542 }
    requires room { vec_len out.old + length draft.now.text + 9 * (more_frames (length draft.now.text) + 1) ≤ vec_capacity out.old }
    ensures items { out.new.items ≡ out.old.items ++ block_text stream last draft.now.text }
    ensures capacity { vec_capacity out.old ≤ vec_capacity out.new }
{
    let at = out.len();
    texts::put(out, draft.text());
    frame_block(out, at, stream, last);
}
