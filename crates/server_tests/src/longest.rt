//! The longest message that a call may have, and calls that are refused by their head or their framing.
use crate::calls::is_in;
use crate::frames::{HEAD, data_of, first, put};
use crate::served::{End, serve};
use std::alloc::{AllocError, Global};
use std::sync::Wait;
use std::test::Fail;

// What a message begins with that is one unknown field, and how many bytes of the field follow: one of 4,194,304 bytes, and one
// that is a byte longer.
const LONGEST: (&[u8], usize) = (b"\x00\x00\x40\x00\x00\x7a\xfb\xff\xff\x01", 4_194_299);

const LONGER: (&[u8], usize) = (b"\x00\x00\x40\x00\x01\x7a\xfc\xff\xff\x01", 4_194_300);

// A Modify call with this message alone.
fn call_of(alloc: Global, begin: &[u8], size: usize) -> Result<Vec<u8>, AllocError> {
    let mut message = Vec::from_slice(alloc, begin)?;
    message.resize(begin.len().saturating_add(size), 7)?;
    let mut out = first(alloc)?;
    put(1, 4, 1, HEAD, &mut out)?;
    for part in message.as_slice().chunks(16_384) {
        put(0, 0, 1, part, &mut out)?;
    }
    put(0, 1, 1, b"", &mut out)?;
    Ok(out)
}

// What is written for a Modify call with this message, and how that ends.
fn answer<R: Wait>(rt: &R, alloc: Global, message: (&[u8], usize)) -> Result<(End, Vec<u8>), Fail> {
    let bytes = call_of(alloc, message.0, message.1)?;
    let (end, link) = serve(rt, alloc, Vec::new(alloc), bytes.as_slice())?;
    Ok((end, Vec::from_slice(alloc, link.sent())?))
}

fn is_taken<R: Wait>(rt: &R, alloc: Global) -> Result<bool, Fail> {
    let (end, sent) = answer(rt, alloc, LONGEST)?;
    let data = data_of(alloc, sent.as_slice())?;
    Ok(
        end == End::Served
            && data.is_empty()
            && sent.as_slice().ends_with(b"\x00\x0bgrpc-status\x010"),
    )
}

#[test]
fn the_longest_message_is_answered_by_nothing(rt: HostRuntime) -> Result<(), Fail> {
    let is_right = is_taken(&rt, rt.alloc())?;
    assert!(rt; is_right);
    Ok(())
}

fn is_refused<R: Wait>(rt: &R, alloc: Global) -> Result<bool, Fail> {
    let (_, sent) = answer(rt, alloc, LONGER)?;
    let data = data_of(alloc, sent.as_slice())?;
    Ok(
        data.is_empty()
            && is_in(b"grpc-status\x018", sent.as_slice())
            && is_in(b"message longer than 4194304", sent.as_slice()),
    )
}

#[test]
fn a_longer_message_is_refused(rt: HostRuntime) -> Result<(), Fail> {
    let is_right = is_refused(&rt, rt.alloc())?;
    assert!(rt; is_right);
    Ok(())
}

const OTHER_HEAD: &[u8] =
    b"\x83\x86\x00\x05:path\x10/gribi.gRIBI/Foo\x00\x0ccontent-type\x10application/grpc";

// Whether a call with this head and this DATA is refused as one that the server hasn't implemented.
fn is_unimplemented<R: Wait>(
    rt: &R,
    alloc: Global,
    head: &[u8],
    data: &[u8],
) -> Result<bool, Fail> {
    let mut bytes = first(alloc)?;
    put(1, 4, 1, head, &mut bytes)?;
    put(0, 1, 1, data, &mut bytes)?;
    let (_, link) = serve(rt, alloc, Vec::new(alloc), bytes.as_slice())?;
    Ok(is_in(b"grpc-status\x0212", link.sent()))
}

fn are_unimplemented<R: Wait>(rt: &R, alloc: Global) -> Result<bool, Fail> {
    let is_flag = is_unimplemented(rt, alloc, HEAD, b"\x01\x00\x00\x00\x00")?;
    let is_path = is_unimplemented(rt, alloc, OTHER_HEAD, b"\x00\x00\x00\x00\x00")?;
    Ok(is_flag && is_path)
}

#[test]
fn a_compressed_message_and_an_unknown_method_are_unimplemented(
    rt: HostRuntime,
) -> Result<(), Fail> {
    let is_right = are_unimplemented(&rt, rt.alloc())?;
    assert!(rt; is_right);
    Ok(())
}
