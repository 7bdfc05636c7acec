//! Calls on one link: refusals, and a client that grants no window.
use crate::frames::{HEAD, first, put, put_message};
use crate::served::{End, serve};
use server_turns::DropCause;
use std::alloc::{AllocError, Global};
use std::sync::Wait;
use std::test::Fail;

// Parameters of a session alone among its peers, which this server doesn't serve; and others than those of a live session.
const ALL_PRIMARY: &[u8] = b"\x12\x00";

const KEEPS: &[u8] = b"\x12\x04\x08\x01\x10\x01";

const DELETES: &[u8] = b"\x12\x02\x08\x01";

const ELECTION: &[u8] = b"\x1a\x02\x10\x07";

const OPERATION: &[u8] = b"\x0a\x0d\x08\x01\x12\x07DEFAULT\x18\x01";

// Messages, each on a call of its own, and how what is written ends.
const REFUSED: &[(&[&[u8]], &[u8])] = &[
    (&[ALL_PRIMARY], b"unsupported session parameters"),
    (&[KEEPS, DELETES], b"session parameters differ"),
    (&[OPERATION], b"ALL_PRIMARY is not served"),
    (&[ELECTION], b"election in ALL_PRIMARY"),
];

pub(crate) fn is_in(text: &[u8], bytes: &[u8]) -> bool {
    for start in 0..bytes.len() {
        if let Some(rest) = bytes.get(start..) {
            if rest.starts_with(text) {
                return true;
            }
        }
    }
    false
}

// A Modify call for each message, on streams of its own.
fn calls(alloc: Global, messages: &[&[u8]]) -> Result<Vec<u8>, AllocError> {
    let mut out = first(alloc)?;
    let mut stream = 1u32;
    for message in messages {
        put(1, 4, stream, HEAD, &mut out)?;
        put_message(alloc, 0, stream, message, &mut out)?;
        stream = stream.wrapping_add(2);
    }
    Ok(out)
}

fn are_refused<R: Wait>(rt: &R, alloc: Global) -> Result<bool, Fail> {
    let mut is_right = true;
    for (messages, text) in REFUSED {
        let bytes = calls(alloc, messages)?;
        let (_, link) = serve(rt, alloc, Vec::new(alloc), bytes.as_slice())?;
        is_right &= is_in(text, link.sent());
    }
    Ok(is_right)
}

#[test]
fn a_call_is_refused_by_its_message(rt: HostRuntime) -> Result<(), Fail> {
    let is_right = are_refused(&rt, rt.alloc())?;
    assert!(rt; is_right);
    Ok(())
}

// A client that grants streams no window, and a call of it that is owed an answer.
const WITHOUT_WINDOW: &[u8] =
    b"PRI * HTTP/2.0\r\n\r\nSM\r\n\r\n\x00\x00\x06\x04\x00\x00\x00\x00\x00\x00\x04\x00\x00\x00\x00";

const WINDOW_UPDATE: &[u8] = b"\x00\x00\x04\x08\x00\x00\x00\x00\x01\x00\x00\x00\x09";

fn is_held<R: Wait>(rt: &R, alloc: Global) -> Result<bool, Fail> {
    let mut bytes = Vec::from_slice(alloc, WITHOUT_WINDOW)?;
    put(1, 4, 1, HEAD, &mut bytes)?;
    put_message(alloc, 1, 1, KEEPS, &mut bytes)?;
    let (end, link) = serve(rt, alloc, Vec::new(alloc), bytes.as_slice())?;
    let mut is_right = end == End::Dropped(DropCause::NoWindow)
        && link.sent().ends_with(b"application/grpc");
    bytes.extend_from_slice(WINDOW_UPDATE)?;
    let (end, link) = serve(rt, alloc, Vec::new(alloc), bytes.as_slice())?;
    is_right &= end == End::Served && link.sent().ends_with(b"\x00\x0bgrpc-status\x010");
    Ok(is_right)
}

#[test]
fn a_client_without_a_window_gets_a_head_alone(rt: HostRuntime) -> Result<(), Fail> {
    let is_right = is_held(&rt, rt.alloc())?;
    assert!(rt; is_right);
    Ok(())
}
