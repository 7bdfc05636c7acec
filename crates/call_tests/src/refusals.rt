//! The refusals of a call that its head or its framing decides.
use crate::sides::side;
use bytes::Bytes;
use grpc_stream::{CallConnection, CallEvent};
use h2_exchange::Role;
use schema_numbers::{Numbering, default_numbering};
use std::alloc::{AllocError, Global};
use std::test::Fail;

// A client's preface, and SETTINGS without a setting.
const FROM_CLIENT: &[u8] = b"PRI * HTTP/2.0\r\n\r\nSM\r\n\r\n\x00\x00\x00\x04\x00\x00\x00\x00\x00";

// A header field that a block gives as it stands.
type Pair = (&'static [u8], &'static [u8]);

// `:scheme` http, as a block gives it by its number.
const SCHEME: &[u8] = b"\x86";

// A length below 256, as a byte.
fn low(size: usize) -> u8 {
    let [_, _, _, _, _, _, _, byte] = (size as u64).to_be_bytes();
    byte
}

fn put(block: &mut Vec<u8>, pair: Pair) -> Result<(), AllocError> {
    block.push(0)?;
    block.push(low(pair.0.len()))?;
    block.extend_from_slice(pair.0)?;
    block.push(low(pair.1.len()))?;
    block.extend_from_slice(pair.1)
}

// A frame of stream 1, whose payload has fewer than 256 bytes.
fn frame(alloc: Global, number: u8, flags: u8, payload: &[u8]) -> Result<Bytes, AllocError> {
    let mut text = Vec::new(alloc);
    text.extend_from_slice(&[0, 0, low(payload.len()), number, flags, 0, 0, 0, 1])?;
    text.extend_from_slice(payload)?;
    match Bytes::from_vec(text) {
        Ok(bytes) => Ok(bytes),
        Err(_) => Err(AllocError),
    }
}

// The HEADERS of a request with these fields behind its `:scheme`.
fn head(alloc: Global, pairs: &[Pair]) -> Result<Bytes, AllocError> {
    let mut block = Vec::from_slice(alloc, SCHEME)?;
    for pair in pairs {
        put(&mut block, *pair)?;
    }
    frame(alloc, 1, 4, block.as_slice())
}

// A server takes its client's first bytes. What it sent so far is let go.
fn greet<K: CallConnection>(n: &Numbering, server: &mut K) -> Result<(), AllocError> {
    server.feed(Bytes::from_static(FROM_CLIENT))?;
    let _ = server.next(n);
    let size = server.out().len();
    server.drop_out(size);
    Ok(())
}

// Whether a call with this head is shown as nothing, and answered by a block that ends so and ends the stream.
fn shows_nothing<K: CallConnection>(
    n: &Numbering,
    server: &mut K,
    head: Bytes,
    wanted: &[u8],
) -> Result<bool, AllocError> {
    greet(n, server)?;
    server.feed(head)?;
    let is_quiet = matches!(server.next(n), CallEvent::NeedMore);
    server.pump()?;
    Ok(is_quiet && server.out().ends_with(wanted))
}

fn refuses(
    alloc: Global,
    n: &Numbering,
    pairs: &[Pair],
    wanted: &[u8],
) -> Result<bool, AllocError> {
    let head = head(alloc, pairs)?;
    let mut server = side(alloc, Role::Server)?;
    shows_nothing(n, &mut server, head, wanted)
}

const POST: Pair = (b":method", b"POST");

const MODIFY: Pair = (b":path", b"/gribi.gRIBI/Modify");

const GRPC: Pair = (b"content-type", b"application/grpc");

const NO_POST: &[u8] = b"\x00\x00\x05\x01\x05\x00\x00\x00\x01\x08\x03405";

const NO_GRPC: &[u8] = b"\x00\x00\x05\x01\x05\x00\x00\x00\x01\x08\x03415";

const UNKNOWN: &[u8] = b"\x00\x0bgrpc-status\x0212\x00\x0cgrpc-message\x0eunknown method";

const COMPRESSED: &[u8] =
    b"\x00\x0bgrpc-status\x0212\x00\x0cgrpc-message\x19compression is not served";

const BAD_TIMEOUT: &[u8] = b"\x00\x0bgrpc-status\x013\x00\x0cgrpc-message\x0bbad timeout";

const TOO_LONG: &[u8] =
    b"\x00\x0bgrpc-status\x018\x00\x0cgrpc-message\x1bmessage longer than 4194304";

const TRUNCATED: &[u8] = b"\x00\x0bgrpc-status\x013\x00\x0cgrpc-message\x11truncated message";

fn heads_are_refused(alloc: Global) -> Result<bool, AllocError> {
    let n = default_numbering(alloc)?;
    let get: Pair = (b":method", b"GET");
    let html: Pair = (b"content-type", b"text/html");
    let foo: Pair = (b":path", b"/gribi.gRIBI/Foo");
    let gzip: Pair = (b"grpc-encoding", b"gzip");
    let late: Pair = (b"grpc-timeout", b"1x");
    let mut is_right = refuses(alloc, &n, &[get, foo, html], NO_POST)?;
    is_right &= refuses(alloc, &n, &[POST, foo, html], NO_GRPC)?;
    is_right &= refuses(alloc, &n, &[POST, foo, GRPC, gzip], UNKNOWN)?;
    is_right &= refuses(alloc, &n, &[POST, MODIFY, GRPC, gzip, late], COMPRESSED)?;
    is_right &= refuses(alloc, &n, &[POST, MODIFY, GRPC, late], BAD_TIMEOUT)?;
    Ok(is_right)
}

#[test]
fn a_head_is_refused_for_its_first_fault(rt: HostRuntime) -> Result<(), Fail> {
    assert!(rt; heads_are_refused(rt.alloc())?);
    Ok(())
}

// Whether a call with this DATA is begun, dropped, and answered by a block that ends so.
fn shows_drop<K: CallConnection>(
    n: &Numbering,
    server: &mut K,
    frames: (Bytes, Bytes),
    wanted: &[u8],
) -> Result<bool, AllocError> {
    greet(n, server)?;
    server.feed(frames.0)?;
    let is_begun = matches!(server.next(n), CallEvent::Begun(1, _));
    server.feed(frames.1)?;
    let is_dropped = matches!(server.next(n), CallEvent::Dropped(1));
    server.pump()?;
    Ok(is_begun && is_dropped && server.out().ends_with(wanted))
}

fn drops(
    alloc: Global,
    n: &Numbering,
    flags: u8,
    data: &[u8],
    wanted: &[u8],
) -> Result<bool, AllocError> {
    let frames = (
        head(alloc, &[POST, MODIFY, GRPC])?,
        frame(alloc, 0, flags, data)?,
    );
    let mut server = side(alloc, Role::Server)?;
    shows_drop(n, &mut server, frames, wanted)
}

fn framings_are_refused(alloc: Global) -> Result<bool, AllocError> {
    let n = default_numbering(alloc)?;
    let mut is_right = drops(alloc, &n, 0, b"\x01\x00\x00\x00\x00", COMPRESSED)?;
    is_right &= drops(alloc, &n, 0, b"\x00\x00\x40\x00\x01", TOO_LONG)?;
    is_right &= drops(alloc, &n, 1, b"\x00\x00\x00\x00\x02\x00", TRUNCATED)?;
    Ok(is_right)
}

#[test]
fn a_framing_that_is_no_message_is_refused(rt: HostRuntime) -> Result<(), Fail> {
    assert!(rt; framings_are_refused(rt.alloc())?);
    Ok(())
}
