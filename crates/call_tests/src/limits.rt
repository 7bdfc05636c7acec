//! What a server sends first, and the limits that a client sets and is set.
use crate::sides::{sends_all, side, tells};
use bytes::Bytes;
use grpc_heads::{Status, Text, short_trailers_fit};
use grpc_stream::{CallConnection, CallEvent};
use h2_exchange::Role;
use schema_numbers::{Numbering, default_numbering};
use std::alloc::{AllocError, Global};
use std::test::Fail;

const SERVER_FIRST: &[u8] =
    b"\x00\x00\x12\x04\x00\x00\x00\x00\x00\x00\x03\x00\x00\x00\x64\x00\x04\x00\x10\x00\x00\x00\x06\x00\x01\x00\x00\x00\x00\x04\x08\x00\x00\x00\
    \x00\x00\x00\x0f\x00\x01";

// The acknowledgement of SETTINGS, and the head of a response.
const ANSWERED: &[u8] =
    b"\x00\x00\x00\x04\x01\x00\x00\x00\x00\x00\x00\x14\x01\x04\x00\x00\x00\x01\x88\x0f\x10\x10\x61\x70\x70\x6c\x69\x63\x61\x74\x69\x6f\x6e\x2f\x67\x72\x70\x63";

const TRAILERS_SENT: &[u8] =
    b"\x00\x00\x0f\x01\x05\x00\x00\x00\x01\x00\x0b\x67\x72\x70\x63\x2d\x73\x74\x61\x74\x75\x73\x01\x30";

// A client's preface, SETTINGS with an initial window of 0, and the head of a Modify call.
const FROM_CLIENT: &[u8] =
    b"PRI * HTTP/2.0\r\n\r\nSM\r\n\r\n\x00\x00\x06\x04\x00\x00\x00\x00\x00\x00\x04\x00\x00\x00\x00\
    \x00\x00\x3c\x01\x04\x00\x00\x00\x01\x83\x86\x00\x05:path\x13/gribi.gRIBI/Modify\x00\x0ccontent-type\x10application/grpc";

const WINDOW_UPDATE: &[u8] = b"\x00\x00\x04\x08\x00\x00\x00\x00\x01\x00\x00\x00\x07";

// The message of two bytes, framed, in DATA.
const DATA_SENT: &[u8] = b"\x00\x00\x07\x00\x00\x00\x00\x00\x01\x00\x00\x00\x00\x02ok";

// A server answers a call of a client whose window is 0.
fn answers<K: CallConnection>(
    alloc: Global,
    n: &Numbering,
    server: &mut K,
) -> Result<bool, AllocError> {
    let is_begun = matches!(tells(server, n, FROM_CLIENT)?, CallEvent::Begun(1, _));
    let is_taken = server.answer(1, Vec::from_slice(alloc, b"ok")?).is_ok();
    server.pump()?;
    Ok(is_begun && is_taken && server.waiting() == 7)
}

// The end of a call that went well.
fn ends<K: CallConnection>(n: &Numbering, server: &mut K) -> Result<bool, AllocError> {
    short_trailers_fit();
    let status = Status {
        code: 0,
        message: Text::fixed(b""),
        reason: None,
    };
    let is_taken = server.end(n, 1, status).is_ok();
    server.pump()?;
    Ok(is_taken)
}

fn holds<K: CallConnection>(
    alloc: Global,
    n: &Numbering,
    server: &mut K,
) -> Result<bool, AllocError> {
    let mut is_right = sends_all(server, SERVER_FIRST);
    is_right &= answers(alloc, n, server)?;
    is_right &= sends_all(server, ANSWERED);
    is_right &= matches!(tells(server, n, WINDOW_UPDATE)?, CallEvent::NeedMore);
    server.pump()?;
    is_right &= server.waiting() == 0 && sends_all(server, DATA_SENT);
    is_right &= ends(n, server)?;
    Ok(is_right && sends_all(server, TRAILERS_SENT))
}

fn is_held(alloc: Global) -> Result<bool, AllocError> {
    let n = default_numbering(alloc)?;
    let mut server = side(alloc, Role::Server)?;
    holds(alloc, &n, &mut server)
}

#[test]
fn a_closed_window_holds_data_and_not_the_head(rt: HostRuntime) -> Result<(), Fail> {
    assert!(rt; is_held(rt.alloc())?);
    Ok(())
}

// A client's first bytes with its own windows, and the head of a Modify call.
const WITHOUT_LIMITS: &[u8] =
    b"PRI * HTTP/2.0\r\n\r\nSM\r\n\r\n\x00\x00\x00\x04\x00\x00\x00\x00\x00\
    \x00\x00\x3c\x01\x04\x00\x00\x00\x01\x83\x86\x00\x05:path\x13/gribi.gRIBI/Modify\x00\x0ccontent-type\x10application/grpc";

// DATA of the five bytes that begin a message of 4,194,304 bytes.
const FRONT: &[u8] = b"\x00\x00\x05\x00\x00\x00\x00\x00\x01\x00\x00\x40\x00\x00";

// The next 16,384 bytes of a message, in DATA.
fn piece(alloc: Global) -> Result<Bytes, AllocError> {
    let mut text = Vec::from_slice(alloc, b"\x00\x40\x00\x00\x00\x00\x00\x00\x01")?;
    text.resize(16_393, 0)?;
    match Bytes::from_vec(text) {
        Ok(bytes) => Ok(bytes),
        Err(_) => Err(AllocError),
    }
}

// The size of a message that was told; none where none was.
fn size(event: &CallEvent) -> usize {
    match event {
        CallEvent::Request(_, message) => message.as_slice().len(),
        _ => 0,
    }
}

fn takes<K: CallConnection>(
    alloc: Global,
    n: &Numbering,
    server: &mut K,
) -> Result<usize, AllocError> {
    let _ = tells(server, n, WITHOUT_LIMITS)?;
    let _ = tells(server, n, FRONT)?;
    let mut told = 0usize;
    for _ in 0..256u32 {
        server.feed(piece(alloc)?)?;
        told = size(&server.next(n));
    }
    Ok(told)
}

fn takes_longest(alloc: Global) -> Result<usize, AllocError> {
    let n = default_numbering(alloc)?;
    let mut server = side(alloc, Role::Server)?;
    takes(alloc, &n, &mut server)
}

#[test]
fn the_longest_message_is_taken_whole(rt: HostRuntime) -> Result<(), Fail> {
    assert!(rt; takes_longest(rt.alloc())? == 4_194_304);
    Ok(())
}
