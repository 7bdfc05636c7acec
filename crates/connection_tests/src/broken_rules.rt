use crate::first_frames::{FROM_CLIENT, LIMITS, REQUEST_HEAD, takes};
use bytes::Bytes;
use h2_conn::H2Conn;
use h2_exchange::{CalmCause, Role};
use http_connection::{H2Event, HttpConnection};
use std::alloc::{AllocError, Global};
use std::test::Fail;

// What follows the client's first 33 bytes, the code of the refusal, and its place.
type Rows = &'static [(&'static [u8], u32, u64)];

// One row or more for each rule whose breach ends a connection.
const ROWS: Rows = &[
    // PROTOCOL_ERROR: frames of a stream on stream 0, and of the connection on a stream
    (b"\x00\x00\x00\x00\x00\x00\x00\x00\x00", 1, 33),
    (b"\x00\x00\x03\x01\x04\x00\x00\x00\x00\x83\x86\x84", 1, 33),
    (b"\x00\x00\x00\x04\x00\x00\x00\x00\x01", 1, 33),
    // a new stream with an even id, and frames on idle streams
    (b"\x00\x00\x03\x01\x04\x00\x00\x00\x02\x83\x86\x84", 1, 33),
    (b"\x00\x00\x00\x00\x00\x00\x00\x00\x01", 1, 33),
    (
        b"\x00\x00\x04\x03\x00\x00\x00\x00\x01\x00\x00\x00\x08",
        1,
        33,
    ),
    (
        b"\x00\x00\x04\x08\x00\x00\x00\x00\x01\x00\x00\x00\x01",
        1,
        33,
    ),
    // PUSH_PROMISE, CONTINUATION outside a header block, another frame inside one
    (
        b"\x00\x00\x04\x05\x04\x00\x00\x00\x01\x00\x00\x00\x02",
        1,
        33,
    ),
    (b"\x00\x00\x00\x09\x04\x00\x00\x00\x01", 1, 33),
    (
        b"\x00\x00\x01\x01\x00\x00\x00\x00\x01\x83\x00\x00\x08\x06\x00\x00\x00\x00\x00\x00\x00\x00\x00\x00\x00\x00\x00",
        1,
        43,
    ),
    // padding that is too long, and values of settings
    (b"\x00\x00\x02\x01\x0c\x00\x00\x00\x01\x05\x83", 1, 33),
    (
        b"\x00\x00\x06\x04\x00\x00\x00\x00\x00\x00\x02\x00\x00\x00\x02",
        1,
        33,
    ),
    (
        b"\x00\x00\x06\x04\x00\x00\x00\x00\x00\x00\x05\x00\x00\x3f\xff",
        1,
        33,
    ),
    (
        b"\x00\x00\x04\x08\x00\x00\x00\x00\x00\x00\x00\x00\x00",
        1,
        33,
    ),
    // FRAME_SIZE_ERROR: too long a frame, PING, PRIORITY, GOAWAY, SETTINGS and its acknowledgement
    (b"\x00\x40\x01\x0b\x00\x00\x00\x00\x00", 6, 33),
    (
        b"\x00\x00\x07\x06\x00\x00\x00\x00\x00\x00\x00\x00\x00\x00\x00\x00",
        6,
        33,
    ),
    (
        b"\x00\x00\x04\x02\x00\x00\x00\x00\x01\x00\x00\x00\x00",
        6,
        33,
    ),
    (
        b"\x00\x00\x07\x07\x00\x00\x00\x00\x00\x00\x00\x00\x00\x00\x00\x00",
        6,
        33,
    ),
    (
        b"\x00\x00\x05\x04\x00\x00\x00\x00\x00\x00\x00\x00\x00\x00",
        6,
        33,
    ),
    (
        b"\x00\x00\x06\x04\x01\x00\x00\x00\x00\x00\x01\x00\x00\x00\x00",
        6,
        33,
    ),
    // RST_STREAM of three bytes, and a flag of padding without a byte
    (
        b"\x00\x00\x03\x01\x04\x00\x00\x00\x01\x83\x86\x84\x00\x00\x03\x03\x00\x00\x00\x00\x01\x00\x00\x00",
        6,
        45,
    ),
    (
        b"\x00\x00\x03\x01\x04\x00\x00\x00\x01\x83\x86\x84\x00\x00\x00\x00\x08\x00\x00\x00\x01",
        6,
        45,
    ),
    // FLOW_CONTROL_ERROR: windows above 2^31 - 1
    (
        b"\x00\x00\x04\x08\x00\x00\x00\x00\x00\x7f\xff\xff\xff",
        3,
        33,
    ),
    (
        b"\x00\x00\x06\x04\x00\x00\x00\x00\x00\x00\x04\x80\x00\x00\x00",
        3,
        33,
    ),
    (
        b"\x00\x00\x03\x01\x04\x00\x00\x00\x01\x83\x86\x84\x00\x00\x04\x08\x00\x00\x00\x00\x01\x7f\xff\x00\x00\
        \x00\x00\x06\x04\x00\x00\x00\x00\x00\x00\x04\x00\x01\x00\x00",
        3,
        58,
    ),
    // COMPRESSION_ERROR
    (b"\x00\x00\x01\x01\x05\x00\x00\x00\x01\x80", 9, 33),
];

// What a connection says behind all events of a piece: a code and a place, or a limit that was passed.
fn told(event: &H2Event) -> (u32, u64) {
    match event {
        H2Event::Refused(code, place) => (code.0, *place),
        H2Event::Calm(CalmCause::HeaderBytes) => (1001, 0),
        H2Event::Calm(CalmCause::HeaderFrames) => (1002, 0),
        H2Event::Calm(CalmCause::HeaderList) => (1003, 0),
        H2Event::Calm(CalmCause::Resets) => (1004, 0),
        H2Event::NeedMore => (1000, 0),
        _ => (1005, 0),
    }
}

fn says(alloc: Global, pieces: &[&[u8]]) -> Result<(u32, u64), AllocError> {
    let mut conn = H2Conn::new(alloc, Role::Server, LIMITS)?;
    let mut said = (1000, 0);
    for piece in pieces {
        said = told(&http_connection::drain(&mut conn, Bytes::copy_from_slice(alloc, piece)?)?);
    }
    Ok(said)
}

#[test]
fn a_broken_rule_ends_the_connection(rt: HostRuntime) -> Result<(), Fail> {
    let mut is_right = says(rt.alloc(), &[b"PRI * HTTP/1.1"])? == (1, 0);
    let ping: &[u8] = b"\x00\x00\x08\x06\x00\x00\x00\x00\x00\x00\x00\x00\x00\x00\x00\x00\x00";
    let (preface, _) = FROM_CLIENT.split_at(24);
    is_right &= says(rt.alloc(), &[preface, ping])? == (1, 24);
    for (bytes, code, place) in ROWS {
        is_right &= says(rt.alloc(), &[FROM_CLIENT, bytes])? == (*code, *place);
    }
    assert!(rt; is_right);
    Ok(())
}

// What follows the head of stream 1, and the code of the reset that answers it.
const STREAM_ROWS: &[(&[u8], &[u8])] = &[
    // PRIORITY that isn't 5 long
    (
        b"\x00\x00\x04\x02\x00\x00\x00\x00\x01\x00\x00\x00\x00",
        b"\x06",
    ),
    // a WINDOW_UPDATE of 0, and one that is too large
    (
        b"\x00\x00\x04\x08\x00\x00\x00\x00\x01\x00\x00\x00\x00",
        b"\x01",
    ),
    (
        b"\x00\x00\x04\x08\x00\x00\x00\x00\x01\x7f\xff\xff\xff",
        b"\x03",
    ),
    // DATA behind the end
    (
        b"\x00\x00\x00\x00\x01\x00\x00\x00\x01\x00\x00\x00\x00\x00\x00\x00\x00\x01",
        b"\x05",
    ),
    // a second head, and trailers with a pseudo field
    (b"\x00\x00\x03\x01\x04\x00\x00\x00\x01\x83\x86\x84", b"\x01"),
    (b"\x00\x00\x01\x01\x05\x00\x00\x00\x01\x83", b"\x01"),
];

// RST_STREAM of stream 1, without the last byte of its code.
const RESET: &[u8] = b"\x00\x00\x04\x03\x00\x00\x00\x00\x01\x00\x00\x00";

fn resets(alloc: Global, bytes: &'static [u8], code: &[u8]) -> Result<bool, AllocError> {
    let mut conn = H2Conn::new(alloc, Role::Server, LIMITS)?;
    let mut goes_on = takes(&mut conn, FROM_CLIENT)? && takes(&mut conn, REQUEST_HEAD)?;
    let size = conn.out().len();
    conn.drop_out(size);
    goes_on &= takes(&mut conn, bytes)?;
    let (front, back) = conn.out().split_at(conn.out().len().min(12));
    let is_reset = front == RESET && back == code;
    Ok(goes_on && is_reset && !conn.is_live(1))
}

#[test]
fn a_stream_error_resets_its_stream(rt: HostRuntime) -> Result<(), Fail> {
    let mut is_right = true;
    for (bytes, code) in STREAM_ROWS {
        is_right &= resets(rt.alloc(), bytes, code)?;
    }
    assert!(rt; is_right);
    Ok(())
}

fn put(
    number: u8,
    flags: u8,
    stream: u32,
    payload: &[u8],
    out: &mut Vec<u8>,
) -> Result<(), AllocError> {
    let [_, _, _, _, _, a, b, c] = (payload.len() as u64).to_be_bytes();
    let [d, e, f, g] = stream.to_be_bytes();
    out.extend_from_slice(&[a, b, c, number, flags, d, e, f, g])?;
    out.extend_from_slice(payload)
}

// HEADERS and 64 empty CONTINUATION frames.
fn many_frames(alloc: Global) -> Result<Vec<u8>, AllocError> {
    let mut out = Vec::new(alloc);
    put(1, 0, 1, b"\x83", &mut out)?;
    for _ in 0..64 {
        put(9, 0, 1, b"", &mut out)?;
    }
    Ok(out)
}

// A header block of 65,537 bytes.
fn many_bytes(alloc: Global) -> Result<Vec<u8>, AllocError> {
    let part = Vec::from_elem(alloc, 0x83, 16_384)?;
    let mut out = Vec::new(alloc);
    put(1, 0, 1, part.as_slice(), &mut out)?;
    for _ in 0..3 {
        put(9, 0, 1, part.as_slice(), &mut out)?;
    }
    put(9, 0, 1, b"\x83", &mut out)?;
    Ok(out)
}

// A header list of 65,575 bytes.
fn long_list(alloc: Global) -> Result<Vec<u8>, AllocError> {
    let part = Vec::from_elem(alloc, 0x83, 1_525)?;
    let mut out = Vec::new(alloc);
    put(1, 4, 1, part.as_slice(), &mut out)?;
    Ok(out)
}

// So many streams that are begun and at once reset.
fn cut_requests(alloc: Global, count: u32) -> Result<Vec<u8>, AllocError> {
    let mut out = Vec::new(alloc);
    for i in 0..count {
        let stream = i.wrapping_mul(2).wrapping_add(1);
        put(1, 4, stream, b"\x83\x86\x84", &mut out)?;
        put(3, 0, stream, b"\x00\x00\x00\x08", &mut out)?;
    }
    Ok(out)
}

#[test]
fn a_counted_limit_ends_the_connection(rt: HostRuntime) -> Result<(), Fail> {
    let alloc = rt.alloc();
    let frames = many_frames(alloc)?;
    let bytes = many_bytes(alloc)?;
    let list = long_list(alloc)?;
    let mut is_right = says(alloc, &[FROM_CLIENT, frames.as_slice()])? == (1002, 0);
    is_right &= says(alloc, &[FROM_CLIENT, bytes.as_slice()])? == (1001, 0);
    is_right &= says(alloc, &[FROM_CLIENT, list.as_slice()])? == (1003, 0);
    let allowed = cut_requests(alloc, 1_000)?;
    let passed = cut_requests(alloc, 1_001)?;
    is_right &= says(alloc, &[FROM_CLIENT, allowed.as_slice()])? == (1000, 0);
    is_right &= says(alloc, &[FROM_CLIENT, passed.as_slice()])? == (1004, 0);
    assert!(rt; is_right);
    Ok(())
}
