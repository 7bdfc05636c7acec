use crate::fields::shown;
use crate::first_frames::{FROM_CLIENT, LIMITS, takes};
use bytes::Bytes;
use h2_conn::H2Conn;
use h2_exchange::Role;
use http_connection::{H2Event, HttpConnection};
use std::alloc::{AllocError, Global};
use std::test::Fail;

const BLOCK: &[u8] =
    b"\x20\x3f\xe1\x1f\x83\x86\x44\x13\x2f\x67\x72\x69\x62\x69\x2e\x67\x52\x49\x42\x49\x2f\x4d\x6f\x64\x69\x66\x79\x41\x8c\
    \xf1\xe3\xc2\xe5\xf2\x3a\x6b\xa0\xab\x90\xf4\xff\x5f\x10\x61\x70\x70\x6c\x69\x63\x61\x74\x69\x6f\x6e\x2f\x67\x72\x70\x63\x40\x02\x74\x65\x08\
    \x74\x72\x61\x69\x6c\x65\x72\x73";

const FIELDS: &[u8] =
    b":method=POST;:scheme=http;:path=/gribi.gRIBI/Modify;:authority=www.example.com;content-type=application/grpc;te=trailers;";

// A frame on stream 1.
fn frame(alloc: Global, number: u8, flags: u8, payload: &[u8]) -> Result<Bytes, AllocError> {
    let mut text = Vec::new(alloc);
    text.extend_from_slice(&[0, 0, (payload.len() % 256) as u8, number, flags, 0, 0, 0, 1])?;
    text.extend_from_slice(payload)?;
    Bytes::copy_from_slice(alloc, text.as_slice())
}

fn is_head(alloc: Global, event: &H2Event) -> Result<bool, AllocError> {
    match event {
        H2Event::Head(1, fields, false) => Ok(shown(alloc, fields)?.as_slice() == FIELDS),
        _ => Ok(false),
    }
}

fn reads_cut(alloc: Global, at: usize) -> Result<bool, AllocError> {
    let mut conn = H2Conn::new(alloc, Role::Server, LIMITS)?;
    takes(&mut conn, FROM_CLIENT)?;
    let (first, rest) = BLOCK.split_at(at.min(BLOCK.len()));
    conn.feed(frame(alloc, 1, 0, first)?)?;
    conn.feed(frame(alloc, 9, 4, rest)?)?;
    let event = conn.next_event();
    is_head(alloc, &event)
}

#[test]
fn a_block_is_read_wherever_it_is_cut(rt: HostRuntime) -> Result<(), Fail> {
    let mut is_right = true;
    for at in 0..=BLOCK.len() {
        is_right &= reads_cut(rt.alloc(), at)?;
    }
    assert!(rt; is_right);
    Ok(())
}
