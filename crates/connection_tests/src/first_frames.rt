ghost use Rattle.std.specs.Prelude.{◌≤◌, sum_by, IfOk};
ghost use Rattle.hpack_tables.specs.EntrySizes.{size_of};

use bytes::Bytes;
use h2_conn::H2Conn;
use h2_exchange::{H2Limits, Role};
use hpack_tables::{Fields, HeaderDecoder};
use http_connection::{H2Event, HttpConnection};
use std::alloc::{AllocError, Global};
use std::test::Fail;

/// The limits of the program.
pub const LIMITS: H2Limits = H2Limits {
    streams: 100,
    window: 1_048_576,
    list: 65_536,
};

/// A client's first bytes: the preface, and SETTINGS without a setting.
pub const FROM_CLIENT: &[u8] =
    b"PRI * HTTP/2.0\r\n\r\nSM\r\n\r\n\x00\x00\x00\x04\x00\x00\x00\x00\x00";

/// A request's head on stream 1: `:method` POST, `:scheme` http, `:path` /, and no end.
pub const REQUEST_HEAD: &[u8] = b"\x00\x00\x03\x01\x04\x00\x00\x00\x01\x83\x86\x84";

const SERVER_FIRST: &[u8] =
    b"\x00\x00\x12\x04\x00\x00\x00\x00\x00\x00\x03\x00\x00\x00\x64\x00\x04\x00\x10\x00\x00\x00\x06\x00\x01\x00\x00\x00\x00\x04\x08\x00\x00\x00\
    \x00\x00\x00\x0f\x00\x01";

const CLIENT_FIRST: &[u8] =
    b"PRI * HTTP/2.0\r\n\r\nSM\r\n\r\n\x00\x00\x0c\x04\x00\x00\x00\x00\x00\x00\x02\x00\x00\x00\x00\x00\x04\x00\x10\x00\x00\x00\x00\x04\x08\x00\
    \x00\x00\x00\x00\x00\x0f\x00\x01";

const ACKNOWLEDGED: &[u8] = b"\x00\x00\x00\x04\x01\x00\x00\x00\x00";

// `:status` 200, `content-type` application/grpc.
const HEAD: &[u8] =
    b"\x88\x0f\x10\x10\x61\x70\x70\x6c\x69\x63\x61\x74\x69\x6f\x6e\x2f\x67\x72\x70\x63";

const HEAD_SENT: &[u8] =
    b"\x00\x00\x14\x01\x04\x00\x00\x00\x01\x88\x0f\x10\x10\x61\x70\x70\x6c\x69\x63\x61\x74\x69\x6f\x6e\x2f\x67\x72\x70\x63";

// `grpc-status` 0.
const TRAILERS: &[u8] = b"\x00\x0b\x67\x72\x70\x63\x2d\x73\x74\x61\x74\x75\x73\x01\x30";

const TRAILERS_SENT: &[u8] =
    b"\x00\x00\x0f\x01\x05\x00\x00\x00\x01\x00\x0b\x67\x72\x70\x63\x2d\x73\x74\x61\x74\x75\x73\x01\x30";

/// Lets all that waits be sent.
pub fn sends_all<C: HttpConnection>(conn: &mut C, wanted: &[u8]) -> bool {
    let is_it = conn.out() == wanted;
    let size = conn.out().len();
    conn.drop_out(size);
    is_it
}

/// Feeds bytes, and lets each event of them go; whether more is wanted then.
pub fn takes<C: HttpConnection>(conn: &mut C, piece: &'static [u8]) -> Result<bool, AllocError> {
    match http_connection::drain(conn, Bytes::from_static(piece))? {
        H2Event::NeedMore => Ok(true),
        _ => Ok(false),
    }
}

fn fields_of(alloc: Global, block: &[u8]) -> Result<Fields, AllocError>
    ensures { IfOk result (λ fields. sum_by size_of fields ≤ 65536) }
{
    let mut decoder = HeaderDecoder::new(alloc, 4096)?;
    match decoder.block(block) {
        Ok(fields) => Ok(fields),
        Err(_) => Err(AllocError),
    }
}

/// A server whose client has begun stream 1. What it sent so far is let go.
pub fn serves(alloc: Global) -> Result<H2Conn, AllocError> {
    let mut conn = H2Conn::new(alloc, Role::Server, LIMITS)?;
    takes(&mut conn, FROM_CLIENT)?;
    takes(&mut conn, REQUEST_HEAD)?;
    let size = conn.out().len();
    conn.drop_out(size);
    Ok(conn)
}

fn answers(alloc: Global) -> Result<bool, AllocError> {
    let mut conn = H2Conn::new(alloc, Role::Server, LIMITS)?;
    let mut is_right = sends_all(&mut conn, SERVER_FIRST);
    is_right &= takes(&mut conn, FROM_CLIENT)? && sends_all(&mut conn, ACKNOWLEDGED);
    is_right &= takes(&mut conn, REQUEST_HEAD)? && conn.is_open(1);
    let head = fields_of(alloc, HEAD)?;
    let trailers = fields_of(alloc, TRAILERS)?;
    is_right &= conn.send_head(1, &head, false) == Ok(()) && sends_all(&mut conn, HEAD_SENT);
    is_right &= conn.send_trailers(1, &trailers) == Ok(());
    Ok(is_right && sends_all(&mut conn, TRAILERS_SENT) && !conn.is_open(1))
}

#[test]
fn a_server_sends_its_first_frames_a_head_and_trailers(rt: HostRuntime) -> Result<(), Fail> {
    assert!(rt; answers(rt.alloc())?);
    Ok(())
}

#[test]
fn a_client_sends_its_first_frames(rt: HostRuntime) -> Result<(), Fail> {
    let mut conn = H2Conn::new(rt.alloc(), Role::Client, LIMITS)?;
    assert!(rt; sends_all(&mut conn, CLIENT_FIRST));
    Ok(())
}
