use crate::first_frames::{serves, takes};
use h2_conn::H2Conn;
use h2_exchange::SendFault;
use http_connection::HttpConnection;
use std::alloc::{AllocError, Global};
use std::test::Fail;

// INITIAL_WINDOW_SIZE lowered to 65,505.
const LOWERED: &[u8] = b"\x00\x00\x06\x04\x00\x00\x00\x00\x00\x00\x04\x00\x00\xff\xe1";

// WINDOW_UPDATE of 100 for the connection, and of 25 for stream 1.
const RAISED: &[u8] =
    b"\x00\x00\x04\x08\x00\x00\x00\x00\x00\x00\x00\x00\x64\x00\x00\x04\x08\x00\x00\x00\x00\x01\x00\x00\x00\x19";

// Whether 65,525 bytes are placed, in four frames, so that 10 are left of the stream's window.
fn fills(conn: &mut H2Conn, alloc: Global) -> Result<bool, AllocError> {
    let piece = Vec::from_elem(alloc, 7, 16_384)?;
    let mut is_right = conn.send_piece(1, piece.as_slice(), false) == Ok(16_384);
    is_right &= conn.send_piece(1, piece.as_slice(), false) == Ok(16_384);
    is_right &= conn.send_piece(1, piece.as_slice(), false) == Ok(16_384);
    let (most, _) = piece.as_slice().split_at(16_373);
    Ok(is_right & (conn.send_piece(1, most, false) == Ok(16_373)))
}

fn falls_below_zero(alloc: Global) -> Result<bool, AllocError> {
    let mut conn = serves(alloc)?;
    let mut is_right = fills(&mut conn, alloc)?;
    is_right &= takes(&mut conn, LOWERED)?
        && conn.send_piece(1, b"twenty bytes or more", false) == Ok(0);
    is_right &= takes(&mut conn, RAISED)?
        && conn.send_piece(1, b"twenty bytes or more", false) == Ok(5);
    Ok(is_right)
}

#[test]
fn a_window_below_zero_is_raised_again(rt: HostRuntime) -> Result<(), Fail> {
    assert!(rt; falls_below_zero(rt.alloc())?);
    Ok(())
}

fn ends(alloc: Global) -> Result<bool, AllocError> {
    let mut conn = serves(alloc)?;
    let is_sent = conn.send_piece(1, b"abc", true) == Ok(3);
    Ok(is_sent && conn.send_piece(1, b"abc", true) == Err(SendFault::NotOpen))
}

#[test]
fn an_ended_stream_is_not_open(rt: HostRuntime) -> Result<(), Fail> {
    assert!(rt; ends(rt.alloc())?);
    Ok(())
}
