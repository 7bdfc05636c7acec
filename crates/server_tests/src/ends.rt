//! How a connection ends, by what its client sent.
use crate::frames::{FIRST, HEAD, first, put};
use crate::served::{End, serve};
use h2_exchange::CalmCause;
use server_turns::DropCause;
use std::alloc::{AllocError, Global};
use std::sync::Wait;
use std::test::Fail;

// Bytes that come alone, and how they end.
const ALONE: &[(&[u8], End)] = &[
    (b"", End::Dropped(DropCause::CutFrame)),
    (b"PRI * HTTP", End::Dropped(DropCause::CutFrame)),
    (b"PRI * HTTP/1.1", End::Protocol(1, 0)),
    (
        b"PRI * HTTP/2.0\r\n\r\nSM\r\n\r\n\x00\x00\x08\x06\x00\x00\x00\x00\x00\x00\x00\x00\x00\x00\x00\x00\x00",
        End::Protocol(1, 24),
    ),
];

// What follows the preface and SETTINGS, and how it ends.
const BEHIND_FIRST: &[(&[u8], End)] = &[
    (b"", End::Served),
    // SETTINGS of 5 bytes.
    (
        b"\x00\x00\x05\x04\x00\x00\x00\x00\x00\x00\x00\x00\x00\x00",
        End::Protocol(6, 33),
    ),
    // DATA on a stream that wasn't begun.
    (
        b"\x00\x00\x00\x00\x00\x00\x00\x00\x01",
        End::Protocol(1, 33),
    ),
    // Windows that grow by nothing, and past the largest.
    (
        b"\x00\x00\x04\x08\x00\x00\x00\x00\x00\x00\x00\x00\x00",
        End::Protocol(1, 33),
    ),
    (
        b"\x00\x00\x04\x08\x00\x00\x00\x00\x00\x7f\xff\xff\xff",
        End::Protocol(3, 33),
    ),
    // A block that names the field 0.
    (
        b"\x00\x00\x01\x01\x05\x00\x00\x00\x01\x80",
        End::Protocol(9, 33),
    ),
    // A frame of 16,385 bytes, of a type that nobody knows.
    (
        b"\x00\x40\x01\x0b\x00\x00\x00\x00\x00",
        End::Protocol(6, 33),
    ),
    // CONTINUATION where no block is open, and a PING within one.
    (
        b"\x00\x00\x00\x09\x04\x00\x00\x00\x01",
        End::Protocol(1, 33),
    ),
    (
        b"\x00\x00\x01\x01\x00\x00\x00\x00\x01\x83\x00\x00\x08\x06\x00\x00\x00\x00\x00\x00\x00\x00\x00\x00\x00\x00\x00",
        End::Protocol(1, 43),
    ),
    // More padding than there is.
    (
        b"\x00\x00\x02\x01\x0c\x00\x00\x00\x01\x05\x83",
        End::Protocol(1, 33),
    ),
    // An initial window past the largest.
    (
        b"\x00\x00\x06\x04\x00\x00\x00\x00\x00\x00\x04\x80\x00\x00\x00",
        End::Protocol(3, 33),
    ),
];

// Whether these bytes end so.
fn ends<R: Wait>(rt: &R, alloc: Global, bytes: &[u8], wanted: End) -> Result<bool, Fail> {
    let (end, _) = serve(rt, alloc, Vec::new(alloc), bytes)?;
    Ok(end == wanted)
}

fn all_end<R: Wait>(rt: &R, alloc: Global) -> Result<bool, Fail> {
    let mut is_right = true;
    for (bytes, wanted) in ALONE {
        is_right &= ends(rt, alloc, bytes, *wanted)?;
    }
    for (bytes, wanted) in BEHIND_FIRST {
        let mut all = first(alloc)?;
        all.extend_from_slice(bytes)?;
        is_right &= ends(rt, alloc, all.as_slice(), *wanted)?;
    }
    Ok(is_right)
}

#[test]
fn a_connection_ends_at_the_rule_that_its_client_broke(rt: HostRuntime) -> Result<(), Fail> {
    let is_right = all_end(&rt, rt.alloc())?;
    assert!(rt; is_right);
    Ok(())
}

// A block in more frames than may be.
fn many_frames(alloc: Global) -> Result<Vec<u8>, AllocError> {
    let mut out = first(alloc)?;
    put(1, 0, 1, b"\x83", &mut out)?;
    for _ in 0..64u32 {
        put(9, 0, 1, b"", &mut out)?;
    }
    Ok(out)
}

// A block of more bytes than may be.
fn many_bytes(alloc: Global) -> Result<Vec<u8>, AllocError> {
    let mut out = first(alloc)?;
    let mut part = Vec::new(alloc);
    part.resize(16_384, 0x83)?;
    put(1, 0, 1, part.as_slice(), &mut out)?;
    for _ in 0..3u32 {
        put(9, 0, 1, part.as_slice(), &mut out)?;
    }
    put(9, 0, 1, b"\x83", &mut out)?;
    Ok(out)
}

// A header list that is larger than the server takes.
fn long_list(alloc: Global) -> Result<Vec<u8>, AllocError> {
    let mut out = first(alloc)?;
    let mut block = Vec::new(alloc);
    block.resize(1_525, 0x83)?;
    put(1, 4, 1, block.as_slice(), &mut out)?;
    Ok(out)
}

// So many Modify calls, each reset as it began.
fn resets(alloc: Global, count: u32) -> Result<Vec<u8>, AllocError> {
    let mut out = first(alloc)?;
    for i in 0..count {
        let stream = i.wrapping_mul(2).wrapping_add(1);
        put(1, 4, stream, HEAD, &mut out)?;
        put(3, 0, stream, b"\x00\x00\x00\x08", &mut out)?;
    }
    Ok(out)
}

fn are_calm<R: Wait>(rt: &R, alloc: Global) -> Result<bool, Fail> {
    let frames = many_frames(alloc)?;
    let bytes = many_bytes(alloc)?;
    let list = long_list(alloc)?;
    let mut is_right = ends(
        rt,
        alloc,
        frames.as_slice(),
        End::Calm(CalmCause::HeaderFrames),
    )?;
    is_right &= ends(
        rt,
        alloc,
        bytes.as_slice(),
        End::Calm(CalmCause::HeaderBytes),
    )?;
    is_right &= ends(rt, alloc, list.as_slice(), End::Calm(CalmCause::HeaderList))?;
    Ok(is_right)
}

#[test]
fn a_header_list_past_a_limit_ends_the_connection(rt: HostRuntime) -> Result<(), Fail> {
    let is_right = are_calm(&rt, rt.alloc())?;
    assert!(rt; is_right);
    Ok(())
}

fn are_counted<R: Wait>(rt: &R, alloc: Global) -> Result<bool, Fail> {
    let most = resets(alloc, 1_000)?;
    let more = resets(alloc, 1_001)?;
    let mut is_right = ends(rt, alloc, most.as_slice(), End::Served)?;
    is_right &= ends(rt, alloc, more.as_slice(), End::Calm(CalmCause::Resets))?;
    Ok(is_right)
}

#[test]
fn one_reset_more_than_may_be_ends_the_connection(rt: HostRuntime) -> Result<(), Fail> {
    let is_right = are_counted(&rt, rt.alloc())?;
    assert!(rt; is_right);
    Ok(())
}
