use bytes::Bytes;
use grpc_framing::{Cut, Front, MessageCutter, front_of};
use std::alloc::{AllocError, Global};
use std::test::Fail;

// What messages of three bytes at most begin with.
const FRONTS: &[(&[u8], Front)] = &[
    (b"", Front::NeedMore),
    (b"\x00\x00\x00\x00", Front::NeedMore),
    (b"\x00\x00\x00\x00\x00", Front::Message(0)),
    (b"\x00\x00\x00\x00\x02a", Front::NeedMore),
    (b"\x00\x00\x00\x00\x02abc", Front::Message(2)),
    (b"\x00\x00\x00\x00\x03abc", Front::Message(3)),
    (b"\x00\x00\x00\x00\x04", Front::TooLong),
    (b"\x00\xff\x00\x00\x00abcde", Front::TooLong),
    (b"\x02\xff\xff\xff\xff", Front::Compressed),
];

#[test]
fn fronts_are_told_by_flag_and_length(rt: HostRuntime) {
    assert!(rt;
        FRONTS
            .iter()
            .all(|(bytes, front)| front_of(3, bytes) == *front)
    );
}

// Pieces of one stream, and behind each a message, or a number in its place.
const PIECES: &[(&[u8], u8, &[u8])] = &[
    (b"\x00\x00", 1, b""),
    (b"\x00\x00\x02a", 1, b""),
    (b"b\x00\x00\x00\x00\x00\x00", 0, b"ab"),
    (b"", 0, b""),
    (b"\x00\x00\x00\x01c", 0, b"c"),
    (b"", 1, b""),
    (b"\x00\x00\x00\x00\x04abcd", 3, b""),
    (b"\x00\x00\x00\x00\x00", 3, b""),
];

fn is_told(cut: &Cut, kind: u8, text: &[u8]) -> bool {
    match cut {
        Cut::Message(message) => kind == 0 && message.as_slice() == text,
        Cut::NeedMore => kind == 1,
        Cut::Compressed => kind == 2,
        Cut::TooLong => kind == 3,
        Cut::NoMemory => kind == 4,
    }
}

fn cuts(alloc: Global) -> Result<bool, AllocError> {
    let mut cutter = MessageCutter::new(alloc, 3);
    let mut is_right = cutter.is_between();
    for (piece, kind, text) in PIECES {
        cutter.feed(Bytes::copy_from_slice(alloc, piece)?)?;
        is_right &= is_told(&cutter.next(), *kind, text);
    }
    Ok(is_right && !cutter.is_between())
}

#[test]
fn pieces_are_cut_into_messages(rt: HostRuntime) -> Result<(), Fail> {
    assert!(rt; cuts(rt.alloc())?);
    Ok(())
}
