use bytes::Bytes;
use h2_frames::{ErrorCode, FrameNext, FrameReader, write_frame};
use std::alloc::{AllocError, Global};
use std::test::Fail;

const PREFACE: &[u8] = b"PRI * HTTP/2.0\r\n\r\nSM\r\n\r\n";

// An empty SETTINGS, a frame of type 10 with two bytes, and a PING acknowledgement on which the
// reserved bit is set.
const FRAMES: &[u8] = b"\x00\x00\x00\x04\x00\x00\x00\x00\x00\
    \x00\x00\x02\x0a\x05\x00\x00\x00\x07ab\
    \x00\x00\x08\x06\x01\x80\x00\x00\x00\x01\x02\x03\x04\x05\x06\x07\x08";

// The same with that bit cleared.
const WRITTEN: &[u8] = b"\x00\x00\x00\x04\x00\x00\x00\x00\x00\
    \x00\x00\x02\x0a\x05\x00\x00\x00\x07ab\
    \x00\x00\x08\x06\x01\x00\x00\x00\x00\x01\x02\x03\x04\x05\x06\x07\x08";

fn copy_frame(next: &FrameNext, text: &mut Vec<u8>) -> Result<(), AllocError> {
    match next {
        FrameNext::Frame(frame) => write_frame(frame, text),
        _ => Ok(()),
    }
}

// Writes a frame that a reader gives, if it does.
fn copy_next(reader: &mut FrameReader, text: &mut Vec<u8>) -> Result<(), AllocError> {
    let next = reader.next();
    copy_frame(&next, text)
}

// Writes the frames, three at most, that a reader gives behind one more piece.
fn copy_frames(
    reader: &mut FrameReader,
    piece: Bytes,
    text: &mut Vec<u8>,
) -> Result<(), AllocError> {
    reader.feed(piece)?;
    for _ in 0..4u8 {
        copy_next(reader, text)?;
    }
    Ok(())
}

// What is written of a client's bytes that come in two pieces.
fn copied(alloc: Global, first: Bytes, second: Bytes) -> Result<Vec<u8>, AllocError> {
    let mut reader = FrameReader::new(alloc, true)?;
    let mut text = Vec::new(alloc);
    copy_frames(&mut reader, first, &mut text)?;
    copy_frames(&mut reader, second, &mut text)?;
    Ok(text)
}

fn is_copied(alloc: Global, bytes: &Bytes, cut: usize) -> Result<bool, AllocError> {
    let mut first = bytes.clone()?;
    if cut > first.len() {
        return Ok(false);
    }
    let second = first.split_off(cut)?;
    Ok(copied(alloc, first, second)?.as_slice() == WRITTEN)
}

fn are_copied(alloc: Global) -> Result<bool, AllocError> {
    let mut bytes = Vec::from_slice(alloc, PREFACE)?;
    bytes.extend_from_slice(FRAMES)?;
    let bytes = Bytes::from_vec(bytes)?;
    let mut is_right = true;
    for cut in 0..62usize {
        is_right &= is_copied(alloc, &bytes, cut)?;
    }
    Ok(is_right)
}

#[test]
fn frames_cut_at_every_byte(rt: HostRuntime) -> Result<(), Fail> {
    assert!(rt; are_copied(rt.alloc())?);
    Ok(())
}

// Whether the preface is due, and what is refused: the code, and the place.
const REFUSALS: &[(bool, &[u8], ErrorCode, u64)] = &[
    (true, b"PRI * HTTP/1.1", ErrorCode::PROTOCOL_ERROR, 0),
    (
        true,
        b"PRI * HTTP/2.0\r\n\r\nSM\r\n\r\n\x01\x00\x00\x00\x00\x00\x00\x00\x00",
        ErrorCode::FRAME_SIZE_ERROR,
        24,
    ),
    (
        false,
        b"\x00\x40\x01\x00\x00\x00\x00\x00\x01",
        ErrorCode::FRAME_SIZE_ERROR,
        0,
    ),
];

fn refusal(next: &FrameNext) -> Option<(ErrorCode, u64)> {
    match next {
        FrameNext::Refused(code, place) => Some((*code, *place)),
        _ => None,
    }
}

// What a reader says behind one more piece, and whether it is between frames.
fn says(
    reader: &mut FrameReader,
    piece: &'static [u8],
) -> Result<(Option<(ErrorCode, u64)>, bool), AllocError> {
    reader.feed(Bytes::from_static(piece))?;
    let said = refusal(&reader.next());
    Ok((said, reader.is_between()))
}

fn refuses(
    alloc: Global,
    preface: bool,
    bytes: &'static [u8],
    told: (ErrorCode, u64),
) -> Result<bool, AllocError> {
    let mut reader = FrameReader::new(alloc, preface)?;
    let first = says(&mut reader, bytes)?;
    let second = says(&mut reader, b"xyz")?;
    Ok(first == (Some(told), false) && second == (Some(told), false))
}

#[test]
fn frames_are_refused_for_good(rt: HostRuntime) -> Result<(), Fail> {
    for (preface, bytes, code, place) in REFUSALS {
        assert!(rt; refuses(rt.alloc(), *preface, bytes, (*code, *place))?);
    }
    Ok(())
}

fn is_greeted(alloc: Global) -> Result<bool, AllocError> {
    let mut reader = FrameReader::new(alloc, true)?;
    let first = says(&mut reader, b"PRI * HTTP")?;
    let second = says(&mut reader, b"/2.0\r\n\r\nSM\r\n\r\n")?;
    Ok(first == (None, false) && second == (None, true))
}

#[test]
fn a_preface_in_two_pieces(rt: HostRuntime) -> Result<(), Fail> {
    assert!(rt; is_greeted(rt.alloc())?);
    Ok(())
}
