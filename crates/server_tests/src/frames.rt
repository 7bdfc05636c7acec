//! Frames of a client.
use std::alloc::{AllocError, Global};

/// A client's preface, and SETTINGS without a setting.
pub(crate) const FIRST: &[u8] =
    b"PRI * HTTP/2.0\r\n\r\nSM\r\n\r\n\x00\x00\x00\x04\x00\x00\x00\x00\x00";

/// The fields of a Modify call's head.
pub(crate) const HEAD: &[u8] =
    b"\x83\x86\x00\x05:path\x13/gribi.gRIBI/Modify\x00\x0ccontent-type\x10application/grpc";

/// Adds a frame of fewer than 65,536 bytes.
pub(crate) fn put(
    number: u8,
    flags: u8,
    stream: u32,
    payload: &[u8],
    out: &mut Vec<u8>,
) -> Result<(), AllocError> {
    let [_, _, _, _, _, _, a, b] = (payload.len() as u64).to_be_bytes();
    let [c, d, e, f] = stream.to_be_bytes();
    out.extend_from_slice(&[0, a, b, number, flags, c, d, e, f])?;
    out.extend_from_slice(payload)
}

/// What a client sends first.
pub(crate) fn first(alloc: Global) -> Result<Vec<u8>, AllocError> {
    Vec::from_slice(alloc, FIRST)
}

/// Adds the DATA of one message of fewer than 256 bytes.
pub(crate) fn put_message(
    alloc: Global,
    flags: u8,
    stream: u32,
    message: &[u8],
    out: &mut Vec<u8>,
) -> Result<(), AllocError> {
    let [_, _, _, _, _, _, _, size] = (message.len() as u64).to_be_bytes();
    let mut framed = Vec::from_slice(alloc, &[0, 0, 0, 0, size])?;
    framed.extend_from_slice(message)?;
    put(0, flags, stream, framed.as_slice(), out)
}

/// The DATA of all streams among these frames.
pub(crate) fn data_of(alloc: Global, frames: &[u8]) -> Result<Vec<u8>, AllocError> {
    let mut out = Vec::new(alloc);
    let mut rest = frames;
    'frames: for _ in 0..frames.len() {
        let Some((number, payload, behind)) = cut_frame(rest) else {
            return Ok(out);
        };
        if number == 0 {
            out.extend_from_slice(payload)?;
        }
        rest = behind;
    }
    Ok(out)
}

// The type and the payload of the first frame, and what stands behind it.
fn cut_frame(frames: &[u8]) -> Option<(u8, &[u8], &[u8])> {
    let [a, b, c, number, _, _, _, _, _, rest @ ..] = frames else {
        return None;
    };
    let size = u32::from_be_bytes([0, *a, *b, *c]) as usize;
    let (payload, behind) = rest.split_at_checked(size)?;
    Some((*number, payload, behind))
}
