//! Clients that add a next hop each and await the results, and what they are answered.
use rig_io::{LinkStep, MemLink};
use std::alloc::{AllocError, Global};

// The preface and SETTINGS, the head of a Modify call, session parameters that ask for results of the forwarding table, the
// election id 1, and the ADD of a next hop, up to its id.
const BEGINS: &[u8] = b"PRI * HTTP/2.0\r\n\r\nSM\r\n\r\n\x00\x00\x00\x04\x00\x00\x00\x00\x00\
    \x00\x00\x3c\x01\x04\x00\x00\x00\x01\x83\x86\x00\x05:path\x13/gribi.gRIBI/Modify\x00\x0ccontent-type\x10application/grpc\
    \x00\x00\x0d\x00\x00\x00\x00\x00\x01\x00\x00\x00\x00\x08\x12\x06\x08\x01\x10\x01\x18\x01\
    \x00\x00\x09\x00\x00\x00\x00\x00\x01\x00\x00\x00\x00\x04\x1a\x02\x10\x01\
    \x00\x00\x1e\x00\x01\x00\x00\x00\x01\x00\x00\x00\x00\x19\x0a\x17\x08";

// From there to its index, and to the end of the call.
const GOES_ON: &[u8] = b"\x12\x07DEFAULT\x18\x01\x42\x04\x08";

const ENDS: &[u8] = b"\x12\x00\x5a\x02\x10\x01";

/// How many bytes a client sends.
pub(crate) const SENT: usize = 181;

// The answers to the parameters and to the election.
const ANSWERED: &[u8] = b"\x00\x00\x00\x00\x04\x12\x02\x08\x01\x00\x00\x00\x00\x04\x1a\x02\x10\x01";

// Results: in the table at the third moment of the connection's clock, and in the forwarding table at a worker's last moment.
const IN_TABLE: &[u8] = b"\x10\x03\x18\x05";

const FORWARDED: &[u8] = b"\x10\x04\x18\xff\xff\xff\xff\xff\xff\xff\xff\x7f";

const GOOD_END: &[u8] = b"\x00\x0bgrpc-status\x010";

/// A link of this plan, by which a client adds the next hop of this number, by an operation of the same number.
pub(crate) fn client(
    alloc: Global,
    number: u8,
    plan: Vec<LinkStep>,
) -> Result<MemLink, AllocError> {
    let mut link = MemLink::new(alloc, plan);
    link.feed(BEGINS)?;
    link.feed(&[number])?;
    link.feed(GOES_ON)?;
    link.feed(&[number])?;
    link.feed(ENDS)?;
    link.end_input();
    Ok(link)
}

// The messages that it is answered with.
fn messages(alloc: Global, number: u8) -> Result<Vec<u8>, AllocError> {
    let mut out = Vec::from_slice(alloc, ANSWERED)?;
    out.extend_from_slice(&[0, 0, 0, 0, 8, 10, 6, 8, number])?;
    out.extend_from_slice(IN_TABLE)?;
    out.extend_from_slice(&[0, 0, 0, 0, 16, 10, 14, 8, number])?;
    out.extend_from_slice(FORWARDED)?;
    Ok(out)
}

// The type and the payload of the first frame, and what stands behind it.
fn cut_frame(frames: &[u8]) -> Option<(u8, &[u8], &[u8])> {
    let [a, b, c, number, _, _, _, _, _, rest @ ..] = frames else {
        return None;
    };
    let size = u32::from_be_bytes([0, *a, *b, *c]) as usize;
    let (payload, behind) = rest.split_at_checked(size)?;
    Some((*number, payload, behind))
}

// The DATA among these frames.
fn data_of(alloc: Global, frames: &[u8]) -> Result<Vec<u8>, AllocError> {
    let mut out = Vec::new(alloc);
    let mut rest = frames;
    'frames: for _ in 0..frames.len() {
        let Some((number, payload, behind)) = cut_frame(rest) else {
            return Ok(out);
        };
        if number == 0 {
            out.extend_from_slice(payload)?;
        }
        rest = behind;
    }
    Ok(out)
}

// Whether the client of this link got the answers to that next hop.
fn is_answered(alloc: Global, link: &MemLink, number: u8) -> Result<bool, AllocError> {
    let data = data_of(alloc, link.sent())?;
    let wanted = messages(alloc, number)?;
    Ok(link.left() == 0 && link.sent().ends_with(GOOD_END) && data.as_slice() == wanted.as_slice())
}

/// How many of these links' clients got the answers to that next hop.
pub(crate) fn answered(alloc: Global, links: &[MemLink], number: u8) -> Result<u64, AllocError> {
    let mut count = 0u64;
    for link in links {
        if is_answered(alloc, link, number)? {
            count = count.wrapping_add(1);
        }
    }
    Ok(count)
}

/// How many of these links are as they were, with nothing read and nothing written.
pub(crate) fn unread(links: &[MemLink]) -> u64 {
    let mut count = 0u64;
    for link in links {
        if link.left() == SENT && link.sent().is_empty() {
            count = count.wrapping_add(1);
        }
    }
    count
}
