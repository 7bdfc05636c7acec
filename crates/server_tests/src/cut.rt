//! A Modify call, its bytes cut and its link's calls failing or not ready.
use crate::frames::{HEAD, first, put, put_message};
use crate::served::{End, serve};
use rig_io::LinkStep;
use server_turns::DropCause;
use std::alloc::{AllocError, Global};
use std::sync::Wait;
use std::test::Fail;

// Session parameters, an election id, and the ADD of next hop 1.
const PARAMETERS: &[u8] = b"\x12\x04\x08\x01\x10\x01";

const ELECTION: &[u8] = b"\x1a\x02\x10\x01";

const ADD: &[u8] =
    b"\x0a\x17\x08\x01\x12\x07DEFAULT\x18\x01\x42\x04\x08\x01\x12\x00\x5a\x02\x10\x01";

/// The call of a client that sends them one by one, and then ends its side.
pub(crate) fn call(alloc: Global) -> Result<Vec<u8>, AllocError> {
    let mut out = first(alloc)?;
    put(1, 4, 1, HEAD, &mut out)?;
    put_message(alloc, 0, 1, PARAMETERS, &mut out)?;
    put_message(alloc, 0, 1, ELECTION, &mut out)?;
    put_message(alloc, 1, 1, ADD, &mut out)?;
    Ok(out)
}

// What is written behind the first frames and the acknowledgement of SETTINGS: the head, three messages, and the trailers.
const ANSWERED: &[u8] = b"\x00\x00\x14\x01\x04\x00\x00\x00\x01\x88\x0f\x10\x10application/grpc\
    \x00\x00\x1f\x00\x00\x00\x00\x00\x01\x00\x00\x00\x00\x04\x12\x02\x08\x01\
    \x00\x00\x00\x00\x04\x1a\x02\x10\x01\x00\x00\x00\x00\x08\x0a\x06\x08\x01\x10\x03\x18\x05\
    \x00\x00\x0f\x01\x05\x00\x00\x00\x01\x00\x0bgrpc-status\x010";

fn is_answered<R: Wait>(rt: &R, alloc: Global) -> Result<bool, Fail> {
    let bytes = call(alloc)?;
    let (end, link) = serve(rt, alloc, Vec::new(alloc), bytes.as_slice())?;
    Ok(end == End::Served && link.sent().ends_with(ANSWERED))
}

#[test]
fn a_modify_call_is_answered(rt: HostRuntime) -> Result<(), Fail> {
    let is_right = is_answered(&rt, rt.alloc())?;
    assert!(rt; is_right);
    Ok(())
}

// Where frames end: the preface, SETTINGS, the head, and two messages.
const FRAME_ENDS: &[(usize, End)] = &[
    (24, End::Served),
    (33, End::Served),
    (102, End::Dropped(DropCause::OpenCall)),
    (122, End::Dropped(DropCause::OpenCall)),
    (140, End::Dropped(DropCause::OpenCall)),
    (179, End::Served),
];

// How a connection ends whose bytes end there.
fn end_at(size: usize) -> End {
    for (place, end) in FRAME_ENDS {
        if *place == size {
            return *end;
        }
    }
    End::Dropped(DropCause::CutFrame)
}

fn are_cut<R: Wait>(rt: &R, alloc: Global) -> Result<bool, Fail> {
    let bytes = call(alloc)?;
    let mut is_right = bytes.as_slice().len() == 179;
    for size in 0..180usize {
        if let Some(part) = bytes.as_slice().get(..size) {
            let (end, _) = serve(rt, alloc, Vec::new(alloc), part)?;
            is_right &= end == end_at(size);
        }
    }
    Ok(is_right)
}

#[test]
fn bytes_are_cut_at_each_place(rt: HostRuntime) -> Result<(), Fail> {
    let is_right = are_cut(&rt, rt.alloc())?;
    assert!(rt; is_right);
    Ok(())
}

// Calls of so many bytes each, and then this.
fn plan(
    alloc: Global,
    calls: u32,
    most: usize,
    last: LinkStep,
) -> Result<Vec<LinkStep>, AllocError> {
    let mut steps = Vec::new(alloc);
    for _ in 0..calls {
        steps.push(LinkStep::Upto(most))?;
    }
    steps.push(last)?;
    Ok(steps)
}

// Each call of the link passes 64 bytes, and one fails.
fn are_faults<R: Wait>(rt: &R, alloc: Global) -> Result<bool, Fail> {
    let bytes = call(alloc)?;
    let mut is_right = true;
    for calls in 0..8u32 {
        let steps = plan(alloc, calls, 64, LinkStep::Fail)?;
        let (end, _) = serve(rt, alloc, steps, bytes.as_slice())?;
        is_right &= end == End::ReadFault || end == End::WriteFault;
    }
    Ok(is_right)
}

#[test]
fn a_link_that_fails_ends_its_connection(rt: HostRuntime) -> Result<(), Fail> {
    let is_right = are_faults(&rt, rt.alloc())?;
    assert!(rt; is_right);
    Ok(())
}

// A call of the link isn't ready, at each place.
fn are_late<R: Wait>(rt: &R, alloc: Global) -> Result<bool, Fail> {
    let bytes = call(alloc)?;
    let mut is_right = true;
    for calls in 0..12u32 {
        let steps = plan(alloc, calls, 40, LinkStep::NotReady)?;
        let (end, link) = serve(rt, alloc, steps, bytes.as_slice())?;
        let sent = link.sent();
        is_right &= end == End::Served && sent.ends_with(b"\x00\x0bgrpc-status\x010");
    }
    Ok(is_right)
}

#[test]
fn a_link_that_is_not_ready_changes_no_answer(rt: HostRuntime) -> Result<(), Fail> {
    let is_right = are_late(&rt, rt.alloc())?;
    assert!(rt; is_right);
    Ok(())
}
