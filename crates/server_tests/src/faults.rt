//! A link whose reading or writing fails.
use crate::cut::call;
use crate::served::{End, serve};
use rig_io::LinkStep;
use std::alloc::{AllocError, Global};
use std::sync::Wait;
use std::test::Fail;

// The call is read, so many bytes are written, and then writing fails.
fn fails_behind(alloc: Global, size: usize) -> Result<Vec<LinkStep>, AllocError> {
    let mut steps = Vec::new(alloc);
    steps.push(LinkStep::Upto(1_000))?;
    if size > 0 {
        steps.push(LinkStep::Upto(size))?;
    }
    steps.push(LinkStep::Fail)?;
    Ok(steps)
}

fn is_read_fault<R: Wait>(rt: &R, alloc: Global) -> Result<bool, Fail> {
    let bytes = call(alloc)?;
    let mut steps = Vec::new(alloc);
    steps.push(LinkStep::Fail)?;
    let (end, _) = serve(rt, alloc, steps, bytes.as_slice())?;
    Ok(end == End::ReadFault)
}

#[test]
fn a_link_whose_reading_fails_is_a_read_fault(rt: HostRuntime) -> Result<(), Fail> {
    let is_right = is_read_fault(&rt, rt.alloc())?;
    assert!(rt; is_right);
    Ok(())
}

// Whether so many bytes are written of these, and the failure is told.
fn is_write_fault<R: Wait>(
    rt: &R,
    alloc: Global,
    bytes: &[u8],
    written: &[u8],
    size: usize,
) -> Result<bool, Fail> {
    let plan = fails_behind(alloc, size)?;
    let (end, link) = serve(rt, alloc, plan, bytes)?;
    Ok(end == End::WriteFault && link.sent().len() == size && written.starts_with(link.sent()))
}

fn are_write_faults<R: Wait>(rt: &R, alloc: Global) -> Result<bool, Fail> {
    let bytes = call(alloc)?;
    let (end, whole) = serve(rt, alloc, Vec::new(alloc), bytes.as_slice())?;
    let written = whole.sent();
    let mut is_right = end == End::Served && written.len() == 220;
    for size in 0..220usize {
        is_right &= is_write_fault(rt, alloc, bytes.as_slice(), written, size)?;
    }
    Ok(is_right)
}

#[test]
fn what_is_sent_before_writing_fails_is_a_first_part(rt: HostRuntime) -> Result<(), Fail> {
    let is_right = are_write_faults(&rt, rt.alloc())?;
    assert!(rt; is_right);
    Ok(())
}
