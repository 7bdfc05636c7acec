//! Answers that are longer than one message.
ghost use Rattle.table_lock.specs.Passes.{IsPassOf};

use crate::connection::{OneConnection, connect_with};
use bytes::Bytes;
use grpc_heads::Method;
use session_engine::Step;
use std::alloc::{AllocError, Global};
use std::sync::Wait;
use std::test::Fail;

const METHODS: &[Method; 3] = &[Method::Modify, Method::Get, Method::Get];

// Parameters with results of the forwarding table, and the election id 7.
const ASKS: &[u8] = b"\x12\x06\x08\x01\x10\x01\x18\x01\x1a\x02\x10\x07";

// The ADD of so many next hops, from 1 on.
fn adds(alloc: Global, count: u8) -> Result<Bytes, AllocError> {
    let mut bytes = Vec::new(alloc);
    for index in 0..count {
        let id = index.wrapping_add(1);
        bytes.extend_from_slice(&[0x0a, 0x17, 8, id, 0x12, 7])?;
        bytes.extend_from_slice(b"DEFAULT\x18\x01\x42\x04")?;
        bytes.extend_from_slice(&[8, id, 0x12, 0, 0x5a, 2, 0x10, 7])?;
    }
    match Bytes::from_vec(bytes) {
        Ok(bytes) => Ok(bytes),
        Err(_) => Err(AllocError),
    }
}

// The entries of a message for these next hops, which the forwarding table has.
fn rows(alloc: Global, first: u8, behind: u8) -> Result<Vec<u8>, AllocError> {
    let mut bytes = Vec::new(alloc);
    for id in first..behind {
        bytes.extend_from_slice(b"\x0a\x13\x0a\x07DEFAULT\x32\x04\x08")?;
        bytes.extend_from_slice(&[id, 0x12, 0, 0x38, 1, 0x40, 1])?;
    }
    Ok(bytes)
}

// Results of the forwarding table for these operations.
fn results(bytes: &mut Vec<u8>, first: u8, behind: u8) -> Result<(), AllocError> {
    for id in first..behind {
        bytes.extend_from_slice(&[0x0a, 6, 8, id, 0x10, 4, 0x18, 9])?;
    }
    Ok(())
}

// Whether a step has so many messages and no end.
fn has(step: Option<Step>, count: usize) -> bool {
    match step {
        None => false,
        Some(step) => step.end.is_none() & (step.answers.into_vec().len() == count),
    }
}

// Whether a step has this one message, and an end or none.
fn is(step: Option<Step>, bytes: &[u8], is_last: bool) -> bool {
    match step {
        None => false,
        Some(step) => {
            let is_end = step.end.is_some() == is_last;
            let answers = step.answers.into_vec();
            match answers.as_slice() {
                [answer] => is_end & (answer.as_slice() == bytes),
                _ => false,
            }
        }
    }
}

// Adds so many next hops, and has the worker program each.
fn are_programmed<R: Wait>(
    rt: &R,
    alloc: Global,
    one: &mut OneConnection,
    count: u8,
) -> Result<bool, AllocError>
    requires { IsPassOf one.old.lock one.old.pass }
    ensures { IsPassOf one.new.lock one.new.pass }
{
    let message = adds(alloc, count)?;
    let mut is_right = has(one.request(rt, 1, message), usize::from(count));
    for _ in 0..count {
        is_right &= one.work(rt);
    }
    Ok(is_right)
}

// 65 rows are given as 64 and one.
fn is_given_in_two<R: Wait>(rt: &R, alloc: Global) -> Result<bool, Fail> {
    let mut one = connect_with(rt, alloc, METHODS)?;
    let mut is_right = has(one.request(rt, 1, Bytes::from_static(ASKS)), 2);
    is_right &= are_programmed(rt, alloc, &mut one, 65)?;
    is_right &= has(
        one.request(rt, 3, Bytes::from_static(b"\x12\x00\x18\x01")),
        0,
    );
    is_right &= has(one.finish(rt, 3), 0);
    let first = rows(alloc, 1, 65)?;
    is_right &= is(Some(one.more(3)), first.as_slice(), false);
    let last = rows(alloc, 65, 66)?;
    is_right &= is(Some(one.more(3)), last.as_slice(), true);
    Ok(is_right)
}

#[test]
fn a_get_is_given_responses_of_64_rows(rt: HostRuntime) -> Result<(), Fail> {
    let is_right = is_given_in_two(&rt, rt.alloc())?;
    assert!(rt; is_right);
    Ok(())
}

// 300 results are given as 256 and 44.
fn is_collected_in_two<R: Wait>(rt: &R, alloc: Global) -> Result<bool, Fail> {
    let mut one = connect_with(rt, alloc, METHODS)?;
    let mut is_right = has(one.request(rt, 1, Bytes::from_static(ASKS)), 2);
    is_right &= are_programmed(rt, alloc, &mut one, 100)?;
    is_right &= are_programmed(rt, alloc, &mut one, 100)?;
    is_right &= are_programmed(rt, alloc, &mut one, 100)?;
    is_right &= has(one.finish(rt, 1), 0);
    let mut first = Vec::new(alloc);
    results(&mut first, 1, 101)?;
    results(&mut first, 1, 101)?;
    results(&mut first, 1, 57)?;
    is_right &= is(one.collect(rt, 1), first.as_slice(), false);
    let mut last = Vec::new(alloc);
    results(&mut last, 57, 101)?;
    is_right &= is(one.collect(rt, 1), last.as_slice(), true);
    Ok(is_right)
}

#[test]
fn results_are_collected_256_at_a_time(rt: HostRuntime) -> Result<(), Fail> {
    let is_right = is_collected_in_two(&rt, rt.alloc())?;
    assert!(rt; is_right);
    Ok(())
}
