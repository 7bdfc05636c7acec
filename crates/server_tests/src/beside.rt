//! A Modify call that awaits results of the forwarding table, with a worker beside it.
ghost use Rattle.table_lock.specs.Passes.{IsPassOf};

use crate::frames::{HEAD, data_of, first, put, put_message};
use crate::served::{End, ONE, setting};
use crate::turned::{Beside, Turned, connect};
use aft_entries::MemDevice;
use call_answers::Setting;
use rib_core::RibCore;
use rig_io::{LinkStep, MemLink, StepClock};
use std::alloc::{AllocError, Global};
use std::sync::Wait;
use std::test::Fail;
use table_lock::TableLock;

// Session parameters that ask for results of the forwarding table, an election id, and the ADD of next hop 1.
const PARAMETERS: &[u8] = b"\x12\x06\x08\x01\x10\x01\x18\x01";

const ELECTION: &[u8] = b"\x1a\x02\x10\x01";

const ADD: &[u8] =
    b"\x0a\x17\x08\x01\x12\x07DEFAULT\x18\x01\x42\x04\x08\x01\x12\x00\x5a\x02\x10\x01";

fn call(alloc: Global) -> Result<Vec<u8>, AllocError> {
    let mut out = first(alloc)?;
    put(1, 4, 1, HEAD, &mut out)?;
    put_message(alloc, 0, 1, PARAMETERS, &mut out)?;
    put_message(alloc, 0, 1, ELECTION, &mut out)?;
    put_message(alloc, 1, 1, ADD, &mut out)?;
    Ok(out)
}

// The messages that it is answered with. The worker's clock stands at its last moment, so that is when the job was done.
const MESSAGES: &[u8] = b"\x00\x00\x00\x00\x04\x12\x02\x08\x01\
    \x00\x00\x00\x00\x04\x1a\x02\x10\x01\x00\x00\x00\x00\x08\x0a\x06\x08\x01\x10\x03\x18\x05\
    \x00\x00\x00\x00\x10\x0a\x0e\x08\x01\x10\x04\x18\xff\xff\xff\xff\xff\xff\xff\xff\x7f";

// More turns than any of these connections has.
const MOST: u32 = 2_000;

// Turns of the connection, with a step of the worker behind each, until the connection ends.
fn turns<R: Wait>(
    rt: &R,
    lock: &TableLock<RibCore>,
    setting: &Setting,
    served: &mut Turned,
    worker: &mut Beside,
) -> Option<End>
    requires { IsPassOf lock.now served.old.pass × IsPassOf lock.now worker.old.pass }
{
    'turns: for _ in 0..MOST {
        if let Some(end) = served.turn(rt, lock, setting) {
            return Some(end);
        }
        worker.step(rt, lock);
    }
    None
}

// A link of this plan, by which the call comes.
fn link_of(alloc: Global, plan: Vec<LinkStep>) -> Result<MemLink, AllocError> {
    let bytes = call(alloc)?;
    let mut link = MemLink::new(alloc, plan);
    link.feed(bytes.as_slice())?;
    link.end_input();
    Ok(link)
}

// Serves the call over a link of this plan: whether its answers are the messages, its end is good and the device has the entry.
fn is_served<R: Wait>(rt: &R, alloc: Global, plan: Vec<LinkStep>) -> Result<bool, Fail> {
    let setting = setting(alloc)?;
    let link = link_of(alloc, plan)?;
    let (lock, mut root) = TableLock::new(alloc, RibCore::new(alloc, ONE)?)?;
    let mut worker = Beside {
        pass: lock.split(&mut root),
        device: MemDevice::new(alloc, Vec::new(alloc)),
        clock: StepClock::new(i64::MAX),
    };
    let mut served = connect(alloc, link, root)?;
    let end = turns(rt, &lock, &setting, &mut served, &mut worker);
    let data = data_of(alloc, served.link.sent())?;
    Ok(
        end == Some(End::Served)
            && data.as_slice() == MESSAGES
            && served.link.sent().ends_with(b"\x00\x0bgrpc-status\x010")
            && worker.device.contents().len() == 1,
    )
}

fn is_served_uncut<R: Wait>(rt: &R, alloc: Global) -> Result<bool, Fail> {
    is_served(rt, alloc, Vec::new(alloc))
}

#[test]
fn a_call_gets_results_of_the_forwarding_table(rt: HostRuntime) -> Result<(), Fail> {
    let is_right = is_served_uncut(&rt, rt.alloc())?;
    assert!(rt; is_right);
    Ok(())
}

// So many bytes are read, and then the link isn't ready.
fn cut_at(alloc: Global, size: usize) -> Result<Vec<LinkStep>, AllocError> {
    let mut steps = Vec::new(alloc);
    steps.push(LinkStep::Upto(size))?;
    steps.push(LinkStep::NotReady)?;
    steps.push(LinkStep::NotReady)?;
    Ok(steps)
}

// Whether it is the same where its bytes are cut at each place.
fn are_same<R: Wait>(rt: &R, alloc: Global) -> Result<bool, Fail> {
    let mut is_right = true;
    for size in 0..181usize {
        is_right &= is_served(rt, alloc, cut_at(alloc, size)?)?;
    }
    Ok(is_right)
}

#[test]
fn a_cut_changes_no_message(rt: HostRuntime) -> Result<(), Fail> {
    let is_right = are_same(&rt, rt.alloc())?;
    assert!(rt; is_right);
    Ok(())
}

// Each call of the link passes one byte, and between two it isn't ready.
fn byte_by_byte(alloc: Global) -> Result<Vec<LinkStep>, AllocError> {
    let mut steps = Vec::new(alloc);
    for _ in 0..1_000u32 {
        steps.push(LinkStep::Upto(1))?;
        steps.push(LinkStep::NotReady)?;
    }
    Ok(steps)
}

fn is_served_by_bytes<R: Wait>(rt: &R, alloc: Global) -> Result<bool, Fail> {
    let plan = byte_by_byte(alloc)?;
    is_served(rt, alloc, plan)
}

#[test]
fn bytes_that_come_and_go_alone_change_no_message(rt: HostRuntime) -> Result<(), Fail> {
    let is_right = is_served_by_bytes(&rt, rt.alloc())?;
    assert!(rt; is_right);
    Ok(())
}
