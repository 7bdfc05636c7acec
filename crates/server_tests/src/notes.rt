//! Two connections on one table, of which the second learns what the first saw.
use crate::frames::{HEAD, first, put, put_message};
use crate::served::{End, ONE, setting};
use crate::turned::connect;
use rib_core::RibCore;
use rig_io::MemLink;
use std::alloc::{AllocError, Global};
use std::sync::Wait;
use std::test::Fail;
use table_lock::TableLock;

// Session parameters, an election id, and the ADD of next hop 7.
const ADDS: &[u8] = b"\x12\x04\x08\x01\x10\x01\x1a\x02\x10\x01\
    \x0a\x17\x08\x01\x12\x07DEFAULT\x18\x01\x42\x04\x08\x07\x12\x00\x5a\x02\x10\x01";

const PROGRAMMED: &[u8] = b"\x00\x00\x00\x00\x08\x0a\x06\x08\x01\x10\x03\x18\x03";

// A Modify call that goes on.
fn adds(alloc: Global) -> Result<MemLink, AllocError> {
    let mut bytes = first(alloc)?;
    put(1, 4, 1, HEAD, &mut bytes)?;
    put_message(alloc, 0, 1, ADDS, &mut bytes)?;
    let mut link = MemLink::new(alloc, Vec::new(alloc));
    link.feed(bytes.as_slice())?;
    Ok(link)
}

const GET_HEAD: &[u8] =
    b"\x83\x86\x00\x05:path\x10/gribi.gRIBI/Get\x00\x0ccontent-type\x10application/grpc";

const GET: &[u8] = b"\x0a\x07DEFAULT\x18\x01";

// Next hop 7, which the forwarding table hasn't got.
const HOP: &[u8] =
    b"\x00\x00\x00\x00\x15\x0a\x13\x0a\x07DEFAULT\x32\x04\x08\x07\x12\x00\x38\x01\x40\x02\
    \x00\x00\x0f\x01\x05\x00\x00\x00\x01\x00\x0bgrpc-status\x010";

// A Get call of all entries.
fn gets(alloc: Global) -> Result<MemLink, AllocError> {
    let mut bytes = first(alloc)?;
    put(1, 4, 1, GET_HEAD, &mut bytes)?;
    put_message(alloc, 1, 1, GET, &mut bytes)?;
    let mut link = MemLink::new(alloc, Vec::new(alloc));
    link.feed(bytes.as_slice())?;
    link.end_input();
    Ok(link)
}

// The first gets its result; its pass tells a note, and the second, which learns it, shows the entry.
fn is_learned<R: Wait>(rt: &R, alloc: Global) -> Result<bool, Fail> {
    let setting = setting(alloc)?;
    let (lock, mut root) = TableLock::new(alloc, RibCore::new(alloc, ONE)?)?;
    let other = lock.split(&mut root);
    let mut teller = connect(alloc, adds(alloc)?, root)?;
    let mut learner = connect(alloc, gets(alloc)?, other)?;
    let is_over = teller.turns(rt, &lock, &setting, 8).is_some();
    let note = lock.tell(&mut teller.pass);
    lock.learn(&mut learner.pass, note);
    let end = learner.turns(rt, &lock, &setting, 8);
    Ok(
        !is_over
            && teller.link.sent().ends_with(PROGRAMMED)
            && end == Some(End::Served)
            && learner.link.sent().ends_with(HOP),
    )
}

#[test]
fn what_a_note_tells_is_shown_on_another_connection(rt: HostRuntime) -> Result<(), Fail> {
    let is_right = is_learned(&rt, rt.alloc())?;
    assert!(rt; is_right);
    Ok(())
}
