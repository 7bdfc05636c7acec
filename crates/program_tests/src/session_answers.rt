use aft_entries::Reason;
use call_answers::{answer_of, end_of};
use schema_numbers::default_numbering;
use std::alloc::Global;
use std::collections::LinkedList;
use std::test::Fail;
use table_model::{Batch, FibResult, Reply};

// Whether the reply to operation 1 of the third message is owed these bytes.
fn has_response(alloc: Global, reply: &Reply, wanted: &[u8]) -> Result<bool, Fail> {
    let n = default_numbering(alloc)?;
    match answer_of(alloc, &n, 1, 3, reply)? {
        None => Ok(wanted.is_empty()),
        Some(message) => Ok(message.as_bytes() == wanted),
    }
}

#[test]
fn replies_are_answered(rt: HostRuntime) -> Result<(), Fail> {
    assert!(rt; has_response(rt.alloc(), &Reply::ParamsSet, b"\x12\x02\x08\x01")?);
    assert!(rt; has_response(rt.alloc(), &Reply::Announced(1), b"\x1a\x02\x10\x01")?);
    assert!(rt;
        has_response(
            rt.alloc(),
            &Reply::RibDone,
            b"\x0a\x06\x08\x01\x10\x03\x18\x03"
        )?
    );
    let unresolved = Reply::RibFailed(Reason::Unresolved);
    let failed = b"\x0a\x08\x08\x01\x10\x02\x18\x03\x20\x09";
    assert!(rt; has_response(rt.alloc(), &unresolved, failed)?);
    assert!(rt; has_response(rt.alloc(), &Reply::Left, b"")?);
    Ok(())
}

#[test]
fn collected_results_are_answered(rt: HostRuntime) -> Result<(), Fail> {
    let mut due = LinkedList::new(rt.alloc());
    due.push_back(FibResult {
        id: 2,
        failed: None,
        now: 4,
    })?;
    let collected = Reply::Collected(Batch::cut(&mut due), 0);
    assert!(rt; has_response(rt.alloc(), &collected, b"\x0a\x06\x08\x02\x10\x04\x18\x04")?);
    let empty = Reply::Collected(Batch::empty(rt.alloc()), 1);
    assert!(rt; has_response(rt.alloc(), &empty, b"")?);
    Ok(())
}

// The status number that the reply ends its call with, or 0.
fn code(operate: bool, reply: &Reply) -> Result<u8, Fail> {
    match end_of(operate, reply)? {
        None => Ok(0),
        Some(status) => Ok(status.code),
    }
}

#[test]
fn replies_end_calls(rt: HostRuntime) -> Result<(), Fail> {
    assert_eq!(rt; code(false, &Reply::ParamsUnsupported)?, 12);
    assert_eq!(rt; code(false, &Reply::ParamsNotAllowed)?, 9);
    assert_eq!(rt; code(false, &Reply::NoParams)?, 9);
    assert_eq!(rt; code(true, &Reply::NoParams)?, 12);
    assert_eq!(rt; code(false, &Reply::ZeroId)?, 3);
    assert_eq!(rt; code(true, &Reply::RibFailed(Reason::NotPrimary))?, 0);
    Ok(())
}
