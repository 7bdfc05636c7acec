use crate::steps::Item::{Group, Hop, Label};
use crate::steps::{Item, entry, key};
use aft_entries::{Ask, Reason};
use aft_store::Store;
use rib_ops::{judge, perform};
use std::alloc::{AllocError, Global};
use std::test::Fail;

fn end_of(store: &mut Store, ask: Ask) -> Result<Option<Reason>, AllocError> {
    let reason = judge(store, 2, 7, &ask);
    if reason.is_none() {
        store.reserve(1)?;
        let _ = perform(store, ask);
    } else {
        let _ = ask;
    }
    Ok(reason)
}

// What becomes of an item that is put, or removed.
fn end_with(
    alloc: Global,
    store: &mut Store,
    removed: bool,
    item: Item,
) -> Result<Option<Reason>, AllocError> {
    if removed {
        end_of(store, Ask::Remove(key(item)))
    } else {
        end_of(store, Ask::Put(entry(alloc, item)?, false))
    }
}

// Groups with backups, a label of another instance that uses one, and the end of each operation in turn. The first
// is whether the item is removed.
const TURNS: &[(bool, Item, Option<Reason>)] = &[
    (false, Hop(1), None),
    (false, Group(1, 1, Some(1)), Some(Reason::Unresolved)),
    (false, Group(1, 1, None), None),
    (false, Group(1, 1, Some(1)), Some(Reason::BackupDepth)),
    (false, Group(2, 1, Some(1)), None),
    (false, Group(1, 1, Some(2)), Some(Reason::BackupDepth)),
    (false, Group(3, 1, Some(2)), None),
    (false, Group(4, 1, Some(3)), None),
    (false, Group(5, 1, Some(4)), Some(Reason::BackupDepth)),
    (false, Group(5, 1, None), None),
    (false, Group(1, 1, Some(5)), Some(Reason::BackupDepth)),
    (false, Label(1, 1_048_576, 5), Some(Reason::BadKey)),
    (false, Label(1, 9, 5), None),
    (true, Group(5, 1, None), Some(Reason::InUse)),
    (false, Group(6, 1, None), Some(Reason::TableFull)),
    (true, Group(4, 1, None), None),
    (false, Group(6, 1, None), None),
];

fn ends_as_expected(alloc: Global) -> Result<bool, AllocError> {
    let mut store = Store::new(alloc);
    let mut is_right = true;
    for (removed, item, reason) in TURNS {
        is_right &= end_with(alloc, &mut store, *removed, *item)? == *reason;
    }
    Ok(is_right)
}

#[test]
fn operations_in_turn(rt: HostRuntime) -> Result<(), Fail> {
    assert!(rt; ends_as_expected(rt.alloc())?);
    Ok(())
}
