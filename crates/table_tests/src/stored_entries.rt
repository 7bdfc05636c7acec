use crate::steps::Item::{Group, Hop};
use crate::steps::{entry, key};
use aft_entries::{Key, Payload};
use aft_store::Store;
use std::alloc::{AllocError, Global};
use std::test::Fail;

fn backup(payload: Option<&Payload>) -> Option<u64> {
    match payload {
        Some(Payload::Group(group)) => group.backup,
        _ => None,
    }
}

fn put(alloc: Global, store: &mut Store, id: u64, other: u64) -> Result<(), AllocError> {
    let entry = entry(alloc, Group(id, 1, Some(other)))?;
    store.reserve(1)?;
    let _ = store.put_reserved(entry);
    Ok(())
}

// Groups, of which one comes twice, out of order.
fn filled(alloc: Global) -> Result<Store, AllocError> {
    let mut store = Store::new(alloc);
    for (id, other) in [(7, 1), (4, 2), (9, 3), (7, 4), (1, 5)] {
        put(alloc, &mut store, id, other)?;
    }
    Ok(store)
}

fn has(store: &Store, id: u64, other: Option<u64>) -> bool {
    backup(store.get(&key(Group(id, 1, None)))) == other
}

fn key_at(store: &Store, place: u64) -> Option<Key> {
    if place < store.len() {
        Some(store.at(place).key)
    } else {
        None
    }
}

fn removes(store: &mut Store, key: &Key) -> bool {
    store.remove(key).is_some()
}

fn are_placed(store: &Store) -> bool {
    let mut is_right = key_at(store, 1) == Some(key(Group(4, 1, None)));
    for (id, other) in [
        (1, Some(5)),
        (4, Some(2)),
        (7, Some(4)),
        (9, Some(3)),
        (8, None),
    ] {
        is_right &= has(store, id, other);
    }
    is_right && store.len() == 4
}

/// Entries that come out of order stand in key order, and the last one of a key counts.
#[test]
fn entries_stand_in_key_order(rt: HostRuntime) -> Result<(), Fail> {
    let store = filled(rt.alloc())?;
    assert!(rt; are_placed(&store));
    Ok(())
}

fn are_removed(store: &mut Store) -> bool {
    let is_there = removes(store, &key(Group(4, 1, None)));
    let is_other = removes(store, &key(Hop(4)));
    let left = store.len();
    store.clear();
    is_there && !is_other && left == 3 && store.len() == 0
}

#[test]
fn entries_are_removed(rt: HostRuntime) -> Result<(), Fail> {
    let mut store = filled(rt.alloc())?;
    assert!(rt; are_removed(&mut store));
    Ok(())
}
