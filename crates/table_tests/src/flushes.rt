//! What a Flush leaves and a Get selects, of a table of two instances.
ghost use Rattle.std.specs.Prelude.{◌≡◌, ◌≤◌, length};

use crate::steps::Item::{Group, Hop, Net};
use crate::steps::{Item, entry};
use aft_entries::{Kind, Row};
use aft_store::Store;
use flush_get::{Marks, mark_flush, select};
use std::alloc::{AllocError, Global};
use std::test::Fail;
use table_model::{KindAsk, Which};

// In key order. The route of instance 1 leads to group 1, whose backup is group 2.
const TABLE: &[Item] = &[
    Hop(1),
    Hop(2),
    Hop(3),
    Group(1, 1, Some(2)),
    Group(2, 2, None),
    Group(3, 3, None),
    Net(0, 0x0a00_0000, 3),
    Net(1, 0x0a00_0000, 1),
];

// Group 1 has no backup here, and group 3 is wanting.
const INSTALLED: &[Item] = &[
    Hop(1),
    Group(1, 1, None),
    Group(2, 2, None),
    Net(1, 0x0a00_0000, 1),
];

fn put(alloc: Global, store: &mut Store, item: Item) -> Result<(), AllocError> {
    let entry = entry(alloc, item)?;
    store.reserve(1)?;
    let _ = store.put_reserved(entry);
    Ok(())
}

fn filled(alloc: Global, items: &[Item]) -> Result<Store, AllocError> {
    let mut store = Store::new(alloc);
    for item in items {
        put(alloc, &mut store, *item)?;
    }
    Ok(store)
}

// Whether the flush leaves those of the table that are told, and whether an entry of a named instance stays.
fn leaves(store: &Store, which: Which, marks: &mut Marks, expected: &[bool], remain: bool) -> bool
    requires { length store.now.entries ≤ marks.old.room }
    ensures { marks.new.room ≡ marks.old.room }
{
    let mut is_right = mark_flush(store, which, marks) == remain;
    for n in 0..store.len() {
        is_right &= expected.get(n as usize) == Some(&marks.at(n));
    }
    is_right && expected.len() as u64 == store.len()
}

/// A flush of instance 0 leaves what the route of instance 1 reaches, by three references.
#[test]
fn a_flush_leaves_what_others_reach(rt: HostRuntime) -> Result<(), Fail> {
    let store = filled(rt.alloc(), TABLE)?;
    let mut marks = Marks::new(rt.alloc());
    marks.reserve(store.len())?;
    let reached = &[true, true, false, true, true, false, false, true];
    let is_first = leaves(&store, Which::One(0), &mut marks, reached, true);
    let rest = &[true, true, true, true, true, true, true, false];
    let is_second = leaves(&store, Which::One(1), &mut marks, rest, false);
    let is_last = leaves(&store, Which::All, &mut marks, &[false; 8], false);
    assert!(rt; is_first && is_second && is_last);
    Ok(())
}

// Whether these are the rows, by the places of their entries in the table.
fn are(rows: &[Row], store: &Store, expected: &[(u64, bool)]) -> bool {
    let mut is_right = rows.len() == expected.len();
    for (row, (place, installed)) in rows.iter().zip(expected) {
        is_right &= *place < store.len() && store.at(*place).key == row.entry.key;
        is_right &= row.installed == *installed;
    }
    is_right
}

fn selects(
    alloc: Global,
    store: &Store,
    fib: &Store,
    which: Which,
    kinds: KindAsk,
    expected: &[(u64, bool)],
) -> bool {
    match select(alloc, store, fib, which, kinds) {
        Err(_) => false,
        Ok(rows) => are(rows.as_slice(), store, expected),
    }
}

/// A group that is installed with another backup doesn't count as installed.
#[test]
fn a_get_selects_instances_and_kinds(rt: HostRuntime) -> Result<(), Fail> {
    let alloc = rt.alloc();
    let store = filled(alloc, TABLE)?;
    let fib = filled(alloc, INSTALLED)?;
    let groups = &[(3, false), (4, true), (5, false)];
    let is_kind = selects(
        alloc,
        &store,
        &fib,
        Which::One(0),
        KindAsk::Only(Kind::Group),
        groups,
    );
    let is_instance = selects(
        alloc,
        &store,
        &fib,
        Which::One(1),
        KindAsk::All,
        &[(7, true)],
    );
    let hops = &[(0, true), (1, false), (2, false)];
    let is_all = selects(
        alloc,
        &store,
        &fib,
        Which::All,
        KindAsk::Only(Kind::Hop),
        hops,
    );
    assert!(rt; is_kind && is_instance && is_all);
    Ok(())
}
