//! Passes over a table that mark what a Flush leaves, each as one list of marks made from the one before.
ghost use Rattle.std.specs.Prelude.{◌≡◌, ◌≤◌, ◌<◌, ◌+◌, ◌++◌, ◌∷◌, [], Bool, false, length, map, not, vec_len, slice_get, vec_capacity};
ghost use Rattle.aft_entries.specs.declared.entry.Entry.{Entry};
ghost use Rattle.table_model.specs.Table as spec;
ghost use Rattle.flush_get.specs.Marking as marking;

use crate::asked::names;
use aft_entries::{Key, refers};
use aft_store::Store;
use table_model::Which;

// Adds a mark, for which there is room.
fn put_mark(marks: &mut Vec<bool>, mark: bool)
    requires { vec_len marks.old < vec_capacity marks.old }
    ensures items { marks.new.items ≡ marks.old.items ++ mark ∷ [] }
    ensures len { vec_len marks.new ≡ vec_len marks.old + 1 }
    ensures capacity { vec_capacity marks.old ≤ vec_capacity marks.new }
{
    if marks.push(mark).is_err() {
        unreachable!()
    }
}

/// Marks the entries of instances that the flush doesn't name.
pub(crate) fn mark_others(store: &Store, which: Which, marks: &mut Vec<bool>)
    requires { length store.now.entries ≤ vec_capacity marks.old }
    ensures items { marks.new.items ≡ marking.staying_marks 0 store.now.entries which }
    ensures capacity { vec_capacity marks.old ≤ vec_capacity marks.new }
{
    marks.clear();
    for n in 0..store.len() {
        put_mark(marks, !names(which, store.at(n).key.instance));
    }
}

// Whether a marked entry refers to the key.
fn is_referenced(store: &Store, marks: &[bool], key: &Key) -> bool
    requires { length marks.now ≡ length store.now.entries }
    ensures { (marked : Entry → Bool) → marks.now ≡ map marked store.now.entries → result ≡ marking.is_referenced marked store.now.entries key.now }
{
    for n in 0..store.len() {
        if marks[n as usize] && refers(store.at(n), key) {
            return true;
        }
    }
    false
}

// Whether the entry at a place was marked, or a marked entry refers to it.
fn is_reached(store: &Store, marks: &[bool], n: u64) -> bool
    requires len { length marks.now ≡ length store.now.entries }
    requires place { n < length store.now.entries }
    ensures { (marked : Entry → Bool) (e : Entry) → marks.now ≡ map marked store.now.entries
        → slice_get store.now.entries n ≡ Some e → result ≡ marking.marked_after_pass marked store.now.entries e }
{
    marks[n as usize] || is_referenced(store, marks, &store.at(n).key)
}

/// Marks the entries that were marked, and those to which a marked entry refers. It answers whether there are more now.
pub(crate) fn mark_referenced(store: &Store, before: &[bool], after: &mut Vec<bool>) -> bool
    requires before { length before.now ≡ length store.now.entries }
    requires room { length store.now.entries ≤ vec_capacity after.old }
    ensures items { (marked : Entry → Bool) → before.now ≡ map marked store.now.entries
        → after.new.items ≡ map (marking.marked_after_pass marked store.now.entries) store.now.entries }
    ensures settled { result ≡ false → after.new.items ≡ before.now }
    ensures capacity { vec_capacity after.old ≤ vec_capacity after.new }
{
    after.clear();
    let mut more = false;
    for n in 0..store.len() {
        let has = is_reached(store, before, n);
        put_mark(after, has);
        more = more || has != before[n as usize];
    }
    more
}
