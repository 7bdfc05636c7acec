//! Parts the boxes of a table by marks, in their order and without memory.
ghost use Rattle.std.specs.Prelude.{◌≡◌, ◌≤◌, ◌<◌, ◌+◌, ◌++◌, ◌∷◌, if◌then◌else◌, [], List, Box, false, slice_index_or, vec_len, vec_capacity};
ghost use Rattle.std.specs.VecDeque.{deque_len, deque_capacity};
ghost use Rattle.aft_entries.specs.declared.entry.Entry.{Entry};
ghost use Rattle.std.specs.Global.{Global};
ghost use Rattle.aft_store.specs.Marked.{chosen, unchosen};

use aft_entries::Entry;
use std::collections::VecDeque;

/// Moves all boxes into a list that has room for them, in place of what was there.
pub fn move_all(entries: &mut Vec<Box<Entry>>, gone: &mut VecDeque<Box<Entry>>)
    requires { vec_len entries.old ≤ deque_capacity gone.old }
    ensures gone { gone.new.items ≡ entries.old.items }
    ensures gone_len { deque_len gone.new ≡ vec_len entries.old }
    ensures gone_capacity { deque_capacity gone.old ≤ deque_capacity gone.new }
    ensures entries { entries.new.items ≡ [] }
    ensures len { vec_len entries.new ≡ 0 }
    ensures capacity { vec_capacity entries.new ≡ vec_capacity entries.old }
{
    gone.clear();
    'boxes: while let Some(entry) = entries.pop() {
        if gone.push_front(entry).is_err() {
            unreachable!()
        }
    }
}

/// The mark of a place, counted from 0. A place behind the last mark has none.
pub fn has_mark(marks: &[bool], n: u64) -> bool
    ensures { result ≡ slice_index_or marks.now n false }
{
    match marks.get(n as usize) {
        Some(mark) => *mark,
        None => false,
    }
}

/// Moves the boxes that have a mark into an empty list that has room for all. The others stay.
pub fn move_marked(gone: &mut VecDeque<Box<Entry>>, marks: &[bool], entries: &mut Vec<Box<Entry>>)
    requires empty { entries.old.items ≡ [] }
    requires len { vec_len entries.old ≡ 0 }
    requires room { deque_len gone.old ≤ vec_capacity entries.old }
    requires in_place { deque_len gone.old ≤ deque_capacity gone.old }
    ensures entries { entries.new.items ≡ chosen marks.now gone.old.items }
    ensures len { vec_len entries.new ≤ deque_len gone.old }
    ensures capacity { vec_capacity entries.old ≤ vec_capacity entries.new }
    ensures gone { gone.new.items ≡ unchosen marks.now gone.old.items }
    ensures gone_capacity { deque_capacity gone.old ≤ deque_capacity gone.new }
{
    'boxes: for n in 0..gone.len() {
        turn(gone, has_mark(marks, n as u64), entries);
    }
}

// The first box goes to the end of the other list where it has a mark, else to the end of its own.
fn turn(gone: &mut VecDeque<Box<Entry>>, mark: bool, entries: &mut Vec<Box<Entry>>)
    requires queue { 0 < deque_len gone.old }
    requires in_place { deque_len gone.old ≤ deque_capacity gone.old }
    requires room { vec_len entries.old < vec_capacity entries.old }
    ensures gone { (first : Box Entry Global) (rest : List (Box Entry Global)) → gone.old.items ≡ first ∷ rest
        → gone.new.items ≡ (if mark then rest else rest ++ first ∷ []) }
    ensures entries { (first : Box Entry Global) (rest : List (Box Entry Global)) → gone.old.items ≡ first ∷ rest
        → entries.new.items ≡ (if mark then entries.old.items ++ first ∷ [] else entries.old.items) }
    ensures len { vec_len entries.new ≤ vec_len entries.old + 1 }
    ensures both { vec_len entries.new + deque_len gone.new ≡ vec_len entries.old + deque_len gone.old }
    ensures capacity { vec_capacity entries.old ≤ vec_capacity entries.new }
    ensures gone_capacity { deque_capacity gone.old ≤ deque_capacity gone.new }
{
    match gone.pop_front() {
        Some(entry) => place(entry, mark, entries, gone),
        None => unreachable!(),
    }
}

// Puts the box at the end of the first list where it has a mark, else of the second. Both have room for it.
fn place(
    entry: Box<Entry>,
    mark: bool,
    marked: &mut Vec<Box<Entry>>,
    others: &mut VecDeque<Box<Entry>>,
)
    requires marked { vec_len marked.old < vec_capacity marked.old }
    requires others { deque_len others.old < deque_capacity others.old }
    ensures marked { marked.new.items ≡ (if mark then marked.old.items ++ entry ∷ [] else marked.old.items) }
    ensures others { others.new.items ≡ (if mark then others.old.items else others.old.items ++ entry ∷ []) }
    ensures len { vec_len marked.new ≤ vec_len marked.old + 1 }
    ensures both { vec_len marked.new + deque_len others.new ≡ vec_len marked.old + deque_len others.old + 1 }
    ensures capacity { vec_capacity marked.old ≤ vec_capacity marked.new }
    ensures others_capacity { deque_capacity others.old ≤ deque_capacity others.new }
{
    if mark {
        if marked.push(entry).is_err() {
            unreachable!()
        }
    } else {
        if others.push_back(entry).is_err() {
            unreachable!()
        }
    }
}
