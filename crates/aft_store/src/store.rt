ghost use Rattle.std.specs.Prelude.{◌≡◌, ◌+◌, ◌≤◌, ◌<◌, ◌⊎◌, [], length, IsTrue, OnOk, OnErr, slice_get, option_map, option_copied, vec_len, vec_capacity};
ghost use Rattle.table_model.specs.Table.{lookup, has, put, take_out};
ghost use Rattle.aft_store.specs.Boxes.{unboxed, IsLaidOut};
ghost use Rattle.aft_store.specs.StoreState.{StoreState};
ghost use Rattle.aft_store.specs.Marked.{chosen, unchosen};
ghost use Rattle.std.specs.VecDeque.{deque_capacity};
ghost use Rattle.table_model.specs.Jobs.{removed};

use crate::boxes::{add_boxes, insert_box, take_box};
use crate::parting::{move_all, move_marked};
use crate::place::place_of;
use aft_entries::{Entry, Key, Payload};
use std::alloc::{AllocError, Global};
use std::collections::VecDeque;
use std::marker::Model;

/// Entries in key order, and room for more. The key of each place is before that of the next.
#[derive(Drop)]
pub struct Store {
    // A box for each, so that a new key moves pointers alone.
    entries: Vec<Box<Entry>>,
    // Boxes for new keys. The list of entries has room for them.
    spare: Vec<Box<Entry>>,
}

impl Model for Store {
    ghost Value = { StoreState };

    ghost view = { λ s. record { entries = unboxed s.entries.items; spare = vec_len s.spare } };

    ghost invariant = { λ s. IsLaidOut s.entries.items (vec_len s.entries) (vec_len s.spare) (vec_capacity s.entries) };
}

impl Store {
    /// No entries.
    pub fn new(alloc: Global) -> Store
        ensures entries { result.entries ≡ [] }
    {
        Store {
            entries: Vec::new(alloc),
            spare: Vec::new(alloc),
        }
    }

    /// How many entries there are.
    pub fn len(&self) -> u64
        ensures { result ≡ length self.now.entries }
    {
        self.entries.len() as u64
    }

    /// The entry at a place in key order, counted from 0.
    pub fn at(&self, n: u64) -> &Entry
        requires { n < length self.now.entries }
        ensures { slice_get self.now.entries n ≡ Some result.now }
    {
        &self.entries[n as usize]
    }

    /// The payload of the key, if it is there.
    pub fn get(&self, key: &Key) -> Option<&Payload>
        ensures { option_copied result ≡ option_map (λ e. e.payload) (lookup key.now self.now.entries) }
    {
        match place_of(&self.entries, key) {
            Ok(at) => {
                let entry: &Entry = &self.entries[at];
                Some(&entry.payload)
            }
            Err(_) => None,
        }
    }

    /// Makes room for so many more entries. This alone takes memory.
    pub fn reserve(&mut self, more: u64) -> Result<(), AllocError>
        ensures entries { self.new.entries ≡ self.old.entries }
        ensures ok { OnOk result (more ≤ self.new.spare) }
        ensures kept { self.old.spare ≤ self.new.spare }
        ensures err { OnErr result (self.new ≡ self.old) }
    {
        let more = more as usize;
        if more <= self.spare.len() {
            return Ok(());
        }
        self.entries.reserve(more)?;
        add_boxes(*self.spare.allocator(), &mut self.spare, more)
    }

    /// Puts the entry in place of the one with its key, and answers that one, if there was one. A key that isn't
    /// there takes a place that was made.
    pub fn put_reserved(&mut self, entry: Entry) -> Option<Entry>
        requires room { (0 < self.old.spare) ⊎ IsTrue (has self.old.entries entry.key) }
        ensures displaced { result ≡ lookup entry.key self.old.entries }
        ensures entries { self.new.entries ≡ put entry self.old.entries }
        ensures spare { self.old.spare ≤ self.new.spare + 1 }
        ensures in_place { IsTrue (has self.old.entries entry.key) → self.old.spare ≤ self.new.spare }
    {
        match place_of(&self.entries, &entry.key) {
            Ok(at) => Some(Box::replace(&mut self.entries[at], entry)),
            Err(at) => {
                let place = take_box(&mut self.spare, entry);
                insert_box(&mut self.entries, at, place);
                None
            }
        }
    }

    /// Removes the key, and answers its entry, if it was there.
    pub fn remove(&mut self, key: &Key) -> Option<Entry>
        ensures removed { result ≡ lookup key.now self.old.entries }
        ensures entries { self.new.entries ≡ take_out key.now self.old.entries }
        ensures spare { self.old.spare ≤ self.new.spare }
    {
        match place_of(&self.entries, key) {
            Ok(at) => Some(Box::into_inner(self.entries.remove(at))),
            Err(_) => None,
        }
    }

    /// Removes the key, and answers its entry in the box where it stood, if it was there.
    pub fn remove_box(&mut self, key: &Key) -> Option<Box<Entry>>
        ensures removed { option_map (λ b. b.value) result ≡ lookup key.now self.old.entries }
        ensures entries { self.new.entries ≡ take_out key.now self.old.entries }
        ensures spare { self.old.spare ≤ self.new.spare }
    {
        match place_of(&self.entries, key) {
            Ok(at) => Some(self.entries.remove(at)),
            Err(_) => None,
        }
    }

    /// Moves the boxes of the entries that have no mark, in key order, into a list that has room for all, in place of
    /// what was there. An entry behind the last mark has none. This takes no memory.
    pub fn move_unmarked(&mut self, marks: &[bool], gone: &mut VecDeque<Box<Entry>>)
        requires { length self.old.entries ≤ deque_capacity gone.old }
        ensures entries { self.new.entries ≡ chosen marks.now self.old.entries }
        ensures spare { self.old.spare ≤ self.new.spare }
        ensures gone { unboxed gone.new.items ≡ unchosen marks.now self.old.entries }
        ensures removed { unboxed gone.new.items ≡ removed self.old.entries self.new.entries }
        ensures capacity { deque_capacity gone.old ≤ deque_capacity gone.new }
    {
        move_all(&mut self.entries, gone);
        move_marked(gone, marks, &mut self.entries);
    }

    /// Removes all entries.
    pub fn clear(&mut self)
        ensures entries { self.new.entries ≡ [] }
        ensures spare { self.old.spare ≤ self.new.spare }
    {
        self.entries.clear();
    }
}
