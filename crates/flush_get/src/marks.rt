//! Marks of the entries of a table.
ghost use Rattle.std.specs.Prelude.{◌≡◌, ◌≤◌, ◌<◌, [], Bool, false, length, map, slice_get, OnOk, OnErr, vec_capacity};
ghost use Rattle.aft_entries.specs.declared.entry.Entry.{Entry};
ghost use Rattle.flush_get.specs.Marking as marking;

use crate::passes::{mark_others, mark_referenced};
use aft_store::Store;
use std::alloc::{AllocError, Global};
use std::marker::Model;
use table_model::Which;

/// One mark for each entry of a table, in key order, and room for a number of them.
#[derive(Drop)]
pub struct Marks {
    marks: Vec<bool>,
    // The marks of the pass before.
    earlier: Vec<bool>,
    // For how many marks both lists have room.
    places: u64,
}

impl Model for Marks {
    ghost use Rattle.std.specs.Prelude.{◌≤◌, vec_capacity};
    ghost use Rattle.flush_get.specs.MarksState.{MarksState};

    ghost Value = { MarksState };

    ghost view = { λ m. record { values = m.marks.items; room = m.places } };

    ghost invariant = { λ m. (m.places ≤ vec_capacity m.marks) × (m.places ≤ vec_capacity m.earlier) };
}

impl Marks {
    /// No marks.
    pub fn new(alloc: Global) -> Marks
        ensures { result.values ≡ [] }
    {
        Marks {
            marks: Vec::new(alloc),
            earlier: Vec::new(alloc),
            places: 0,
        }
    }

    /// Makes room for so many marks. This alone takes memory.
    pub fn reserve(&mut self, n: u64) -> Result<(), AllocError>
        ensures values { self.new.values ≡ self.old.values }
        ensures ok { OnOk result (n ≤ self.new.room) }
        ensures kept { self.old.room ≤ self.new.room }
        ensures err { OnErr result (self.new ≡ self.old) }
    {
        if n <= self.places {
            return Ok(());
        }
        let places = n as usize;
        self.marks.reserve(places)?;
        self.earlier.reserve(places)?;
        self.places = n;
        Ok(())
    }

    /// The mark of the entry at a place, counted from 0.
    pub fn at(&self, n: u64) -> bool
        requires { n < length self.now.values }
        ensures { slice_get self.now.values n ≡ Some result }
    {
        self.marks[n as usize]
    }

    /// The marks, in key order.
    pub fn as_slice(&self) -> &[bool]
        ensures { result.now ≡ self.now.values }
    {
        self.marks.as_slice()
    }

    /// Marks the entries of instances that the flush doesn't name.
    pub(crate) fn start(&mut self, store: &Store, which: Which)
        requires { length store.now.entries ≤ self.old.room }
        ensures values { self.new.values ≡ marking.staying_marks 0 store.now.entries which }
        ensures room { self.new.room ≡ self.old.room }
    {
        mark_others(store, which, &mut self.marks);
    }

    /// Marks what the marked entries refer to as well, and answers whether there are more marks now.
    pub(crate) fn pass(&mut self, store: &Store) -> bool
        requires values { length self.old.values ≡ length store.now.entries }
        requires room { length store.now.entries ≤ self.old.room }
        ensures values { (marked : Entry → Bool) → self.old.values ≡ map marked store.now.entries
            → self.new.values ≡ map (marking.marked_after_pass marked store.now.entries) store.now.entries }
        ensures settled { result ≡ false → self.new.values ≡ self.old.values }
        ensures room { self.new.room ≡ self.old.room }
    {
        std::mem::swap(&mut self.marks, &mut self.earlier);
        mark_referenced(store, &self.earlier, &mut self.marks)
    }
}
