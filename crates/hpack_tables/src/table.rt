ghost use Rattle.std.specs.Prelude.{◌≡◌, ◌∷◌, [], ◌<◌, ◌^◌, MatchOption, OnOk, IfOk, Ok, Err};
ghost use Rattle.hpack_tables.specs.Answers.{IsAllowedBy};
ghost use Rattle.hpack_tables.specs.Reading.{entry_at};
ghost use Rattle.hpack_tables.specs.EntrySizes.{fitting, size_of};
ghost use Rattle.hpack_tables.specs.declared.fault.HpackFault.TheVariants.{BadIndex};

use crate::fault::HpackFault;
use crate::field::Field;
use crate::room::evict;
use crate::static_table::static_field;
use std::alloc::{AllocError, Global};
use std::collections::VecDeque;
use std::marker::Model;

mod search;

/// The dynamic table, the newest entry first.
#[derive(Drop)]
pub struct Table {
    entries: VecDeque<Field>,
    size: u64,
    max: u32,
}

impl Model for Table {
    ghost use Rattle.std.specs.Prelude.{◌≡◌, ◌≤◌, sum_by};
    ghost use Rattle.hpack_tables.specs.Entries.{Entries};

    ghost Value = { Entries };

    ghost use Rattle.hpack_tables.specs.EntrySizes.{size_of};

    ghost view = { λ t. record { items = t.entries.items; max = t.max } };

    ghost invariant = { λ t. (t.size ≡ sum_by size_of t.entries.items) × (t.size ≤ t.max) };
}

fn share_all(alloc: Global, entries: &VecDeque<Field>) -> Result<VecDeque<Field>, AllocError>
    ensures { IfOk result (λ copy. copy.items ≡ entries.now.items) }
{
    let mut copy = VecDeque::new(alloc);
    let mut place = 0;
    while place < entries.len() {
        copy.push_back(entries[place].clone()?)?;
        place += 1;
    }
    Ok(copy)
}

impl Table {
    pub fn new(alloc: Global, max: u32) -> Table
        ensures { result ≡ record { items = []; max = max } }
    {
        Table {
            entries: VecDeque::new(alloc),
            size: 0,
            max,
        }
    }

    /// Lets the table be so large, and drops the oldest entries that have no room then.
    pub fn resize(&mut self, max: u32)
        ensures { self.new ≡ record { items = fitting max self.old.items; max = max } }
    {
        evict(&mut self.entries, &mut self.size, max as u64);
        self.max = max;
    }

    /// Takes an entry, after the oldest ones made room.
    pub fn insert(&mut self, field: Field) -> Result<(), AllocError>
        requires { size_of field < 2 ^ 64 }
        ensures { OnOk result (self.new ≡ record { items = fitting self.old.max (field ∷ self.old.items); max = self.old.max }) }
    {
        let size = field.size();
        if size > self.max as u64 {
            evict(&mut self.entries, &mut self.size, 0);
            return Ok(());
        }
        evict(&mut self.entries, &mut self.size, self.max as u64 - size);
        self.entries.push_front(field)?;
        self.size += size;
        Ok(())
    }

    /// How large the entries may be together.
    pub fn max(&self) -> u32
        ensures { result ≡ self.now.max }
    {
        self.max
    }

    /// Another table of the same entries.
    pub fn share(&self, alloc: Global) -> Result<Table, AllocError>
        ensures { IfOk result (λ t. t ≡ self.now) }
    {
        Ok(Table {
            entries: share_all(alloc, &self.entries)?,
            size: self.size,
            max: self.max,
        })
    }

    /// The static or dynamic entry of an index.
    pub fn get(&self, index: u32) -> Result<Field, HpackFault>
        ensures { IsAllowedBy (λ f. f) result (λ out. MatchOption (entry_at self.now.items index) (out ≡ Err BadIndex) (λ f. out ≡ Ok f)) }
    {
        if index == 0 {
            return Err(HpackFault::BadIndex);
        }
        if index < 62 {
            return Ok(static_field(index - 1));
        }
        let place = index as usize - 62;
        if place >= self.entries.len() {
            return Err(HpackFault::BadIndex);
        }
        Ok(self.entries[place].clone()?)
    }
}
