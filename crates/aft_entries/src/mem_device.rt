ghost use Rattle.std.specs.Prelude.{◌≡◌, ◌≤◌, [], Some, None, true, false, vec_len, vec_capacity};
ghost use Rattle.aft_entries.specs.Devices.{placed, without};

use crate::device::Device;
use crate::entry::Entry;
use crate::key::Key;
use crate::operation::Act;
use std::alloc::Global;
use std::marker::Model;

/// A device in memory, which keeps its contents.
///
/// It fails exactly at the calls whose numbers are listed and where it finds no memory, which
/// `refused` counts. Its first call is number 0. A number that is listed twice counts once. All
/// calls past number 2^64 - 1 have that number.
#[derive(Drop)]
pub struct MemDevice {
    contents: Vec<Entry>,
    failing: Vec<u64>,
    calls: u64,
    faults: u64,
    dones: u64,
    refused: u64,
}

impl Model for MemDevice {
    ghost use Rattle.aft_entries.specs.Devices.{MemDeviceState};

    ghost Value = { MemDeviceState };

    ghost view = { λ d. record {
      contents = d.contents.items;
      failing = d.failing.items;
      calls = d.calls;
      faults = d.faults;
      dones = d.dones;
      refused = d.refused;
    } };
}

impl MemDevice {
    /// An empty device, which fails at the calls whose numbers `failing` lists.
    pub fn new(alloc: Global, failing: Vec<u64>) -> MemDevice
        ensures { result ≡ record {
          contents = [];
          failing = failing.items;
          calls = 0;
          faults = 0;
          dones = 0;
          refused = 0;
        } }
    {
        MemDevice {
            contents: Vec::new(alloc),
            failing,
            calls: 0,
            faults: 0,
            dones: 0,
            refused: 0,
        }
    }

    /// The entries that it has.
    pub fn contents(&self) -> &[Entry]
        ensures { result.now ≡ self.now.contents }
    {
        &self.contents
    }

    /// How many calls failed for want of memory, at most 2^64 - 1.
    pub fn refused(&self) -> u64
        ensures { result ≡ self.now.refused }
    {
        self.refused
    }
}

impl Device for MemDevice {
    ghost use Rattle.aft_entries.specs.Devices.{Acts, CountsAnswer, InstallsBy, KeysDiffer, RemovesBy, counted};

    ghost contents = { λ d. Some d.contents };

    ghost faults = { λ d. d.faults };

    ghost dones = { λ d. d.dones };

    fn install(&mut self, entry: &Entry) -> Act
        ensures contents { Acts result entry.now.key (Some entry.now) (Some self.old.contents) (Some self.new.contents) }
        ensures once { KeysDiffer self.old.contents → KeysDiffer self.new.contents }
        ensures faults { CountsAnswer self.old.faults self.new.faults (result ≡ Act.Failed) }
        ensures dones { CountsAnswer self.old.dones self.new.dones (result ≡ Act.Done) }
        ensures exact { InstallsBy self.old.failing self.old.calls result self.old.refused self.new.refused }
        ensures calls { self.new.calls ≡ counted self.old.calls }
        ensures failing { self.new.failing ≡ self.old.failing }
    {
        let call = self.calls;
        self.calls = call.saturating_add(1);
        if self.failing.contains(&call) {
            self.faults = self.faults.saturating_add(1);
            return Act::Failed;
        }
        if !place(&mut self.contents, entry) {
            self.refused = self.refused.saturating_add(1);
            self.faults = self.faults.saturating_add(1);
            return Act::Failed;
        }
        self.dones = self.dones.saturating_add(1);
        Act::Done
    }

    fn remove(&mut self, key: &Key) -> Act
        ensures contents { Acts result key.now None (Some self.old.contents) (Some self.new.contents) }
        ensures once { KeysDiffer self.old.contents → KeysDiffer self.new.contents }
        ensures faults { CountsAnswer self.old.faults self.new.faults (result ≡ Act.Failed) }
        ensures dones { CountsAnswer self.old.dones self.new.dones (result ≡ Act.Done) }
        ensures exact { RemovesBy self.old.failing self.old.calls result }
        ensures calls { self.new.calls ≡ counted self.old.calls }
        ensures same { (self.new.failing ≡ self.old.failing) × (self.new.refused ≡ self.old.refused) }
    {
        let call = self.calls;
        self.calls = call.saturating_add(1);
        if self.failing.contains(&call) {
            self.faults = self.faults.saturating_add(1);
            return Act::Failed;
        }
        take_away(&mut self.contents, key);
        self.dones = self.dones.saturating_add(1);
        Act::Done
    }
}

// Puts a copy of the entry in place of those under its key, or changes nothing for want of memory.
fn place(entries: &mut Vec<Entry>, entry: &Entry) -> bool
    ensures ok { result ≡ true → entries.new.items ≡ placed entry.now entries.old.items }
    ensures err { result ≡ false → entries.new.items ≡ entries.old.items }
{
    let Ok(copy) = entry.clone() else {
        return false;
    };
    match entries.reserve(1) {
        Ok(()) => {}
        Err(_) => return false,
    }
    take_away(entries, &entry.key);
    entries.push_reserved(copy);
    true
}

// Takes out the entries under the key.
fn take_away(entries: &mut Vec<Entry>, key: &Key)
    ensures items { entries.new.items ≡ without key.now entries.old.items }
    ensures bound { vec_len entries.new ≤ vec_len entries.old }
    ensures capacity { vec_capacity entries.new ≡ vec_capacity entries.old }
{
    entries.retain(|e| !key.is(&e.key));
}
