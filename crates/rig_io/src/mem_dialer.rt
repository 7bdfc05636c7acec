ghost use Rattle.std.specs.Prelude.{◌≡◌, ◌<◌, ◌++◌, [], ◌∷◌, Some, length};

use crate::dialer::{Dialer, Dialled};
use crate::mem_link::MemLink;
use std::alloc::Global;
use std::marker::Model;
use std::snapshot::Snapshot;

/// A dialer in memory, which gives its links in order, whatever the address.
///
/// It fails exactly at the calls whose numbers are listed, where it has given its last link, and
/// where it finds no memory, which `refused` counts. Its first call is number 0; all calls past
/// number 2^64 - 1 have that number. It takes the place for a retired link when it gives the link.
#[derive(Drop)]
pub struct MemDialer {
    // All links that it was made with, as they were then.
    all: Snapshot<Vec<MemLink>>,
    pending: Vec<MemLink>,
    retired: Vec<MemLink>,
    failing: Vec<u64>,
    calls: u64,
    given_count: u64,
    faults: u64,
    refused: u64,
}

impl Model for MemDialer {
    ghost use Rattle.std.specs.Prelude.{◌≡◌, ◌≤◌, take, drop, vec_len, vec_capacity};
    ghost use Rattle.rig_io.specs.MemDialers.{MemDialerState};

    ghost Value = { MemDialerState };

    ghost view = { λ d. record {
      pending = d.pending.items;
      given = take d.given_count d.all.value.items;
      retired = d.retired.items;
      failing = d.failing.items;
      calls = d.calls;
      given_count = d.given_count;
      faults = d.faults;
      refused = d.refused;
    } };

    ghost invariant = { λ d. (d.given_count ≤ vec_capacity d.retired)
        × (vec_len d.retired ≤ d.given_count)
        × (d.pending.items ≡ drop d.given_count d.all.value.items) };
}

impl MemDialer {
    /// A dialer that will give these links, and fails at the calls whose numbers `failing` lists.
    pub fn new(alloc: Global, links: Vec<MemLink>, failing: Vec<u64>) -> MemDialer
        ensures { result ≡ record {
          pending = links.items;
          given = [];
          retired = [];
          failing = failing.items;
          calls = 0;
          given_count = 0;
          faults = 0;
          refused = 0;
        } }
    {
        MemDialer {
            all: Snapshot::of(&links),
            pending: links,
            retired: Vec::new(alloc),
            failing,
            calls: 0,
            given_count: 0,
            faults: 0,
            refused: 0,
        }
    }

    /// The links that were taken back.
    pub fn retired(&self) -> &[MemLink]
        ensures { result.now ≡ self.now.retired }
    {
        &self.retired
    }

    /// How many calls failed for want of memory, at most 2^64 - 1.
    pub fn refused(&self) -> u64
        ensures { result ≡ self.now.refused }
    {
        self.refused
    }
}

impl Dialer for MemDialer {
    ghost use Rattle.std.specs.Prelude.{Some};
    ghost use Rattle.rig_io.specs.Fault.{HasCause, StaysUnless};
    ghost use Rattle.rig_io.specs.Accept.{CountsDialled, ListsDialled};
    ghost use Rattle.rig_io.specs.Memory.{next_call};
    ghost use Rattle.rig_io.specs.MemDialers.{Dials};
    ghost use Rattle.rig_io.specs.MemLinks.{counted};

    type Link = MemLink;

    ghost given_count = { λ d. d.given_count };

    ghost retired_count = { λ d. length d.retired };

    ghost given = { λ d. Some d.given };

    ghost retired = { λ d. Some d.retired };

    ghost faults = { λ d. d.faults };

    fn dial(&mut self, _address: &str) -> Dialled<MemLink>
        ensures given_count { CountsDialled self.old.given_count self.new.given_count result }
        ensures given { ListsDialled (Some self.old.given) (Some self.new.given) result }
        ensures cause { HasCause self.old.faults self.new.faults (result ≡ Dialled.Failed) }
        ensures stays { StaysUnless self.old.faults self.new.faults (result ≡ Dialled.Failed) }
        ensures exact { Dials self.old.failing self.old.calls self.old.pending self.new.pending
            result self.old.refused self.new.refused }
        ensures count { result ≡ Dialled.Failed → self.new.faults ≡ counted self.old.faults }
        ensures calls { self.new.calls ≡ next_call self.old.calls }
        ensures same { (self.new.failing ≡ self.old.failing) × (self.new.retired ≡ self.old.retired) }
    {
        let call = self.calls;
        self.calls = call.saturating_add(1);
        if self.failing.contains(&call) {
            self.faults = self.faults.saturating_add(1);
            return Dialled::Failed;
        }
        if self.pending.is_empty() {
            self.faults = self.faults.saturating_add(1);
            return Dialled::Failed;
        }
        match self.retired.reserve(
            (self.given_count as usize + 1).saturating_sub(self.retired.len()),
        ) {
            Ok(()) => {}
            Err(_) => {
                self.refused = self.refused.saturating_add(1);
                self.faults = self.faults.saturating_add(1);
                return Dialled::Failed;
            }
        }
        self.given_count += 1;
        Dialled::New(self.pending.remove(0))
    }

    fn retire(&mut self, link: MemLink)
        requires { length self.old.retired < self.old.given_count }
        ensures { self.new ≡ record self.old { retired = self.old.retired ++ link ∷ [] } }
    {
        self.retired.push_reserved(link);
    }
}
