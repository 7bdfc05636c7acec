ghost use Rattle.std.specs.Prelude.{◌≡◌, ◌<◌, ◌≤◌, ◌+◌, ◌++◌, List, [], ◌∷◌, ℕ, Option, Some, length, vec_len, None};

use crate::acceptor::{Accepted, Acceptor};
use crate::mem_link::MemLink;
use std::alloc::Global;
use std::marker::Model;
use std::snapshot::Snapshot;

/// An acceptor in memory, which gives its links in order.
///
/// It fails exactly where it has given its last, and more were asked for, and where it finds no
/// memory, which `refused` counts. It takes the place for a retired link when it gives the link.
#[derive(Drop)]
pub struct MemAcceptor {
    // All links that it was made with, as they were then.
    all: Snapshot<Vec<MemLink>>,
    pending: Vec<MemLink>,
    retired: Vec<MemLink>,
    asked: u64,
    before: u64,
    given_count: u64,
    faults: u64,
    refused: u64,
}

impl Model for MemAcceptor {
    ghost use Rattle.std.specs.Prelude.{◌≡◌, ◌≤◌, ◌+◌, take, drop, vec_len, vec_capacity};
    ghost use Rattle.rig_io.specs.MemAcceptors.{MemAcceptorState};

    ghost Value = { MemAcceptorState };

    ghost view = { λ a. record {
      pending = a.pending.items;
      given = take a.given_count a.all.value.items;
      retired = a.retired.items;
      asked = a.asked;
      before = a.before;
      given_count = a.given_count;
      faults = a.faults;
      refused = a.refused;
    } };

    ghost invariant = { λ a. (a.given_count ≤ vec_capacity a.retired)
        × (vec_len a.retired ≤ a.given_count)
        × (a.before ≤ a.given_count)
        × (a.given_count ≤ a.before + a.asked)
        × (a.pending.items ≡ drop a.given_count a.all.value.items) };
}

impl MemAcceptor {
    /// An acceptor that will give these links.
    pub fn new(alloc: Global, links: Vec<MemLink>) -> MemAcceptor
        ensures { result ≡ record {
          pending = links.items;
          given = [];
          retired = [];
          asked = 0;
          before = 0;
          given_count = 0;
          faults = 0;
          refused = 0;
        } }
    {
        MemAcceptor {
            all: Snapshot::of(&links),
            pending: links,
            retired: Vec::new(alloc),
            asked: 0,
            before: 0,
            given_count: 0,
            faults: 0,
            refused: 0,
        }
    }

    /// The links that were taken back.
    pub fn retired(&self) -> &[MemLink]
        ensures { result.now ≡ self.now.retired }
    {
        &self.retired
    }

    /// How many calls failed for want of memory, at most 2^64 - 1.
    pub fn refused(&self) -> u64
        ensures { result ≡ self.now.refused }
    {
        self.refused
    }
}

impl Acceptor for MemAcceptor {
    ghost use Rattle.std.specs.Prelude.{Some, None, true, ◌↔◌, false};
    ghost use Rattle.rig_io.specs.Fault.{HasCause, StaysUnless};
    ghost use Rattle.rig_io.specs.Accept.{CountsAccepted, ListsAccepted, AllAccepted, Listens};
    ghost use Rattle.rig_io.specs.MemAcceptors.{Accepts};
    ghost use Rattle.rig_io.specs.MemLinks.{counted};

    type Link = MemLink;

    ghost given_count = { λ a. a.given_count };

    ghost retired_count = { λ a. length a.retired };

    ghost asked = { λ a. (a.asked, a.before) };

    ghost given = { λ a. Some a.given };

    ghost retired = { λ a. Some a.retired };

    ghost faults = { λ a. a.faults };

    ghost idles = { λ _. 0 };

    fn listen(&mut self, _address: &str, connections: u64) -> bool
        ensures answer { result ≡ true }
        ensures same { self.new ≡ record self.old { asked = connections; before = self.old.given_count } }
    {
        self.before = self.given_count;
        self.asked = connections;
        true
    }

    fn poll_accept(&mut self) -> Accepted<MemLink>
        ensures given_count { CountsAccepted self.old.given_count self.new.given_count result }
        ensures given { ListsAccepted (Some self.old.given) (Some self.new.given) result }
        ensures closed { (result ≡ Accepted.Closed) ↔ AllAccepted self.old.given_count self.old.before self.old.asked }
        ensures cause { HasCause self.old.faults self.new.faults (result ≡ Accepted.Failed) }
        ensures stays { StaysUnless self.old.faults self.new.faults (result ≡ Accepted.Failed) }
        ensures exact { Accepts self.old.pending self.new.pending result self.old.refused self.new.refused }
        ensures count { result ≡ Accepted.Failed → self.new.faults ≡ counted self.old.faults }
        ensures asked { (self.new.asked ≡ self.old.asked) × (self.new.before ≡ self.old.before) }
        ensures retired { self.new.retired ≡ self.old.retired }
    {
        if self.given_count - self.before == self.asked {
            return Accepted::Closed;
        }
        if self.pending.is_empty() {
            self.faults = self.faults.saturating_add(1);
            return Accepted::Failed;
        }
        match self.retired.reserve(
            (self.given_count as usize + 1).saturating_sub(self.retired.len()),
        ) {
            Ok(()) => {}
            Err(_) => {
                self.refused = self.refused.saturating_add(1);
                self.faults = self.faults.saturating_add(1);
                return Accepted::Failed;
            }
        }
        self.given_count += 1;
        Accepted::New(self.pending.remove(0))
    }

    fn retire(&mut self, link: MemLink)
        requires { length self.old.retired < self.old.given_count }
        ensures { self.new ≡ record self.old { retired = self.old.retired ++ link ∷ [] } }
    {
        self.retired.push_reserved(link);
    }
}
