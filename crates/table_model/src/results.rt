ghost use Rattle.std.specs.Prelude.{◌≡◌, ◌≤◌, [], take, drop, length};

use std::alloc::Global;
use std::collections::LinkedList;
use std::marker::Model;

/// What became of an operation in the forwarding table.
#[derive(Clone, Copy, Debug, PartialEq, Eq)]
pub struct FibResult {
    /// The operation's id.
    pub id: u64,
    /// None where it was programmed, else why not: 20 the device failed, 21 a reference wasn't there,
    /// 22 the key was in use.
    pub failed: Option<u8>,
    /// The moment of the event that completed the job, in nanoseconds of the caller's clock.
    pub now: i64,
}

impl Model for FibResult {
    ghost use Rattle.std.specs.Prelude.{IsTrue};
    ghost use Rattle.table_model.specs.Completed.{Completed, is_none_or_reason};

    ghost Value = { Completed };

    ghost view = { λ r. record { id = r.id; failed = r.failed; now = r.now } };

    ghost inverse = { λ c. record { id = c.id; failed = c.failed; now = c.now } };

    ghost invariant = { λ r. IsTrue (is_none_or_reason r.failed) };
}

/// Results that a session collects: at most 256. To make one takes no memory, since its places move from the
/// list of the results that are due.
#[derive(Drop)]
pub struct Batch {
    results: LinkedList<FibResult>,
}

impl Model for Batch {
    ghost use Rattle.std.specs.Prelude.{List, length, ◌≤◌};
    ghost use Rattle.table_model.specs.declared.results.FibResult.{FibResult};

    ghost Value = { List FibResult };

    ghost view = { λ b. b.results };

    ghost invariant = { λ b. length b.results ≤ 256 };
}

impl Batch {
    /// No results.
    pub fn empty(alloc: Global) -> Batch
        ensures { result ≡ [] }
    {
        Batch {
            results: LinkedList::new(alloc),
        }
    }

    /// The first 256 results that are due, or all, which are due no more.
    pub fn cut(due: &mut LinkedList<FibResult>) -> Batch
        ensures cut { result ≡ take 256 due.old }
        ensures rest { due.new ≡ drop 256 due.old }
    {
        let alloc = *due.allocator();
        if due.len() <= 256 {
            return Batch {
                results: std::mem::replace(due, LinkedList::new(alloc)),
            };
        }
        match due.split_off(256) {
            Ok(rest) => Batch {
                results: std::mem::replace(due, rest),
            },
            Err(_) => Batch::empty(alloc),
        }
    }

    /// How many results there are.
    pub fn len(&self) -> usize
        ensures count { result ≡ length self.now }
        ensures most { result ≤ 256 }
    {
        self.results.len()
    }

    /// The results, the one completed first first.
    pub fn as_list(&self) -> &LinkedList<FibResult>
        ensures { result.now ≡ self.now }
    {
        &self.results
    }

    /// The same list, and its places with it.
    pub fn into_list(self) -> LinkedList<FibResult>
        ensures { result ≡ self }
    {
        let Batch { results } = self;
        results
    }
}
