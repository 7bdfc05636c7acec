//! The counter.
ghost use Rattle.std.specs.Prelude.{◌≡◌, ◌+◌, ◌%◌, ◌^◌};

use table_lock::Machine;

/// A total that wraps.
#[derive(Drop)]
pub struct Counter {
    /// What it began with.
    pub first: u64,
    /// What it stands at.
    pub total: u64,
}

impl Counter {
    /// A counter that stands at `first`.
    pub fn new(first: u64) -> Counter
        ensures { (result.first ≡ first) × (result.total ≡ first) }
    {
        Counter {
            first,
            total: first,
        }
    }
}

impl Machine for Counter {
    ghost use Rattle.lock_counter.specs.Totals.{Stands, IsLegal, stands_is_legal};

    type Command = u64;

    type Reply = u64;

    type Setup = u64;

    ghost setup = { λ c. c.first };

    ghost stands = { λ c log. Stands c.first c.total log };

    ghost lawful = { λ first log. IsLegal first log };

    fn act(&mut self, command: u64) -> u64 {
        self.total = self.total.wrapping_add(command);
        self.total
    }

    ghost stands_lawful = { λ c log h. stands_is_legal c.first c.total log h };
}
