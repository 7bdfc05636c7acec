ghost use Rattle.std.specs.Prelude.{◌≡◌, pos, ◌+ℤ◌};
ghost use Rattle.std.specs.Int.{w64, saturate_signed};

use std::marker::Model;

/// A clock, whose moments are nanoseconds of which nothing is known.
pub trait Clock: Drop {
    /// The moment, in nanoseconds.
    fn now(&mut self) -> i64;

    /// A clock of the same kind, for another thread.
    fn twin(&self) -> Self;
}

/// Answers `first`, and then one more at each call, up to the greatest moment.
#[derive(Drop)]
pub struct StepClock {
    /// What it answers next.
    pub next: i64,
}

impl StepClock {
    /// A clock that answers `first` next.
    pub fn new(first: i64) -> StepClock
        ensures { result.next ≡ first }
    {
        StepClock { next: first }
    }
}

impl Clock for StepClock {
    fn now(&mut self) -> i64
        ensures moment { result ≡ self.old.next }
        ensures next { self.new.next ≡ saturate_signed w64 (self.old.next +ℤ pos 1) }
    {
        let now = self.next;
        self.next = now.saturating_add(1);
        now
    }

    fn twin(&self) -> StepClock
        ensures { result.next ≡ self.now.next }
    {
        StepClock { next: self.next }
    }
}
