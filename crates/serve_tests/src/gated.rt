//! Gates, at which links and devices wait for one another.
ghost use Rattle.std.specs.Prelude.{◌<◌};

use rig_io::Gates;
use std::thread::yield_now;

// A holder gives up once it has waited so often.
const WAITS: u32 = 1_000_000;

/// A gate of a test.
#[derive(Clone, Copy)]
pub(crate) enum Gate {
    /// The first gate.
    First,
    /// The second gate.
    Second,
    /// A holder gave up.
    GaveUp,
}

fn number(gate: Gate) -> usize
    ensures { result < 8 }
{
    match gate {
        Gate::First => 0,
        Gate::Second => 1,
        Gate::GaveUp => 7,
    }
}

/// Raises a gate.
pub(crate) fn raise(gates: &Gates, gate: Gate) {
    gates.raise(number(gate));
}

/// Whether a gate was raised.
pub(crate) fn is_up(gates: &Gates, gate: Gate) -> bool {
    gates.is_up(number(gate))
}

/// What waits for a gate.
#[derive(Drop)]
pub(crate) struct Holder<'a> {
    gates: &'a Gates,
    gate: Gate,
    waits: u32,
}

impl<'a> Holder<'a> {
    /// It has not waited yet.
    pub(crate) fn new(gates: &'a Gates, gate: Gate) -> Holder<'a> {
        Holder {
            gates,
            gate,
            waits: 0,
        }
    }

    /// Whether it waits no more: its gate is up, or a holder gave up. Else it yields its thread.
    pub(crate) fn may_pass(&mut self) -> bool {
        if is_up(self.gates, self.gate) || is_up(self.gates, Gate::GaveUp) {
            return true;
        }
        if self.waits >= WAITS {
            raise(self.gates, Gate::GaveUp);
            return true;
        }
        self.waits += 1;
        yield_now();
        false
    }

    /// Waits until it may pass.
    pub(crate) fn pass(&mut self) {
        for _ in 0..=WAITS {
            if self.may_pass() {
                return;
            }
        }
    }
}
