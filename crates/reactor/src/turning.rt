ghost use Rattle.std.specs.Prelude.{◌≡◌};

use std::sync::Wait;

/// What a turn came to.
#[derive(Clone, Copy, Debug, PartialEq, Eq)]
pub enum Turned {
    /// Something was done.
    Progress,
    /// There was nothing to do.
    Idle,
    /// The item has no more turns.
    Over,
}

/// An item that takes turns.
pub trait Turning {
    ghost use Rattle.reactor.specs.Turns.{IfOver};
    ghost use Rattle.reactor.specs.declared.turning.Turned.{Turned};

    /// What each turn keeps.
    ghost keeps: { Self → Type 0 };

    /// What holds after a turn that was the last.
    ghost ends: { Self → Type 0 };

    /// What a turn makes of the item, and what it comes to.
    ghost goes: { Self → Self → Turned → Type 0 };

    /// One turn.
    fn turn<R: Wait>(&mut self, rt: &R) -> Turned
        requires { keeps self.old }
        ensures keeps { keeps self.new }
        ensures over { IfOver result (ends self.new) }
        ensures goes { goes self.old self.new result };
}
