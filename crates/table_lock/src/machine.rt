//! What a lock is put round.
ghost use Rattle.std.specs.Prelude.{◌≡◌, ℕ, ◌^◌, ◌<◌, List, [], ◌∷◌, ◌++◌, length};
ghost use Rattle.table_lock.specs.declared.machine.Entry.{Entry};

/// A call in a history: the number of its pass, what was asked and what was answered.
pub struct Entry<C, R> {
    /// The number of the pass.
    pub by: u64,
    /// What was asked.
    pub command: C,
    /// What was answered.
    pub reply: R,
}

/// An object with one call, `act`, which is to be put under a lock.
pub trait Machine: Drop {
    /// What a call asks.
    type Command: Drop;

    /// What it answers.
    type Reply: Drop;

    /// What a machine is made with and keeps. No value of it needs to be made.
    type Setup;

    /// The setup of this machine.
    ghost setup: { Self → Self.Setup };

    /// The machine is one that these calls may leave.
    ghost stands: { Self → List (Entry Self.Command Self.Reply) → Type 0 };

    /// The histories that machines of a setup may have.
    ghost lawful: { Self.Setup → List (Entry Self.Command Self.Reply) → Type 0 };

    /// Does one call. A machine that stands for a history then stands for that history with this call, whatever pass made it.
    fn act(&mut self, command: Self::Command) -> Self::Reply
        requires { (history : List (Entry Self.Command Self.Reply)) × stands self.old history × (length history < 2 ^ 62) }
        ensures setup { setup self.new ≡ setup self.old }
        ensures event { (by : ℕ) (history : List (Entry Self.Command Self.Reply))
            → stands self.old history
            → length history < 2 ^ 62
            → stands self.new (history ++ record { by = by; command = command; reply = result } ∷ []) };

    /// A machine stands for lawful histories of its setup alone.
    ghost stands_lawful: { (x : Self) (history : List (Entry Self.Command Self.Reply)) → stands x history → lawful (setup x) history };
}
