ghost use Rattle.std.specs.Prelude.{◌≡◌, ◌<◌, ◌+◌, List, ℕ, Option};

use crate::link::Link;

/// What a dialer answers.
#[derive(Drop)]
pub enum Dialled<L> {
    /// A new link.
    New(L),
    /// Dialling failed.
    Failed,
}

/// Gives links that it dials, and takes them back.
pub trait Dialer {
    /// The links that it gives.
    type Link: Link + Drop;

    ghost use Rattle.rig_io.specs.Fault.{HasCause, StaysUnless};
    ghost use Rattle.rig_io.specs.Accept.{CountsDialled, ListsDialled, Retires};

    /// How many links it gave.
    ghost given_count: { Self → ℕ };

    /// How many it took back.
    ghost retired_count: { Self → ℕ };

    /// The links given, as they were then, where it tells them.
    ghost given: { Self → Option (List Self.Link) };

    /// The links taken back, where it tells them.
    ghost retired: { Self → Option (List Self.Link) };

    /// How often it has failed.
    ghost faults: { Self → ℕ };

    /// Gives a link to the address, which it hands on unread, or fails.
    fn dial(&mut self, address: &str) -> Dialled<Self::Link>
        ensures given_count { CountsDialled (given_count self.old) (given_count self.new) result }
        ensures given { ListsDialled (given self.old) (given self.new) result }
        ensures cause { HasCause (faults self.old) (faults self.new) (result ≡ Dialled.Failed) }
        ensures stays { StaysUnless (faults self.old) (faults self.new) (result ≡ Dialled.Failed) }
        ensures retired { (retired_count self.new ≡ retired_count self.old) × (retired self.new ≡ retired self.old) };

    /// Takes back a link that is used no more, of which there are fewer than were given.
    fn retire(&mut self, link: Self::Link)
        requires { retired_count self.old < given_count self.old }
        ensures retired_count { retired_count self.new ≡ retired_count self.old + 1 }
        ensures retired { Retires (retired self.old) (retired self.new) link }
        ensures given { (given_count self.new ≡ given_count self.old) × (given self.new ≡ given self.old) }
        ensures faults { faults self.new ≡ faults self.old };
}
