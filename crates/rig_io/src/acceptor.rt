ghost use Rattle.std.specs.Prelude.{◌≡◌, ◌<◌, ◌≤◌, ◌+◌, ◌↔◌, List, ℕ, Option, false};

use crate::link::Link;

/// What an acceptor answers.
#[derive(Drop)]
pub enum Accepted<L> {
    /// A new link.
    New(L),
    /// No new link is there now.
    NotReady,
    /// As many links were given as were asked for.
    Closed,
    /// Accepting failed.
    Failed,
}

/// Gives links that others dial, and takes them back.
pub trait Acceptor {
    /// The links that it gives.
    type Link: Link + Drop;

    ghost use Rattle.rig_io.specs.Fault.{HasCause, StaysUnless};
    ghost use Rattle.rig_io.specs.Accept.{CountsAccepted, ListsAccepted, Retires, AllAccepted, Listens};

    /// How many links it gave.
    ghost given_count: { Self → ℕ };

    /// How many it took back.
    ghost retired_count: { Self → ℕ };

    /// How many links the last `listen` that answered true asked for, and how many had been given before it.
    ghost asked: { Self → ℕ × ℕ };

    /// The links given, as they were then, where it tells them.
    ghost given: { Self → Option (List Self.Link) };

    /// The links taken back, where it tells them.
    ghost retired: { Self → Option (List Self.Link) };

    /// How often it has failed.
    ghost faults: { Self → ℕ };

    /// How often no new link was there.
    ghost idles: { Self → ℕ };

    /// Opens the address for so many links, those given before not counted. It answers false, and leaves
    /// what was asked for as it was, where that failed.
    fn listen(&mut self, address: &str, connections: u64) -> bool
        ensures asked { Listens result (given_count self.old) connections (asked self.old) (asked self.new) }
        ensures cause { HasCause (faults self.old) (faults self.new) (result ≡ false) }
        ensures stays { StaysUnless (faults self.old) (faults self.new) (result ≡ false) }
        ensures given_count { given_count self.new ≡ given_count self.old }
        ensures retired_count { retired_count self.new ≡ retired_count self.old }
        ensures idle { idles self.new ≡ idles self.old }
        ensures told { (given self.new ≡ given self.old) × (retired self.new ≡ retired self.old) };

    /// Gives the next link, if one is there. It answers `Closed` exactly where as many links were given as
    /// the last `listen` that answered true asked for.
    fn poll_accept(&mut self) -> Accepted<Self::Link>
        ensures given_count { CountsAccepted (given_count self.old) (given_count self.new) result }
        ensures given { ListsAccepted (given self.old) (given self.new) result }
        ensures closed { (result ≡ Accepted.Closed) ↔ AllAccepted (given_count self.old) ((asked self.old).1) ((asked self.old).0) }
        ensures cause { HasCause (faults self.old) (faults self.new) (result ≡ Accepted.Failed) }
        ensures stays { StaysUnless (faults self.old) (faults self.new) (result ≡ Accepted.Failed) }
        ensures idle { HasCause (idles self.old) (idles self.new) (result ≡ Accepted.NotReady) }
        ensures awake { StaysUnless (idles self.old) (idles self.new) (result ≡ Accepted.NotReady) }
        ensures asked { asked self.new ≡ asked self.old }
        ensures retired { (retired_count self.new ≡ retired_count self.old) × (retired self.new ≡ retired self.old) };

    /// Takes back a link that is used no more, of which there are fewer than were given.
    fn retire(&mut self, link: Self::Link)
        requires { retired_count self.old < given_count self.old }
        ensures retired_count { retired_count self.new ≡ retired_count self.old + 1 }
        ensures retired { Retires (retired self.old) (retired self.new) link }
        ensures given { (given_count self.new ≡ given_count self.old) × (given self.new ≡ given self.old) }
        ensures same { asked self.new ≡ asked self.old }
        ensures counts { (faults self.new ≡ faults self.old) × (idles self.new ≡ idles self.old) };
}
