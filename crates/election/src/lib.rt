//! The election of a single primary among sessions (gRIBI, client redundancy SINGLE_PRIMARY).
//!
//! An id is 128 bits. The highest id never falls. The primary is the session whose announcement was, when it
//! came, at least as high as every earlier one, as long as that session is live and announces nothing else.
//!
//! Begin with `Election::new`, then `announce`. The contract is `specs/ElectionState`: what an election stands for.
//!
//! ```ignore
//! let mut election = Election::new();
//! election.announce(0, 5);
//! election.announce(1, 5); // among equal ids the latest: `election.primary()` is session 1
//! ```
#![tactic(auto)]

ghost use Rattle.std.specs.Prelude.{◌≡◌, ◌≢◌, true, max, List, [], ◌∷◌};
ghost use Rattle.table_model.specs.Event.{Event};
ghost use Rattle.table_model.specs.Sessions.{is_live};
ghost use Rattle.table_model.specs.Election as history;
ghost use Rattle.election.specs.ElectionState.{StandsFor, announced, left};

use std::marker::Model;

/// How an announcement ended.
#[derive(Clone, Copy, Debug, PartialEq, Eq)]
pub enum AnnounceEnd {
    /// It is accepted; the highest id, this one included.
    Announced(u128),
    /// Its id is 0, which no announcement may have. Nothing changed.
    ZeroId,
}

/// The highest id that was announced, and the primary.
#[derive(Drop)]
pub struct Election {
    highest: u128,
    primary: Option<u64>,
}

impl Model for Election {
    ghost use Rattle.table_model.specs.Election as history;
    ghost use Rattle.election.specs.ElectionState.{ElectionState};

    ghost Value = { ElectionState };

    ghost view = { λ e. record { highest = e.highest; primary = e.primary } };
}

impl Election {
    /// No announcement yet: the highest id is 0, and there is no primary.
    pub fn new() -> Election
        ensures { StandsFor result [] }
    {
        Election {
            highest: 0,
            primary: None,
        }
    }

    /// The greatest id that was announced, or 0.
    pub fn highest(&self) -> u128
        ensures kept { result ≡ self.now.highest }
        ensures stands { (past : List Event) → StandsFor self.now past → result ≡ history.highest past }
    {
        self.highest
    }

    /// The session that may write, if there is one.
    pub fn primary(&self) -> Option<u64>
        ensures kept { result ≡ self.now.primary }
        ensures stands { (past : List Event) → StandsFor self.now past → result ≡ history.primary past }
    {
        self.primary
    }

    /// A live session announces an id. Where it is at least the highest, the session becomes the primary; else it
    /// is the primary no longer.
    pub fn announce(&mut self, session: u64, id: u128) -> AnnounceEnd
        ensures zero { id ≡ 0 → (result ≡ AnnounceEnd.ZeroId) × (self.new ≡ self.old) }
        ensures announced { id ≢ 0 → result ≡ AnnounceEnd.Announced (max id self.old.highest) }
        ensures elected { (past : List Event) → id ≢ 0 → StandsFor self.old past → is_live past session ≡ true
            → StandsFor self.new (announced session id (max id self.old.highest) ∷ past) }
    {
        if id == 0 {
            return AnnounceEnd::ZeroId;
        }
        self.primary = if id >= self.highest {
            Some(session)
        } else {
            other_than(session, self.primary)
        };
        self.highest = id.max(self.highest);
        AnnounceEnd::Announced(self.highest)
    }

    /// A session ends, and is the primary no longer.
    pub fn leave(&mut self, session: u64)
        ensures { (past : List Event) → StandsFor self.old past → StandsFor self.new (left session ∷ past) }
    {
        self.primary = other_than(session, self.primary);
    }
}

// The holder, unless it is this session.
fn other_than(session: u64, holder: Option<u64>) -> Option<u64>
    ensures { result ≡ history.other_than session holder }
{
    match holder {
        Some(other) if session != other => holder,
        _ => None,
    }
}
