//! What takes entries away together: the end of a primary's session, and a Flush.
ghost use Rattle.std.specs.Prelude.{◌≡◌, ◌≢◌, ◌+◌, ◌<◌, ◌≤◌, ◌^◌, false, [], if◌then◌else◌};
ghost use Rattle.rib_core.specs.Decisions.{purges_in, may_flush_in};
ghost use Rattle.rib_core.specs.Stands.{Acts};

use crate::machine::RibCore;
use crate::operations::is_it;
use table_model::{Command, FlushBy, Persistence, Reply, Which};

impl RibCore {
    pub(crate) fn leave(&mut self, session: u64) -> Reply
        requires room { self.old.count < 2 ^ 62 }
        ensures stands { Acts self.old (Command.Leave session) result self.new }
        ensures config { self.new.config ≡ self.old.config }
        ensures never { result ≢ Reply.NoMemory }
        ensures count { self.new.count ≤ self.old.count + 1 }
    {
        if !self.sessions.is_entered(session) {
            self.tables.advance();
            return Reply::Gone;
        }
        let purges = self.purges(session);
        self.tables.leave(session, purges);
        self.election.leave(session);
        self.sessions.leave(session);
        Reply::Left
    }

    // Whether the session is the primary, and the whole table goes with it.
    fn purges(&self, session: u64) -> bool
        ensures { result ≡ purges_in self.now session }
    {
        let primary = is_it(self.election.primary(), session);
        let deletes = match self.sessions.params_of(session) {
            None => false,
            Some(params) => params.persistence == Persistence::Delete,
        };
        primary && deletes
    }

    pub(crate) fn flush(&mut self, by: FlushBy, which: Which, now: i64) -> Reply
        requires room { self.old.count < 2 ^ 62 }
        requires running { self.old.halted ≡ false }
        ensures stands { Acts self.old (Command.Flush by which now) result self.new }
        ensures config { self.new.config ≡ self.old.config }
        ensures never { result ≢ Reply.NoMemory }
        ensures count { self.new.count ≤ self.old.count + 1 }
    {
        let _ = now;
        if !self.may_flush(by) {
            self.tables.advance();
            return Reply::FlushRefused(self.election.highest());
        }
        Reply::Flushed(self.tables.flush(which))
    }

    // Whether the election allows the Flush, or it overrides the election.
    fn may_flush(&self, by: FlushBy) -> bool
        ensures { result ≡ may_flush_in self.now by }
    {
        match by {
            FlushBy::Override => true,
            FlushBy::Id(id) => id != 0 && self.election.highest() <= id,
        }
    }
}
