//! What a session asks for itself: that it begins, its parameters, its announcements.
ghost use Rattle.std.specs.Prelude.{◌≡◌, ◌≢◌, ◌+◌, ◌<◌, ◌≤◌, ◌^◌, true, false};
ghost use Rattle.rib_core.specs.Core.{without_spare};
ghost use Rattle.rib_core.specs.Ends.{announce_reply};
ghost use Rattle.rib_core.specs.Stands.{Acts};
ghost use Rattle.session_params.specs.Book.{set_reply};

use crate::machine::RibCore;
use election::AnnounceEnd;
use session_params::SetEnd;
use table_model::{AskedParams, Command, Reply};

impl RibCore {
    pub(crate) fn begin(&mut self) -> Reply
        requires room { self.old.count < 2 ^ 62 }
        requires running { self.old.halted ≡ false }
        ensures stands { Acts self.old Command.Begin result self.new }
        ensures config { self.new.config ≡ self.old.config }
        ensures refused { result ≡ Reply.NoMemory → self.new ≡ self.old }
        ensures count { self.new.count ≤ self.old.count + 1 }
    {
        let session = self.tables.count();
        match self.sessions.enter(session) {
            Err(_) => Reply::NoMemory,
            Ok(()) => {
                self.tables.advance();
                Reply::Began(session)
            }
        }
    }

    pub(crate) fn set_params(&mut self, session: u64, asked: AskedParams) -> Reply
        requires room { self.old.count < 2 ^ 62 }
        requires running { self.old.halted ≡ false }
        ensures stands { Acts self.old (Command.SetParams session asked) result self.new }
        ensures config { self.new.config ≡ self.old.config }
        ensures never { result ≢ Reply.NoMemory }
        ensures count { self.new.count ≤ self.old.count + 1 }
    {
        self.tables.advance();
        if !self.sessions.is_entered(session) {
            return Reply::Gone;
        }
        reply_to_set(self.sessions.set(session, asked))
    }

    pub(crate) fn announce(&mut self, session: u64, id: u128) -> Reply
        requires room { self.old.count < 2 ^ 62 }
        requires running { self.old.halted ≡ false }
        ensures stands { Acts self.old (Command.Announce session id) result self.new }
        ensures config { self.new.config ≡ self.old.config }
        ensures never { result ≢ Reply.NoMemory }
        ensures count { self.new.count ≤ self.old.count + 1 }
    {
        self.tables.advance();
        if !self.sessions.is_entered(session) {
            return Reply::Gone;
        }
        let params = self.sessions.params_of(session);
        if params.is_none() {
            return Reply::NoParams;
        }
        reply_to_announce(self.election.announce(session, id))
    }
}

fn reply_to_set(end: SetEnd) -> Reply
    ensures { result ≡ set_reply end }
{
    match end {
        SetEnd::Set => Reply::ParamsSet,
        SetEnd::Unsupported => Reply::ParamsUnsupported,
        SetEnd::NotAllowed => Reply::ParamsNotAllowed,
        SetEnd::Differs(other) => Reply::ParamsDiffer(other),
    }
}

fn reply_to_announce(end: AnnounceEnd) -> Reply
    ensures { result ≡ announce_reply end }
{
    match end {
        AnnounceEnd::Announced(highest) => Reply::Announced(highest),
        AnnounceEnd::ZeroId => Reply::ZeroId,
    }
}
