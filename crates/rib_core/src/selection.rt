//! What a Get selects.
ghost use Rattle.std.specs.Prelude.{◌≡◌, ◌+◌, ◌<◌, ◌≤◌, ◌^◌, false};
ghost use Rattle.rib_core.specs.Stands.{Acts};

use crate::machine::RibCore;
use table_model::{Command, KindAsk, Reply, Which};

impl RibCore {
    pub(crate) fn select(&mut self, which: Which, kinds: KindAsk) -> Reply
        requires room { self.old.count < 2 ^ 62 }
        requires running { self.old.halted ≡ false }
        ensures stands { Acts self.old (Command.Select which kinds) result self.new }
        ensures config { self.new.config ≡ self.old.config }
        ensures refused { result ≡ Reply.NoMemory → self.new ≡ self.old }
        ensures count { self.new.count ≤ self.old.count + 1 }
    {
        match self.tables.select(which, kinds) {
            Err(_) => Reply::NoMemory,
            Ok(rows) => {
                self.tables.advance();
                Reply::Selected(rows)
            }
        }
    }
}
