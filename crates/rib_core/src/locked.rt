//! The core as the machine of a lock.
ghost use Rattle.std.specs.Prelude.{◌≡◌, ◌<◌};

use crate::machine::RibCore;
use table_lock::Machine;
use table_model::{Command, Config, Reply};

impl Machine for RibCore {
    ghost use Rattle.rib_core.specs.Recorded.{IsLawful, Stands, stands_is_lawful};

    type Command = Command;

    type Reply = Reply;

    type Setup = Config;

    ghost setup = { λ core. core.config };

    ghost stands = { λ core calls. Stands core calls };

    ghost lawful = { λ config calls. IsLawful config calls };

    fn act(&mut self, command: Command) -> Reply {
        RibCore::act(self, command)
    }

    ghost stands_lawful = { λ core calls h. stands_is_lawful core calls h };
}
