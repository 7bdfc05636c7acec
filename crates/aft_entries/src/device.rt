ghost use Rattle.std.specs.Prelude.{◌≡◌, ℕ, List, Option, Some, None};
ghost use Rattle.aft_entries.specs.declared.entry.Entry.{Entry};

use crate::entry::Entry;
use crate::key::Key;
use crate::operation::Act;

/// What forwards packets: entries are installed in it and removed from it.
pub trait Device: Drop {
    ghost use Rattle.aft_entries.specs.Devices.{Acts, CountsAnswer, HasKeysOnce};

    /// The entries that it has, in any order, where the device tells them.
    ghost contents: { Self → Option (List Entry) };

    /// How often it has failed.
    ghost faults: { Self → ℕ };

    /// How often it has done what was asked.
    ghost dones: { Self → ℕ };

    /// Puts the entry in place of the one with its key. Where it fails, it has what it had.
    fn install(&mut self, entry: &Entry) -> Act
        ensures contents { Acts result entry.now.key (Some entry.now) (contents self.old) (contents self.new) }
        ensures once { HasKeysOnce (contents self.old) → HasKeysOnce (contents self.new) }
        ensures faults { CountsAnswer (faults self.old) (faults self.new) (result ≡ Act.Failed) }
        ensures dones { CountsAnswer (dones self.old) (dones self.new) (result ≡ Act.Done) };

    /// Takes out the entry with this key. A key that isn't there is no cause to fail. Where it fails, it has
    /// what it had.
    fn remove(&mut self, key: &Key) -> Act
        ensures contents { Acts result key.now None (contents self.old) (contents self.new) }
        ensures once { HasKeysOnce (contents self.old) → HasKeysOnce (contents self.new) }
        ensures faults { CountsAnswer (faults self.old) (faults self.new) (result ≡ Act.Failed) }
        ensures dones { CountsAnswer (dones self.old) (dones self.new) (result ≡ Act.Done) };
}
