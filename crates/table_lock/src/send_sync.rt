//! A lock may be shared, and a pass and a note may be sent, where the machine may be sent.
ghost use Rattle.std.specs.Prelude.{◌≡◌};

use crate::lock::{Note, Pass, TableLock};
use crate::machine::Machine;

fn sent<T: Send>(x: T) -> T
    ensures { result ≡ x }
{
    x
}

fn shared<T: Sync>(x: &T) -> &T
    ensures { result.now ≡ x.now }
{
    x
}

/// A pass that may go to another thread.
pub fn pass_is_send<M: Machine + Send>(pass: Pass<M>) -> Pass<M>
    ensures { result ≡ pass }
{
    sent(pass)
}

/// A note that may go to another thread.
pub fn note_is_send<M: Machine + Send>(note: Note<M>) -> Note<M>
    ensures { result ≡ note }
{
    sent(note)
}

/// A lock that threads may share.
pub fn lock_is_sync<M: Machine + Send>(lock: &TableLock<M>) -> &TableLock<M>
    ensures { result.now ≡ lock.now }
{
    shared(lock)
}
