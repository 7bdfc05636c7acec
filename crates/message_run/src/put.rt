ghost use Rattle.std.specs.Prelude.{◌≡◌, ◌<◌, true, false};
ghost use Rattle.rig_io.specs.Fault.{HasCause, StaysUnless};
ghost use Rattle.message_run.specs.Written.{Wrote, WrotePart};

use rig_io::{Placed, Sink};

/// Places all of the piece, unless the sink fails: then what was placed is the piece's front.
pub fn write_all<K: Sink>(output: &mut K, piece: &[u8]) -> bool
    ensures all { result ≡ true → Wrote (K.placed output.old) piece.now (K.placed output.new) }
    ensures part { WrotePart (K.placed output.old) piece.now (K.placed output.new) }
    ensures cause { HasCause (K.faults output.old) (K.faults output.new) (result ≡ false) }
    ensures stays { StaysUnless (K.faults output.old) (K.faults output.new) (result ≡ false) }
{
    let mut rest = piece;
    while !rest.is_empty() {
        match output.put(rest) {
            Placed::Put(count) => {
                let (_, others) = rest.split_at(count);
                rest = others;
            }
            Placed::Failed => return false,
        }
    }
    true
}
