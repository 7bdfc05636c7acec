ghost use Rattle.std.specs.Prelude.{◌≡◌, ◌+◌, ◌<◌, ◌^◌, ◌++◌, List, ℕ, Option, length, IfSome, Some};
ghost use Rattle.rig_io.specs.Fault.{HasCause, StaysUnless};
ghost use Rattle.message_run.specs.Behaviour.{Behaviour};
ghost use Rattle.message_run.specs.Reading.{RunContinues, HandlesPiece, IsOfPieces};
ghost use Rattle.message_run.specs.declared.stop.Stop.TheVariants.{WriteFault};

use crate::feed::feed;
use crate::message_handler::MessageHandler;
use crate::put::write_all;
use crate::stop::Stop;
use rig_io::Sink;

/// Acts on one more piece of the input, behind `taken` bytes, and writes the answers, which are gathered in `out`.
pub fn handle_chunk<A: MessageHandler, K: Sink>(
    server: &mut A,
    taken: u64,
    held: &mut Vec<u8>,
    piece: &[u8],
    out: &mut Vec<u8>,
    output: &mut K,
) -> Option<Stop>
    requires goes { (so_far : Behaviour) × (bytes : List ℕ) × (before : Option (List ℕ)) × A.shows server.old so_far ×
        RunContinues so_far (A.stands server.old so_far) bytes held.old.items before (K.placed output.old)
        × (length bytes ≡ taken) }
    requires short { taken + length piece.now < 2 ^ 61 }
    ensures became { (first : A) → A.became first server.old → A.became first server.new }
    ensures cases { (so_far : Behaviour) (bytes : List ℕ) (before : Option (List ℕ)) → A.shows server.old so_far →
        RunContinues so_far (A.stands server.old so_far) bytes held.old.items before (K.placed output.old) → length bytes ≡ taken →
        HandlesPiece (A.shows server.new) (A.stands server.new) result (bytes ++ piece.now) held.new.items before (K.placed output.new) }
    ensures kinds { IfSome result IsOfPieces }
    ensures cause { HasCause (K.faults output.old) (K.faults output.new) (result ≡ Some WriteFault) }
    ensures stays { StaysUnless (K.faults output.old) (K.faults output.new) (result ≡ Some WriteFault) }
{
    let start = taken - held.len() as u64;
    if held.extend_from_slice(piece).is_err() {
        return Some(Stop::NoMemory);
    }
    out.clear();
    let fed = feed(server, start, held, out);
    if !write_all(output, out) {
        return Some(Stop::WriteFault);
    }
    fed
}
