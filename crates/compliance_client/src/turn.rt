//! One turn: reads, hears, writes.
ghost use Rattle.std.specs.Prelude.{◌≡◌, ◌⊎◌, ◌↔◌, ◌++◌, ◌<◌, ◌≤◌, ◌||◌, ℕ, List, None, Some, Err, IfOk, length, map, [], true, false};
ghost use Rattle.std.specs.List.{flat_map};
ghost use Rattle.std.specs.Option.{option_map};
ghost use Rattle.rig_io.specs.Fault.{HasCause, HasRisen, StaysUnless};
ghost use Rattle.rig_io.specs.Link.{Piece, sent, sent_bytes};
ghost use Rattle.schema_numbers.specs.Numbers.{Numbers};
ghost use Rattle.compliance_client.specs.declared.over.ClientOver.{ClientOver as OverView};
ghost use Rattle.compliance_client.specs.Standing.{Past, Works};
ghost use Rattle.compliance_client.specs.Turns.{IsFault, IsTurnFault, Moves, Puts, Turned, got, moved_in, over_at, over_of};

use crate::conn::ClientConn;
use crate::over::{ClientOver, ClientTurn};
use grpc_stream::CallConnection;
use rig_io::Link;
use schema_numbers::Numbering;

fn is_any(a: bool, b: bool) -> bool
    ensures { result ≡ (a || b) }
{
    a || b
}

impl<K: CallConnection> ClientConn<K> {
    /// One turn on the link: reads at most 16,384 bytes, hears every whole event, and writes until nothing waits or the link takes no
    /// more. A connection that is over answers the same from then on, and leaves the link alone.
    pub fn turn<L: Link>(&mut self, n: &Numbering, link: &mut L) -> ClientTurn
        ensures goes { self.old.over ≡ None → (past : Past) → Works K.stands n.now self.old.calls self.old.kept.items self.old.tally past →
            (more : List Piece) × (L.pieces link.new ≡ option_map (λ told. told ++ more) (L.pieces link.old))
            × Turned K.stands n.now (over_at result) self.new.calls self.new.kept.items self.new.tally past more × Moves result more }
        ensures keeps { self.old.over ≡ None → self.new.over ≡ over_at result }
        ensures over { (why : OverView) → self.old.over ≡ Some why → (result ≡ ClientTurn.Over why) × (self.new ≡ self.old) × (link.new ≡ link.old) }
        ensures fault { self.old.over ≡ None → HasCause (L.faults link.old) (L.faults link.new) (IsTurnFault result) }
        ensures ended { self.old.over ≡ None → HasCause (L.ends link.old) (L.ends link.new) (result ≡ ClientTurn.Over ClientOver.Ended)
            × StaysUnless (L.ends link.old) (L.ends link.new) (result ≡ ClientTurn.Over ClientOver.Ended) }
        ensures idle { self.old.over ≡ None → result ≡ ClientTurn.Idle → HasRisen (L.read_idles link.old) (L.read_idles link.new) }
        ensures written { self.old.over ≡ None → over_at result ≡ None →
            (K.output self.new.calls ≡ []) ⊎ HasRisen (L.write_idles link.old) (L.write_idles link.new) }
    {
        if let Some(over) = self.over {
            return ClientTurn::Over(over);
        }
        match self.go(n, link) {
            Ok(true) => ClientTurn::Progress,
            Ok(false) => ClientTurn::Idle,
            Err(over) => {
                self.flush(link, over);
                self.over = Some(over);
                ClientTurn::Over(over)
            }
        }
    }

    // The whole turn of a connection that isn't over. Says whether a byte moved.
    fn go<L: Link>(&mut self, n: &Numbering, link: &mut L) -> Result<bool, ClientOver>
        ensures goes { (past : Past) → Works K.stands n.now self.old.calls self.old.kept.items self.old.tally past →
            (more : List Piece) × (L.pieces link.new ≡ option_map (λ told. told ++ more) (L.pieces link.old))
            × Turned K.stands n.now (over_of result) self.new.calls self.new.kept.items self.new.tally past more
            × IfOk result (λ moved. moved ≡ true ↔ 0 < moved_in more) }
        ensures fault { HasCause (L.faults link.old) (L.faults link.new) (IsFault (over_of result)) }
        ensures ended { HasCause (L.ends link.old) (L.ends link.new) (result ≡ Err ClientOver.Ended)
            × StaysUnless (L.ends link.old) (L.ends link.new) (result ≡ Err ClientOver.Ended) }
        ensures idle { IfOk result (λ moved. moved ≡ false → HasRisen (L.read_idles link.old) (L.read_idles link.new)) }
        ensures written { IfOk result (λ _. (K.output self.new.calls ≡ []) ⊎ HasRisen (L.write_idles link.old) (L.write_idles link.new)) }
        ensures same { self.new ≡ record self.old { calls = self.new.calls; kept = self.new.kept; tally = self.new.tally } }
    {
        match self.take_in(n, link) {
            Err(over) => Err(over),
            Ok(has_read) => self.put_out(link, has_read),
        }
    }

    // Reads, and hears what was read. Says whether a byte came.
    fn take_in<L: Link>(&mut self, n: &Numbering, link: &mut L) -> Result<bool, ClientOver>
        ensures goes { (past : Past) → Works K.stands n.now self.old.calls self.old.kept.items self.old.tally past →
            (bytes : List ℕ) × (length bytes ≤ 16384) × (L.pieces link.new ≡ option_map (λ told. told ++ got bytes) (L.pieces link.old))
            × Turned K.stands n.now (over_of result) self.new.calls self.new.kept.items self.new.tally past (got bytes)
            × IfOk result (λ moved. moved ≡ true ↔ 0 < length bytes) }
        ensures fault { HasCause (L.faults link.old) (L.faults link.new) (IsFault (over_of result)) }
        ensures ended { HasCause (L.ends link.old) (L.ends link.new) (result ≡ Err ClientOver.Ended)
            × StaysUnless (L.ends link.old) (L.ends link.new) (result ≡ Err ClientOver.Ended) }
        ensures idle { IfOk result (λ moved. moved ≡ false → HasRisen (L.read_idles link.old) (L.read_idles link.new)) }
        ensures writes { L.write_idles link.new ≡ L.write_idles link.old }
        ensures same { self.new ≡ record self.old { calls = self.new.calls; kept = self.new.kept; tally = self.new.tally } }
    {
        match self.read(link) {
            Err(over) => Err(over),
            Ok(false) => Ok(false),
            Ok(true) => match self.hear_all(n) {
                Err(over) => Err(over),
                Ok(()) => Ok(true),
            },
        }
    }

    // Frames what the windows allow, and writes. Says whether a byte moved.
    fn put_out<L: Link>(&mut self, link: &mut L, has_read: bool) -> Result<bool, ClientOver>
        ensures goes { (n : Numbers) (past : Past) → Works K.stands n self.old.calls self.old.kept.items self.old.tally past →
            (texts : List (List ℕ)) × (L.pieces link.new ≡ option_map (λ told. told ++ map sent texts) (L.pieces link.old))
            × Turned K.stands n (over_of result) self.new.calls self.new.kept.items self.new.tally past (map sent texts)
            × IfOk result (λ moved. moved ≡ true ↔ ((has_read ≡ true) ⊎ (0 < length (flat_map sent_bytes (map sent texts))))) }
        ensures fault { HasCause (L.faults link.old) (L.faults link.new) (IsFault (over_of result)) }
        ensures unended { (result ≡ Err ClientOver.Ended → ⊥) × (L.ends link.new ≡ L.ends link.old) }
        ensures read { IfOk result (λ moved. moved ≡ false → has_read ≡ false) × (L.read_idles link.new ≡ L.read_idles link.old) }
        ensures written { IfOk result (λ _. (K.output self.new.calls ≡ []) ⊎ HasRisen (L.write_idles link.old) (L.write_idles link.new)) }
        ensures same { self.new ≡ record self.old { calls = self.new.calls } }
    {
        match self.pump() {
            Err(over) => Err(over),
            Ok(()) => match self.put_all(link) {
                None => Err(ClientOver::WriteFault),
                Some(has_written) => Ok(is_any(has_read, has_written)),
            },
        }
    }

    // What can be written now of a connection that is over is written, unless its link failed: how that goes changes nothing.
    fn flush<L: Link>(&mut self, link: &mut L, over: ClientOver)
        ensures puts { (texts : List (List ℕ)) × Puts K.stands K.output self.old.calls self.new.calls (L.pieces link.old) (L.pieces link.new) texts }
        ensures faults { L.faults link.old ≤ L.faults link.new }
        ensures ends { L.ends link.new ≡ L.ends link.old }
        ensures same { self.new ≡ record self.old { calls = self.new.calls } }
    {
        match over {
            ClientOver::ReadFault => {}
            ClientOver::WriteFault => {}
            _ => {
                let _ = self.put_all(link);
            }
        }
    }
}
