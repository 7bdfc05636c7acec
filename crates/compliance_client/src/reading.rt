//! Reading of the link.
ghost use Rattle.std.specs.Prelude.{◌≡◌, ◌++◌, ◌∷◌, ◌<◌, ◌≤◌, ◌↔◌, ℕ, List, Err, [], false, true, IfErr, IfOk, length};
ghost use Rattle.std.specs.Option.{option_map};
ghost use Rattle.rig_io.specs.Fault.{HasCause, HasRisen, StaysUnless};
ghost use Rattle.rig_io.specs.Link.{received};
ghost use Rattle.schema_numbers.specs.Numbers.{Numbers};
ghost use Rattle.compliance_client.specs.Standing.{Past, Works};
ghost use Rattle.compliance_client.specs.Turns.{IsFault, Turned, got, over_of};

use crate::conn::{ClientConn, PIECE};
use crate::over::ClientOver;
use bytes::Bytes;
use grpc_stream::CallConnection;
use rig_io::{Link, LinkRead};

impl<K: CallConnection> ClientConn<K> {
    // Reads at most a piece and feeds it. Says whether a byte came.
    pub(crate) fn read<L: Link>(&mut self, link: &mut L) -> Result<bool, ClientOver>
        ensures goes { (n : Numbers) (past : Past) → Works K.stands n self.old.calls self.old.kept.items self.old.tally past →
            (bytes : List ℕ) × (length bytes ≤ 16384) × (L.pieces link.new ≡ option_map (λ told. told ++ got bytes) (L.pieces link.old))
            × Turned K.stands n (over_of result) self.new.calls self.new.kept.items self.new.tally past (got bytes)
            × IfOk result (λ moved. moved ≡ true ↔ 0 < length bytes) }
        ensures fault { HasCause (L.faults link.old) (L.faults link.new) (IsFault (over_of result)) }
        ensures ended { HasCause (L.ends link.old) (L.ends link.new) (result ≡ Err ClientOver.Ended)
            × StaysUnless (L.ends link.old) (L.ends link.new) (result ≡ Err ClientOver.Ended) }
        ensures idle { IfOk result (λ moved. moved ≡ false → HasRisen (L.read_idles link.old) (L.read_idles link.new)) }
        ensures writes { L.write_idles link.new ≡ L.write_idles link.old }
        ensures same { self.new ≡ record self.old { calls = self.new.calls } }
    {
        let mut buffer = [0u8; PIECE];
        match link.poll_read(&mut buffer) {
            LinkRead::NotReady => Ok(false),
            LinkRead::Failed => Err(ClientOver::ReadFault),
            LinkRead::End => Err(ClientOver::Ended),
            LinkRead::Got(n) => self.feed(&buffer[..n]),
        }
    }

    // Feeds a piece that was read.
    fn feed(&mut self, piece: &[u8]) -> Result<bool, ClientOver>
        requires some { 0 < length piece.now }
        ensures goes { (n : Numbers) (past : Past) → Works K.stands n self.old.calls self.old.kept.items self.old.tally past →
            Turned K.stands n (over_of result) self.new.calls self.new.kept.items self.new.tally past (received piece.now ∷ []) }
        ensures moved { IfOk result (λ moved. moved ≡ true) }
        ensures memory { IfErr result (λ why. why ≡ ClientOver.NoMemory) }
        ensures same { self.new ≡ record self.old { calls = self.new.calls } }
    {
        let Ok(bytes) = Bytes::copy_from_slice(self.alloc, piece) else {
            return Err(ClientOver::NoMemory);
        };
        match self.calls.feed(bytes) {
            Err(_) => Err(ClientOver::NoMemory),
            Ok(()) => Ok(true),
        }
    }
}
