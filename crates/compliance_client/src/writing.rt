//! Writing to the link.
ghost use Rattle.std.specs.Prelude.{◌≡◌, ◌⊎◌, ◌↔◌, ◌<◌, ◌∷◌, [], ℕ, List, None, IfErr, IfSome, length, map, true};
ghost use Rattle.std.specs.List.{flat_map};
ghost use Rattle.rig_io.specs.Fault.{HasCause, HasRisen, StaysUnless};
ghost use Rattle.rig_io.specs.Link.{sent, sent_bytes};
ghost use Rattle.schema_numbers.specs.Numbers.{Numbers};
ghost use Rattle.compliance_client.specs.Standing.{Past, Works};
ghost use Rattle.compliance_client.specs.Turns.{Puts, Turned, over_of};

use crate::conn::ClientConn;
use crate::over::ClientOver;
use grpc_stream::CallConnection;
use rig_io::{Link, LinkWrite};

impl<K: CallConnection> ClientConn<K> {
    // Lets what the windows allow be framed.
    pub(crate) fn pump(&mut self) -> Result<(), ClientOver>
        ensures goes { (n : Numbers) (past : Past) → Works K.stands n self.old.calls self.old.kept.items self.old.tally past →
            Turned K.stands n (over_of result) self.new.calls self.new.kept.items self.new.tally past [] }
        ensures memory { IfErr result (λ why. why ≡ ClientOver.NoMemory) }
        ensures same { self.new ≡ record self.old { calls = self.new.calls } }
    {
        match self.calls.pump() {
            Ok(()) => Ok(()),
            Err(_) => Err(ClientOver::NoMemory),
        }
    }

    // Writes and drops output until nothing waits or the link takes no more. Says whether it took anything, and nothing where it failed.
    pub(crate) fn put_all<L: Link>(&mut self, link: &mut L) -> Option<bool>
        ensures puts { (texts : List (List ℕ)) × Puts K.stands K.output self.old.calls self.new.calls (L.pieces link.old) (L.pieces link.new) texts
            × IfSome result (λ moved. moved ≡ true ↔ 0 < length (flat_map sent_bytes (map sent texts))) }
        ensures until { IfSome result (λ _. (K.output self.new.calls ≡ []) ⊎ HasRisen (L.write_idles link.old) (L.write_idles link.new)) }
        ensures fault { HasCause (L.faults link.old) (L.faults link.new) (result ≡ None)
            × StaysUnless (L.faults link.old) (L.faults link.new) (result ≡ None) }
        ensures reads { (L.read_idles link.new ≡ L.read_idles link.old) × (L.ends link.new ≡ L.ends link.old) }
        ensures same { self.new ≡ record self.old { calls = self.new.calls } }
    {
        let mut has_moved = false;
        'puts: while !self.calls.out().is_empty() {
            match self.put_once(link) {
                LinkWrite::NotReady => return Some(has_moved),
                LinkWrite::Failed => return None,
                LinkWrite::Put(_) => has_moved = true,
            }
        }
        Some(has_moved)
    }

    // Writes once, and drops what the link took.
    fn put_once<L: Link>(&mut self, link: &mut L) -> LinkWrite
        requires output { 0 < length (K.output self.old.calls) }
        ensures put { (n : ℕ) → result ≡ LinkWrite.Put n → (text : List ℕ) × (0 < length text)
            × Puts K.stands K.output self.old.calls self.new.calls (L.pieces link.old) (L.pieces link.new) (text ∷ []) }
        ensures none { ((n : ℕ) → result ≡ LinkWrite.Put n → ⊥) → (self.new ≡ self.old) × (L.pieces link.new ≡ L.pieces link.old) }
        ensures cause { HasCause (L.faults link.old) (L.faults link.new) (result ≡ LinkWrite.Failed) }
        ensures stays { StaysUnless (L.faults link.old) (L.faults link.new) (result ≡ LinkWrite.Failed) }
        ensures idle { HasCause (L.write_idles link.old) (L.write_idles link.new) (result ≡ LinkWrite.NotReady) }
        ensures awake { StaysUnless (L.write_idles link.old) (L.write_idles link.new) (result ≡ LinkWrite.NotReady) }
        ensures reads { (L.read_idles link.new ≡ L.read_idles link.old) × (L.ends link.new ≡ L.ends link.old) }
        ensures same { self.new ≡ record self.old { calls = self.new.calls } }
    {
        match link.poll_write(self.calls.out()) {
            LinkWrite::Put(n) => {
                self.calls.drop_out(n);
                LinkWrite::Put(n)
            }
            LinkWrite::NotReady => LinkWrite::NotReady,
            LinkWrite::Failed => LinkWrite::Failed,
        }
    }
}
