//! Writing to the link.
ghost use Rattle.std.specs.Prelude.{◌≡◌, ◌⊎◌, ◌↔◌, ℕ, ◌++◌, ◌<◌, ◌≤◌, List, [], ◌∷◌, Bool, None, Ok, IfOk, IfErr, IfSome, length, map, true, false};
ghost use Rattle.std.specs.Option.{option_map};
ghost use Rattle.rig_io.specs.Fault.{HasCause, HasRisen, StaysUnless};
ghost use Rattle.std.specs.List.{flat_map};
ghost use Rattle.rig_io.specs.Link.{Piece, received_bytes, sent, sent_bytes};
ghost use Rattle.grpc_stream.specs.CallTrace.{CallTrace};
ghost use Rattle.table_model.specs.Event.{Event};
ghost use Rattle.call_answers.specs.declared.orders.Setting.{Setting as SettingView};
ghost use Rattle.call_orders.specs.Calls.{Action};
ghost use Rattle.server_turns.specs.declared.outcome.Outcome.{Outcome as OutcomeView};
ghost use Rattle.server_account.specs.Agreeing.{IsSettled};
ghost use Rattle.server_conn.specs.Standing.{EndsBy, KeptBy, Works, is_spent_by, past_of};
ghost use Rattle.server_conn.specs.Steps.{IsFaultBy, Puts, Writes};

use crate::conn::{Cause, ServerConn};
use grpc_stream::CallConnection;
use rig_io::{Link, LinkWrite};
use server_turns::Outcome;

impl<K: CallConnection> ServerConn<K> {
    // Writes until nothing waits or the link takes no more. Says whether it took anything.
    pub(crate) fn write<L: Link>(&mut self, link: &mut L) -> Result<bool, Cause>
        ensures goes { (s : SettingView) (t : CallTrace) (actions : List Action) (pieces : List Piece) (own : List Event) (rest : List ℕ)
            → Works K.stands K.output s self.old.calls self.old.engine self.old.refused t actions pieces own → IsSettled t rest
            → (put : List Piece) × (flat_map received_bytes put ≡ []) × (L.pieces link.new ≡ option_map (λ told. told ++ put) (L.pieces link.old))
            × IfOk result (λ moved. Writes K.stands K.output s self.old.calls self.new.calls self.new.engine self.new.refused t actions pieces put own rest
            moved (L.write_idles link.old) (L.write_idles link.new))
            × IfErr result (λ cause.
            EndsBy s t (K.output self.new.calls) self.new.engine self.new.refused (past_of (pieces ++ put) own self.new.is_ended) cause) }
        ensures alive { IfErr result (λ cause. is_spent_by cause ≡ false) }
        ensures fault { HasCause (L.faults link.old) (L.faults link.new) (IsFaultBy result)
            × StaysUnless (L.faults link.old) (L.faults link.new) (IsFaultBy result) }
        ensures reads { (L.read_idles link.new ≡ L.read_idles link.old) × (L.ends link.new ≡ L.ends link.old) }
        ensures same { self.new ≡ record self.old { calls = self.new.calls } }
    {
        match self.put_all(link) {
            Some(has_moved) => Ok(has_moved),
            None => Err(Cause::Ends(Outcome::WriteFault)),
        }
    }

    // Writes and drops output until nothing waits or the link takes no more. Says whether it took anything, and nothing where it failed.
    fn put_all<L: Link>(&mut self, link: &mut L) -> Option<bool>
        ensures puts { (texts : List (List ℕ)) × Puts K.stands K.output self.old.calls self.new.calls (L.pieces link.old) (L.pieces link.new) texts
            × IfSome result (λ moved. moved ≡ true ↔ 0 < length (flat_map sent_bytes (map sent texts))) }
        ensures until { IfSome result (λ _. (K.output self.new.calls ≡ []) ⊎ HasRisen (L.write_idles link.old) (L.write_idles link.new)) }
        ensures fault { HasCause (L.faults link.old) (L.faults link.new) (result ≡ None)
            × StaysUnless (L.faults link.old) (L.faults link.new) (result ≡ None) }
        ensures reads { (L.read_idles link.new ≡ L.read_idles link.old) × (L.ends link.new ≡ L.ends link.old) }
        ensures same { self.new ≡ record self.old { calls = self.new.calls } }
    {
        let mut has_moved = false;
        'puts: while !self.calls.out().is_empty() {
            match self.put_once(link) {
                LinkWrite::NotReady => return Some(has_moved),
                LinkWrite::Failed => return None,
                LinkWrite::Put(_) => has_moved = true,
            }
        }
        Some(has_moved)
    }

    // Writes once, and drops what the link took.
    fn put_once<L: Link>(&mut self, link: &mut L) -> LinkWrite
        requires output { 0 < length (K.output self.old.calls) }
        ensures put { (n : ℕ) → result ≡ LinkWrite.Put n → (text : List ℕ) × (0 < length text)
            × Puts K.stands K.output self.old.calls self.new.calls (L.pieces link.old) (L.pieces link.new) (text ∷ []) }
        ensures none { ((n : ℕ) → result ≡ LinkWrite.Put n → ⊥) → (self.new ≡ self.old) × (L.pieces link.new ≡ L.pieces link.old) }
        ensures cause { HasCause (L.faults link.old) (L.faults link.new) (result ≡ LinkWrite.Failed) }
        ensures stays { StaysUnless (L.faults link.old) (L.faults link.new) (result ≡ LinkWrite.Failed) }
        ensures idle { HasCause (L.write_idles link.old) (L.write_idles link.new) (result ≡ LinkWrite.NotReady) }
        ensures awake { StaysUnless (L.write_idles link.old) (L.write_idles link.new) (result ≡ LinkWrite.NotReady) }
        ensures reads { (L.read_idles link.new ≡ L.read_idles link.old) × (L.ends link.new ≡ L.ends link.old) }
        ensures same { self.new ≡ record self.old { calls = self.new.calls } }
    {
        match link.poll_write(self.calls.out()) {
            LinkWrite::Put(n) => {
                self.calls.drop_out(n);
                LinkWrite::Put(n)
            }
            LinkWrite::NotReady => LinkWrite::NotReady,
            LinkWrite::Failed => LinkWrite::Failed,
        }
    }

    // Writes what can be written now of a connection that is over: how that goes changes nothing.
    pub(crate) fn flush<L: Link>(&mut self, link: &mut L)
        ensures keeps { (s : SettingView) (t : CallTrace) (pieces : List Piece) (own : List Event) (is_ended : Bool) (outcome : OutcomeView)
            → KeptBy s t (K.output self.old.calls) self.old.refused (past_of pieces own is_ended) outcome
            → (put : List Piece) × (flat_map received_bytes put ≡ []) × (L.pieces link.new ≡ option_map (λ told. told ++ put) (L.pieces link.old))
            × KeptBy s t (K.output self.new.calls) self.new.refused (past_of (pieces ++ put) own is_ended) outcome }
        ensures faults { L.faults link.old ≤ L.faults link.new }
        ensures ends_same { L.ends link.new ≡ L.ends link.old }
        ensures same { self.new ≡ record self.old { calls = self.new.calls } }
    {
        let _ = self.put_all(link);
    }
}
