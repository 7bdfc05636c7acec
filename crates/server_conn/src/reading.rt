//! Reading of the link.
ghost use Rattle.std.specs.Prelude.{◌≡◌, ◌⊎◌, ◌<◌, ◌≤◌, ℕ, ◌++◌, ◌∷◌, [], List, length, Ok, IfOk, IfErr, false, true};
ghost use Rattle.std.specs.Option.{option_map};
ghost use Rattle.rig_io.specs.Fault.{HasCause, HasRisen, StaysUnless};
ghost use Rattle.rig_io.specs.Link.{Piece, received};
ghost use Rattle.http_connection.specs.ConnectionTrace.{fed_more};
ghost use Rattle.grpc_stream.specs.CallTrace.{CallTrace, changed};
ghost use Rattle.table_model.specs.Event.{Event};
ghost use Rattle.call_answers.specs.declared.orders.Setting.{Setting as SettingView};
ghost use Rattle.call_orders.specs.Calls.{Action};
ghost use Rattle.server_account.specs.Agreeing.{IsSettled};
ghost use Rattle.server_conn.specs.Standing.{EndsBy, Works, is_spent_by, past_of};
ghost use Rattle.server_conn.specs.Steps.{IsFaultBy, Reads, got, is_fault_by};

use crate::conn::{Cause, MUCH, PIECE, ServerConn};
use bytes::Bytes;
use grpc_stream::CallConnection;
use rig_io::{Link, LinkRead};
use server_turns::Outcome;

impl<K: CallConnection> ServerConn<K> {
    // Reads at most a piece and feeds it, unless much is written or the input has ended. Says whether a byte came, or first the end.
    pub(crate) fn read<L: Link>(&mut self, link: &mut L) -> Result<bool, Cause>
        ensures goes { (s : SettingView) (t : CallTrace) (actions : List Action) (pieces : List Piece) (own : List Event) (rest : List ℕ)
            → Works K.stands K.output s self.old.calls self.old.engine self.old.refused t actions pieces own → IsSettled t rest
            → (bytes : List ℕ) × (length bytes ≤ 16384) × (L.pieces link.new ≡ option_map (λ told. told ++ got bytes) (L.pieces link.old))
            × IfOk result (λ moved. Reads K.stands K.output s self.old.calls self.new.calls self.new.engine self.new.refused t actions pieces own bytes
            self.old.is_ended self.new.is_ended moved
            (record { reads = L.read_idles link.old; writes = L.write_idles link.old; ends = L.ends link.old })
            (record { reads = L.read_idles link.new; writes = L.write_idles link.new; ends = L.ends link.new }))
            × IfErr result (λ cause.
            EndsBy s t (K.output self.new.calls) self.new.engine self.new.refused (past_of (pieces ++ got bytes) own self.new.is_ended) cause) }
        ensures alive { IfErr result (λ cause. is_spent_by cause ≡ false) }
        ensures fault { HasCause (L.faults link.old) (L.faults link.new) (IsFaultBy result)
            × StaysUnless (L.faults link.old) (L.faults link.new) (IsFaultBy result) }
        ensures ends { (self.new.is_ended ≡ true → (self.old.is_ended ≡ true) ⊎ HasRisen (L.ends link.old) (L.ends link.new))
            × ((self.old.is_ended ≡ true) ⊎ (L.ends link.old < L.ends link.new) → self.new.is_ended ≡ true) }
        ensures writes { L.write_idles link.new ≡ L.write_idles link.old }
        ensures same { self.new ≡ record self.old { calls = self.new.calls; is_ended = self.new.is_ended } }
    {
        if self.is_ended || self.calls.out().len() as u64 >= MUCH {
            return Ok(false);
        }
        let mut buffer = [0u8; PIECE];
        match link.poll_read(&mut buffer) {
            LinkRead::NotReady => Ok(false),
            LinkRead::Failed => Err(Cause::Ends(Outcome::ReadFault)),
            LinkRead::End => {
                self.is_ended = true;
                Ok(true)
            }
            LinkRead::Got(n) => self.feed(&buffer[..n]),
        }
    }

    // Feeds a piece that was read.
    fn feed(&mut self, piece: &[u8]) -> Result<bool, Cause>
        ensures goes { (s : SettingView) (t : CallTrace) (actions : List Action) (pieces : List Piece) (own : List Event) (rest : List ℕ)
            → Works K.stands K.output s self.old.calls self.old.engine self.old.refused t actions pieces own → IsSettled t rest
            → IfOk result (λ has_moved. (has_moved ≡ true) × Works K.stands K.output s self.new.calls self.new.engine self.new.refused
            (changed (fed_more piece.now) t) actions (pieces ++ received piece.now ∷ []) own)
            × IfErr result (λ cause. EndsBy s t (K.output self.new.calls) self.new.engine self.new.refused
            (past_of (pieces ++ received piece.now ∷ []) own self.new.is_ended) cause) }
        ensures alive { IfErr result (λ cause. is_spent_by cause ≡ false) }
        ensures quiet { IfErr result (λ cause. is_fault_by cause ≡ false) }
        ensures same { self.new ≡ record self.old { calls = self.new.calls } }
    {
        let Ok(bytes) = Bytes::copy_from_slice(self.alloc, piece) else {
            return Err(Cause::Ends(Outcome::NoMemory));
        };
        match self.calls.feed(bytes) {
            Err(_) => Err(Cause::Ends(Outcome::NoMemory)),
            Ok(()) => Ok(true),
        }
    }
}
