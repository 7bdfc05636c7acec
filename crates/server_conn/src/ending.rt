//! The end of a connection: its sessions leave.
ghost use Rattle.std.specs.Prelude.{◌≡◌, ◌⊎◌, ℕ, ◌++◌, List, Some};
ghost use Rattle.rig_io.specs.Link.{Piece};
ghost use Rattle.rib_core.specs.Recorded.{IsLawful};
ghost use Rattle.grpc_stream.specs.CallTrace.{CallTrace};
ghost use Rattle.table_lock.specs.Passes.{IsPassOf, IsSound};
ghost use Rattle.table_model.specs.Event.{Event};
ghost use Rattle.server_turns.specs.Making.{MadeLast, Makes};
ghost use Rattle.server_turns.specs.Turning.{is_spent};
ghost use Rattle.server_turns.specs.declared.outcome.Outcome.{Outcome as OutcomeView};
ghost use Rattle.server_conn.specs.Standing.{KeptBy, MayEnd, past_of};

use crate::conn::{Cause, ServerConn};
use call_answers::Setting;
use grpc_stream::CallConnection;
use rib_core::RibCore;
use server_turns::Outcome;
use std::sync::Wait;
use table_lock::{Pass, TableLock};

impl<K: CallConnection> ServerConn<K> {
    // How the connection is over: the sessions that stayed leave, the oldest first, unless a call under the lock is Spent.
    pub(crate) fn close<R: Wait>(
        &mut self,
        rt: &R,
        lock: &TableLock<RibCore>,
        pass: &mut Pass<RibCore>,
        setting: &Setting,
        cause: Cause,
    ) -> Outcome
        requires pass { IsPassOf lock.now pass.old }
        requires sound { IsSound IsLawful lock.now.setup pass.old }
        ensures pass { IsPassOf lock.now pass.new }
        ensures leaves { (t : CallTrace) (pieces : List Piece) (own : List Event) (outcome : OutcomeView) → cause ≡ Cause.Ends outcome
            → MayEnd setting.now t (K.output self.old.calls) self.old.engine self.old.refused (past_of pieces own self.old.is_ended) outcome
            → MadeLast pass.old own → (last : List Event) × Makes lock.now.setup (is_spent (Some result)) pass.old pass.new last
            × KeptBy setting.now t (K.output self.old.calls) self.old.refused (past_of pieces (own ++ last) self.old.is_ended) result }
        ensures outcome { (outcome : OutcomeView) → cause ≡ Cause.Ends outcome → (result ≡ outcome) ⊎ (result ≡ Outcome.Spent) }
        ensures spent { cause ≡ Cause.Spent → (result ≡ Outcome.Spent) × (pass.new ≡ pass.old) }
        ensures same { self.new ≡ record self.old { engine = self.new.engine } }
    {
        let Cause::Ends(outcome) = cause else {
            return Outcome::Spent;
        };
        'sessions: while let Some(stream) = self.engine.oldest_session() {
            match self.engine.dropped(rt, lock, pass, stream) {
                Err(_) => return Outcome::Spent,
                Ok(()) => {}
            }
        }
        outcome
    }
}
