//! Gets are given their responses, and what windows allow is sent.
ghost use Rattle.std.specs.Prelude.{◌≡◌, ◌-◌, ◌^◌, ◌+◌, ◌≤◌, ℕ, ◌++◌, length, min, List, Bool, Ok, IfOk, IfErr, true, false, nat_le};
ghost use Rattle.rig_io.specs.Link.{Piece};
ghost use Rattle.grpc_stream.specs.CallTrace.{CallTrace, waiting_in};
ghost use Rattle.grpc_stream.specs.Sends.{Pumps};
ghost use Rattle.table_model.specs.Event.{Event};
ghost use Rattle.call_orders.specs.Calls.{Action};
ghost use Rattle.call_answers.specs.declared.orders.Setting.{Setting as SettingView};
ghost use Rattle.server_account.specs.Agreeing.{IsSettled};
ghost use Rattle.server_conn.specs.Standing.{EndsBy, Works, is_spent_by, past_of};
ghost use Rattle.server_conn.specs.Steps.{Holds, IsEnough, IsPumped, MUCH, Responds, RespondsSome, is_fault_by};

use crate::conn::{Cause, MUCH, ServerConn};
use call_answers::Setting;
use grpc_stream::CallConnection;
use server_turns::Outcome;

impl<K: CallConnection> ServerConn<K> {
    // Gives Gets their responses until much waits or is written, and sends what windows allow.
    pub(crate) fn respond(&mut self, setting: &Setting) -> Result<(), Cause>
        ensures goes { (t : CallTrace) (actions : List Action) (pieces : List Piece) (own : List Event) (rest : List ℕ)
            → Works K.stands K.output setting.now self.old.calls self.old.engine self.old.refused t actions pieces own → IsSettled t rest
            → IfOk result (λ _. Responds K.stands K.output setting.now self.new.calls self.old.engine self.new.engine self.new.refused self.new.waiting
            t pieces own rest)
            × IfErr result (λ cause.
            EndsBy setting.now t (K.output self.new.calls) self.new.engine self.new.refused (past_of pieces own self.new.is_ended) cause) }
        ensures alive { IfErr result (λ cause. is_spent_by cause ≡ false) }
        ensures same { self.new ≡ record self.old {
          calls = self.new.calls;
          engine = self.new.engine;
          refused = self.new.refused;
          waiting = self.new.waiting;
        } }
        ensures quiet { IfErr result (λ cause. is_fault_by cause ≡ false) }
    {
        self.pump()?;
        self.respond_more(setting)
    }

    // The same behind a pump.
    fn respond_more(&mut self, setting: &Setting) -> Result<(), Cause>
        ensures goes { (t : CallTrace) (actions : List Action) (pieces : List Piece) (own : List Event) (rest : List ℕ)
            → Works K.stands K.output setting.now self.old.calls self.old.engine self.old.refused t actions pieces own → IsSettled t rest
            → IsPumped t self.old.waiting
            → IfOk result (λ _. Responds K.stands K.output setting.now self.new.calls self.old.engine self.new.engine self.new.refused self.new.waiting
            t pieces own rest)
            × IfErr result (λ cause.
            EndsBy setting.now t (K.output self.new.calls) self.new.engine self.new.refused (past_of pieces own self.new.is_ended) cause) }
        ensures alive { IfErr result (λ cause. is_spent_by cause ≡ false) }
        ensures same { self.new ≡ record self.old {
          calls = self.new.calls;
          engine = self.new.engine;
          refused = self.new.refused;
          waiting = self.new.waiting;
        } }
        ensures quiet { IfErr result (λ cause. is_fault_by cause ≡ false) }
    {
        // As many responses aren't given: memory ends before.
        'responses: for _ in 0..u64::MAX {
            match self.respond_next(setting) {
                Err(cause) => return Err(cause),
                Ok(false) => return Ok(()),
                Ok(true) => {}
            }
        }
        Err(Cause::Ends(Outcome::NoMemory))
    }

    // Gives one more response, unless none is left or much waits. Says whether it did.
    fn respond_next(&mut self, setting: &Setting) -> Result<bool, Cause>
        ensures goes { (t : CallTrace) (actions : List Action) (pieces : List Piece) (own : List Event) (rest : List ℕ)
            → Works K.stands K.output setting.now self.old.calls self.old.engine self.old.refused t actions pieces own → IsSettled t rest
            → IsPumped t self.old.waiting
            → IfOk result (λ _. RespondsSome K.stands K.output setting.now self.new.calls self.old.engine self.new.engine self.new.refused
            self.new.waiting t pieces own rest)
            × IfErr result (λ cause.
            EndsBy setting.now t (K.output self.new.calls) self.new.engine self.new.refused (past_of pieces own self.new.is_ended) cause) }
        ensures enough { IfOk result (λ has_given. has_given ≡ false
            → IsEnough self.new.engine (self.new.waiting + length (K.output self.new.calls))) }
        ensures alive { IfErr result (λ cause. is_spent_by cause ≡ false) }
        ensures same { self.new ≡ record self.old {
          calls = self.new.calls;
          engine = self.new.engine;
          refused = self.new.refused;
          waiting = self.new.waiting;
        } }
        ensures quiet { IfErr result (λ cause. is_fault_by cause ≡ false) }
    {
        if self.has_much() {
            return Ok(false);
        }
        match self.engine.next_selecting() {
            None => Ok(false),
            Some(stream) => {
                let step = self.engine.more(setting, stream);
                self.give(&setting.numbering, stream, step)?;
                self.pump()?;
                Ok(true)
            }
        }
    }

    // Sends what windows allow, and counts what waits.
    fn pump(&mut self) -> Result<(), Cause>
        ensures goes { (s : SettingView) (t : CallTrace) (actions : List Action) (pieces : List Piece) (own : List Event) (rest : List ℕ)
            → Works K.stands K.output s self.old.calls self.old.engine self.old.refused t actions pieces own → IsSettled t rest
            → IfOk result (λ _. (u : CallTrace) × Pumps t u × Works K.stands K.output s self.new.calls self.new.engine self.new.refused u actions pieces own
            × IsSettled u rest × (self.new.waiting ≡ min (waiting_in u) (2 ^ 64 - 1)))
            × IfErr result (λ cause.
            EndsBy s t (K.output self.new.calls) self.new.engine self.new.refused (past_of pieces own self.new.is_ended) cause) }
        ensures alive { IfErr result (λ cause. is_spent_by cause ≡ false) }
        ensures same { self.new ≡ record self.old { calls = self.new.calls; waiting = self.new.waiting } }
        ensures quiet { IfErr result (λ cause. is_fault_by cause ≡ false) }
    {
        let Ok(()) = self.calls.pump() else {
            return Err(Cause::Ends(Outcome::NoMemory));
        };
        self.waiting = self.calls.waiting();
        Ok(())
    }

    // Whether so much waits or is written that Gets are given nothing more now.
    fn has_much(&self) -> bool
        ensures { result ≡ true → MUCH ≤ self.now.waiting + length (K.output self.now.calls) }
    {
        self.waiting.saturating_add(self.calls.out().len() as u64) >= MUCH
    }

    // Holds credit back while much waits.
    pub(crate) fn hold(&mut self) -> Result<(), Cause>
        ensures goes { (s : SettingView) (t : CallTrace) (actions : List Action) (pieces : List Piece) (own : List Event) (rest : List ℕ)
            → Works K.stands K.output s self.old.calls self.old.engine self.old.refused t actions pieces own → IsSettled t rest
            → IfOk result (λ _. Holds K.stands K.output s self.new.calls self.new.engine self.new.refused (nat_le MUCH self.old.waiting) t actions pieces
            own rest)
            × IfErr result (λ cause.
            EndsBy s t (K.output self.new.calls) self.new.engine self.new.refused (past_of pieces own self.new.is_ended) cause) }
        ensures alive { IfErr result (λ cause. is_spent_by cause ≡ false) }
        ensures same { self.new ≡ record self.old { calls = self.new.calls } }
        ensures quiet { IfErr result (λ cause. is_fault_by cause ≡ false) }
    {
        match self.calls.hold_credit(self.waiting >= MUCH) {
            Ok(()) => Ok(()),
            Err(_) => Err(Cause::Ends(Outcome::NoMemory)),
        }
    }
}
