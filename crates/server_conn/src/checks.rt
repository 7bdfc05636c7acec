//! What ends a connection behind the end of its input.
ghost use Rattle.std.specs.Prelude.{◌≡◌, ℕ, ◌++◌, List, Bool, Ok, IfOk, IfErr, None, [], false, true};
ghost use Rattle.rig_io.specs.Link.{Piece};
ghost use Rattle.grpc_stream.specs.CallTrace.{CallTrace};
ghost use Rattle.table_model.specs.Event.{Event};
ghost use Rattle.call_orders.specs.Calls.{Action};
ghost use Rattle.call_answers.specs.declared.orders.Setting.{Setting as SettingView};
ghost use Rattle.session_engine.specs.Queries.{is_asking};
ghost use Rattle.session_engine.specs.Queries.{call_on};
ghost use Rattle.server_turns.specs.Serving.{EndsWhole};
ghost use Rattle.server_account.specs.Agreeing.{IsSettled, account_of};
ghost use Rattle.server_conn.specs.Standing.{EndsBy, Works, is_spent_by, past_of};
ghost use Rattle.server_conn.specs.Turns.{AreAnsweredIfIdle};
ghost use Rattle.server_conn.specs.Steps.{IsPumped, is_fault_by};

use crate::conn::{Cause, ServerConn};
use grpc_stream::CallConnection;
use server_turns::{DropCause, Outcome};

impl<K: CallConnection> ServerConn<K> {
    // At the end of the input nothing may be cut, and no call open.
    pub(crate) fn check_end(&self) -> Result<(), Cause>
        ensures goes { (s : SettingView) (t : CallTrace) (actions : List Action) (pieces : List Piece) (own : List Event) (rest : List ℕ)
            → Works K.stands K.output s self.now.calls self.now.engine self.now.refused t actions pieces own → IsSettled t rest
            → IfOk result (λ _. self.now.is_ended ≡ true → EndsWhole s (past_of pieces own true) (account_of t (K.output self.now.calls) rest actions)
            × ((id : ℕ) → is_asking (call_on self.now.engine id) ≡ false))
            × IfErr result (λ cause.
            EndsBy s t (K.output self.now.calls) self.now.engine self.now.refused (past_of pieces own self.now.is_ended) cause) }
        ensures alive { IfErr result (λ cause. is_spent_by cause ≡ false) }
        ensures quiet { IfErr result (λ cause. is_fault_by cause ≡ false) }
    {
        if !self.is_ended {
            return Ok(());
        }
        if !self.calls.is_between() {
            return Err(Cause::Ends(Outcome::Dropped(DropCause::CutFrame)));
        }
        if self.engine.is_some_asking() {
            return Err(Cause::Ends(Outcome::Dropped(DropCause::OpenCall)));
        }
        Ok(())
    }

    // Behind a pump bytes wait only where a window is used up, and behind the end of the input nothing grants more.
    pub(crate) fn check_windows(&self) -> Result<(), Cause>
        ensures goes { (s : SettingView) (t : CallTrace) (actions : List Action) (pieces : List Piece) (own : List Event) (rest : List ℕ)
            → Works K.stands K.output s self.now.calls self.now.engine self.now.refused t actions pieces own → IsSettled t rest → IsPumped t self.now.waiting
            → (self.now.is_ended ≡ true → EndsWhole s (past_of pieces own true) (account_of t (K.output self.now.calls) rest actions)
            × ((id : ℕ) → is_asking (call_on self.now.engine id) ≡ false))
            → IfOk result (λ _. self.now.is_ended ≡ true → self.now.waiting ≡ 0)
            × IfErr result (λ cause.
            EndsBy s t (K.output self.now.calls) self.now.engine self.now.refused (past_of pieces own self.now.is_ended) cause) }
        ensures alive { IfErr result (λ cause. is_spent_by cause ≡ false) }
        ensures quiet { IfErr result (λ cause. is_fault_by cause ≡ false) }
    {
        if self.is_ended && self.waiting > 0 {
            return Err(Cause::Ends(Outcome::Dropped(DropCause::NoWindow)));
        }
        Ok(())
    }

    // All is served behind the end of the input where no call goes on and nothing waits.
    pub(crate) fn check_served(&self) -> Result<(), Cause>
        ensures goes { (s : SettingView) (t : CallTrace) (actions : List Action) (pieces : List Piece) (own : List Event) (rest : List ℕ)
            → Works K.stands K.output s self.now.calls self.now.engine self.now.refused t actions pieces own → IsSettled t rest
            → (self.now.is_ended ≡ true → EndsWhole s (past_of pieces own true) (account_of t (K.output self.now.calls) rest actions))
            → (self.now.is_ended ≡ true
            → AreAnsweredIfIdle s self.now.engine (past_of pieces own true) (account_of t (K.output self.now.calls) rest actions))
            → IfErr result (λ cause.
            EndsBy s t (K.output self.now.calls) self.now.engine self.now.refused (past_of pieces own self.now.is_ended) cause) }
        ensures unserved { IfOk result (λ _. self.now.is_ended ≡ true → K.output self.now.calls ≡ []
            → ((id : ℕ) → call_on self.now.engine id ≡ None) → ⊥) }
        ensures alive { IfErr result (λ cause. is_spent_by cause ≡ false) }
        ensures quiet { IfErr result (λ cause. is_fault_by cause ≡ false) }
    {
        if !self.is_ended {
            return Ok(());
        }
        if !self.engine.is_idle() {
            return Ok(());
        }
        if !self.calls.out().is_empty() {
            return Ok(());
        }
        Err(Cause::Ends(Outcome::Served))
    }
}
