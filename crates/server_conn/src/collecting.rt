//! Results are collected for sessions.
ghost use Rattle.std.specs.Prelude.{◌≡◌, ℕ, ◌++◌, ◌||◌, List, Bool, Ok, IfOk, IfErr, IsSome, false, true};
ghost use Rattle.rig_io.specs.Link.{Piece};
ghost use Rattle.rib_core.specs.Recorded.{IsLawful};
ghost use Rattle.grpc_stream.specs.CallTrace.{CallTrace};
ghost use Rattle.table_lock.specs.Passes.{IsPassOf, IsSound};
ghost use Rattle.table_model.specs.Event.{Event};
ghost use Rattle.call_orders.specs.Calls.{Action};
ghost use Rattle.session_engine.specs.Queries.{call_on, session_in};
ghost use Rattle.server_turns.specs.Making.{MadeLast};
ghost use Rattle.server_account.specs.Agreeing.{IsSettled};
ghost use Rattle.server_conn.specs.Gathering.{CollectsOne};
ghost use Rattle.server_conn.specs.Standing.{Works};
ghost use Rattle.server_conn.specs.Steps.{CollectsAll, CollectsDue, StopsBy, is_fault_by};

use crate::conn::{Cause, ServerConn};
use call_answers::Setting;
use grpc_stream::CallConnection;
use rib_core::RibCore;
use server_turns::Outcome;
use std::sync::Wait;
use table_lock::{Pass, TableLock};

fn either(a: bool, b: bool) -> bool
    ensures { result ≡ (a || b) }
{
    a || b
}

impl<K: CallConnection> ServerConn<K> {
    // Collects for each session once, unless none may have to wait for anything: a Collect takes the table's lock. Says whether a Collect gave
    // results or ended a call.
    pub(crate) fn collect_all<R: Wait>(
        &mut self,
        rt: &R,
        lock: &TableLock<RibCore>,
        pass: &mut Pass<RibCore>,
        setting: &Setting,
    ) -> Result<bool, Cause>
        requires pass { IsPassOf lock.now pass.old }
        requires sound { IsSound IsLawful lock.now.setup pass.old }
        ensures pass { IsPassOf lock.now pass.new }
        ensures sound { IsSound IsLawful lock.now.setup pass.new }
        ensures goes { (t : CallTrace) (actions : List Action) (pieces : List Piece) (own : List Event) (rest : List ℕ)
            → Works K.stands K.output setting.now self.old.calls self.old.engine self.old.refused t actions pieces own → IsSettled t rest
            → MadeLast pass.old own
            → IfOk result (λ moved. (k : CollectsAll K.stands K.output setting.now lock.now.setup pass.old pass.new self.new.calls self.old.engine
            self.new.engine self.new.refused t pieces own moved)
            × CollectsDue self.old.may_wait self.new.may_wait self.old.engine self.new.engine own k.goes.did)
            × IfErr result (λ cause. StopsBy K.stands K.output setting.now lock.now.setup pass.old pass.new self.new.calls self.new.engine self.new.refused t
            pieces own self.new.is_ended cause) }
        ensures same { self.new ≡ record self.old {
          calls = self.new.calls;
          engine = self.new.engine;
          refused = self.new.refused;
          may_wait = self.new.may_wait;
        } }
        ensures quiet { IfErr result (λ cause. is_fault_by cause ≡ false) }
    {
        if !self.may_wait {
            return Ok(false);
        }
        self.may_wait = false;
        self.collect_each(rt, lock, pass, setting)
    }

    // Collects for each session once. Says whether a Collect gave results or ended a call.
    fn collect_each<R: Wait>(
        &mut self,
        rt: &R,
        lock: &TableLock<RibCore>,
        pass: &mut Pass<RibCore>,
        setting: &Setting,
    ) -> Result<bool, Cause>
        requires pass { IsPassOf lock.now pass.old }
        requires sound { IsSound IsLawful lock.now.setup pass.old }
        ensures pass { IsPassOf lock.now pass.new }
        ensures sound { IsSound IsLawful lock.now.setup pass.new }
        ensures goes { (t : CallTrace) (actions : List Action) (pieces : List Piece) (own : List Event) (rest : List ℕ)
            → Works K.stands K.output setting.now self.old.calls self.old.engine self.old.refused t actions pieces own → IsSettled t rest
            → MadeLast pass.old own
            → IfOk result (λ moved. (k : CollectsAll K.stands K.output setting.now lock.now.setup pass.old pass.new self.new.calls self.old.engine
            self.new.engine self.new.refused t pieces own moved)
            × CollectsDue true self.new.may_wait self.old.engine self.new.engine own k.goes.did)
            × IfErr result (λ cause. StopsBy K.stands K.output setting.now lock.now.setup pass.old pass.new self.new.calls self.new.engine self.new.refused t
            pieces own self.new.is_ended cause) }
        ensures same { self.new ≡ record self.old {
          calls = self.new.calls;
          engine = self.new.engine;
          refused = self.new.refused;
          may_wait = self.new.may_wait;
        } }
        ensures quiet { IfErr result (λ cause. is_fault_by cause ≡ false) }
    {
        let mut has_moved = false;
        let mut from: u32 = 0;
        'sessions: while let Some(stream) = self.engine.next_session(from) {
            match self.collect_one(rt, lock, pass, setting, stream) {
                Err(cause) => return Err(cause),
                Ok(has_any) => has_moved = either(has_moved, has_any),
            }
            match stream.checked_add(1) {
                // No stream has this number in HTTP/2.
                None => return Err(Cause::Ends(Outcome::NoMemory)),
                Some(next) => from = next,
            }
        }
        Ok(has_moved)
    }

    // Collects for the session on a stream, and notes whether it left any outstanding. Says whether that gave results or ended its call.
    fn collect_one<R: Wait>(
        &mut self,
        rt: &R,
        lock: &TableLock<RibCore>,
        pass: &mut Pass<RibCore>,
        setting: &Setting,
        stream: u32,
    ) -> Result<bool, Cause>
        requires pass { IsPassOf lock.now pass.old }
        requires sound { IsSound IsLawful lock.now.setup pass.old }
        requires call { IsSome (session_in (call_on self.old.engine stream)) }
        ensures pass { IsPassOf lock.now pass.new }
        ensures sound { IsSound IsLawful lock.now.setup pass.new }
        ensures goes { (t : CallTrace) (actions : List Action) (pieces : List Piece) (own : List Event) (rest : List ℕ)
            → Works K.stands K.output setting.now self.old.calls self.old.engine self.old.refused t actions pieces own → IsSettled t rest
            → MadeLast pass.old own
            → IfOk result (λ has_any. CollectsOne K.stands K.output setting.now lock.now.setup pass.old pass.new self.new.calls self.old.engine
            self.new.engine self.new.refused stream self.old.may_wait self.new.may_wait t pieces own has_any)
            × IfErr result (λ cause. StopsBy K.stands K.output setting.now lock.now.setup pass.old pass.new self.new.calls self.new.engine self.new.refused t
            pieces own self.new.is_ended cause) }
        ensures same { self.new ≡ record self.old {
          calls = self.new.calls;
          engine = self.new.engine;
          refused = self.new.refused;
          may_wait = self.new.may_wait;
        } }
        ensures quiet { IfErr result (λ cause. is_fault_by cause ≡ false) }
    {
        match self.engine.collect(rt, lock, pass, setting, stream) {
            Err(_) => Err(Cause::Spent),
            Ok((step, has_left)) => {
                self.may_wait = either(self.may_wait, has_left);
                self.give(&setting.numbering, stream, step)
            }
        }
    }
}
