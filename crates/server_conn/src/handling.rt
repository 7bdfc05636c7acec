//! What is done for a call, by what its client did.
ghost use Rattle.std.specs.Prelude.{◌≡◌, ◌<◌, ℕ, ◌++◌, List, Bool, Ok, IfOk, IfErr, false, true};
ghost use Rattle.rig_io.specs.Link.{Piece};
ghost use Rattle.rib_core.specs.Recorded.{IsLawful};
ghost use Rattle.grpc_stream.specs.CallTrace.{CallTrace};
ghost use Rattle.grpc_stream.specs.declared.event.CallEvent.{CallEvent};
ghost use Rattle.table_lock.specs.Passes.{IsPassOf, IsSound};
ghost use Rattle.table_model.specs.Event.{Event};
ghost use Rattle.call_orders.specs.Calls.{Action};
ghost use Rattle.server_turns.specs.Making.{MadeLast};
ghost use Rattle.server_conn.specs.Standing.{Works, is_spent_by};
ghost use Rattle.server_conn.specs.Steps.{GoesTo, Hears, StopsBy, is_fault_by};

use crate::conn::{Cause, ServerConn};
use bytes::Bytes;
use call_answers::Setting;
use grpc_heads::Method;
use grpc_stream::CallConnection;
use rib_core::RibCore;
use rig_io::Clock;
use std::sync::Wait;
use table_lock::{Pass, TableLock};

impl<K: CallConnection> ServerConn<K> {
    // A call began.
    pub(crate) fn begin<R: Wait>(
        &mut self,
        rt: &R,
        lock: &TableLock<RibCore>,
        pass: &mut Pass<RibCore>,
        setting: &Setting,
        stream: u32,
        method: Method,
    ) -> Result<(), Cause>
        requires pass { IsPassOf lock.now pass.old }
        requires sound { IsSound IsLawful lock.now.setup pass.old }
        ensures pass { IsPassOf lock.now pass.new }
        ensures sound { IsSound IsLawful lock.now.setup pass.new }
        ensures goes { (t : CallTrace) (actions : List Action) (pieces : List Piece) (own : List Event)
            → Hears K.stands K.output setting.now self.old.calls self.old.engine self.old.refused (CallEvent.Begun stream method) t actions pieces own
            → MadeLast pass.old own
            → IfOk result (λ _.
            GoesTo K.stands K.output setting.now lock.now.setup pass.old pass.new self.new.calls self.new.engine self.new.refused t pieces own)
            × IfErr result (λ cause. StopsBy K.stands K.output setting.now lock.now.setup pass.old pass.new self.new.calls self.new.engine self.new.refused t
            pieces own self.new.is_ended cause) }
        ensures same { self.new ≡ record self.old { calls = self.new.calls; engine = self.new.engine; refused = self.new.refused } }
        ensures ahead { K.ahead self.new.calls ≡ K.ahead self.old.calls }
        ensures quiet { IfErr result (λ cause. is_fault_by cause ≡ false) }
    {
        match self.engine.begin(rt, lock, pass, stream, method) {
            Err(_) => Err(Cause::Spent),
            Ok(step) => match self.give(&setting.numbering, stream, step) {
                Err(cause) => Err(cause),
                Ok(_) => Ok(()),
            },
        }
    }

    // A message came on a call.
    pub(crate) fn request<R: Wait, C: Clock>(
        &mut self,
        rt: &R,
        lock: &TableLock<RibCore>,
        pass: &mut Pass<RibCore>,
        setting: &Setting,
        stream: u32,
        message: Bytes,
        clock: &mut C,
    ) -> Result<(), Cause>
        requires pass { IsPassOf lock.now pass.old }
        requires sound { IsSound IsLawful lock.now.setup pass.old }
        ensures pass { IsPassOf lock.now pass.new }
        ensures sound { IsSound IsLawful lock.now.setup pass.new }
        ensures goes { (t : CallTrace) (actions : List Action) (pieces : List Piece) (own : List Event)
            → Hears K.stands K.output setting.now self.old.calls self.old.engine self.old.refused (CallEvent.Request stream message) t actions pieces own
            → MadeLast pass.old own
            → IfOk result (λ _.
            GoesTo K.stands K.output setting.now lock.now.setup pass.old pass.new self.new.calls self.new.engine self.new.refused t pieces own)
            × IfErr result (λ cause. StopsBy K.stands K.output setting.now lock.now.setup pass.old pass.new self.new.calls self.new.engine self.new.refused t
            pieces own self.new.is_ended cause) }
        ensures same { self.new ≡ record self.old { calls = self.new.calls; engine = self.new.engine; refused = self.new.refused } }
        ensures ahead { K.ahead self.new.calls ≡ K.ahead self.old.calls }
        ensures quiet { IfErr result (λ cause. is_fault_by cause ≡ false) }
    {
        match self
            .engine
            .request(rt, lock, pass, setting, stream, message, clock)
        {
            Err(_) => Err(Cause::Spent),
            Ok(step) => match self.give(&setting.numbering, stream, step) {
                Err(cause) => Err(cause),
                Ok(_) => Ok(()),
            },
        }
    }

    // The client of a call ended its side.
    pub(crate) fn finish<R: Wait, C: Clock>(
        &mut self,
        rt: &R,
        lock: &TableLock<RibCore>,
        pass: &mut Pass<RibCore>,
        setting: &Setting,
        stream: u32,
        clock: &mut C,
    ) -> Result<(), Cause>
        requires pass { IsPassOf lock.now pass.old }
        requires sound { IsSound IsLawful lock.now.setup pass.old }
        ensures pass { IsPassOf lock.now pass.new }
        ensures sound { IsSound IsLawful lock.now.setup pass.new }
        ensures goes { (t : CallTrace) (actions : List Action) (pieces : List Piece) (own : List Event)
            → Hears K.stands K.output setting.now self.old.calls self.old.engine self.old.refused (CallEvent.Finished stream) t actions pieces own
            → MadeLast pass.old own
            → IfOk result (λ _.
            GoesTo K.stands K.output setting.now lock.now.setup pass.old pass.new self.new.calls self.new.engine self.new.refused t pieces own)
            × IfErr result (λ cause. StopsBy K.stands K.output setting.now lock.now.setup pass.old pass.new self.new.calls self.new.engine self.new.refused t
            pieces own self.new.is_ended cause) }
        ensures same { self.new ≡ record self.old { calls = self.new.calls; engine = self.new.engine; refused = self.new.refused } }
        ensures ahead { K.ahead self.new.calls ≡ K.ahead self.old.calls }
        ensures quiet { IfErr result (λ cause. is_fault_by cause ≡ false) }
    {
        match self.engine.finish(rt, lock, pass, setting, stream, clock) {
            Err(_) => Err(Cause::Spent),
            Ok(step) => match self.give(&setting.numbering, stream, step) {
                Err(cause) => Err(cause),
                Ok(_) => Ok(()),
            },
        }
    }

    // A call is dropped: its client reset it, or it was refused.
    pub(crate) fn drop_call<R: Wait>(
        &mut self,
        rt: &R,
        lock: &TableLock<RibCore>,
        pass: &mut Pass<RibCore>,
        setting: &Setting,
        stream: u32,
    ) -> Result<(), Cause>
        requires pass { IsPassOf lock.now pass.old }
        requires sound { IsSound IsLawful lock.now.setup pass.old }
        ensures pass { IsPassOf lock.now pass.new }
        ensures sound { IsSound IsLawful lock.now.setup pass.new }
        ensures goes { (t : CallTrace) (actions : List Action) (pieces : List Piece) (own : List Event)
            → Hears K.stands K.output setting.now self.old.calls self.old.engine self.old.refused (CallEvent.Dropped stream) t actions pieces own
            → MadeLast pass.old own
            → IfOk result (λ _.
            GoesTo K.stands K.output setting.now lock.now.setup pass.old pass.new self.new.calls self.new.engine self.new.refused t pieces own)
            × IfErr result (λ cause. StopsBy K.stands K.output setting.now lock.now.setup pass.old pass.new self.new.calls self.new.engine self.new.refused t
            pieces own self.new.is_ended cause) }
        ensures same { self.new ≡ record self.old { calls = self.new.calls; engine = self.new.engine; refused = self.new.refused } }
        ensures ahead { K.ahead self.new.calls ≡ K.ahead self.old.calls }
        ensures quiet { IfErr result (λ cause. is_fault_by cause ≡ false) }
    {
        match self.engine.dropped(rt, lock, pass, stream) {
            Err(_) => Err(Cause::Spent),
            Ok(()) => Ok(()),
        }
    }
}
