//! What clients did is heard, event by event.
ghost use Rattle.std.specs.Prelude.{◌≡◌, ◌<◌, ℕ, ◌++◌, List, Bool, Ok, IfOk, IfErr, false, true};
ghost use Rattle.rig_io.specs.Link.{Piece};
ghost use Rattle.rib_core.specs.Recorded.{IsLawful};
ghost use Rattle.grpc_stream.specs.CallTrace.{CallTrace};
ghost use Rattle.table_lock.specs.Passes.{IsPassOf, IsSound};
ghost use Rattle.table_model.specs.Event.{Event};
ghost use Rattle.call_orders.specs.Calls.{Action};
ghost use Rattle.server_turns.specs.Making.{MadeLast};
ghost use Rattle.server_conn.specs.declared.hearing.Heard.{Heard};
ghost use Rattle.server_conn.specs.Standing.{Works, is_spent_by};
ghost use Rattle.server_conn.specs.Steps.{GoesTo, HearsAll, IsHeard, StopsBy, is_fault_by};

use crate::conn::{Cause, ServerConn};
use call_answers::Setting;
use grpc_stream::{CallConnection, CallEvent};
use rib_core::RibCore;
use rig_io::Clock;
use server_turns::Outcome;
use std::sync::Wait;
use table_lock::{Pass, TableLock};

/// What became of the events of a turn.
#[derive(Clone, Copy, Debug, PartialEq, Eq)]
pub(crate) enum Heard {
    /// One was handled.
    Event,
    /// Every whole frame was received, and all was handled.
    All,
}

impl<K: CallConnection> ServerConn<K> {
    // Takes the next event of the calls and does what it asks.
    pub(crate) fn hear<R: Wait, C: Clock>(
        &mut self,
        rt: &R,
        lock: &TableLock<RibCore>,
        pass: &mut Pass<RibCore>,
        setting: &Setting,
        clock: &mut C,
    ) -> Result<Heard, Cause>
        requires pass { IsPassOf lock.now pass.old }
        requires sound { IsSound IsLawful lock.now.setup pass.old }
        ensures pass { IsPassOf lock.now pass.new }
        ensures sound { IsSound IsLawful lock.now.setup pass.new }
        ensures goes { (t : CallTrace) (actions : List Action) (pieces : List Piece) (own : List Event)
            → Works K.stands K.output setting.now self.old.calls self.old.engine self.old.refused t actions pieces own → MadeLast pass.old own
            → IfOk result (λ heard.
            IsHeard K.stands K.output setting.now lock.now.setup pass.old pass.new self.new.calls self.new.engine self.new.refused t pieces own heard)
            × IfErr result (λ cause. StopsBy K.stands K.output setting.now lock.now.setup pass.old pass.new self.new.calls self.new.engine self.new.refused t
            pieces own self.new.is_ended cause) }
        ensures same { self.new ≡ record self.old { calls = self.new.calls; engine = self.new.engine; refused = self.new.refused } }
        ensures ahead { result ≡ Ok Heard.Event → K.ahead self.new.calls < K.ahead self.old.calls }
        ensures quiet { IfErr result (λ cause. is_fault_by cause ≡ false) }
    {
        match self.calls.next(&setting.numbering) {
            CallEvent::NeedMore => Ok(Heard::All),
            CallEvent::Refused(why, place) => Err(Cause::Ends(Outcome::Protocol(why, place))),
            CallEvent::Calm(cause) => Err(Cause::Ends(Outcome::Calm(cause))),
            CallEvent::NoMemory => Err(Cause::Ends(Outcome::NoMemory)),
            CallEvent::Begun(stream, method) => {
                self.begin(rt, lock, pass, setting, stream, method)?;
                Ok(Heard::Event)
            }
            CallEvent::Request(stream, message) => {
                self.request(rt, lock, pass, setting, stream, message, clock)?;
                Ok(Heard::Event)
            }
            CallEvent::Finished(stream) => {
                self.finish(rt, lock, pass, setting, stream, clock)?;
                Ok(Heard::Event)
            }
            CallEvent::Dropped(stream) => {
                self.drop_call(rt, lock, pass, setting, stream)?;
                Ok(Heard::Event)
            }
            CallEvent::Answered(_, _) => Ok(Heard::Event),
            CallEvent::Closed(_, _) => Ok(Heard::Event),
        }
    }

    // Handles every event of the whole frames that were fed.
    pub(crate) fn hear_all<R: Wait, C: Clock>(
        &mut self,
        rt: &R,
        lock: &TableLock<RibCore>,
        pass: &mut Pass<RibCore>,
        setting: &Setting,
        clock: &mut C,
    ) -> Result<(), Cause>
        requires pass { IsPassOf lock.now pass.old }
        requires sound { IsSound IsLawful lock.now.setup pass.old }
        ensures pass { IsPassOf lock.now pass.new }
        ensures sound { IsSound IsLawful lock.now.setup pass.new }
        ensures goes { (t : CallTrace) (actions : List Action) (pieces : List Piece) (own : List Event)
            → Works K.stands K.output setting.now self.old.calls self.old.engine self.old.refused t actions pieces own → MadeLast pass.old own
            → IfOk result (λ _.
            HearsAll K.stands K.output setting.now lock.now.setup pass.old pass.new self.new.calls self.new.engine self.new.refused t pieces own)
            × IfErr result (λ cause. StopsBy K.stands K.output setting.now lock.now.setup pass.old pass.new self.new.calls self.new.engine self.new.refused t
            pieces own self.new.is_ended cause) }
        ensures same { self.new ≡ record self.old { calls = self.new.calls; engine = self.new.engine; refused = self.new.refused } }
        ensures quiet { IfErr result (λ cause. is_fault_by cause ≡ false) }
    {
        'events: loop {
            match self.hear(rt, lock, pass, setting, clock) {
                Err(cause) => return Err(cause),
                Ok(Heard::All) => return Ok(()),
                Ok(Heard::Event) => {}
            }
        }
    }
}
