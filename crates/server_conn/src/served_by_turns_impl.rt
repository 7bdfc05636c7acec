//! A connection that is served by turns.
ghost use Rattle.std.specs.Prelude.{◌≡◌, ◌⊎◌, ◌≤◌, ℕ, ◌++◌, List, [], Bool, None, Some, true, false};
ghost use Rattle.std.specs.List.{flat_map};
ghost use Rattle.std.specs.Option.{option_map};
ghost use Rattle.rig_io.specs.Fault.{HasCause, StaysUnless};
ghost use Rattle.rig_io.specs.Link.{Piece, received_bytes};
ghost use Rattle.rib_core.specs.Recorded.{IsLawful};
ghost use Rattle.h2_exchange.specs.declared.limits.H2Limits.{H2Limits};
ghost use Rattle.h2_exchange.specs.declared.role.Role.TheVariants.{Server};
ghost use Rattle.http_connection.specs.ConnectionTrace.{IsNew};
ghost use Rattle.grpc_stream.specs.CallTrace.{CallTrace, fresh};
ghost use Rattle.table_lock.specs.Passes.{IsPassOf, IsSound};
ghost use Rattle.table_model.specs.Event.{Event};
ghost use Rattle.call_answers.specs.declared.orders.Setting.{Setting as SettingView};
ghost use Rattle.server_turns.specs.Making.{MadeLast};
ghost use Rattle.server_turns.specs.Past.{nothing};
ghost use Rattle.server_turns.specs.Serving.{Account, IsServerLimits};
ghost use Rattle.server_turns.specs.Turning.{IsFault, MayFail};
ghost use Rattle.server_turns.specs.declared.outcome.TurnEnd.{TurnEnd as TurnEndView};
ghost use Rattle.server_conn.specs.Standing.{EndsBy, KeptBy, StandsAs, past_of};
ghost use Rattle.server_conn.specs.Steps.{is_fault_by};
ghost use Rattle.server_conn.specs.Turns.{TurnsOver, answer_by, goes_away};

use crate::conn::{Cause, ServerConn};
use call_answers::Setting;
use grpc_stream::CallConnection;
use rib_core::RibCore;
use rig_io::{Clock, Link};
use server_turns::{Outcome, ServedByTurns, TurnEnd};
use session_engine::SessionEngine;
use std::alloc::Global;
use std::sync::Wait;
use table_lock::{Pass, TableLock};

impl<K: CallConnection> ServerConn<K> {
    /// A connection over new calls of a server.
    pub fn new(alloc: Global, calls: K) -> ServerConn<K>
        ensures starts { (s : SettingView) (limits : H2Limits) → IsServerLimits limits → IsNew Server limits (λ c. K.stands calls (fresh c s.numbering))
            → (a : Account) × StandsAs K.stands K.output s result.calls result.engine result.refused result.is_ended result.may_wait result.outcome nothing
            a None }
    {
        ServerConn {
            alloc,
            calls,
            engine: SessionEngine::new(alloc),
            is_ended: false,
            waiting: 0,
            refused: 0,
            may_wait: false,
            outcome: None,
        }
    }

    // What can be written is, where the client is told that the connection goes away.
    fn say_last<L: Link>(&mut self, link: &mut L, outcome: &Outcome)
        ensures keeps { (s : SettingView) (t : CallTrace) (pieces : List Piece) (own : List Event) (is_ended : Bool)
            → KeptBy s t (K.output self.old.calls) self.old.refused (past_of pieces own is_ended) outcome.now
            → (put : List Piece) × (flat_map received_bytes put ≡ []) × (L.pieces link.new ≡ option_map (λ told. told ++ put) (L.pieces link.old))
            × KeptBy s t (K.output self.new.calls) self.new.refused (past_of (pieces ++ put) own is_ended) outcome.now }
        ensures faults { L.faults link.old ≤ L.faults link.new }
        ensures quiet { goes_away outcome.now ≡ false → L.faults link.new ≡ L.faults link.old }
        ensures ends_same { L.ends link.new ≡ L.ends link.old }
        ensures same { self.new ≡ record self.old { calls = self.new.calls } }
    {
        if goes_away(outcome) {
            self.flush(link);
        }
    }

    // The end behind the last turn, with the outcome that is kept.
    fn turn_over<R: Wait, L: Link>(
        &mut self,
        rt: &R,
        lock: &TableLock<RibCore>,
        pass: &mut Pass<RibCore>,
        link: &mut L,
        setting: &Setting,
        cause: Cause,
    ) -> Outcome
        requires pass { IsPassOf lock.now pass.old }
        requires sound { IsSound IsLawful lock.now.setup pass.old }
        ensures pass { IsPassOf lock.now pass.new }
        ensures goes { (t : CallTrace) (pieces : List Piece) (own : List Event)
            → EndsBy setting.now t (K.output self.old.calls) self.old.engine self.old.refused (past_of pieces own self.old.is_ended) cause
            → MadeLast pass.old own
            → (put : List Piece) × (L.pieces link.new ≡ option_map (λ told. told ++ put) (L.pieces link.old))
            × TurnsOver lock.now.setup setting.now t (K.output self.new.calls) self.new.refused pass.old pass.new pieces own self.new.is_ended cause result
            put }
        ensures fault { (first : ℕ) → HasCause first (L.faults link.old) (is_fault_by cause ≡ true)
            × StaysUnless first (L.faults link.old) (is_fault_by cause ≡ true)
            → HasCause first (L.faults link.new) (IsFault (TurnEnd.Over result)) × StaysUnless first (L.faults link.new) (MayFail (TurnEnd.Over result)) }
        ensures ends_same { L.ends link.new ≡ L.ends link.old }
        ensures ended { self.new.is_ended ≡ self.old.is_ended }
        ensures outcome { self.new.outcome ≡ Some result }
    {
        let outcome = self.close(rt, lock, pass, setting, cause);
        self.say_last(link, &outcome);
        self.outcome = Some(again(&outcome));
        outcome
    }
}

// The same outcome again.
fn again(outcome: &Outcome) -> Outcome
    ensures { result ≡ outcome.now }
{
    match outcome {
        Outcome::Served => Outcome::Served,
        Outcome::ReadFault => Outcome::ReadFault,
        Outcome::WriteFault => Outcome::WriteFault,
        Outcome::Dropped(cause) => Outcome::Dropped(*cause),
        Outcome::Protocol(why, place) => Outcome::Protocol(*why, *place),
        Outcome::Calm(cause) => Outcome::Calm(*cause),
        Outcome::Halted => Outcome::Halted,
        Outcome::Spent => Outcome::Spent,
        Outcome::NoMemory => Outcome::NoMemory,
    }
}

// The client is told that the connection goes away.
fn goes_away(outcome: &Outcome) -> bool
    ensures { result ≡ goes_away outcome.now }
{
    match outcome {
        Outcome::Protocol(_, _) => true,
        Outcome::Calm(_) => true,
        _ => false,
    }
}

fn answer_by(has_moved: bool) -> TurnEnd
    ensures { result ≡ answer_by has_moved }
{
    if has_moved {
        TurnEnd::Progress
    } else {
        TurnEnd::Idle
    }
}

impl<K: CallConnection> ServedByTurns for ServerConn<K> {
    ghost use Rattle.server_conn.specs.Standing.{StandsAs, serves_as};

    ghost stands = { λ conn s past a outcome.
        StandsAs K.stands K.output s conn.calls conn.engine conn.refused conn.is_ended conn.may_wait conn.outcome past a outcome };

    ghost waiting = { λ conn. conn.waiting };

    ghost serves = { λ conn s past a outcome h.
        serves_as K.stands K.output s conn.calls conn.engine conn.refused conn.is_ended conn.may_wait conn.outcome past a outcome h };

    fn refused_calls(&self) -> u64 {
        self.refused
    }

    fn turn<R: Wait, L: Link, C: Clock>(
        &mut self,
        rt: &R,
        lock: &TableLock<RibCore>,
        pass: &mut Pass<RibCore>,
        link: &mut L,
        setting: &Setting,
        clock: &mut C,
    ) -> TurnEnd {
        if let Some(outcome) = &self.outcome {
            return TurnEnd::Over(again(outcome));
        }
        match self.go(rt, lock, pass, link, setting, clock) {
            Ok(has_moved) => answer_by(has_moved),
            Err(cause) => TurnEnd::Over(self.turn_over(rt, lock, pass, link, setting, cause)),
        }
    }
}
