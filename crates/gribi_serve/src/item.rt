//! A connection with its link and its pass.
ghost use Rattle.std.specs.Prelude.{◌≡◌, None, Some};
ghost use Rattle.reactor.specs.Turns.{IfOver};
ghost use Rattle.server_turns.specs.declared.outcome.Outcome.{Outcome as OutcomeView};
ghost use Rattle.gribi_serve.specs.Links.{IsServedSoFar, MayGoOn, ended_by};

use crate::room::{Naming, Room};
use link_serving::Ended;
use reactor::{Turned, Turning};
use rib_core::RibCore;
use rig_io::{Clock, Link};
use server_turns::{Outcome, ServedByTurns, TurnEnd};
use std::sync::Wait;
use table_lock::Pass;

/// A connection with its link and its pass, which has turns until it is over.
#[derive(Drop)]
pub struct ServedLink<'a, N: Naming, K: ServedByTurns, L: Link + Drop, C: Clock> {
    pub(crate) room: Room<'a, N>,
    pub(crate) link: L,
    pub(crate) pass: Pass<RibCore>,
    pub(crate) conn: K,
    pub(crate) clock: C,
    // How the connection was over.
    pub(crate) outcome: Option<Outcome>,
}

// How the loop over links tells it.
pub(crate) fn ended_by(outcome: &Option<Outcome>) -> Ended
    ensures { result ≡ ended_by outcome.now }
{
    match outcome {
        Some(Outcome::NoMemory) => Ended::NoMemory,
        Some(Outcome::Spent) => Ended::Spent,
        _ => Ended::Served,
    }
}

impl<'a, N: Naming, K: ServedByTurns, L: Link + Drop, C: Clock> ServedLink<'a, N, K, L, C> {
    // A turn of a connection that isn't over.
    fn go<R: Wait>(&mut self, rt: &R) -> Turned
        requires live { self.old.outcome ≡ None }
        requires keeps { MayGoOn N.lock (λ past a. K.stands self.old.conn N.setting past a self.old.outcome) self.old.pass }
        ensures keeps { MayGoOn N.lock (λ past a. K.stands self.new.conn N.setting past a self.new.outcome) self.new.pass }
        ensures over { IfOver result ((outcome : OutcomeView) × (self.new.outcome ≡ Some outcome)) }
        ensures goes { (first : L)
            → IsServedSoFar L.pieces L.faults (λ past a. K.stands self.old.conn N.setting past a self.old.outcome) N.lock.setup first
            self.old.link self.old.pass self.old.outcome
            → IsServedSoFar L.pieces L.faults (λ past a. K.stands self.new.conn N.setting past a self.new.outcome) N.lock.setup first
            self.new.link self.new.pass self.new.outcome }
    {
        match self.conn.turn(
            rt,
            self.room.lock,
            &mut self.pass,
            &mut self.link,
            self.room.setting,
            &mut self.clock,
        ) {
            TurnEnd::Progress => Turned::Progress,
            TurnEnd::Idle => Turned::Idle,
            TurnEnd::Over(outcome) => {
                self.outcome = Some(outcome);
                Turned::Over
            }
        }
    }
}

impl<'a, N: Naming, K: ServedByTurns, L: Link + Drop, C: Clock> Turning
    for ServedLink<'a, N, K, L, C> {
    ghost use Rattle.std.specs.Prelude.{◌≡◌, Some};
    ghost use Rattle.server_turns.specs.declared.outcome.Outcome.{Outcome as OutcomeView};
    ghost use Rattle.gribi_serve.specs.Links.{IsServedSoFar, MayGoOn};

    ghost keeps = { λ x. MayGoOn N.lock (λ past a. K.stands x.conn N.setting past a x.outcome) x.pass };

    ghost ends = { λ x. (outcome : OutcomeView) × (x.outcome ≡ Some outcome) };

    // Whatever link it was made of, it goes on to be served.
    ghost goes = { λ x y came_to. (first : L)
        → IsServedSoFar L.pieces L.faults (λ past a. K.stands x.conn N.setting past a x.outcome) N.lock.setup first x.link x.pass x.outcome
        → IsServedSoFar L.pieces L.faults (λ past a. K.stands y.conn N.setting past a y.outcome) N.lock.setup first y.link y.pass y.outcome };

    fn turn<R: Wait>(&mut self, rt: &R) -> Turned {
        match &self.outcome {
            Some(_) => Turned::Over,
            None => self.go(rt),
        }
    }
}
