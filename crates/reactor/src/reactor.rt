ghost use Rattle.std.specs.Prelude.{◌≡◌, ◌+◌, ◌≤◌, ◌<◌, ◌∷◌, ◌++◌, [], IfSome, IfNone, IfErr, OnOk, All, length, vec_len, vec_capacity};
ghost use Rattle.reactor.specs.Turns.{IfLive, IfOver, IsRound, IsTurnAt};

use crate::turning::{Turned, Turning};
use std::alloc::Global;
use std::marker::Model;
use std::sync::Wait;

/// What a round came to.
#[derive(Clone, Copy, Debug, PartialEq, Eq)]
pub struct Round {
    /// How many items made progress.
    pub progressed: u64,
    /// How many had their last turn.
    pub ended: u64,
}

/// Items that take turns. Contracts see those that have turns to come, in no order that counts, and those
/// that are over and weren't taken out.
#[derive(Drop)]
pub struct Reactor<T: Turning + Drop> {
    live: Vec<T>,
    // In the order in which they were over. It has room for the live ones too.
    over: Vec<T>,
}

impl<T: Turning + Drop> Model for Reactor<T> {
    ghost use Rattle.std.specs.Prelude.{◌+◌, ◌≤◌, All, vec_len, vec_capacity};
    ghost use Rattle.reactor.specs.Turns.{ReactorItems};

    ghost Value = { ReactorItems T };

    ghost view = { λ r. record { live = r.live.items; over = r.over.items } };

    ghost invariant = { λ r. All T.keeps r.live.items
        × All (λ x. T.keeps x × T.ends x) r.over.items
        × (vec_len r.live + vec_len r.over ≤ vec_capacity r.over) };
}

impl<T: Turning + Drop> Reactor<T> {
    /// No items.
    pub fn new(alloc: Global) -> Reactor<T>
        ensures { result ≡ record { live = []; over = [] } }
    {
        Reactor {
            live: Vec::new(alloc),
            over: Vec::new(alloc),
        }
    }

    /// Takes in an item, or hands it back for want of memory.
    pub fn adopt(&mut self, item: T) -> Result<(), T>
        requires { T.keeps item }
        ensures ok { OnOk result (self.new.live ≡ self.old.live ++ item ∷ []) }
        ensures over { self.new.over ≡ self.old.over }
        ensures err { IfErr result (λ back. (back ≡ item) × (self.new.live ≡ self.old.live)) }
    {
        let held = self.live.len();
        if self.over.reserve(held + 1).is_err() || self.live.reserve(1).is_err() {
            return Err(item);
        }
        self.live.push_reserved(item);
        Ok(())
    }

    /// How many items aren't over.
    pub fn live(&self) -> u64
        ensures { result ≡ length self.now.live }
    {
        self.live.len() as u64
    }

    /// Takes out the item that has been over longest. None exactly where no item is over.
    pub fn take_over(&mut self) -> Option<T>
        ensures some { IfSome result (λ item. T.keeps item × T.ends item × (self.old.over ≡ item ∷ self.new.over)) }
        ensures none { IfNone result ((self.old.over ≡ []) × (self.new.over ≡ [])) }
        ensures live { self.new.live ≡ self.old.live }
    {
        if self.over.is_empty() {
            return None;
        }
        Some(self.over.remove(0))
    }

    /// Gives each item that isn't over one turn.
    pub fn round<R: Wait>(&mut self, rt: &R) -> Round
        ensures turns { IsRound T.goes self.old self.new result.progressed result.ended }
    {
        let Reactor { live, over } = self;
        give_turns(rt, live, over)
    }
}

fn give_turns<T: Turning + Drop, R: Wait>(rt: &R, live: &mut Vec<T>, over: &mut Vec<T>) -> Round
    requires live { All T.keeps live.old.items }
    requires over { All (λ x. T.keeps x × T.ends x) over.old.items }
    requires room { vec_len live.old + vec_len over.old ≤ vec_capacity over.old }
    ensures live { All T.keeps live.new.items }
    ensures over { All (λ x. T.keeps x × T.ends x) over.new.items }
    ensures room { vec_len live.new + vec_len over.new ≤ vec_capacity over.new }
    ensures turns { IsRound T.goes (record { live = live.old.items; over = over.old.items })
        (record { live = live.new.items; over = over.new.items }) result.progressed result.ended }
{
    let mut round = Round {
        progressed: 0,
        ended: 0,
    };
    let mut at = 0;
    while at < live.len() {
        match turn_at(rt, live, over, at) {
            Turned::Progress => {
                round.progressed += 1;
                at += 1;
            }
            Turned::Idle => at += 1,
            Turned::Over => round.ended += 1,
        }
    }
    round
}

// Gives the item at this place its turn, and moves it to those that are over if that was its last.
fn turn_at<T: Turning + Drop, R: Wait>(
    rt: &R,
    live: &mut Vec<T>,
    over: &mut Vec<T>,
    at: usize,
) -> Turned
    requires place { at < vec_len live.old }
    requires live { All T.keeps live.old.items }
    requires over { All (λ x. T.keeps x × T.ends x) over.old.items }
    requires room { vec_len live.old + vec_len over.old ≤ vec_capacity over.old }
    ensures live { All T.keeps live.new.items }
    ensures over { All (λ x. T.keeps x × T.ends x) over.new.items }
    ensures room { vec_len live.new + vec_len over.new ≤ vec_capacity over.new }
    ensures sizes { vec_len live.new + vec_len over.new ≡ vec_len live.old + vec_len over.old }
    ensures size { IfOver result (vec_len live.new + 1 ≡ vec_len live.old) }
    ensures stays { IfLive result (vec_len live.new ≡ vec_len live.old) }
    ensures turned { IsTurnAt T.goes at live.old.items over.old.items live.new.items over.new.items result }
{
    match live[at].turn(rt) {
        Turned::Progress => Turned::Progress,
        Turned::Idle => Turned::Idle,
        Turned::Over => {
            let item = live.swap_remove(at);
            over.push_reserved(item);
            Turned::Over
        }
    }
}
