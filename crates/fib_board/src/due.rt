//! The results that sessions haven't collected, in a row for each session.
ghost use Rattle.std.specs.Prelude.{◌≡◌, ◌==◌, ◌+◌, ◌≤◌, ◌<◌, ◌^◌, ◌++◌, ◌∷◌, [], if◌then◌else◌, ℕ, drop, length, take, vec_len, vec_capacity};
ghost use Rattle.std.specs.List.{position};
ghost use Rattle.table_model.specs.BoardState.{due_for};
ghost use Rattle.fib_board.specs.BoardInvariant.{due_total};
ghost use Rattle.fib_board.specs.Steps.{due_after_collect, due_after_forget};

use std::alloc::Global;
use std::collections::LinkedList;
use std::marker::Model;
use table_model::{Batch, FibResult};

/// What a session hasn't collected.
#[derive(Drop)]
pub struct Row {
    session: u64,
    results: LinkedList<FibResult>,
}

impl Model for Row {
    ghost use Rattle.table_model.specs.BoardState.{DueResults};

    ghost Value = { DueResults };

    ghost view = { λ r. record { session = r.session; results = r.results } };
}

impl Row {
    fn append(&mut self, mut more: LinkedList<FibResult>)
        requires { length self.old.results + length more < 2 ^ 63 }
        ensures { self.new ≡ record { session = self.old.session; results = self.old.results ++ more } }
    {
        if self.results.append(&mut more).is_err() {
            unreachable!()
        }
    }

    fn cut(&mut self) -> Batch
        ensures batch { result ≡ take 256 self.old.results }
        ensures rest { self.new ≡ record { session = self.old.session; results = drop 256 self.old.results } }
    {
        Batch::cut(&mut self.results)
    }

    fn len(&self) -> usize
        ensures { result ≡ length self.now.results }
    {
        self.results.len()
    }
}

fn place_of(due: &[Row], session: u64) -> Option<usize>
    ensures { result ≡ position (λ row. row.session == session) due.now }
{
    due.iter().position(|row| row.session == session)
}

/// How many results are due to the session.
pub fn count(due: &[Row], session: u64) -> usize
    ensures count { result ≡ length (due_for due.now session) }
    ensures bound { result ≤ due_total due.now }
{
    match place_of(due, session) {
        Some(at) => due[at].len(),
        None => 0,
    }
}

/// Makes more results due to the session. A session that has no row takes one.
pub fn append(due: &mut Vec<Row>, session: u64, more: LinkedList<FibResult>)
    requires room { vec_len due.old < vec_capacity due.old }
    requires few { due_total due.old.items + length more < 2 ^ 63 }
    ensures due { (other : ℕ) → due_for due.new.items other ≡ due_for due.old.items other ++ (if session == other then more else []) }
    ensures total { due_total due.new.items ≡ due_total due.old.items + length more }
    ensures len { vec_len due.new ≤ vec_len due.old + 1 }
    ensures capacity { vec_capacity due.old ≤ vec_capacity due.new }
{
    match place_of(due, session) {
        Some(at) => due[at].append(more),
        None => add_session_results(due, session, more),
    }
}

fn add_session_results(due: &mut Vec<Row>, session: u64, results: LinkedList<FibResult>)
    requires room { vec_len due.old < vec_capacity due.old }
    ensures items { due.new.items ≡ due.old.items ++ record { session = session; results = results } ∷ [] }
    ensures len { vec_len due.new ≡ vec_len due.old + 1 }
    ensures capacity { vec_capacity due.old ≤ vec_capacity due.new }
{
    if due.push(Row { session, results }).is_err() {
        unreachable!()
    }
}

/// The first 256 results that are due to the session, which are due no more.
pub fn collect(due: &mut Vec<Row>, session: u64) -> Batch
    ensures batch { result ≡ take 256 (due_for due.old.items session) }
    ensures due { (other : ℕ) → due_for due.new.items other ≡ due_after_collect session other (due_for due.old.items other) }
    ensures total { due_total due.new.items ≤ due_total due.old.items }
    ensures len { vec_len due.new ≡ vec_len due.old }
    ensures capacity { vec_capacity due.new ≡ vec_capacity due.old }
{
    match place_of(due, session) {
        Some(at) => due[at].cut(),
        None => Batch::empty(*due.allocator()),
    }
}

/// Nothing is due to the session any more.
pub fn forget(due: &mut Vec<Row>, session: u64)
    ensures due { (other : ℕ) → due_for due.new.items other ≡ due_after_forget session other (due_for due.old.items other) }
    ensures total { due_total due.new.items ≤ due_total due.old.items }
    ensures len { vec_len due.new ≤ vec_len due.old }
    ensures capacity { vec_capacity due.new ≡ vec_capacity due.old }
{
    due.retain(|row| row.session != session);
}
