//! What a seat at the table knows. It exists in proofs alone: no value of these types is made, but for a `Slot`.
use crate::machine::Entry;
use std::collections::LinkedList;
use std::snapshot::Snapshot;

/// What a seat is. A seat that was joined is spent.
pub enum Kind {
    Spent,
    Note,
    Pass,
}

/// Where a pass is in a call: in none, waiting with a ticket, or acting with one.
pub enum Phase {
    Idle,
    Waits(u64),
    Acts(u64),
}

/// Of a pass that was joined, its number and its calls.
pub struct Item<C, R> {
    /// Its number.
    pub number: u64,
    /// Its calls, the earliest first.
    pub calls: LinkedList<Entry<C, R>>,
}

/// What a seat knows.
pub struct View<C, R, G> {
    pub kind: Kind,
    pub number: u64,
    pub phase: Phase,
    /// The history that was seen.
    pub seen: LinkedList<Entry<C, R>>,
    /// The entries of its own number.
    pub mine: LinkedList<Entry<C, R>>,
    /// The ticket that was looked at last.
    pub ticket: u64,
    /// The two histories that the last join put together.
    pub left: LinkedList<Entry<C, R>>,
    pub right: LinkedList<Entry<C, R>>,
    /// Of the root: how many passes were made, itself counted, how many are out, and those that were joined.
    pub made: u64,
    pub out: u64,
    pub ended: LinkedList<Item<C, R>>,
    /// The setup of the machine. A spent seat has none.
    pub setup: Option<G>,
}

/// What the last call under the lock asked and answered.
#[derive(Drop)]
pub struct LastCall<C, R> {
    pub command: Snapshot<C>,
    pub reply: Snapshot<R>,
}

/// What lies in the slot: the machine, and what it did last.
#[derive(Drop)]
pub struct Slot<M, C, R> {
    pub machine: M,
    pub last: Option<LastCall<C, R>>,
}
