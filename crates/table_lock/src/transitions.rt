//! The rule of the table, and what its steps tell.
ghost use Rattle.table_lock.specs.Lock.{glanced, drew, handed, looked, settled, forked, new_pass, note_of, learned, merged, spent};

use crate::machine::Machine;
use crate::view::{Slot, View};
use atomic_table::{Join, Play, Seat, Shared, Split, Table, TableRule};
use std::alloc::Global;
use std::marker::PhantomData;
use std::snapshot::Snapshot;

/// The rule of a lock's table, whose key is the machine as it was when the lock was made.
pub struct LockRule<M> {
    machine: PhantomData<M>,
}

impl<M: Machine> TableRule<
    Option<Slot<M, M::Command, M::Reply>>,
    View<M::Command, M::Reply, M::Setup>,
    Snapshot<M>,
> for LockRule<M> {
    ghost use Rattle.table_lock.specs.Lock.{LockInvariant, first};

    ghost holds = { λ key. LockInvariant M.setup M.stands M.lawful (M.setup key.value) };

    ghost first = { λ key. first (M.setup key.value) };
}

pub type SlotOf<M> = Option<Slot<M, <M as Machine>::Command, <M as Machine>::Reply>>;

pub type ViewOf<M> = View<<M as Machine>::Command, <M as Machine>::Reply, <M as Machine>::Setup>;

pub type TableOf<M> = Table<SlotOf<M>, ViewOf<M>, Snapshot<M>, LockRule<M>, Global>;

pub type SharedOf<M> = Shared<SlotOf<M>, ViewOf<M>, Snapshot<M>, LockRule<M>>;

pub type SeatOf<M> = Seat<SlotOf<M>, ViewOf<M>>;

/// A load of the next ticket, which the pass remembers.
pub struct Glance;

impl<M, C, R, G> Play<Option<Slot<M, C, R>>, View<C, R, G>> for Glance {
    ghost then = { glanced };
}

/// A compare and exchange of the next ticket. Where it changes the word, the pass has the ticket.
pub struct Draw;

impl<M, C, R, G> Play<Option<Slot<M, C, R>>, View<C, R, G>> for Draw {
    ghost then = { drew };
}

/// A load of the served ticket. Where it is the pass's own, the pass has seen the whole history and takes the machine.
pub struct Look<M> {
    machine: PhantomData<M>,
}

impl<M: Machine> Play<Option<Slot<M, M::Command, M::Reply>>, View<M::Command, M::Reply, M::Setup>>
    for Look<M> {
    ghost then = { looked M.setup M.stands M.lawful };
}

/// An add of 1 to the served ticket. The machine goes home, and the call is in the history.
pub struct HandOn;

impl<M, C, R, G> Play<Option<Slot<M, C, R>>, View<C, R, G>> for HandOn {
    ghost then = { handed };
}

/// A load that changes nothing, and tells what the rule says of the seat's view.
pub struct Settle<M> {
    machine: PhantomData<M>,
}

impl<M: Machine> Play<Option<Slot<M, M::Command, M::Reply>>, View<M::Command, M::Reply, M::Setup>>
    for Settle<M> {
    ghost then = { settled M.lawful };
}

/// The root splits off a pass.
pub struct Fork;

impl<C, R, G> Split<View<C, R, G>> for Fork {
    ghost left = { forked };

    ghost right = { new_pass };
}

/// A pass splits off a note.
pub struct Tell;

impl<C, R, G> Split<View<C, R, G>> for Tell {
    ghost left = { λ v. v };

    ghost right = { note_of };
}

/// The root takes in a pass.
pub struct Merge;

impl<C, R, G> Join<View<C, R, G>> for Merge {
    ghost both = { merged };

    ghost spent = { spent };
}

/// A pass takes in a note.
pub struct Learn;

impl<C, R, G> Join<View<C, R, G>> for Learn {
    ghost both = { learned };

    ghost spent = { spent };
}
