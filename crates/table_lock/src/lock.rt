//! The lock, its passes and its notes.
ghost use Rattle.std.specs.Prelude.{◌≡◌, ℕ, ◌+◌, ◌-◌, ◌^◌, ◌<◌, ◌≤◌, [], ◌∷◌, ◌++◌, IfOk, IfErr};
ghost use Rattle.table_lock.specs.Passes.{IsPassOf, IsNoteOf, IsCalled, IsLearned, IsSound, IsClosed, root_view, child, item};

use crate::doorbell::Doorbell;
use crate::machine::Machine;
use crate::steps;
use crate::transitions::{SeatOf, TableOf};
use crate::view::Slot;
use atomic_table::Table;
use std::alloc::{AllocError, Global};
use std::marker::Model;
use std::snapshot::Snapshot;
use std::sync::Wait;
use std::time::Duration;

/// The call was not made: 2^62 tickets had been drawn, and a lock has no more.
#[derive(Drop)]
pub struct Spent;

/// A machine under a lock, which threads share. Clauses see which lock it is, and the setup of its machine.
#[derive(Drop)]
pub struct TableLock<M: Machine> {
    table: TableOf<M>,
    doorbell: Doorbell,
}

impl<M: Machine> Model for TableLock<M> {
    ghost use Rattle.std.specs.Prelude.{◌≡◌};
    ghost use Rattle.table_lock.specs.Passes.{LockView};

    ghost Value = { LockView M.Setup };

    ghost view = { λ l. record { table = l.table.shared.table_id; setup = M.setup l.table.shared.key.value } };

    ghost invariant = { λ l. (l.table.shared.table_id.words ≡ 2) × (l.table.shared.table_id.slots ≡ 1) };
}

/// What a thread calls with. It has no bytes, and belongs to one lock.
///
/// Clauses see its number, the history that it has seen, its own calls in it, and the ticket that it looked at
/// last. The root, which has the number 0, also knows how many passes were made, how many are out, and the
/// number and the calls of each that was joined.
#[derive(Drop)]
pub struct Pass<M: Machine> {
    seat: SeatOf<M>,
}

impl<M: Machine> Model for Pass<M> {
    ghost use Rattle.table_lock.specs.Passes.{PassView};

    ghost Value = { PassView M.Command M.Reply M.Setup };

    ghost use Rattle.table_lock.specs.Seats.{IsIdle, pass_view};

    ghost view = { λ p. pass_view p.seat };

    ghost invariant = { λ p. IsIdle p.seat };
}

/// What a pass had seen when it told it. It has no bytes, and belongs to one lock.
#[derive(Drop)]
pub struct Note<M: Machine> {
    seat: SeatOf<M>,
}

impl<M: Machine> Model for Note<M> {
    ghost use Rattle.table_lock.specs.Passes.{NoteView};

    ghost Value = { NoteView M.Command M.Reply M.Setup };

    ghost use Rattle.table_lock.specs.Seats.{IsNote, note_view};

    ghost view = { λ p. note_view p.seat };

    ghost invariant = { λ p. IsNote p.seat };
}

impl<M: Machine> TableLock<M> {
    /// Puts a machine that stands for the empty history under a lock. The pass is the root. It fails for want of memory alone.
    pub fn new(alloc: Global, machine: M) -> Result<(TableLock<M>, Pass<M>), AllocError>
        requires { M.stands machine [] }
        ensures root { IfOk result (λ r. (r.0.setup ≡ M.setup machine) × (r.1 ≡ root_view r.0)) }
        ensures sound { IfOk result (λ r. IsSound M.lawful r.0.setup r.1) }
    {
        let about = Snapshot::of(&machine);
        let mut slots = Vec::with_capacity(alloc, 1)?;
        slots.push_reserved(Some(Slot {
            machine,
            last: None,
        }));
        match Table::new(alloc, &[0, 0], slots, &about) {
            Ok((table, seat)) => Ok((
                TableLock {
                    table,
                    doorbell: Doorbell::new(),
                },
                Pass { seat },
            )),
            Err(_) => Err(AllocError),
        }
    }

    /// Makes a call, which becomes the last entry of the history that the pass has seen. It waits for the calls before it.
    /// Spent where 2^62 tickets had been drawn; the pass is then as before, but for the ticket that it looked at.
    pub fn call<R: Wait>(
        &self,
        rt: &R,
        pass: &mut Pass<M>,
        command: M::Command,
    ) -> Result<M::Reply, Spent>
        requires { IsPassOf self.now pass.old }
        ensures same { pass.new ≡ record pass.old { seen = pass.new.seen; mine = pass.new.mine; ticket = pass.new.ticket } }
        ensures called { IfOk result (λ reply. IsCalled M.lawful self.now.setup pass.old pass.new command reply) }
        ensures spent { IfErr result (λ _. (2 ^ 62 ≤ pass.new.ticket) × (pass.new ≡ record pass.old { ticket = pass.new.ticket })) }
    {
        let ticket = steps::draw(rt, &self.table.shared, &mut pass.seat)?;
        steps::await_turn(rt, &self.table.shared, &mut pass.seat, ticket);
        Ok(steps::act(&self.table.shared, &mut pass.seat, command))
    }

    /// Makes a pass, which has the next number, has seen what the root has seen, and has no calls.
    pub fn split(&self, pass: &mut Pass<M>) -> Pass<M>
        requires { IsPassOf self.now pass.old × (pass.old.number ≡ 0) }
        ensures root { pass.new ≡ record pass.old { made = pass.old.made + 1; out = pass.old.out + 1 } }
        ensures new { result ≡ child pass.old }
        ensures sound { IsSound M.lawful self.now.setup result }
    {
        Pass {
            seat: steps::fork(&self.table.shared, &mut pass.seat),
        }
    }

    /// Takes a pass back. The root then has seen all that either had seen, and keeps the number and the calls of the pass.
    pub fn join(&self, pass: &mut Pass<M>, other: Pass<M>)
        requires { IsPassOf self.now pass.old × (pass.old.number ≡ 0) × IsPassOf self.now other }
        ensures seen { IsLearned M.lawful self.now.setup pass.old other.seen pass.new }
        ensures same { pass.new ≡ record pass.old { seen = pass.new.seen; out = pass.old.out - 1; ended = pass.old.ended ++ item other ∷ [] } }
    {
        let Pass { seat } = other;
        steps::merge(&self.table.shared, &mut pass.seat, seat);
    }

    /// Makes a note of what the pass has seen.
    pub fn tell(&self, pass: &mut Pass<M>) -> Note<M>
        requires { IsPassOf self.now pass.old }
        ensures same { pass.new ≡ pass.old }
        ensures note { IsNoteOf self.now result × (result.seen ≡ pass.old.seen) }
    {
        Note {
            seat: steps::tell(&self.table.shared, &mut pass.seat),
        }
    }

    /// Takes in a note. The pass then has seen all that it or the teller had seen.
    pub fn learn(&self, pass: &mut Pass<M>, note: Note<M>)
        requires { IsPassOf self.now pass.old × IsNoteOf self.now note }
        ensures seen { IsLearned M.lawful self.now.setup pass.old note.seen pass.new }
        ensures same { pass.new ≡ record pass.old { seen = pass.new.seen } }
    {
        let Note { seat } = note;
        steps::learn(&self.table.shared, &mut pass.seat, seat);
    }

    /// How often the bell was rung, of which nothing is claimed.
    pub fn rung(&self) -> u64 {
        self.doorbell.rung()
    }

    /// Rings the bell, which ends the rests of all threads.
    pub fn ring(&self) {
        self.doorbell.ring();
    }

    /// Sleeps until the bell is rung, or for this long at most, and returns at once where `rung` answers no
    /// more what was heard. It may also return for no reason. No clause says that it ends.
    pub fn rest<R: Wait>(&self, rt: &R, heard: u64, at_most: Duration) {
        self.doorbell.rest(rt, heard, at_most);
    }

    /// Takes the machine out, once each pass was joined. It stands for the closed history, which is all that the root has seen.
    pub fn close(self, pass: Pass<M>) -> M
        requires { IsPassOf self pass × (pass.number ≡ 0) × (pass.out ≡ 0) }
        ensures machine { M.stands result pass.seen × (M.setup result ≡ self.setup) }
        ensures history { IsClosed M.lawful self.setup pass }
    {
        let TableLock { table, doorbell: _ } = self;
        let Pass { seat } = pass;
        let mut closed = table.close_with(seat);
        let held = closed.take(0);
        closed.free();
        let Some(slot_content) = held else {
            unreachable!()
        };
        let Slot { machine, last: _ } = slot_content;
        machine
    }
}
