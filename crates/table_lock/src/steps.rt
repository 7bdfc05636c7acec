//! The steps of a seat. Word 0 is the next ticket, word 1 the ticket that is served, and the slot holds the machine.
ghost use Rattle.std.specs.Prelude.{◌≡◌, ℕ, ◌+◌, ◌^◌, ◌<◌, ◌≤◌, [], ◌∷◌, Some, MatchResult};
ghost use Rattle.table_lock.specs.Lock.{Sound, forked, new_pass, note_of, learned, merged, handed_on};
ghost use Rattle.table_lock.specs.Seats.{IsAt, IsSameSeat, IsIdle, IsRoot, IsNote, IsUnspent, IsHolding, IsActing, glances, draws, Took, IsReady, IsPerformed};

use crate::lock::Spent;
use crate::machine::Machine;
use crate::transitions::{
    Draw, Fork, Glance, HandOn, Learn, Look, Merge, SeatOf, Settle, SharedOf, SlotOf, Tell,
};
use crate::view::LastCall;
use std::snapshot::Snapshot;
use std::sync::Wait;
use std::{hint, thread};

// So many tickets a lock has.
const MOST: u64 = 1 << 62;

const TICKET: usize = 0;

const SERVING: usize = 1;

// So often a thread that finds others in the lock spins before it draws a ticket, each time twice as long, and then so
// often it yields. A ticket that is drawn where nobody has one is served at once, so no thread has to be woken for it.
const SPINS: u32 = 8;

const YIELDS: u32 = 20;

// So often a thread looks for its turn before it sleeps: a short call is over by then.
const LOOKS: u32 = 200;

// Looks at the next ticket.
pub(crate) fn glance<M: Machine>(table: &SharedOf<M>, seat: &mut SeatOf<M>) -> u64
    requires { IsAt table.now.table_id seat.old × IsIdle seat.old }
    ensures { IsSameSeat seat.old seat.new × (seat.new.me ≡ glances seat.old.me result) }
{
    table.load::<Glance>(seat, TICKET)
}

// Draws the next ticket, and returns it.
pub(crate) fn draw<M: Machine, R: Wait>(
    rt: &R,
    table: &SharedOf<M>,
    seat: &mut SeatOf<M>,
) -> Result<u64, Spent>
    requires { IsAt table.now.table_id seat.old × IsIdle seat.old }
    ensures seat { IsSameSeat seat.old seat.new }
    ensures drawn { MatchResult result
        (λ t. (t < 2 ^ 62) × (seat.new.me ≡ draws seat.old.me t))
        (λ _. (n : ℕ) × (2 ^ 62 ≤ n) × (seat.new.me ≡ glances seat.old.me n)) }
{
    let mut ticket = glance(table, seat);
    let mut waits = 0;
    for _ in rt.forever() {
        if ticket >= MOST {
            return Err(Spent);
        }
        if waits < SPINS + YIELDS && table.peek(SERVING) != ticket {
            pause(waits);
            waits += 1;
            ticket = glance(table, seat);
            continue;
        }
        let found = table.compare_exchange::<Draw>(seat, TICKET, ticket, ticket + 1);
        if found == ticket {
            return Ok(ticket);
        }
        ticket = found;
    }
    unreachable!()
}

// Lets others go on, who may be in the lock.
fn pause(waits: u32) {
    if waits < SPINS {
        for _ in 0..1u32 << waits {
            hint::spin_loop();
        }
    } else {
        thread::yield_now();
    }
}

// Waits until the pass's ticket is served. The pass then holds the machine. A thread that sleeps drew its ticket before
// it looked, so who hands the lock on later finds the ticket drawn, and wakes it.
pub(crate) fn await_turn<M: Machine, R: Wait>(
    rt: &R,
    table: &SharedOf<M>,
    seat: &mut SeatOf<M>,
    ticket: u64,
)
    requires { IsAt table.now.table_id seat.old × IsHolding seat.old ticket }
    ensures seat { IsSameSeat seat.old seat.new }
    ensures turn { Took M.setup M.stands M.lawful ticket seat.old.me seat.new.me }
{
    let mut looks = 0;
    for _ in rt.forever() {
        let served = table.load::<Look<M>>(seat, SERVING);
        if served == ticket {
            return;
        }
        if looks < LOOKS {
            hint::spin_loop();
            looks += 1;
        } else {
            table.park(rt, SERVING, (served % (1 << 32)) as u32);
        }
    }
    unreachable!()
}

// Lets the machine in the slot act, where it lies. The snapshots tell the rule which call was made.
fn perform<M: Machine>(slot: &mut SlotOf<M>, command: M::Command) -> M::Reply
    requires { IsReady M.stands slot.old }
    ensures { IsPerformed M.setup M.stands slot.old slot.new command result }
{
    let Some(slot_content) = slot else {
        unreachable!()
    };
    let asked = Snapshot::of(&command);
    let reply = slot_content.machine.act(command);
    slot_content.last = Some(LastCall {
        command: asked,
        reply: Snapshot::of(&reply),
    });
    reply
}

// Lets the machine act, and hands the lock on.
pub(crate) fn act<M: Machine>(
    table: &SharedOf<M>,
    seat: &mut SeatOf<M>,
    command: M::Command,
) -> M::Reply
    requires { IsAt table.now.table_id seat.old × IsActing M.setup M.stands M.lawful seat.old }
    ensures seat { IsSameSeat seat.old seat.new }
    ensures called { (seat.new.me ≡ (handed_on seat.old.me.0 command result, []))
        × ((key : M.Setup) → seat.old.me.0.setup ≡ Some key → M.lawful key seat.new.me.0.seen) }
{
    let slot = seat.slot_mut(table, 0);
    let reply = perform::<M>(slot, command);
    let served = table.fetch_add::<HandOn>(seat, SERVING, 1);
    wake(table, served);
    reply
}

// Wakes those who wait, where a ticket after the one that was served is drawn.
fn wake<M: Machine>(table: &SharedOf<M>, served: u64)
    requires { table.now.table_id.words ≡ 2 }
{
    if table.peek(TICKET).wrapping_sub(served) > 1 {
        table.wake_all(SERVING);
    }
}

// Asks what the rule says of the seat's view.
pub(crate) fn settle<M: Machine>(table: &SharedOf<M>, seat: &mut SeatOf<M>)
    requires { IsAt table.now.table_id seat.old × IsUnspent seat.old }
    ensures { IsSameSeat seat.old seat.new × (seat.new.me ≡ seat.old.me) × Sound M.lawful seat.old.me.0 }
{
    table.load::<Settle<M>>(seat, TICKET);
}

// Splits a pass off the root.
pub(crate) fn fork<M: Machine>(table: &SharedOf<M>, seat: &mut SeatOf<M>) -> SeatOf<M>
    requires { IsAt table.now.table_id seat.old × IsRoot seat.old }
    ensures kept { IsSameSeat seat.old seat.new × (seat.new.me ≡ (forked seat.old.me.0, [])) }
    ensures given { (result.table_id ≡ seat.old.table_id) × (result.me ≡ (new_pass seat.old.me.0, [])) }
    ensures sound { Sound M.lawful result.me.0 }
{
    let mut new = table.split_seat::<Fork>(seat);
    settle(table, &mut new);
    new
}

// Splits a note off a pass.
pub(crate) fn tell<M: Machine>(table: &SharedOf<M>, seat: &mut SeatOf<M>) -> SeatOf<M>
    requires { IsAt table.now.table_id seat.old × IsIdle seat.old }
    ensures kept { IsSameSeat seat.old seat.new × (seat.new.me ≡ seat.old.me) }
    ensures given { (result.table_id ≡ seat.old.table_id) × (result.me ≡ (note_of seat.old.me.0, [])) }
{
    table.split_seat::<Tell>(seat)
}

// Takes a note into a pass.
pub(crate) fn learn<M: Machine>(table: &SharedOf<M>, seat: &mut SeatOf<M>, note: SeatOf<M>)
    requires { IsAt table.now.table_id seat.old × IsIdle seat.old × IsAt table.now.table_id note × IsNote note }
    ensures kept { IsSameSeat seat.old seat.new × (seat.new.me ≡ (learned seat.old.me.0 note.me.0, [])) }
    ensures sound { Sound M.lawful seat.new.me.0 }
{
    table.join_seat::<Learn>(seat, note);
    settle(table, seat);
}

// Takes a pass into the root.
pub(crate) fn merge<M: Machine>(table: &SharedOf<M>, seat: &mut SeatOf<M>, other: SeatOf<M>)
    requires { IsAt table.now.table_id seat.old × IsRoot seat.old × IsAt table.now.table_id other × IsIdle other }
    ensures kept { IsSameSeat seat.old seat.new × (seat.new.me ≡ (merged seat.old.me.0 other.me.0, [])) }
    ensures sound { Sound M.lawful seat.new.me.0 }
{
    table.join_seat::<Merge>(seat, other);
    settle(table, seat);
}
