//! A connection that is served turn by turn, by a pass of a table that others share.
ghost use Rattle.std.specs.Prelude.{◌≡◌, IfOk};
ghost use Rattle.rib_core.specs.Recorded.{IsLawful};
ghost use Rattle.table_lock.specs.Passes.{IsPassOf, IsSound};

use crate::served::{End, end_of};
use aft_entries::MemDevice;
use call_answers::Setting;
use grpc_calls::Calls;
use h2_conn::H2Conn;
use h2_exchange::Role;
use rib_core::RibCore;
use rig_io::{MemLink, StepClock};
use server_conn::{LIMITS, ServerConn};
use server_turns::{ServedByTurns, TurnEnd};
use std::alloc::{AllocError, Global};
use std::sync::Wait;
use table_lock::{Pass, TableLock};
use table_workers::work_step;

/// A connection, its link and its pass.
#[derive(Drop)]
pub(crate) struct Turned {
    pub conn: ServerConn<Calls<H2Conn>>,
    pub link: MemLink,
    pub pass: Pass<RibCore>,
    pub clock: StepClock,
}

/// A connection that had no turn; its clock answers 3 first.
pub(crate) fn connect(
    alloc: Global,
    link: MemLink,
    pass: Pass<RibCore>,
) -> Result<Turned, AllocError>
    ensures { IfOk result (λ t. t.pass ≡ pass) }
{
    let conn = H2Conn::new(alloc, Role::Server, LIMITS)?;
    Ok(Turned {
        conn: ServerConn::new(alloc, Calls::new(alloc, Role::Server, conn)),
        link,
        pass,
        clock: StepClock::new(3),
    })
}

// The pass takes in what it tells itself, by which it knows a lawful history.
fn settle(lock: &TableLock<RibCore>, pass: &mut Pass<RibCore>)
    requires { IsPassOf lock.now pass.old }
    ensures pass { IsPassOf lock.now pass.new }
    ensures sound { IsSound IsLawful lock.now.setup pass.new }
{
    let note = lock.tell(pass);
    lock.learn(pass, note);
}

impl Turned {
    /// One turn. It answers how the connection ended, if it did.
    pub(crate) fn turn<R: Wait>(
        &mut self,
        rt: &R,
        lock: &TableLock<RibCore>,
        setting: &Setting,
    ) -> Option<End>
        requires { IsPassOf lock.now self.old.pass }
        ensures { IsPassOf lock.now self.new.pass }
    {
        settle(lock, &mut self.pass);
        match self.conn.turn(
            rt,
            lock,
            &mut self.pass,
            &mut self.link,
            setting,
            &mut self.clock,
        ) {
            TurnEnd::Over(outcome) => Some(end_of(&outcome)),
            TurnEnd::Progress => None,
            TurnEnd::Idle => None,
        }
    }

    /// So many turns, or fewer where the connection ended.
    pub(crate) fn turns<R: Wait>(
        &mut self,
        rt: &R,
        lock: &TableLock<RibCore>,
        setting: &Setting,
        count: u32,
    ) -> Option<End>
        requires { IsPassOf lock.now self.old.pass }
        ensures { IsPassOf lock.now self.new.pass }
    {
        'turns: for _ in 0..count {
            if let Some(end) = self.turn(rt, lock, setting) {
                return Some(end);
            }
        }
        None
    }
}

/// The worker of a table, with its device.
#[derive(Drop)]
pub(crate) struct Beside {
    pub pass: Pass<RibCore>,
    pub device: MemDevice,
    pub clock: StepClock,
}

impl Beside {
    /// One step of it.
    pub(crate) fn step<R: Wait>(&mut self, rt: &R, lock: &TableLock<RibCore>)
        requires { IsPassOf lock.now self.old.pass }
        ensures { IsPassOf lock.now self.new.pass }
    {
        let _ = work_step(
            rt,
            lock,
            &mut self.pass,
            0,
            &mut self.device,
            &mut self.clock,
        );
    }
}
