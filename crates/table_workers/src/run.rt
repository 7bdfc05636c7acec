//! A worker's run.
ghost use Rattle.std.specs.Prelude.{◌≡◌, ◌+◌, ◌-◌, ◌^◌, ◌<◌, ◌≤◌, List};
ghost use Rattle.aft_entries.specs.Devices.{HasKeysOnce};
ghost use Rattle.rib_core.specs.Recorded.{IsLawful};
ghost use Rattle.table_lock.specs.Passes.{IsPassOf, IsSound};
ghost use Rattle.table_workers.specs.Working.{Calls, RunCalls, Works, faults_told, ends_spent};

use crate::step::{Stepped, settle, settled_step};
use aft_entries::Device;
use rib_core::RibCore;
use rig_io::Clock;
use std::sync::Wait;
use std::thread;
use std::time::Duration;
use table_lock::{Pass, TableLock};

// So often an idle worker yields before it rests: about a millisecond.
const YIELDS: u32 = 1_000;

// So long an idle worker rests at most, in milliseconds.
const REST: u64 = 50;

/// How a worker's run ended.
#[derive(Clone, Copy, Debug, PartialEq, Eq)]
pub enum WorkerEnd {
    /// A Halt stands, and the worker has no job left.
    Halted,
    /// The lock has no more tickets. A job that was done may not have been reported.
    Spent,
}

// Lets other threads go on, and rests where there was long nothing to do.
fn pause<R: Wait>(rt: &R, lock: &TableLock<RibCore>, heard: u64, idles: u32) {
    if idles < YIELDS {
        thread::yield_now();
    } else {
        lock.rest(rt, heard, Duration::from_millis(REST));
    }
}

/// Steps until a Halt stands and the worker's shard has no job left. It rings the lock's bell behind each job, and rests
/// on it where there is long no job.
///
/// What `work_step` promises of a step holds of the whole run. At most as many of its reports tell a failure as the
/// device's faults rose by.
pub fn run_worker<D: Device, C: Clock, R: Wait>(
    rt: &R,
    lock: &TableLock<RibCore>,
    pass: &mut Pass<RibCore>,
    worker: u32,
    device: &mut D,
    clock: &mut C,
) -> WorkerEnd
    requires pass { IsPassOf lock.now pass.old }
    ensures pass { IsPassOf lock.now pass.new × (pass.new.number ≡ pass.old.number) }
    ensures sound { IsSound IsLawful lock.now.setup pass.new }
    ensures works { (calls : Calls) × Works lock.now.setup worker (ends_spent result) pass.old pass.new (D.contents device.old) (D.contents device.new) calls
        × RunCalls result worker pass.old.number calls
        × (D.faults device.new < 2 ^ 64 - 1 → D.faults device.old + faults_told calls ≤ D.faults device.new) }
    ensures once { HasKeysOnce (D.contents device.old) → HasKeysOnce (D.contents device.new) }
    ensures faults { D.faults device.old ≤ D.faults device.new }
    ensures dones { D.dones device.old ≤ D.dones device.new }
{
    settle(lock, pass);
    let mut idles = 0;
    for _ in rt.forever() {
        let heard = lock.rung();
        match settled_step(rt, lock, pass, worker, device, clock) {
            Stepped::Halted => return WorkerEnd::Halted,
            Stepped::Spent => return WorkerEnd::Spent,
            Stepped::Idle => {
                pause(rt, lock, heard, idles);
                idles = idles.saturating_add(1);
            }
            // A job is done, so that others may be there to do.
            _ => {
                lock.ring();
                idles = 0;
            }
        }
    }
    unreachable!()
}
