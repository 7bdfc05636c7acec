//! One step of a worker.
ghost use Rattle.std.specs.Prelude.{◌≡◌, List, Some, None};
ghost use Rattle.aft_entries.specs.Devices.{HasKeysOnce};
ghost use Rattle.rib_core.specs.Recorded.{IsLawful};
ghost use Rattle.table_lock.specs.Passes.{IsPassOf, IsSound};
ghost use Rattle.table_workers.specs.Working.{Calls, Counts, IfUntouched, Reports, StepCalls, Works, asked_of, is_spent};

use aft_entries::Device;
use fib_worker::{do_job, job_keeps_shard, others_keep_shard, takes_keep_shard};
use rib_core::RibCore;
use rig_io::Clock;
use std::sync::Wait;
use table_lock::{Pass, TableLock};
use table_model::{Command, Job, Reply, Verdict};

/// What a worker's step came to.
#[derive(Clone, Copy, Debug, PartialEq, Eq)]
pub enum Stepped {
    /// The device did a job, and that was reported.
    Programmed,
    /// The device failed at a job, and that was reported.
    DeviceFailed,
    /// A job was answered as one that can't be done.
    Skipped,
    /// There was no job to do now.
    Idle,
    /// A Halt stands, and the worker has no job left.
    Halted,
    /// The lock has no more tickets. A job that was done may not have been reported.
    Spent,
}

// What a Take was answered.
#[derive(Drop)]
pub(crate) enum Asked {
    Work(Job),
    Skipped,
    Halted,
    // Idle, and any reply that no Take has.
    Idle,
}

fn read_reply(reply: Reply) -> Asked
    ensures { result ≡ asked_of reply }
{
    match reply {
        Reply::Given(job) => Asked::Work(job),
        Reply::Skipped(_) => Asked::Skipped,
        Reply::HaltSeen => Asked::Halted,
        _ => Asked::Idle,
    }
}

// Has the device do the job, and reports it.
fn report<D: Device, C: Clock, R: Wait>(
    rt: &R,
    lock: &TableLock<RibCore>,
    pass: &mut Pass<RibCore>,
    device: &mut D,
    clock: &mut C,
    job: Job,
) -> Stepped
    requires { IsPassOf lock.now pass.old }
    ensures pass { IsPassOf lock.now pass.new × (pass.new.number ≡ pass.old.number) }
    ensures once { HasKeysOnce (D.contents device.old) → HasKeysOnce (D.contents device.new) }
    ensures faults { Counts (D.faults device.old) (D.faults device.new) (result ≡ Stepped.DeviceFailed) }
    ensures dones { Counts (D.dones device.old) (D.dones device.new) (result ≡ Stepped.Programmed) }
    ensures reports { Reports lock.now.setup result job pass.old pass.new (D.contents device.old) (D.contents device.new) }
{
    let said = do_job(device, &job);
    let at = clock.now();
    let Ok(_) = lock.call(rt, pass, Command::Report(job.number, said, at)) else {
        return Stepped::Spent;
    };
    match said {
        Verdict::Programmed => Stepped::Programmed,
        Verdict::DeviceFault => Stepped::DeviceFailed,
    }
}

// Has the lock tell that what the pass has seen is lawful, and has the pass's own calls and no others of its number.
pub(crate) fn settle(lock: &TableLock<RibCore>, pass: &mut Pass<RibCore>)
    requires { IsPassOf lock.now pass.old }
    ensures same { pass.new ≡ pass.old }
    ensures sound { IsSound IsLawful lock.now.setup pass.new }
{
    let note = lock.tell(pass);
    lock.learn(pass, note);
}

// A step of a pass that is known to be sound.
pub(crate) fn settled_step<D: Device, C: Clock, R: Wait>(
    rt: &R,
    lock: &TableLock<RibCore>,
    pass: &mut Pass<RibCore>,
    worker: u32,
    device: &mut D,
    clock: &mut C,
) -> Stepped
    requires pass { IsPassOf lock.now pass.old }
    requires sound { IsSound IsLawful lock.now.setup pass.old }
    ensures pass { IsPassOf lock.now pass.new × (pass.new.number ≡ pass.old.number) }
    ensures sound { IsSound IsLawful lock.now.setup pass.new }
    ensures works { (calls : Calls) × Works lock.now.setup worker (is_spent result) pass.old pass.new (D.contents device.old) (D.contents device.new) calls
        × StepCalls result worker pass.old.number (D.contents device.old) (D.contents device.new) calls }
    ensures untouched { IfUntouched result (device.new ≡ device.old) }
    ensures once { HasKeysOnce (D.contents device.old) → HasKeysOnce (D.contents device.new) }
    ensures faults { Counts (D.faults device.old) (D.faults device.new) (result ≡ Stepped.DeviceFailed) }
    ensures dones { Counts (D.dones device.old) (D.dones device.new) (result ≡ Stepped.Programmed) }
{
    job_keeps_shard();
    others_keep_shard();
    takes_keep_shard();
    let at = clock.now();
    let Ok(reply) = lock.call(rt, pass, Command::Take(worker, at)) else {
        return Stepped::Spent;
    };
    match read_reply(reply) {
        Asked::Work(job) => report(rt, lock, pass, device, clock, job),
        Asked::Skipped => Stepped::Skipped,
        Asked::Halted => Stepped::Halted,
        Asked::Idle => Stepped::Idle,
    }
}

/// One step: takes a job of the worker's shard, has the device do it, and reports that. It waits for the calls of the
/// lock before its own, and for no job.
///
/// DeviceFailed only where the device's faults rose, and Programmed only where its dones did. A device that held the
/// worker's shard of the forwarding table at what the pass had seen holds it at what the pass has seen then, unless
/// another pass took or reported a job of the shard. After Spent it may be ahead by the one job that wasn't reported.
pub fn work_step<D: Device, C: Clock, R: Wait>(
    rt: &R,
    lock: &TableLock<RibCore>,
    pass: &mut Pass<RibCore>,
    worker: u32,
    device: &mut D,
    clock: &mut C,
) -> Stepped
    requires pass { IsPassOf lock.now pass.old }
    ensures pass { IsPassOf lock.now pass.new × (pass.new.number ≡ pass.old.number) }
    ensures sound { IsSound IsLawful lock.now.setup pass.new }
    ensures works { (calls : Calls) × Works lock.now.setup worker (is_spent result) pass.old pass.new (D.contents device.old) (D.contents device.new) calls
        × StepCalls result worker pass.old.number (D.contents device.old) (D.contents device.new) calls }
    ensures untouched { IfUntouched result (device.new ≡ device.old) }
    ensures once { HasKeysOnce (D.contents device.old) → HasKeysOnce (D.contents device.new) }
    ensures faults { Counts (D.faults device.old) (D.faults device.new) (result ≡ Stepped.DeviceFailed) }
    ensures dones { Counts (D.dones device.old) (D.dones device.new) (result ≡ Stepped.Programmed) }
{
    settle(lock, pass);
    settled_step(rt, lock, pass, worker, device, clock)
}
