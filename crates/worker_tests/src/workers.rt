ghost use Rattle.std.specs.Prelude.{◌≡◌};
ghost use Rattle.table_lock.specs.Passes.{IsPassOf};

use aft_entries::{Ask, Entry, HopPayload, Key, KeyName, Labels, MemDevice, Payload};
use rib_core::RibCore;
use rig_io::StepClock;
use std::alloc::Global;
use std::sync::Wait;
use std::test::Fail;
use table_lock::{Pass, TableLock};
use table_model::{
    AckType, AskedParams, Batch, Command, Config, Operation, Persistence, Redundancy, Reply,
};
use table_workers::{Stepped, WorkerEnd, run_worker, work_step};

fn hop(alloc: Global, index: u64) -> Entry {
    Entry {
        key: Key {
            instance: 0,
            name: KeyName::Hop(index),
        },
        payload: Payload::Hop(HopPayload {
            ip: None,
            mac: None,
            interface: None,
            subinterface: None,
            source: None,
            target: None,
            push: Labels::from_vec(Vec::new(alloc)),
        }),
    }
}

// Makes a call, and lets its reply go.
pub(crate) fn tell<R: Wait>(
    rt: &R,
    lock: &TableLock<RibCore>,
    pass: &mut Pass<RibCore>,
    command: Command,
)
    requires { IsPassOf lock.now pass.old }
    ensures { IsPassOf lock.now pass.new × (pass.new.number ≡ pass.old.number) }
{
    let _ = lock.call(rt, pass, command);
}

// Opens session 0, which wants to hear of the forwarding table.
pub(crate) fn open<R: Wait>(rt: &R, lock: &TableLock<RibCore>, pass: &mut Pass<RibCore>)
    requires { IsPassOf lock.now pass.old }
    ensures { IsPassOf lock.now pass.new × (pass.new.number ≡ pass.old.number) }
{
    tell(rt, lock, pass, Command::Begin);
    let asked = AskedParams {
        redundancy: Some(Redundancy::SinglePrimary),
        persistence: Some(Persistence::Preserve),
        ack: Some(AckType::RibAndFib),
    };
    tell(rt, lock, pass, Command::SetParams(0, asked));
    tell(rt, lock, pass, Command::Announce(0, 1));
}

pub(crate) fn add<R: Wait>(
    rt: &R,
    alloc: Global,
    lock: &TableLock<RibCore>,
    pass: &mut Pass<RibCore>,
    index: u64,
)
    requires { IsPassOf lock.now pass.old }
    ensures { IsPassOf lock.now pass.new × (pass.new.number ≡ pass.old.number) }
{
    let operation = Operation {
        id: index,
        election: Some(1),
        ask: Ask::Put(hop(alloc, index), false),
    };
    tell(rt, lock, pass, Command::Operate(0, operation, 0));
}

// How many results there are, and how many of them tell a failure.
fn counts(batch: &Batch) -> (u64, u64) {
    let mut all = 0u64;
    let mut failed = 0u64;
    for result in batch.as_list().iter() {
        all = all.wrapping_add(1);
        if result.failed.is_some() {
            failed = failed.wrapping_add(1);
        }
    }
    (all, failed)
}

// Those that a Collect of session 0 is answered with.
pub(crate) fn collect<R: Wait>(
    rt: &R,
    lock: &TableLock<RibCore>,
    pass: &mut Pass<RibCore>,
) -> (u64, u64)
    requires { IsPassOf lock.now pass.old }
    ensures { IsPassOf lock.now pass.new × (pass.new.number ≡ pass.old.number) }
{
    match lock.call(rt, pass, Command::Collect(0)) {
        Ok(Reply::Collected(batch, _)) => counts(&batch),
        _ => (0, 0),
    }
}

pub(crate) fn of_workers(workers: u32) -> Config
    ensures { (result.instances ≡ 1) × (result.workers ≡ workers) × (result.limit ≡ 100) }
{
    Config {
        instances: 1,
        workers,
        limit: 100,
    }
}

#[test]
fn a_step_tells_what_it_came_to(rt: HostRuntime) -> Result<(), Fail> {
    let core = RibCore::new(rt.alloc(), of_workers(1))?;
    let (lock, mut root) = TableLock::new(rt.alloc(), core)?;
    let mut pass = lock.split(&mut root);
    let mut failing = Vec::new(rt.alloc());
    failing.push(1)?;
    let mut device = MemDevice::new(rt.alloc(), failing);
    let mut clock = StepClock::new(0);
    open(&rt, &lock, &mut root);
    let idle = work_step(&rt, &lock, &mut pass, 0, &mut device, &mut clock);
    add(&rt, rt.alloc(), &lock, &mut root, 5);
    let done = work_step(&rt, &lock, &mut pass, 0, &mut device, &mut clock);
    add(&rt, rt.alloc(), &lock, &mut root, 6);
    let failed = work_step(&rt, &lock, &mut pass, 0, &mut device, &mut clock);
    let told = collect(&rt, &lock, &mut root);
    tell(&rt, &lock, &mut root, Command::Halt);
    let halted = work_step(&rt, &lock, &mut pass, 0, &mut device, &mut clock);
    assert!(rt;
        idle == Stepped::Idle
            && done == Stepped::Programmed
            && failed == Stepped::DeviceFailed
            && halted == Stepped::Halted
    );
    assert!(rt; told == (2, 1) && device.contents().len() == 1);
    Ok(())
}

#[test]
fn of_two_devices_one_fails(rt: HostRuntime) -> Result<(), Fail> {
    let core = RibCore::new(rt.alloc(), of_workers(2))?;
    let (lock, mut root) = TableLock::new(rt.alloc(), core)?;
    let mut first_pass = lock.split(&mut root);
    let mut second_pass = lock.split(&mut root);
    let mut failing = Vec::new(rt.alloc());
    failing.push(0)?;
    failing.push(1)?;
    let mut good = MemDevice::new(rt.alloc(), Vec::new(rt.alloc()));
    let mut bad = MemDevice::new(rt.alloc(), failing);
    let mut clock = StepClock::new(0);
    open(&rt, &lock, &mut root);
    add(&rt, rt.alloc(), &lock, &mut root, 1);
    add(&rt, rt.alloc(), &lock, &mut root, 2);
    add(&rt, rt.alloc(), &lock, &mut root, 3);
    add(&rt, rt.alloc(), &lock, &mut root, 4);
    tell(&rt, &lock, &mut root, Command::Halt);
    let first = run_worker(&rt, &lock, &mut first_pass, 0, &mut good, &mut clock);
    let second = run_worker(&rt, &lock, &mut second_pass, 1, &mut bad, &mut clock);
    assert!(rt;
        first == WorkerEnd::Halted
            && second == WorkerEnd::Halted
            && good.contents().len() == 2
            && bad.contents().is_empty()
    );
    Ok(())
}
