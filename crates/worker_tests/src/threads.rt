//! Workers in threads of their own, beside a thread that calls the table.
ghost use Rattle.std.specs.Prelude.{◌≡◌, All, IfOk};
ghost use Rattle.table_lock.specs.Passes.{IsPassOf};

use crate::workers::{add, collect, of_workers, open, tell};
use aft_entries::MemDevice;
use rib_core::RibCore;
use rig_io::StepClock;
use std::alloc::{AllocError, Global};
use std::sync::Wait;
use std::test::Fail;
use std::thread::{Threads, join_mut, yield_now};
use table_lock::{Pass, TableLock};
use table_model::Command;
use table_workers::{Worker, run_workers};

// So often the caller asks for results before it gives up.
const ASKS: u32 = 1_000_000;

// A caller of the table, and whether all went as it should.
#[derive(Drop)]
struct Caller {
    pass: Pass<RibCore>,
    alloc: Global,
    is_right: bool,
}

// A worker, whose device fails its first call if that is asked.
fn worker(
    alloc: Global,
    pass: Pass<RibCore>,
    number: u32,
    fails: bool,
) -> Result<Worker<MemDevice, StepClock>, AllocError>
    ensures { IfOk result (λ w. w.pass ≡ pass) }
{
    let mut failing = Vec::new(alloc);
    if fails {
        failing.push(0)?;
    }
    Ok(Worker {
        number,
        pass,
        device: MemDevice::new(alloc, failing),
        clock: StepClock::new(0),
        is_spent: false,
    })
}

// Asks for results until all six have come.
fn results<R: Wait>(rt: &R, lock: &TableLock<RibCore>, root: &mut Pass<RibCore>) -> (u64, u64)
    requires { IsPassOf lock.now root.old }
    ensures { IsPassOf lock.now root.new × (root.new.number ≡ root.old.number) }
{
    let mut all = 0u64;
    let mut failed = 0u64;
    'asks: for _ in 0..ASKS {
        let told = collect(rt, lock, root);
        all = all.wrapping_add(told.0);
        failed = failed.wrapping_add(told.1);
        if all >= 6 {
            return (all, failed);
        }
        yield_now();
    }
    (all, failed)
}

impl Caller {
    // Adds six entries, waits for their results, of which one tells a failure, and halts.
    fn call<R: Wait>(&mut self, rt: &R, lock: &TableLock<RibCore>)
        requires { IsPassOf lock.now self.old.pass }
    {
        let alloc = self.alloc;
        let root = &mut self.pass;
        open(rt, lock, root);
        add(rt, alloc, lock, root, 1);
        add(rt, alloc, lock, root, 2);
        add(rt, alloc, lock, root, 3);
        add(rt, alloc, lock, root, 4);
        add(rt, alloc, lock, root, 5);
        add(rt, alloc, lock, root, 6);
        lock.ring();
        let told = results(rt, lock, root);
        tell(rt, lock, root, Command::Halt);
        lock.ring();
        self.is_right = told == (6, 1);
    }
}

// Runs the workers, each in a thread of its own, beside the caller.
fn run_beside<R: Threads + Wait + Sync>(
    rt: &R,
    lock: &TableLock<RibCore>,
    workers: &mut [Worker<MemDevice, StepClock>],
    caller: &mut Caller,
)
    requires workers { All (λ w. IsPassOf lock.now w.pass) workers.old }
    requires caller { IsPassOf lock.now caller.old.pass }
{
    join_mut(
        rt,
        &mut ||
            requires { All (λ w. IsPassOf lock.now w.pass) workers.now }
        { run_workers(rt, lock, workers) },
        &mut ||
            requires { IsPassOf lock.now caller.now.pass }
        { caller.call(rt, lock) },
    );
}

// Whether a worker saw the Halt, and its device held so many entries then.
fn is_done(worker: &Worker<MemDevice, StepClock>, count: usize) -> bool {
    !worker.is_spent && worker.device.contents().len() == count
}

// Three workers run beside the caller, the third with a device that fails its first call.
fn three_beside<R: Threads + Wait + Sync>(rt: &R, alloc: Global) -> Result<bool, AllocError> {
    let core = RibCore::new(alloc, of_workers(3))?;
    let (lock, mut root) = TableLock::new(alloc, core)?;
    let first = worker(alloc, lock.split(&mut root), 0, false)?;
    let second = worker(alloc, lock.split(&mut root), 1, false)?;
    let third = worker(alloc, lock.split(&mut root), 2, true)?;
    let mut workers = [first, second, third];
    let mut caller = Caller {
        pass: root,
        alloc,
        is_right: false,
    };
    run_beside(rt, &lock, workers.as_mut_slice(), &mut caller);
    let [first, second, third] = &workers;
    Ok(caller.is_right & is_done(first, 2) & is_done(second, 2) & is_done(third, 1))
}

#[test]
fn three_workers_run_beside_a_caller(rt: HostRuntime) -> Result<(), Fail> {
    let is_right = three_beside(&rt, rt.alloc())?;
    assert!(rt; is_right);
    Ok(())
}
