//! Workers on threads of their own.
ghost use Rattle.std.specs.Prelude.{◌≡◌, ◌<◌, ℕ, All, length, slice_index_or};
ghost use Rattle.table_lock.specs.Passes.{IsPassOf};
ghost use Rattle.table_workers.specs.Threads.{HasRun};

use crate::run::{WorkerEnd, run_worker};
use aft_entries::Device;
use rib_core::RibCore;
use rig_io::Clock;
use std::sync::Wait;
use std::thread::{self, Threads};
use table_lock::{Pass, TableLock};

// A table has no more workers.
const MOST_WORKERS: usize = 16;

/// A worker: the number of its shard, and all that it works with.
#[derive(Drop)]
pub struct Worker<D: Device + Drop, C: Clock> {
    /// The number of its shard.
    pub number: u32,
    /// What it calls the table with.
    pub pass: Pass<RibCore>,
    /// The device that it brings its shard into.
    pub device: D,
    /// Its clock.
    pub clock: C,
    /// A call of the lock was Spent in its run.
    pub is_spent: bool,
}

impl<D: Device + Drop, C: Clock> Worker<D, C> {
    fn run<R: Wait>(&mut self, rt: &R, lock: &TableLock<RibCore>)
        requires { IsPassOf lock.now self.old.pass }
        ensures { HasRun D.contents D.faults lock.now self.old self.new }
    {
        let end = run_worker(
            rt,
            lock,
            &mut self.pass,
            self.number,
            &mut self.device,
            &mut self.clock,
        );
        self.is_spent = end == WorkerEnd::Spent;
    }
}

/// Runs each worker in a thread of its own, until a Halt stands and no shard has a job left. Where no thread can be made
/// they run one after another, and the first may then wait for a Halt that never comes.
pub fn run_workers<D: Device + Drop + Send, C: Clock + Send, R: Threads + Wait + Sync>(
    rt: &R,
    lock: &TableLock<RibCore>,
    workers: &mut [Worker<D, C>],
)
    requires passes { All (λ w. IsPassOf lock.now w.pass) workers.old }
    ensures size { length workers.new ≡ length workers.old }
    ensures ran { (i : ℕ) (d : _) → i < length workers.old →
        HasRun D.contents D.faults lock.now (slice_index_or workers.old i d) (slice_index_or workers.new i d) }
{
    thread::for_each_mut(rt, workers, MOST_WORKERS, &|_, w| w.run(rt, lock));
}
