//! A server's table, and the workers that are hired for it.
ghost use Rattle.std.specs.Prelude.{◌≡◌, ◌<◌, ◌≤◌, ◌+◌, ◌++◌, ℕ, All, IfOk, OnErr, OnOk, [], length, map, reverse, slice_index_or};
ghost use mathlib.Core.List.{IsPrefix};
ghost use Rattle.std.specs.List.{list_any};
ghost use Rattle.std.specs.Vec.{vec_capacity};
ghost use Rattle.link_serving.specs.Serving.{Each};
ghost use Rattle.rib_core.specs.Recorded.{IsLawful};
ghost use Rattle.table_lock.specs.Passes.{IsPassOf, item, root_view};
ghost use Rattle.serve_command.specs.Served.{setup_for};

use aft_entries::Device;
use call_answers::Setting;
use rib_core::RibCore;
use rig_io::Clock;
use std::alloc::{AllocError, Global};
use table_lock::{Pass, TableLock};
use table_model::Config;
use table_workers::Worker;

// A table takes so many entries.
const MOST_ENTRIES: u64 = 1_000_000;

/// An empty table with the setting's network instances, under a lock.
pub(crate) fn open_table(
    alloc: Global,
    setting: &Setting,
    workers: u32,
) -> Result<(TableLock<RibCore>, Pass<RibCore>), AllocError>
    requires some { 1 ≤ workers }
    requires few { workers ≤ 16 }
    ensures setup { IfOk result (λ r. r.0.setup ≡ setup_for setting.now workers) }
    ensures root { IfOk result (λ r. r.1 ≡ root_view r.0) }
{
    let config = Config {
        instances: setting.instances.count(),
        workers,
        limit: MOST_ENTRIES,
    };
    let core = RibCore::new(alloc, config)?;
    TableLock::new(alloc, core)
}

/// Hires workers, each with the next of the devices and a pass of its own. For want of memory none is hired.
pub(crate) fn hire<D: Device + Drop, C: Clock>(
    alloc: Global,
    lock: &TableLock<RibCore>,
    root: &mut Pass<RibCore>,
    devices: &mut Vec<D>,
    count: u32,
    clock: &C,
) -> Result<Vec<Worker<D, C>>, AllocError>
    requires root { IsPassOf lock.now root.old × (root.old.number ≡ 0) }
    requires devices { count ≤ length devices.old.items }
    ensures root { IsPassOf lock.now root.new × (root.new.number ≡ 0) }
    ensures same { (root.new.seen ≡ root.old.seen) × (root.new.ended ≡ root.old.ended) }
    ensures out { OnOk result (root.new.out ≡ root.old.out + count) }
    ensures count { IfOk result (λ workers. length workers.items ≡ count) }
    ensures passes { IfOk result (λ workers. All (λ w. IsPassOf lock.now w.pass) workers.items) }
    ensures unused { IfOk result (λ workers. (i : ℕ) (d : _) → i < count →
        ((slice_index_or workers.items i d).number ≡ i) × ((slice_index_or workers.items i d).pass.mine ≡ [])) }
    ensures given { IfOk result (λ workers. devices.old.items ≡ map (λ w. w.device) workers.items ++ devices.new.items) }
    ensures room { vec_capacity devices.new ≡ vec_capacity devices.old }
    ensures kept { OnErr result (devices.new.items ≡ devices.old.items) }
{
    let mut workers = Vec::with_capacity(alloc, count as usize)?;
    'workers: for number in 0..count {
        let device = devices.remove(0);
        let pass = lock.split(root);
        workers.push_reserved(Worker {
            number,
            pass,
            device,
            clock: clock.twin(),
            is_spent: false,
        });
    }
    Ok(workers)
}

/// Whether a call of a worker was Spent.
pub(crate) fn any_spent<D: Device + Drop, C: Clock>(workers: &[Worker<D, C>]) -> bool
    ensures { result ≡ list_any (λ w. w.is_spent) workers.now }
{
    workers.iter().any(|worker| worker.is_spent)
}

/// Joins the workers' passes, the last worker's first, and gives their devices back.
pub(crate) fn dismiss<D: Device + Drop, C: Clock>(
    lock: &TableLock<RibCore>,
    root: &mut Pass<RibCore>,
    devices: &mut Vec<D>,
    mut workers: Vec<Worker<D, C>>,
)
    requires root { IsPassOf lock.now root.old × (root.old.number ≡ 0) }
    requires passes { All (λ w. IsPassOf lock.now w.pass) workers.items }
    requires out { root.old.out ≡ length workers.items }
    requires room { length workers.items + length devices.old.items ≤ vec_capacity devices.old }
    ensures root { IsPassOf lock.now root.new × (root.new.number ≡ 0) }
    ensures out { root.new.out ≡ 0 }
    ensures ended { root.new.ended ≡ root.old.ended ++ map (λ w. item w.pass) (reverse workers.items) }
    ensures seen { IsPrefix root.old.seen root.new.seen }
    ensures each_seen { Each (λ w. IsPrefix w.pass.seen root.new.seen) workers.items }
    ensures devices { devices.new.items ≡ map (λ w. w.device) workers.items ++ devices.old.items }
{
    'workers: while let Some(worker) = workers.pop() {
        let Worker { pass, device, .. } = worker;
        lock.join(root, pass);
        let Ok(_) = devices.insert(0, device) else {
            unreachable!()
        };
    }
}
