//! Runs of a server over links in memory.
ghost use Rattle.std.specs.Prelude.{◌≡◌, ◌≤◌, All, length};
ghost use Rattle.table_lock.specs.Passes.{IsPassOf};

use crate::connections::{Connection, Maker};
use aft_entries::{Instances, MemDevice};
use call_answers::Setting;
use gribi_serve::{Naming, Room, TableService, serve_connections};
use link_serving::Tally;
use rib_core::RibCore;
use rig_io::{Acceptor, MemAcceptor, MemLink, StepClock};
use schema_numbers::default_numbering;
use std::alloc::Global;
use std::marker::Brand;
use std::sync::Wait;
use std::test::Fail;
use std::thread::Threads;
use table_lock::{Pass, TableLock};
use table_model::Config;
use table_workers::Worker;

/// What a run left: how serving went, the acceptor with its links, and how many entries the workers' devices have.
#[derive(Drop)]
pub(crate) struct Run {
    pub tally: Tally,
    pub acceptor: MemAcceptor,
    pub first: usize,
    pub second: usize,
}

// What requests are read with: one instance, DEFAULT.
fn setting(alloc: Global) -> Result<Setting, Fail> {
    let mut names = Vec::new(alloc);
    names.push(String::from_str(alloc, "DEFAULT")?)?;
    Ok(Setting {
        numbering: default_numbering(alloc)?,
        instances: Instances::new(names)?,
    })
}

// A table of one instance and two workers.
const TABLE: Config = Config {
    instances: 1,
    workers: 2,
    limit: 100,
};

// A worker with an empty device. Its clock stands at its last moment.
fn worker(alloc: Global, pass: Pass<RibCore>, number: u32) -> Worker<MemDevice, StepClock>
    ensures { result.pass ≡ pass }
{
    Worker {
        number,
        pass,
        device: MemDevice::new(alloc, Vec::new(alloc)),
        clock: StepClock::new(i64::MAX),
        is_spent: false,
    }
}

// Serves over the table under this lock, which a type names.
fn serve_named<N: Naming, R: Threads + Wait + Sync>(
    rt: &R,
    alloc: Global,
    lock: &TableLock<RibCore>,
    root: &mut Pass<RibCore>,
    setting: &Setting,
    acceptor: &mut MemAcceptor,
    makes: u32,
    workers: &mut [Worker<MemDevice, StepClock>],
) -> Tally
    requires lock { lock.now ≡ N.lock }
    requires setting { setting.now ≡ N.setting }
    requires root { IsPassOf lock.now root.old × (root.old.number ≡ 0) }
    requires took { length acceptor.old.retired ≤ acceptor.old.given_count }
    requires passes { All (λ w. IsPassOf lock.now w.pass) workers.old }
    ensures { IsPassOf lock.now root.new }
{
    let room = Room::<N>::new(lock, setting);
    let maker = Maker { alloc, left: makes };
    let mut service = TableService::new(room, StepClock::new(3), maker);
    serve_connections::<N, MemAcceptor, Connection, StepClock, Maker, MemDevice, StepClock, R>(
        rt,
        alloc,
        lock,
        root,
        acceptor,
        &mut service,
        workers,
    )
}

// The same, without a name.
fn serve_over<R: Threads + Wait + Sync>(
    rt: &R,
    alloc: Global,
    lock: &TableLock<RibCore>,
    root: &mut Pass<RibCore>,
    setting: &Setting,
    acceptor: &mut MemAcceptor,
    makes: u32,
    workers: &mut [Worker<MemDevice, StepClock>],
) -> Tally
    requires root { IsPassOf lock.now root.old × (root.old.number ≡ 0) }
    requires took { length acceptor.old.retired ≤ acceptor.old.given_count }
    requires passes { All (λ w. IsPassOf lock.now w.pass) workers.old }
    ensures { IsPassOf lock.now root.new }
{
    serve_named::<Brand, R>(rt, alloc, lock, root, setting, acceptor, makes, workers)
}

/// Serves these links, of which so many are asked for, by at most so many connections, with two workers in threads beside it.
pub(crate) fn serve<R: Threads + Wait + Sync>(
    rt: &R,
    alloc: Global,
    links: Vec<MemLink>,
    asked: u64,
    makes: u32,
) -> Result<Run, Fail> {
    let setting = setting(alloc)?;
    let (lock, mut root) = TableLock::new(alloc, RibCore::new(alloc, TABLE)?)?;
    let mut acceptor = MemAcceptor::new(alloc, links);
    acceptor.listen("", asked);
    let first = worker(alloc, lock.split(&mut root), 0);
    let second = worker(alloc, lock.split(&mut root), 1);
    let mut workers = [first, second];
    let tally = serve_over(
        rt,
        alloc,
        &lock,
        &mut root,
        &setting,
        &mut acceptor,
        makes,
        workers.as_mut_slice(),
    );
    let [first, second] = &workers;
    let (in_first, in_second) = (
        first.device.contents().len(),
        second.device.contents().len(),
    );
    Ok(Run {
        tally,
        acceptor,
        first: in_first,
        second: in_second,
    })
}
