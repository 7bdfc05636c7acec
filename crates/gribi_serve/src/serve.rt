//! The serving of links, and workers beside it.
ghost use Rattle.std.specs.Prelude.{◌≡◌, ◌<◌, ◌≤◌, ℕ, All, length, slice_index_or, true};
ghost use Rattle.table_lock.specs.Passes.{IsPassOf};
ghost use Rattle.rib_core.specs.Recorded.{IsLawful};
ghost use Rattle.link_serving.specs.Serving.{HasAccepted, Suits, links_of, start_at};
ghost use Rattle.link_serving.specs.Beside.{HasServed};
ghost use Rattle.table_workers.specs.Threads.{HasRun};
ghost use Rattle.table_model.specs.declared.command.Command.TheVariants as command;
ghost use Rattle.gribi_serve.specs.Links.{IsServed};

use crate::item::ServedLink;
use crate::room::Naming;
use crate::service::{MakesConnection, TableService};
use aft_entries::Device;
use link_serving::{Service, Tally, serve_and_halt};
use reactor::Turning;
use rib_core::RibCore;
use rig_io::{Acceptor, Clock};
use server_turns::ServedByTurns;
use std::alloc::Global;
use std::sync::Wait;
use std::thread::{Threads, join_mut};
use table_lock::{Pass, TableLock};
use table_model::Command;
use table_workers::{Worker, run_workers};

/// Serves all links by this service in this thread, and runs workers in threads of their own beside it. Behind the last link it
/// makes the service's `halt`, a Halt, at which the workers end once their shards have no job left. Where no thread can be made
/// the workers run first, and may then wait for a Halt that never comes.
pub fn serve_table<
    A: Acceptor,
    T: Turning + Drop,
    V: Service<Pass<RibCore>, Command, A::Link, T>,
    D: Device + Drop + Send,
    C: Clock + Send,
    R: Threads + Wait + Sync,
>(
    rt: &R,
    alloc: Global,
    lock: &TableLock<RibCore>,
    root: &mut Pass<RibCore>,
    acceptor: &mut A,
    service: &mut V,
    workers: &mut [Worker<D, C>],
) -> Tally
    requires suits { Suits IsLawful lock.now V.takes V.gives }
    requires root { IsPassOf lock.now root.old × (root.old.number ≡ 0) }
    requires took { A.retired_count acceptor.old ≤ A.given_count acceptor.old }
    requires passes { All (λ w. IsPassOf lock.now w.pass) workers.old }
    ensures root { IsPassOf lock.now root.new × (root.new.number ≡ 0) }
    ensures serves { HasServed IsLawful lock.now.setup V.served V.halt
        (start_at root.old (links_of A.given_count A.retired_count A.given A.retired acceptor.old)) root.new
        (links_of A.given_count A.retired_count A.given A.retired acceptor.new) result.lacks_memory result.is_spent }
    ensures accepts { HasAccepted (A.faults acceptor.old) (A.faults acceptor.new) (A.asked acceptor.old) (A.asked acceptor.new) (A.given_count acceptor.new)
        true result.has_failed }
    ensures size { length workers.new ≡ length workers.old }
    ensures ran { (i : ℕ) (d : _) → i < length workers.old →
        HasRun D.contents D.faults lock.now (slice_index_or workers.old i d) (slice_index_or workers.new i d) }
{
    let ((), tally) = join_mut(
        rt,
        &mut ||
            requires { All (λ w. IsPassOf lock.now w.pass) workers.now }
            ensures size { length workers.exit.now ≡ length workers.entry.now }
            ensures ran { (i : ℕ) (d : _) → i < length workers.entry.now →
                HasRun D.contents D.faults lock.entry.now (slice_index_or workers.entry.now i d) (slice_index_or workers.exit.now i d) }
        { run_workers(rt, lock, workers) },
        &mut || -> Tally
            requires { Suits IsLawful lock.now V.takes V.gives × IsPassOf lock.now root.now × (root.now.number ≡ 0)
                × (A.retired_count acceptor.now ≤ A.given_count acceptor.now) }
            ensures root { IsPassOf lock.entry.now root.exit.now × (root.exit.now.number ≡ 0) }
            ensures serves { HasServed IsLawful lock.entry.now.setup V.served V.halt
                (start_at root.entry.now (links_of A.given_count A.retired_count A.given A.retired acceptor.entry.now)) root.exit.now
                (links_of A.given_count A.retired_count A.given A.retired acceptor.exit.now) result.lacks_memory result.is_spent }
            ensures accepts { HasAccepted (A.faults acceptor.entry.now) (A.faults acceptor.exit.now) (A.asked acceptor.entry.now) (A.asked acceptor.exit.now)
                (A.given_count acceptor.exit.now) true result.has_failed }
        { serve_and_halt::<RibCore, A, T, V, R>(rt, alloc, lock, root, acceptor, service) },
    );
    tally
}

/// `serve_table` with a connection of its own for each link: the promise of `server_turns` is kept to each client.
pub fn serve_connections<
    'a,
    N: Naming,
    A: Acceptor,
    K: ServedByTurns,
    C: Clock,
    F: MakesConnection<K> + Drop,
    D: Device + Drop + Send,
    B: Clock + Send,
    R: Threads + Wait + Sync,
>(
    rt: &R,
    alloc: Global,
    lock: &TableLock<RibCore>,
    root: &mut Pass<RibCore>,
    acceptor: &mut A,
    service: &mut TableService<'a, N, C, F>,
    workers: &mut [Worker<D, B>],
) -> Tally
    requires lock { lock.now ≡ N.lock }
    requires root { IsPassOf lock.now root.old × (root.old.number ≡ 0) }
    requires took { A.retired_count acceptor.old ≤ A.given_count acceptor.old }
    requires passes { All (λ w. IsPassOf lock.now w.pass) workers.old }
    ensures root { IsPassOf lock.now root.new × (root.new.number ≡ 0) }
    ensures serves { HasServed IsLawful lock.now.setup (IsServed A.Link.pieces A.Link.faults N.lock.setup N.setting) command.Halt
        (start_at root.old (links_of A.given_count A.retired_count A.given A.retired acceptor.old)) root.new
        (links_of A.given_count A.retired_count A.given A.retired acceptor.new) result.lacks_memory result.is_spent }
    ensures accepts { HasAccepted (A.faults acceptor.old) (A.faults acceptor.new) (A.asked acceptor.old) (A.asked acceptor.new) (A.given_count acceptor.new)
        true result.has_failed }
    ensures size { length workers.new ≡ length workers.old }
    ensures ran { (i : ℕ) (d : _) → i < length workers.old →
        HasRun D.contents D.faults lock.now (slice_index_or workers.old i d) (slice_index_or workers.new i d) }
{
    serve_table::<A, ServedLink<'a, N, K, A::Link, C>, TableService<'a, N, C, F>, D, B, R>(
        rt, alloc, lock, root, acceptor, service, workers,
    )
}
