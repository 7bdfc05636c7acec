//! The serving of links in one thread, and workers in threads of their own beside it.
ghost use Rattle.std.specs.Prelude.{◌≡◌, ◌<◌, ◌≤◌, ℕ, All, length, slice_index_or, true};
ghost use Rattle.table_lock.specs.Passes.{IsPassOf};
ghost use Rattle.link_serving.specs.Serving.{HasAccepted, Suits, links_of, start_at};
ghost use Rattle.link_serving.specs.Beside.{HasServed};

use crate::course::Tally;
use crate::service::Service;
use crate::serving::serve_links;
use reactor::Turning;
use rig_io::Acceptor;
use std::alloc::Global;
use std::sync::Wait;
use std::thread::{self, Threads, join_mut};
use table_lock::{Machine, Pass, TableLock};

// So many threads run workers at most.
const MOST_THREADS: usize = 16;

/// A worker that calls the machine beside the serving of links. It holds all that it works with, the lock too.
pub trait Beside {
    /// It may run.
    ghost ready: { Self → Type 0 };

    /// What its run makes of it.
    ghost ran: { Self → Self → Type 0 };

    /// Works until it is told to end.
    fn run<R: Wait>(&mut self, rt: &R)
        requires { ready self.old }
        ensures { ran self.old self.new };
}

/// Runs each worker in a thread of its own. Where no thread can be made they run one after another.
pub fn run_beside<W: Beside + Send, R: Threads + Wait + Sync>(rt: &R, workers: &mut [W])
    requires ready { All W.ready workers.old }
    ensures size { length workers.new ≡ length workers.old }
    ensures ran { (i : ℕ) (d : _) → i < length workers.old → W.ran (slice_index_or workers.old i d) (slice_index_or workers.new i d) }
{
    thread::for_each_mut(rt, workers, MOST_THREADS, &|_, w| w.run(rt));
}

/// Serves all links as `serve_links` does. Behind the last link the root makes the call that tells those who call the machine
/// beside to end, and rings the lock's bell.
pub fn serve_and_halt<
    M: Machine,
    A: Acceptor,
    T: Turning + Drop,
    V: Service<Pass<M>, M::Command, A::Link, T>,
    R: Wait,
>(
    rt: &R,
    alloc: Global,
    lock: &TableLock<M>,
    root: &mut Pass<M>,
    acceptor: &mut A,
    service: &mut V,
) -> Tally
    requires suits { Suits M.lawful lock.now V.takes V.gives }
    requires root { IsPassOf lock.now root.old × (root.old.number ≡ 0) }
    requires took { A.retired_count acceptor.old ≤ A.given_count acceptor.old }
    ensures root { IsPassOf lock.now root.new × (root.new.number ≡ 0) }
    ensures serves { HasServed M.lawful lock.now.setup V.served V.halt
        (start_at root.old (links_of A.given_count A.retired_count A.given A.retired acceptor.old)) root.new
        (links_of A.given_count A.retired_count A.given A.retired acceptor.new) result.lacks_memory result.is_spent }
    ensures accepts { HasAccepted (A.faults acceptor.old) (A.faults acceptor.new) (A.asked acceptor.old) (A.asked acceptor.new) (A.given_count acceptor.new)
        true result.has_failed }
{
    let tally = serve_links(rt, alloc, lock, root, acceptor, service);
    match lock.call(rt, root, service.halt()) {
        Ok(_) => {
            lock.ring();
            tally
        }
        Err(_) => tally.spent(),
    }
}

/// Serves all links in one thread, and runs workers in threads of their own beside it. Behind the last link it makes the
/// call that tells them to end.
pub fn serve_beside<
    M: Machine,
    A: Acceptor,
    T: Turning + Drop,
    V: Service<Pass<M>, M::Command, A::Link, T>,
    W: Beside + Send,
    R: Threads + Wait + Sync,
>(
    rt: &R,
    alloc: Global,
    lock: &TableLock<M>,
    root: &mut Pass<M>,
    acceptor: &mut A,
    service: &mut V,
    workers: &mut [W],
) -> Tally
    requires suits { Suits M.lawful lock.now V.takes V.gives }
    requires root { IsPassOf lock.now root.old × (root.old.number ≡ 0) }
    requires took { A.retired_count acceptor.old ≤ A.given_count acceptor.old }
    requires ready { All W.ready workers.old }
    ensures root { IsPassOf lock.now root.new × (root.new.number ≡ 0) }
    ensures serves { HasServed M.lawful lock.now.setup V.served V.halt
        (start_at root.old (links_of A.given_count A.retired_count A.given A.retired acceptor.old)) root.new
        (links_of A.given_count A.retired_count A.given A.retired acceptor.new) result.lacks_memory result.is_spent }
    ensures accepts { HasAccepted (A.faults acceptor.old) (A.faults acceptor.new) (A.asked acceptor.old) (A.asked acceptor.new) (A.given_count acceptor.new)
        true result.has_failed }
    ensures size { length workers.new ≡ length workers.old }
    ensures ran { (i : ℕ) (d : _) → i < length workers.old → W.ran (slice_index_or workers.old i d) (slice_index_or workers.new i d) }
{
    let ((), tally) = join_mut(
        rt,
        &mut ||
            requires { All W.ready workers.now }
            ensures size { length workers.exit.now ≡ length workers.entry.now }
            ensures ran { (i : ℕ) (d : _) → i < length workers.entry.now →
                W.ran (slice_index_or workers.entry.now i d) (slice_index_or workers.exit.now i d) }
        { run_beside(rt, workers) },
        &mut || -> Tally
            requires { Suits M.lawful lock.now V.takes V.gives × IsPassOf lock.now root.now × (root.now.number ≡ 0)
                × (A.retired_count acceptor.now ≤ A.given_count acceptor.now) }
            ensures root { IsPassOf lock.entry.now root.exit.now × (root.exit.now.number ≡ 0) }
            ensures serves { HasServed M.lawful lock.entry.now.setup V.served V.halt
                (start_at root.entry.now (links_of A.given_count A.retired_count A.given A.retired acceptor.entry.now)) root.exit.now
                (links_of A.given_count A.retired_count A.given A.retired acceptor.exit.now) result.lacks_memory result.is_spent }
            ensures accepts { HasAccepted (A.faults acceptor.entry.now) (A.faults acceptor.exit.now) (A.asked acceptor.entry.now) (A.asked acceptor.exit.now)
                (A.given_count acceptor.exit.now) true result.has_failed }
        { serve_and_halt::<M, A, T, V, R>(rt, alloc, lock, root, acceptor, service) },
    );
    tally
}
