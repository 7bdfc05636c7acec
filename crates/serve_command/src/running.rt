//! A server's run.
ghost use Rattle.std.specs.Prelude.{◌≡◌, ◌⊎◌, ◌≤◌, true, false, IfOk, OnErr, length, if◌then◌else◌};
ghost use Rattle.rig_io.specs.Fault.{HasCause, StaysUnless};
ghost use Rattle.message_run.specs.Written.{Wrote, WrotePart};
ghost use Rattle.table_model.specs.Event.{events};
ghost use Rattle.table_lock.specs.Passes.{root_view};
ghost use Rattle.rib_core.specs.Recorded.{recorded};
ghost use Rattle.table_workers.specs.Working.{Calls as MadeCalls};
ghost use Rattle.serve_command.specs.Line.{counts_line, line_of};
ghost use Rattle.serve_command.specs.Served.{Serves, IsClosedOver, around, setup_for};

use crate::connections::NewConnections;
use crate::line;
use crate::table::{any_spent, dismiss, hire, open_table};
use aft_entries::{Device, Name};
use call_answers::Setting;
use gribi_serve::{Naming, Room, TableService, serve_connections};
use grpc_calls::Calls;
use h2_conn::H2Conn;
use link_serving::Tally;
use message_run::write_all;
use rib_core::RibCore;
use rig_io::{Acceptor, Clock, Sink};
use server_conn::ServerConn;
use std::alloc::{AllocError, Global};
use std::marker::Brand;
use std::sync::Wait;
use std::thread::Threads;
use table_lock::{Pass, TableLock};

/// What a server is asked for.
#[derive(Drop)]
pub struct Order {
    /// The address that it listens on, handed to the acceptor unread.
    pub listen: Name,
    /// How many links it serves.
    pub connections: u64,
    /// How many workers it has, 1 to 16.
    pub workers: u32,
}

// What was served and closed: how that went, and the counts of the closed table.
#[derive(Drop)]
pub(crate) struct Ran {
    tally: Tally,
    entries: u64,
    installed: u64,
    events: u64,
}

// Serves over the table under this lock, which a type names, and closes it.
fn serve_room<
    N: Naming,
    R: Threads + Wait + Sync,
    A: Acceptor,
    D: Device + Drop + Send,
    C: Clock + Send,
>(
    rt: &R,
    alloc: Global,
    lock: TableLock<RibCore>,
    mut root: Pass<RibCore>,
    order: &Order,
    setting: &Setting,
    acceptor: &mut A,
    devices: &mut Vec<D>,
    clock: &C,
) -> Result<Ran, AllocError>
    requires lock { lock ≡ N.lock }
    requires setting { setting.now ≡ N.setting }
    requires setup { lock.setup ≡ setup_for setting.now order.now.workers }
    requires root { root ≡ root_view lock }
    requires took { A.retired_count acceptor.old ≤ A.given_count acceptor.old }
    requires asked { A.asked acceptor.old ≡ (order.now.connections, A.given_count acceptor.old) }
    requires devices { order.now.workers ≤ length devices.old.items }
    ensures closes { IfOk result (λ ran. ran.tally.is_spent ≡ false → (history : MadeCalls)
        × IsClosedOver C A.Link.pieces A.Link.faults D.contents D.faults setting.now order.now.connections order.now.workers
        (around A.given_count A.retired_count A.given A.retired A.faults acceptor.old devices.old.items)
        (around A.given_count A.retired_count A.given A.retired A.faults acceptor.new devices.new.items) ran.tally.lacks_memory ran.tally.has_failed history
        × (counts_line ran.entries ran.installed ran.events ≡ line_of (events (recorded history)))) }
    ensures cause { IfOk result (λ ran. HasCause (A.faults acceptor.old) (A.faults acceptor.new) (ran.tally.has_failed ≡ true)) }
    ensures unserved { OnErr result ((acceptor.new ≡ acceptor.old) × (devices.new.items ≡ devices.old.items)) }
{
    let mut workers = hire(alloc, &lock, &mut root, devices, order.workers, clock)?;
    let tally = {
        let room = Room::<N>::new(&lock, setting);
        let mut service = TableService::new(room, clock.twin(), NewConnections { alloc });
        serve_connections::<N, A, ServerConn<Calls<H2Conn>>, C, NewConnections, D, C, R>(
            rt,
            alloc,
            &lock,
            &mut root,
            acceptor,
            &mut service,
            workers.as_mut_slice(),
        )
    };
    let has_spent = any_spent(workers.as_slice());
    dismiss(&lock, &mut root, devices, workers);
    let core = lock.close(root);
    Ok(Ran {
        tally: Tally {
            lacks_memory: tally.lacks_memory,
            is_spent: tally.is_spent || has_spent,
            has_failed: tally.has_failed,
        },
        entries: core.entries(),
        installed: core.installed(),
        events: core.events(),
    })
}

// The same, without a name.
fn serve_over<R: Threads + Wait + Sync, A: Acceptor, D: Device + Drop + Send, C: Clock + Send>(
    rt: &R,
    alloc: Global,
    lock: TableLock<RibCore>,
    root: Pass<RibCore>,
    order: &Order,
    setting: &Setting,
    acceptor: &mut A,
    devices: &mut Vec<D>,
    clock: &C,
) -> Result<Ran, AllocError>
    requires setup { lock.setup ≡ setup_for setting.now order.now.workers }
    requires root { root ≡ root_view lock }
    requires took { A.retired_count acceptor.old ≤ A.given_count acceptor.old }
    requires asked { A.asked acceptor.old ≡ (order.now.connections, A.given_count acceptor.old) }
    requires devices { order.now.workers ≤ length devices.old.items }
    ensures closes { IfOk result (λ ran. ran.tally.is_spent ≡ false → (history : MadeCalls)
        × IsClosedOver C A.Link.pieces A.Link.faults D.contents D.faults setting.now order.now.connections order.now.workers
        (around A.given_count A.retired_count A.given A.retired A.faults acceptor.old devices.old.items)
        (around A.given_count A.retired_count A.given A.retired A.faults acceptor.new devices.new.items) ran.tally.lacks_memory ran.tally.has_failed history
        × (counts_line ran.entries ran.installed ran.events ≡ line_of (events (recorded history)))) }
    ensures cause { IfOk result (λ ran. HasCause (A.faults acceptor.old) (A.faults acceptor.new) (ran.tally.has_failed ≡ true)) }
    ensures unserved { OnErr result ((acceptor.new ≡ acceptor.old) × (devices.new.items ≡ devices.old.items)) }
{
    serve_room::<Brand, R, A, D, C>(
        rt, alloc, lock, root, order, setting, acceptor, devices, clock,
    )
}

// Writes the counts of the closed table.
fn print_counts<K: Sink>(output: &mut K, ran: &Ran) -> bool
    ensures all { result ≡ true →
        Wrote (K.placed output.old) (counts_line ran.now.entries ran.now.installed ran.now.events) (K.placed output.new) }
    ensures part { WrotePart (K.placed output.old) (counts_line ran.now.entries ran.now.installed ran.now.events) (K.placed output.new) }
    ensures cause { HasCause (K.faults output.old) (K.faults output.new) (result ≡ false) }
    ensures stays { StaysUnless (K.faults output.old) (K.faults output.new) (result ≡ false) }
{
    let text = line::counts_line(ran.entries, ran.installed, ran.events);
    write_all(output, text.as_str().as_bytes())
}

// The status of a run whose line was printed.
fn status_of(tally: Tally) -> u8
    ensures { result ≡ (if tally.lacks_memory then 6 else if tally.has_failed then 8 else 0) }
{
    if tally.lacks_memory {
        6
    } else if tally.has_failed {
        8
    } else {
        0
    }
}

/// Serves until as many links as were asked for were served, or accepting failed, and then prints the counts of the table. It may wait,
/// and no clause says that it ends.
///
/// 0 where all were served; 5 where the line could not be written; 6 for want of memory, for the table, for a link or in one; 8 where
/// the address could not be opened or accepting failed; 14 where a call of the table's lock was Spent.
pub fn serve<
    R: Threads + Wait + Sync,
    A: Acceptor,
    K: Sink,
    D: Device + Drop + Send,
    C: Clock + Send,
>(
    rt: &R,
    alloc: Global,
    order: &Order,
    setting: &Setting,
    output: &mut K,
    acceptor: &mut A,
    devices: &mut Vec<D>,
    clock: &mut C,
) -> u8
    requires took { A.retired_count acceptor.old ≤ A.given_count acceptor.old }
    requires some { 1 ≤ order.now.workers }
    requires few { order.now.workers ≤ 16 }
    requires devices { order.now.workers ≤ length devices.old.items }
    ensures serves { Serves (IsClosedOver C A.Link.pieces A.Link.faults D.contents D.faults setting.now order.now.connections order.now.workers
        (around A.given_count A.retired_count A.given A.retired A.faults acceptor.old devices.old.items)
        (around A.given_count A.retired_count A.given A.retired A.faults acceptor.new devices.new.items))
        (around A.given_count A.retired_count A.given A.retired A.faults acceptor.old devices.old.items)
        (around A.given_count A.retired_count A.given A.retired A.faults acceptor.new devices.new.items)
        (K.placed output.old) (K.placed output.new) result }
    ensures accept { HasCause (A.faults acceptor.old) (A.faults acceptor.new) (result ≡ 8) }
    ensures write { HasCause (K.faults output.old) (K.faults output.new) (result ≡ 5) }
    ensures write_stays { StaysUnless (K.faults output.old) (K.faults output.new) (result ≡ 5) }
{
    if !acceptor.listen(order.listen.as_str(), order.connections) {
        return 8;
    }
    let Ok((lock, root)) = open_table(alloc, setting, order.workers) else {
        return 6;
    };
    let Ok(ran) = serve_over(
        rt, alloc, lock, root, order, setting, acceptor, devices, clock,
    ) else {
        return 6;
    };
    if ran.tally.is_spent {
        return 14;
    }
    if !print_counts(output, &ran) {
        return 5;
    }
    status_of(ran.tally)
}
