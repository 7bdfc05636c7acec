//! A Get and a Flush: what their message asks for, and what its reply brings.
ghost use Rattle.std.specs.Prelude.{◌≡◌, ◌||◌, ◌++◌, ◌∷◌, [], codes, All, IfSome, None, Some, OnOk, OnErr, true};
ghost use Rattle.table_lock.specs.Passes.{IsPassOf, IsSound};
ghost use Rattle.call_requests.specs.Asked.{invalid};
ghost use Rattle.call_orders.specs.Owed.{flush_response, items_by, ok};
ghost use Rattle.call_orders.specs.Calls.{asked_by};
ghost use Rattle.call_orders.specs.Requests as requests;
ghost use Rattle.call_orders.specs.Orders.{is_stopped_by};
ghost use Rattle.session_engine.specs.Singles.{AddsOrNone, AsksFor, EndsSingle, IsRefusal, SingleGoes, flush_moment, flushed_by, is_single_command, single_items};
ghost use Rattle.session_engine.specs.Stands.{items_in};
ghost use Rattle.session_engine.specs.Steps.{rows_selected};
ghost use Rattle.gribi_messages.specs.Rows.{RowHasKnownInstances};

use crate::commands::{discard, is_stopped};
use crate::endings::good_end;
use crate::known_rows::{KnownRows, names_known};
use crate::step::Step;
use bytes::Bytes;
use call_answers::{Setting, end_of};
use call_requests::{AskFault, flush_response, read_flush, read_get};
use grpc_heads::{Method, Status, Text};
use std::alloc::{AllocError, Global};
use std::sync::Wait;
use table_lock::{Machine, Pass, TableLock};
use table_model::{Command, Reply};

/// What a Get or a Flush asks for, whose client has ended its side.
#[derive(Drop)]
pub(crate) enum Asked {
    /// A command.
    Does(Command),
    /// Nothing: it ends with this status.
    Refused(Status),
    /// There was no memory to read it.
    OutOfMemory,
}

fn one_expected() -> Status
    ensures { result ≡ invalid (codes "one request expected") }
{
    Status {
        code: 3,
        message: Text::fixed(b"one request expected"),
        reason: None,
    }
}

fn refused(fault: AskFault) -> Asked
    ensures { IsRefusal fault result }
{
    match fault {
        AskFault::Refused(status) => Asked::Refused(status),
        AskFault::NoMemory => Asked::OutOfMemory,
    }
}

fn get_asked(alloc: Global, setting: &Setting, message: &[u8]) -> Asked
    ensures { AsksFor result (requests.get_asked setting.now message.now) }
{
    match read_get(alloc, setting, message) {
        Ok((which, kinds)) => Asked::Does(Command::Select(which, kinds)),
        Err(fault) => refused(fault),
    }
}

fn flush_asked(alloc: Global, setting: &Setting, message: &[u8], now: i64) -> Asked
    ensures { AsksFor result (requests.flush_asked setting.now message.now) }
{
    match read_flush(alloc, setting, message) {
        Ok((by, which)) => Asked::Does(Command::Flush(by, which, now)),
        Err(fault) => refused(fault),
    }
}

/// What the messages of a Get or a Flush ask for: one is expected.
pub(crate) fn read_asked(
    alloc: Global,
    setting: &Setting,
    method: Method,
    first: &Option<Bytes>,
    is_more: bool,
    now: i64,
) -> Asked
    ensures { AsksFor result (asked_by setting.now method first.now is_more) }
{
    let Some(message) = first else {
        return Asked::Refused(one_expected());
    };
    if is_more {
        return Asked::Refused(one_expected());
    }
    match method {
        Method::Get => get_asked(alloc, setting, message.as_slice()),
        Method::Flush => flush_asked(alloc, setting, message.as_slice(), now),
        Method::Modify => Asked::Refused(one_expected()),
    }
}

/// How the command of a Get or a Flush went.
#[derive(Drop)]
pub(crate) enum SingleEnd {
    /// A Get selected rows, and none is given yet.
    Selects(KnownRows),
    /// The call is over.
    Over,
    /// There was no memory for its answer.
    OutOfMemory,
    /// The call under the lock was Spent.
    Spent,
}

// Appends the response to a Flush that was done, and its good end.
fn answer_flush(
    alloc: Global,
    setting: &Setting,
    now: i64,
    remains: bool,
    out: &mut Step,
) -> Result<(), AllocError>
    requires { out.old.end ≡ None }
    ensures ok { OnOk result (items_in out.new ≡ items_in out.old ++ items_by (flush_response setting.now now remains ∷ []) (Some ok)) }
    ensures halted { out.new.halted ≡ out.old.halted }
    ensures err { OnErr result (out.new ≡ out.old) }
{
    let bytes = flush_response(alloc, &setting.numbering, now, remains)?;
    out.answers.push(bytes)?;
    out.end = Some(good_end());
    Ok(())
}

// The moment of a Flush that was done, and whether entries remain.
fn flushed(moment: Option<i64>, reply: &Reply) -> Option<(i64, bool)>
    ensures { result ≡ flushed_by moment reply.now }
{
    match (moment, reply) {
        (Some(now), Reply::Flushed(remains)) => Some((now, *remains)),
        _ => None,
    }
}

fn moment_of_flush(command: &Command) -> Option<i64>
    ensures { result ≡ flush_moment command.now }
{
    match command {
        Command::Flush(_, _, now) => Some(*now),
        _ => None,
    }
}

// Adds what the reply brings but for rows. It answers whether there was memory.
fn answer_single(
    alloc: Global,
    setting: &Setting,
    moment: Option<i64>,
    reply: &Reply,
    out: &mut Step,
) -> bool
    requires { out.old.end ≡ None }
    ensures told { AddsOrNone result (single_items setting.now moment reply.now) out.old out.new }
    ensures halted { out.new.halted ≡ (out.old.halted || is_stopped_by reply.now) }
{
    out.halted = out.halted || is_stopped(reply);
    match flushed(moment, reply) {
        Some((now, remains)) => answer_flush(alloc, setting, now, remains, out).is_ok(),
        None => match end_of(false, reply) {
            Err(_) => false,
            Ok(end) => {
                out.end = end;
                true
            }
        },
    }
}

fn selected(reply: Reply, instances: u16) -> SingleEnd
    requires { IfSome (rows_selected reply) (λ rows. All (RowHasKnownInstances instances) rows) }
    ensures { EndsSingle reply true result }
{
    match reply {
        Reply::Selected(rows) => SingleEnd::Selects(KnownRows::new(rows, instances)),
        other => {
            discard(other);
            SingleEnd::Over
        }
    }
}

fn ended(reply: Reply, told: bool, instances: u16) -> SingleEnd
    requires { IfSome (rows_selected reply) (λ rows. All (RowHasKnownInstances instances) rows) }
    ensures { EndsSingle reply told result }
{
    if told {
        selected(reply, instances)
    } else {
        discard(reply);
        SingleEnd::OutOfMemory
    }
}

/// Does the command of a Get or a Flush.
pub(crate) fn do_single<R: Wait, M: Machine<Command = Command, Reply = Reply>>(
    rt: &R,
    alloc: Global,
    lock: &TableLock<M>,
    pass: &mut Pass<M>,
    setting: &Setting,
    command: Command,
    out: &mut Step,
) -> SingleEnd
    requires pass { IsPassOf lock.now pass.old }
    requires sound { IsSound M.lawful lock.now.setup pass.old }
    requires single { is_single_command command ≡ true }
    requires no_end { out.old.end ≡ None }
    ensures { SingleGoes M.lawful lock.now.setup setting.now pass.old pass.new command result out.old out.new }
{
    let moment = moment_of_flush(&command);
    match lock.call(rt, pass, command) {
        Err(_) => SingleEnd::Spent,
        Ok(reply) => {
            let instances = setting.instances.count();
            if !names_known(&reply, instances) {
                discard(reply);
                return SingleEnd::OutOfMemory;
            }
            let told = answer_single(alloc, setting, moment, &reply, out);
            ended(reply, told, instances)
        }
    }
}
