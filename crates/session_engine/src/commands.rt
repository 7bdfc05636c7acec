ghost use Rattle.std.specs.Prelude.{◌≡◌, ℕ, ◌≤◌, ◌^◌, ◌++◌, ◌||◌, ◌&&◌, [], ◌∷◌, None, Some, IfOk, IfErr, OnOk, OnErr, true, false, pos, List, map};
ghost use Rattle.std.specs.Option.{option_map_or};
ghost use Rattle.gribi_messages.specs.Response.{response_bytes};
ghost use Rattle.call_answers.specs.Answers.{response_for};
ghost use Rattle.call_answers.specs.Orders.{commands_of, operation_at, orders_of};
ghost use Rattle.call_orders.specs.Owed.{is_operate, id_of, moment_of, modify_items};
ghost use Rattle.call_orders.specs.Calls.{is_clear};
ghost use Rattle.call_orders.specs.Actions.{timeless};
ghost use Rattle.call_orders.specs.Orders.{is_stopped_by};
ghost use Rattle.table_lock.specs.Passes.{IsPassOf, IsSound};
ghost use Rattle.session_engine.specs.Steps.{AddsAnswer, CollectsResults, DoesCommands, DoesMessage, EndsFinished, asked_by_message, is_modify, refused_by_message};
ghost use Rattle.session_engine.specs.Stands.{leaves_by};

use crate::endings::{good_end, refuse};
use crate::step::{Progress, Step};
use call_answers::{Setting, answer_of, end_of, operations_in, read_header, read_operation};
use proto_schema::{MessageKind, first_fault};
use schema_numbers::Numbering;
use std::alloc::{AllocError, Global};
use std::sync::Wait;
use table_lock::{Machine, Pass, Spent, TableLock};
use table_model::{AskedParams, Command, Reply};

/// The reply says that a Halt stands.
pub(crate) fn is_stopped(reply: &Reply) -> bool
    ensures { result ≡ is_stopped_by reply.now }
{
    match reply {
        Reply::Stopped => true,
        _ => false,
    }
}

// Appends the answer to a reply, if one is owed.
fn push_answer(
    alloc: Global,
    n: &Numbering,
    id: u64,
    now: i64,
    reply: &Reply,
    out: &mut Step,
) -> Result<(), AllocError>
    ensures ok { OnOk result (out.new ≡ record out.old {
      answers = out.old.answers ++ option_map_or (λ r. response_bytes n.now r ∷ []) (response_for
          n.now id now reply.now) [];
    }) }
    ensures err { OnErr result (out.new ≡ out.old) }
{
    let message = answer_of(alloc, n, id, now, reply)?;
    out.answers.push_message(message)
}

// Takes down what a reply to a Modify call's command is owed, and whether it ends the call.
fn add_answer(
    alloc: Global,
    n: &Numbering,
    operate: bool,
    id: u64,
    now: i64,
    reply: &Reply,
    out: &mut Step,
) -> Progress
    requires { out.old.end ≡ None }
    ensures told { AddsAnswer result (modify_items n.now operate id now reply.now) out.old out.new }
    ensures halted { out.new.halted ≡ (out.old.halted || is_stopped_by reply.now) }
{
    out.halted = out.halted || is_stopped(reply);
    let Ok(end) = end_of(operate, reply) else {
        return Progress::OutOfMemory;
    };
    if push_answer(alloc, n, id, now, reply, out).is_err() {
        return Progress::OutOfMemory;
    }
    match end {
        None => Progress::GoesOn,
        Some(status) => {
            out.end = Some(status);
            Progress::Ended
        }
    }
}

// Drops a reply, which frees its memory.
pub(crate) fn discard(reply: Reply) {
    let _ = reply;
}

/// Does a command of a Modify call, and takes down what is owed for it.
pub(crate) fn do_command<R: Wait, M: Machine<Command = Command, Reply = Reply>>(
    rt: &R,
    alloc: Global,
    lock: &TableLock<M>,
    pass: &mut Pass<M>,
    setting: &Setting,
    command: Command,
    operate: bool,
    id: u64,
    now: i64,
    out: &mut Step,
) -> Progress
    requires pass { IsPassOf lock.now pass.old }
    requires sound { IsSound M.lawful lock.now.setup pass.old }
    requires names { (operate ≡ is_operate command) × (id ≡ id_of command) × (now ≡ moment_of command) × (is_modify command ≡ true) }
    requires no_end { out.old.end ≡ None }
    ensures { DoesCommands M.lawful lock.now.setup setting.now pass.old pass.new (timeless command ∷ []) [] result out.old out.new }
{
    match lock.call(rt, pass, command) {
        Err(_) => Progress::Spent,
        Ok(reply) => {
            let progress = add_answer(alloc, &setting.numbering, operate, id, now, &reply, out);
            discard(reply);
            progress
        }
    }
}

// Sets the parameters that are asked for.
fn do_params<R: Wait, M: Machine<Command = Command, Reply = Reply>>(
    rt: &R,
    alloc: Global,
    lock: &TableLock<M>,
    pass: &mut Pass<M>,
    setting: &Setting,
    session: u64,
    asked: Option<AskedParams>,
    out: &mut Step,
) -> Progress
    requires pass { IsPassOf lock.now pass.old }
    requires sound { IsSound M.lawful lock.now.setup pass.old }
    requires no_end { out.old.end ≡ None }
    ensures { DoesCommands M.lawful lock.now.setup setting.now pass.old pass.new (option_map_or (λ asked. Command.SetParams session asked ∷ []) asked
        []) [] result out.old out.new }
{
    match asked {
        None => Progress::GoesOn,
        Some(asked) => {
            let command = Command::SetParams(session, asked);
            do_command(rt, alloc, lock, pass, setting, command, false, 0, 0, out)
        }
    }
}

// Announces the election id.
fn do_election<R: Wait, M: Machine<Command = Command, Reply = Reply>>(
    rt: &R,
    alloc: Global,
    lock: &TableLock<M>,
    pass: &mut Pass<M>,
    setting: &Setting,
    session: u64,
    election: Option<u128>,
    out: &mut Step,
) -> Progress
    requires pass { IsPassOf lock.now pass.old }
    requires sound { IsSound M.lawful lock.now.setup pass.old }
    requires no_end { out.old.end ≡ None }
    ensures { DoesCommands M.lawful lock.now.setup setting.now pass.old pass.new (option_map_or (λ id. Command.Announce session id ∷ []) election [])
        [] result out.old out.new }
{
    match election {
        None => Progress::GoesOn,
        Some(id) => {
            let command = Command::Announce(session, id);
            do_command(rt, alloc, lock, pass, setting, command, false, 0, 0, out)
        }
    }
}

// Sets the parameters, and announces the election id.
fn do_asks<R: Wait, M: Machine<Command = Command, Reply = Reply>>(
    rt: &R,
    alloc: Global,
    lock: &TableLock<M>,
    pass: &mut Pass<M>,
    setting: &Setting,
    session: u64,
    params: Option<AskedParams>,
    election: Option<u128>,
    out: &mut Step,
) -> Progress
    requires pass { IsPassOf lock.now pass.old }
    requires sound { IsSound M.lawful lock.now.setup pass.old }
    requires no_end { out.old.end ≡ None }
    ensures { DoesCommands M.lawful lock.now.setup setting.now pass.old pass.new (option_map_or (λ asked. Command.SetParams session asked ∷ [])
        params [] ++ option_map_or (λ id. Command.Announce session id ∷ []) election []) [] result out.old out.new }
{
    match do_params(rt, alloc, lock, pass, setting, session, params, out) {
        Progress::GoesOn => do_election(rt, alloc, lock, pass, setting, session, election, out),
        Progress::Ended => Progress::Ended,
        Progress::OutOfMemory => Progress::OutOfMemory,
        Progress::Spent => Progress::Spent,
    }
}

// Does an operation, which its bytes say.
fn do_piece<R: Wait, M: Machine<Command = Command, Reply = Reply>>(
    rt: &R,
    alloc: Global,
    lock: &TableLock<M>,
    pass: &mut Pass<M>,
    setting: &Setting,
    session: u64,
    piece: &[u8],
    now: i64,
    out: &mut Step,
) -> Progress
    requires pass { IsPassOf lock.now pass.old }
    requires sound { IsSound M.lawful lock.now.setup pass.old }
    requires no_end { out.old.end ≡ None }
    ensures { DoesCommands M.lawful lock.now.setup setting.now pass.old pass.new (Command.Operate session (operation_at setting.now piece.now) (pos
        0) ∷ []) [] result out.old out.new }
{
    match read_operation(alloc, setting, piece) {
        Err(_) => Progress::OutOfMemory,
        Ok(operation) => {
            let id = operation.id;
            let command = Command::Operate(session, operation, now);
            do_command(rt, alloc, lock, pass, setting, command, true, id, now, out)
        }
    }
}

// Does the operations of a request, one after another.
fn do_operations<R: Wait, M: Machine<Command = Command, Reply = Reply>>(
    rt: &R,
    alloc: Global,
    lock: &TableLock<M>,
    pass: &mut Pass<M>,
    setting: &Setting,
    session: u64,
    request: &[u8],
    now: i64,
    out: &mut Step,
) -> Progress
    requires pass { IsPassOf lock.now pass.old }
    requires sound { IsSound M.lawful lock.now.setup pass.old }
    requires no_end { out.old.end ≡ None }
    ensures { DoesCommands M.lawful lock.now.setup setting.now pass.old pass.new (map (λ operation. Command.Operate session operation (pos 0))
        (orders_of setting.now request.now).operations) [] result out.old out.new }
{
    let mut pieces = operations_in(setting, request);
    while let Some(piece) = pieces.next() {
        match do_piece(rt, alloc, lock, pass, setting, session, piece, now, out) {
            Progress::GoesOn => {}
            Progress::Ended => return Progress::Ended,
            Progress::OutOfMemory => return Progress::OutOfMemory,
            Progress::Spent => return Progress::Spent,
        }
    }
    Progress::GoesOn
}

// Does what a request orders, that can be read.
fn do_orders<R: Wait, M: Machine<Command = Command, Reply = Reply>>(
    rt: &R,
    alloc: Global,
    lock: &TableLock<M>,
    pass: &mut Pass<M>,
    setting: &Setting,
    session: u64,
    request: &[u8],
    now: i64,
    out: &mut Step,
) -> Progress
    requires pass { IsPassOf lock.now pass.old }
    requires sound { IsSound M.lawful lock.now.setup pass.old }
    requires no_end { out.old.end ≡ None }
    ensures { DoesCommands M.lawful lock.now.setup setting.now pass.old pass.new (commands_of session (pos 0) (orders_of setting.now request.now)) []
        result out.old out.new }
{
    let Ok((params, election)) = read_header(alloc, setting, request) else {
        return Progress::OutOfMemory;
    };
    match do_asks(
        rt, alloc, lock, pass, setting, session, params, election, out,
    ) {
        Progress::GoesOn => do_operations(
            rt, alloc, lock, pass, setting, session, request, now, out,
        ),
        Progress::Ended => Progress::Ended,
        Progress::OutOfMemory => Progress::OutOfMemory,
        Progress::Spent => Progress::Spent,
    }
}

/// Does what the message of a Modify call orders, or refuses it where it can't be read.
pub(crate) fn do_message<R: Wait, M: Machine<Command = Command, Reply = Reply>>(
    rt: &R,
    alloc: Global,
    lock: &TableLock<M>,
    pass: &mut Pass<M>,
    setting: &Setting,
    session: u64,
    request: &[u8],
    now: i64,
    out: &mut Step,
) -> Progress
    requires pass { IsPassOf lock.now pass.old }
    requires sound { IsSound M.lawful lock.now.setup pass.old }
    requires no_end { out.old.end ≡ None }
    ensures { DoesMessage M.lawful lock.now.setup setting.now pass.old pass.new (asked_by_message setting.now session request.now)
        (refused_by_message setting.now request.now) result out.old out.new }
{
    match first_fault(&setting.numbering, MessageKind::ModifyRequest, request) {
        None => do_orders(rt, alloc, lock, pass, setting, session, request, now, out),
        Some(fault) => refuse(alloc, fault, out),
    }
}

// No result is outstanding.
fn is_clear(reply: &Reply) -> bool
    ensures { result ≡ is_clear reply.now }
{
    match reply {
        Reply::Collected(_, outstanding) => *outstanding == 0,
        _ => false,
    }
}

// Nothing is left to be done for a call: its client has ended its side, and no result is outstanding.
fn is_over(is_finished: bool, reply: &Reply) -> bool
    ensures { result ≡ (is_finished && is_clear reply.now) }
{
    if is_finished { is_clear(reply) } else { false }
}

// Ends a call that goes on, where it is finished and nothing is outstanding.
fn end_finished(progress: Progress, is_over: bool, out: &mut Step) -> Progress
    ensures { EndsFinished progress is_over result out.old out.new }
{
    match progress {
        Progress::GoesOn => {
            if is_over {
                out.end = Some(good_end());
                Progress::Ended
            } else {
                Progress::GoesOn
            }
        }
        Progress::Ended => Progress::Ended,
        Progress::OutOfMemory => Progress::OutOfMemory,
        Progress::Spent => Progress::Spent,
    }
}

// Results were left outstanding.
fn has_left(reply: &Reply) -> bool
    ensures { result ≡ leaves_by reply.now }
{
    match reply {
        Reply::Collected(_, outstanding) => *outstanding != 0,
        _ => false,
    }
}

/// Collects results for a Modify call. Says whether any were left outstanding too.
pub(crate) fn do_collect<R: Wait, M: Machine<Command = Command, Reply = Reply>>(
    rt: &R,
    alloc: Global,
    lock: &TableLock<M>,
    pass: &mut Pass<M>,
    setting: &Setting,
    session: u64,
    is_finished: bool,
    out: &mut Step,
) -> (Progress, bool)
    requires pass { IsPassOf lock.now pass.old }
    requires sound { IsSound M.lawful lock.now.setup pass.old }
    requires no_end { out.old.end ≡ None }
    ensures { CollectsResults M.lawful lock.now.setup setting.now pass.old pass.new session is_finished result.0 result.1 out.old out.new }
{
    match lock.call(rt, pass, Command::Collect(session)) {
        Err(_) => (Progress::Spent, false),
        Ok(reply) => {
            let is_over = is_over(is_finished, &reply);
            let has_left = has_left(&reply);
            let progress = add_answer(alloc, &setting.numbering, false, 0, 0, &reply, out);
            discard(reply);
            (end_finished(progress, is_over, out), has_left)
        }
    }
}
