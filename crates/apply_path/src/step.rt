ghost use Rattle.std.specs.Prelude.{◌≡◌, ◌++◌, ◌∷◌, [], List, pos, true, false, IfOk, OnOk, OnErr};
ghost use Rattle.rib_core.specs.Ends.{end_reply};
ghost use Rattle.table_model.specs.Reply.{operate_reply};
ghost use Rattle.table_model.specs.Event.{Event, is_no_memory};
ghost use Rattle.table_model.specs.declared.command.Config.{Config};
ghost use Rattle.apply_path.specs.History.{is_operate, id_of, moment_of, response_item, status_code_by as status_code_spec};
ghost use Rattle.apply_path.specs.SessionAt.{AnswersReply, Replied, RunsCommands, Collects, CollectsAll};
ghost use Rattle.inline_worker.specs.CoreAt.{CoreAt};
ghost use Rattle.inline_worker.specs.Turns.{outstanding_in};

use aft_entries::Reason;
use call_answers::{append_answer, append_operation_result, end_of};
use message_run::{Handled, append_item};
use rib_core::{OperateEnd, RibCore};
use schema_numbers::Numbering;
use std::alloc::{AllocError, Global};
use table_laws::outstanding_is_owed;
use table_model::{Command, Operation, Reply};

/// How many events a table of `apply` has before it takes no more: an input's bytes give far fewer.
const MAX_EVENTS: u64 = 2_305_843_009_213_693_952;

/// Where answers are written: the output so far, and a buffer in which each message is spelled first.
#[derive(Drop)]
pub struct AnswerWriter {
    pub alloc: Global,
    pub message: Vec<u8>,
    pub out: Vec<u8>,
}

// Appends the answer that is owed for a reply, spelled in `message` first.
#[tactic(auto, unfolding(crate::specs::History::response_item))]
fn append_response_item(
    n: &Numbering,
    id: u64,
    now: i64,
    reply: &Reply,
    writer: &mut AnswerWriter,
) -> Result<(), AllocError>
    ensures ok { OnOk result (writer.new.out.items ≡ writer.old.out.items ++ response_item n.now id now reply.now) }
    ensures err { OnErr result (writer.new.out.items ≡ writer.old.out.items) }
{
    writer.message.clear();
    if append_answer(writer.alloc, n, id, now, reply, &mut writer.message)? {
        append_item(0, &writer.message, &mut writer.out)
    } else {
        Ok(())
    }
}

// The status number that a reply ends the stream with.
fn status_code_by(operate: bool, reply: &Reply) -> Result<Option<u8>, AllocError>
    ensures { IfOk result (λ code. code ≡ status_code_spec operate reply.now) }
{
    match end_of(operate, reply)? {
        None => Ok(None),
        Some(status) => Ok(Some(status.code)),
    }
}

/// Whether the reply tells that there was no memory.
pub fn is_out_of_memory(reply: &Reply) -> bool
    ensures { result ≡ is_no_memory reply.now }
{
    match reply {
        Reply::NoMemory => true,
        _ => false,
    }
}

/// Appends the answer to a reply, and tells whether it ends the stream.
pub fn answer_reply(
    n: &Numbering,
    operate: bool,
    id: u64,
    now: i64,
    reply: &Reply,
    writer: &mut AnswerWriter,
) -> Handled
    ensures { AnswersReply n.now operate id now reply.now result writer.old.out.items writer.new.out.items }
{
    if is_out_of_memory(reply) {
        return Handled::NoMemory;
    }
    match status_code_by(operate, reply) {
        Err(_) => Handled::NoMemory,
        Ok(code) => match append_response_item(n, id, now, reply, writer) {
            Err(_) => Handled::NoMemory,
            Ok(()) => match code {
                None => Handled::Continue,
                Some(code) => Handled::Ends(code),
            },
        },
    }
}

// Appends the result of an operation as it stands in the output, spelled in `message` first.
fn append_operation_item(
    n: &Numbering,
    id: u64,
    now: i64,
    failed: Option<Reason>,
    writer: &mut AnswerWriter,
) -> Result<(), AllocError>
    ensures ok { OnOk result (writer.new.out.items ≡ writer.old.out.items ++ response_item n.now id now (operate_reply failed)) }
    ensures err { OnErr result (writer.new.out.items ≡ writer.old.out.items) }
{
    writer.message.clear();
    append_operation_result(n, id, now, failed, &mut writer.message)?;
    append_item(0, &writer.message, &mut writer.out)
}

// Appends the result of an operation that failed for this reason, if any. It ends no stream.
#[inline(always)]
fn answer_result(
    n: &Numbering,
    id: u64,
    now: i64,
    failed: Option<Reason>,
    writer: &mut AnswerWriter,
) -> Handled
    ensures { AnswersReply n.now true id now (operate_reply failed) result writer.old.out.items writer.new.out.items }
{
    match append_operation_item(n, id, now, failed, writer) {
        Ok(()) => Handled::Continue,
        Err(_) => Handled::NoMemory,
    }
}

/// Appends the answer to an operation that ended so, and tells whether it ends the stream.
#[inline(always)]
pub fn answer_operation(
    n: &Numbering,
    id: u64,
    now: i64,
    end: OperateEnd,
    writer: &mut AnswerWriter,
) -> Handled
    ensures { AnswersReply n.now true id now (end_reply end) result writer.old.out.items writer.new.out.items }
{
    match end {
        OperateEnd::Done => answer_result(n, id, now, None, writer),
        OperateEnd::Failed(reason) => answer_result(n, id, now, Some(reason), writer),
        OperateEnd::Stopped => answer_stopped(n, id, now, writer),
        OperateEnd::Gone => answer_gone(n, id, now, writer),
        OperateEnd::NoParams => answer_without_params(n, id, now, writer),
        OperateEnd::NoMemory => Handled::NoMemory,
    }
}

#[inline(never)]
fn answer_stopped(n: &Numbering, id: u64, now: i64, writer: &mut AnswerWriter) -> Handled
    ensures { AnswersReply n.now true id now Reply.Stopped result writer.old.out.items writer.new.out.items }
{
    answer_reply(n, true, id, now, &Reply::Stopped, writer)
}

#[inline(never)]
fn answer_gone(n: &Numbering, id: u64, now: i64, writer: &mut AnswerWriter) -> Handled
    ensures { AnswersReply n.now true id now Reply.Gone result writer.old.out.items writer.new.out.items }
{
    answer_reply(n, true, id, now, &Reply::Gone, writer)
}

#[inline(never)]
fn answer_without_params(n: &Numbering, id: u64, now: i64, writer: &mut AnswerWriter) -> Handled
    ensures { AnswersReply n.now true id now Reply.NoParams result writer.old.out.items writer.new.out.items }
{
    answer_reply(n, true, id, now, &Reply::NoParams, writer)
}

// Lets an operation go.
fn discard_operation(operation: Operation) {
    let _ = operation;
}

/// How an operation of the session ends, unless there is no room for another event.
#[inline(always)]
pub fn operate(core: &mut RibCore, operation: Operation, now: i64) -> OperateEnd
    ensures room { Replied core.old (Command.Operate 0 operation now) (end_reply result) core.new }
{
    if core.events() >= MAX_EVENTS {
        discard_operation(operation);
        return OperateEnd::NoMemory;
    }
    core.operate(0, operation, now)
}

// Lets a command go.
fn discard(command: Command) {
    let _ = command;
}

// The reply to a command, unless there is no room for another event.
#[inline(always)]
fn reply_to(core: &mut RibCore, command: Command) -> Reply
    ensures room { Replied core.old command result core.new }
{
    if core.events() >= MAX_EVENTS {
        discard(command);
        return Reply::NoMemory;
    }
    core.act(command)
}

// How much a Collect tells to be outstanding behind it.
fn outstanding(reply: &Reply) -> u64
    ensures { result ≡ outstanding_in reply.now }
{
    match reply {
        Reply::Collected(_, outstanding) => *outstanding,
        _ => 0,
    }
}

/// The session collects until nothing is outstanding, and the results are appended.
pub fn collect_all(n: &Numbering, core: &mut RibCore, writer: &mut AnswerWriter) -> Handled
    requires rest { (config : Config) × (past : List Event) × CoreAt config core.old past × Collects config past }
    ensures { (config : Config) (past : List Event) → CoreAt config core.old past → Collects config past
        → CollectsAll n.now config past core.new result writer.old.out.items writer.new.out.items }
{
    outstanding_is_owed();
    loop {
        let reply = reply_to(core, Command::Collect(0));
        let left = outstanding(&reply);
        let answered = answer_reply(n, false, 0, 0, &reply, writer);
        discard_reply(reply);
        match answered {
            Handled::Continue => {}
            Handled::Ends(code) => return Handled::Ends(code),
            Handled::Unreadable(place) => return Handled::Unreadable(place),
            Handled::NoMemory => return Handled::NoMemory,
        }
        if left == 0 {
            return Handled::Continue;
        }
    }
}

/// Lets a reply go.
pub fn discard_reply(reply: Reply) {
    let _ = reply;
}

/// Does a command that is no operation, and appends its answer.
pub fn do_command(
    n: &Numbering,
    core: &mut RibCore,
    command: Command,
    writer: &mut AnswerWriter,
) -> Handled
    requires names { (false ≡ is_operate command) × (0 ≡ id_of command) × (pos 0 ≡ moment_of command) }
    requires stood { (config : Config) × (past : List Event) × CoreAt config core.old past }
    ensures { RunsCommands n.now core.old core.new (command ∷ []) result writer.old.out.items writer.new.out.items }
{
    let reply = reply_to(core, command);
    let answered = answer_reply(n, false, 0, 0, &reply, writer);
    discard_reply(reply);
    answered
}
