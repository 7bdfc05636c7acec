//! What the server with one thread answers to a command after a history.
ghost use Rattle.std.specs.Prelude.{◌≡◌, ◌∷◌, ◌&&◌, IfOk, if◌then◌else◌, option_copied};
ghost use Rattle.table_model.specs.Election.{highest};
ghost use Rattle.table_model.specs.Jobs.{fib, is_out, outcome_of, tracked_tasks};
ghost use Rattle.table_model.specs.Results.{batch, outstanding};
ghost use Rattle.table_model.specs.Rib.{rib};
ghost use Rattle.table_model.specs.Table.{names, remains};
ghost use Rattle.table_model.specs.Reply as history;

use crate::board::{
    TrackedTask, copy_of_job, fib, is_clear, is_out, is_skipped, next_task, outcome_of,
    tracked_tasks,
};
use crate::election::highest;
use crate::entries::{copy, lookup};
use crate::event::Event;
use crate::flush::{names, remains};
use crate::modify::{
    is_gone, is_halted, is_stoppable, reply_announce, reply_operate, reply_params,
};
use crate::results::{batch, outstanding};
use crate::rib::rib;
use crate::same::same_payload;
use aft_entries::{Entry, KeyName, Kind, Row, Rows};
use std::alloc::{AllocError, Global};
use table_model::{Command, Config, FlushBy, JobNumber, KindAsk, Reply, Which};

fn place_of(kind: Kind) -> u8
    ensures { result ≡ history.place_of kind }
{
    match kind {
        Kind::Hop => 0,
        Kind::Group => 1,
        Kind::V4 => 2,
        Kind::V6 => 3,
        Kind::Label => 4,
    }
}

fn asked_kind(kinds: KindAsk, name: &KeyName) -> bool
    ensures { result ≡ history.asked_kind kinds name.now }
{
    match kinds {
        KindAsk::All => true,
        KindAsk::Only(kind) => name.place() == place_of(kind),
    }
}

fn is_installed(table: &[Entry], entry: &Entry) -> bool
    ensures { result ≡ history.is_installed table.now entry.now }
{
    match lookup(&entry.key, table) {
        None => false,
        Some(installed) => same_payload(&installed.payload, &entry.payload),
    }
}

fn is_selected(which: Which, kinds: KindAsk, entry: &Entry) -> bool
    ensures { result ≡ (names which entry.now.key.instance && history.asked_kind kinds entry.now.key.name) }
{
    names(which, entry.key.instance) && asked_kind(kinds, &entry.key.name)
}

fn row(installed: &[Entry], entry: &Entry) -> Result<Row, AllocError>
    ensures { IfOk result (λ row. row ≡ record { entry = entry.now; installed = history.is_installed installed.now entry.now }) }
{
    Ok(Row {
        entry: copy(entry)?,
        installed: is_installed(installed, entry),
    })
}

// The entries of these instances and kinds, each with whether the second table has it.
#[tactic(auto, unfolding(table_model::specs::Reply::selected))]
fn selected(
    alloc: Global,
    table: &[Entry],
    installed: &[Entry],
    which: Which,
    kinds: KindAsk,
) -> Result<Vec<Row>, AllocError>
    ensures { IfOk result (λ rows. rows.items ≡ history.selected table.now installed.now which kinds) }
{
    match table {
        [] => Ok(Vec::new(alloc)),
        [entry, table @ ..] => {
            let rows = selected(alloc, table, installed, which, kinds)?;
            if is_selected(which, kinds, entry) {
                with_first(row(installed, entry)?, rows)
            } else {
                Ok(rows)
            }
        }
    }
}

fn with_first(row: Row, mut rows: Vec<Row>) -> Result<Vec<Row>, AllocError>
    ensures { IfOk result (λ all. all.items ≡ row ∷ rows.items) }
{
    rows.insert(0, row)?;
    Ok(rows)
}

fn may_flush(alloc: Global, past: &[Event], by: FlushBy) -> Result<bool, AllocError>
    ensures { IfOk result (λ may. may ≡ history.may_flush past.now by) }
{
    match by {
        FlushBy::Override => Ok(true),
        FlushBy::Id(id) => Ok(id != 0 && highest(alloc, past)? <= id),
    }
}

// To the next job, if there is one.
fn take_reply(
    alloc: Global,
    config: Config,
    past: &[Event],
    worker: u32,
    board: &[TrackedTask],
    next: Option<&TrackedTask>,
) -> Result<Reply, AllocError>
    requires { board.now ≡ tracked_tasks past.now }
    ensures { IfOk result (λ reply. reply ≡ history.take_reply config past.now worker (option_copied next.entry)) }
{
    match next {
        None => {
            if is_halted(past) && is_clear(config.workers, board, worker) {
                Ok(Reply::HaltSeen)
            } else {
                Ok(Reply::Idle)
            }
        }
        Some(tracked) => {
            let table = fib(alloc, past)?;
            if is_skipped(alloc, &table, &tracked.task.job.work)? {
                Ok(Reply::Skipped(tracked.task.job.number))
            } else {
                Ok(Reply::Given(copy_of_job(&tracked.task.job)?))
            }
        }
    }
}

#[tactic(auto, unfolding(table_model::specs::Reply::reply_take))]
fn reply_take(
    alloc: Global,
    config: Config,
    past: &[Event],
    worker: u32,
) -> Result<Reply, AllocError>
    ensures { IfOk result (λ reply. reply ≡ history.reply_take config past.now worker) }
{
    let board = tracked_tasks(alloc, past)?;
    let next = next_task(alloc, config.workers, &board, worker)?;
    take_reply(alloc, config, past, worker, &board, next)
}

fn reply_flush(
    alloc: Global,
    past: &[Event],
    by: FlushBy,
    which: Which,
) -> Result<Reply, AllocError>
    ensures { IfOk result (λ reply. reply
        ≡ (if history.may_flush past.now by then Reply.Flushed (remains (rib past.now) which) else Reply.FlushRefused (highest past.now))) }
{
    if may_flush(alloc, past, by)? {
        let table = rib(alloc, past)?;
        Ok(Reply::Flushed(remains(alloc, &table, which)?))
    } else {
        Ok(Reply::FlushRefused(highest(alloc, past)?))
    }
}

fn reply_collect(alloc: Global, past: &[Event], session: u64) -> Result<Reply, AllocError>
    ensures { IfOk result (λ reply. reply ≡ Reply.Collected (batch past.now session) (outstanding past.now session)) }
{
    let batch = batch(alloc, past, session)?;
    let left = outstanding(alloc, past, session)?;
    Ok(Reply::Collected(batch, left))
}

fn reply_select(
    alloc: Global,
    past: &[Event],
    which: Which,
    kinds: KindAsk,
) -> Result<Reply, AllocError>
    ensures { IfOk result (λ reply. reply ≡ Reply.Selected (history.selected (rib past.now) (fib past.now) which kinds)) }
{
    let table = rib(alloc, past)?;
    let installed = fib(alloc, past)?;
    let rows = selected(alloc, &table, &installed, which, kinds)?;
    Ok(Reply::Selected(Rows::from_vec(rows)))
}

fn reply_report(past: &[Event], number: JobNumber) -> Reply
    ensures { result ≡ (if is_out (outcome_of past.now number) then Reply.Reported else Reply.NotOut) }
{
    if is_out(outcome_of(past, number)) {
        Reply::Reported
    } else {
        Reply::NotOut
    }
}

// Where no Halt stops the command, and its session is live.
fn answer(
    alloc: Global,
    config: Config,
    past: &[Event],
    command: &Command,
) -> Result<Reply, AllocError>
    ensures { IfOk result (λ reply. reply ≡ history.answer config past.now command.now) }
{
    match command {
        Command::Begin => Ok(Reply::Began(past.len() as u64)),
        Command::SetParams(session, asked) => reply_params(alloc, past, *session, *asked),
        Command::Announce(session, id) => reply_announce(alloc, past, *session, *id),
        Command::Operate(session, operation, _) => {
            reply_operate(alloc, config, past, *session, operation)
        }
        Command::Collect(session) => reply_collect(alloc, past, *session),
        Command::Leave(_) => Ok(Reply::Left),
        Command::Flush(by, which, _) => reply_flush(alloc, past, *by, *which),
        Command::Select(which, kinds) => reply_select(alloc, past, *which, *kinds),
        Command::Take(worker, _) => reply_take(alloc, config, past, *worker),
        Command::Report(number, _, _) => Ok(reply_report(past, *number)),
        Command::Halt => Ok(Reply::HaltDone),
    }
}

/// What the server with one thread answers to the command after these events, the newest first. It takes the
/// memory that the definitions' lists need, and fails where there is none.
#[tactic(auto, unfolding(table_model::specs::Reply::reply_to))]
pub fn reply_of(
    alloc: Global,
    config: Config,
    past: &[Event],
    command: &Command,
) -> Result<Reply, AllocError>
    ensures { IfOk result (λ reply. reply ≡ history.reply_to config past.now command.now) }
{
    if is_stoppable(command) && is_halted(past) {
        Ok(Reply::Stopped)
    } else if is_gone(alloc, past, command)? {
        Ok(Reply::Gone)
    } else {
        answer(alloc, config, past, command)
    }
}
