//! What became of each job, the table that they leave, and the next job of a worker.
ghost use Rattle.std.specs.Prelude.{◌≡◌, ◌==◌, ◌&&◌, IfOk, if◌then◌else◌, fold, filter, find, length, not, option_copied};
ghost use Rattle.std.specs.List.{list_any};
ghost use Rattle.aft_entries.specs.Order.{name_length, name_number, shard_of};
ghost use Rattle.aft_entries.specs.References as references;
ghost use Rattle.table_model.specs.Event as events;
ghost use Rattle.table_model.specs.Jobs as history;
ghost use Rattle.reference_model.specs.JobOutcomes.{outcome_value};

use crate::entries::{copy, put, resolves, take_out, used};
use crate::event::{Event, is_reported};
use crate::tasks::{Task, tasks, work_key, work_refs};
use aft_entries::{Entry, Key, KeyName, shard};
use std::alloc::{AllocError, Global};
use std::marker::Model;
use table_model::{Command, Job, JobNumber, Reply, Verdict, Work};

/// What the history says of a job.
#[derive(Clone, Copy)]
pub(crate) enum JobOutcome {
    Waiting,
    Out,
    Programmed,
    Faulted,
    PassedOver,
}

/// A job that an event is about, and what becomes of it.
#[derive(Drop)]
pub(crate) struct JobUpdate {
    pub number: JobNumber,
    pub outcome: JobOutcome,
    pub now: i64,
}

impl Model for JobUpdate {
    ghost use Rattle.table_model.specs.Jobs as history;
    ghost use Rattle.reference_model.specs.JobOutcomes.{outcome_value};

    ghost Value = { history.JobUpdate };

    ghost view = { λ t. record { number = t.number; outcome = outcome_value t.outcome; now = t.now } };
}

/// A job and what became of it.
#[derive(Drop)]
pub(crate) struct TrackedTask {
    pub task: Task,
    pub outcome: JobOutcome,
}

impl Model for TrackedTask {
    ghost use Rattle.table_model.specs.Jobs as history;
    ghost use Rattle.reference_model.specs.JobOutcomes.{outcome_value};

    ghost Value = { history.TrackedTask };

    ghost view = { λ s. record { task = s.task; outcome = outcome_value s.outcome } };
}

pub(crate) fn number_eq(a: JobNumber, b: JobNumber) -> bool
    ensures { result ≡ history.number_eq a b }
{
    a.position == b.position && a.index == b.index
}

fn number_lt(a: JobNumber, b: JobNumber) -> bool
    ensures { result ≡ history.number_lt a b }
{
    a.position < b.position || (a.position == b.position && a.index < b.index)
}

fn is_waiting(job_outcome: JobOutcome) -> bool
    ensures { result ≡ history.is_waiting (outcome_value job_outcome) }
{
    match job_outcome {
        JobOutcome::Waiting => true,
        _ => false,
    }
}

pub(crate) fn is_out(job_outcome: JobOutcome) -> bool
    ensures { result ≡ history.is_out (outcome_value job_outcome) }
{
    match job_outcome {
        JobOutcome::Out => true,
        _ => false,
    }
}

fn is_programmed(job_outcome: JobOutcome) -> bool
    ensures { result ≡ history.is_programmed (outcome_value job_outcome) }
{
    match job_outcome {
        JobOutcome::Programmed => true,
        _ => false,
    }
}

pub(crate) fn is_undone(job_outcome: JobOutcome) -> bool
    ensures { result ≡ history.is_undone (outcome_value job_outcome) }
{
    is_waiting(job_outcome) || is_out(job_outcome)
}

fn reported(said: Verdict) -> JobOutcome
    ensures { outcome_value result ≡ history.reported said }
{
    match said {
        Verdict::Programmed => JobOutcome::Programmed,
        Verdict::DeviceFault => JobOutcome::Faulted,
    }
}

fn update_by_take(now: i64, reply: &Reply) -> Option<JobUpdate>
    ensures { result ≡ history.update_by_take now reply.now }
{
    match reply {
        Reply::Given(job) => Some(JobUpdate {
            number: job.number,
            outcome: JobOutcome::Out,
            now,
        }),
        Reply::Skipped(number) => Some(JobUpdate {
            number: *number,
            outcome: JobOutcome::PassedOver,
            now,
        }),
        _ => None,
    }
}

fn update_by_report(number: JobNumber, said: Verdict, now: i64, reply: &Reply) -> Option<JobUpdate>
    ensures { result ≡ (if events.is_reported reply.now then Some (record { number = number; outcome = history.reported said; now = now }) else None) }
{
    if is_reported(reply) {
        Some(JobUpdate {
            number,
            outcome: reported(said),
            now,
        })
    } else {
        None
    }
}

pub(crate) fn update_of(e: &Event) -> Option<JobUpdate>
    ensures { result ≡ history.update_of e.now }
{
    match &e.command {
        Command::Take(_, now) => update_by_take(*now, &e.reply),
        Command::Report(number, said, now) => update_by_report(*number, *said, *now, &e.reply),
        _ => None,
    }
}

fn turned(turn: Option<JobUpdate>, number: JobNumber, before: JobOutcome) -> JobOutcome
    ensures { outcome_value result ≡ history.turned turn number (outcome_value before) }
{
    match turn {
        None => before,
        Some(turn) => {
            if number_eq(turn.number, number) {
                turn.outcome
            } else {
                before
            }
        }
    }
}

/// What became of a job.
#[tactic(auto, unfolding(table_model::specs::Jobs::outcome_of))]
pub(crate) fn outcome_of(past: &[Event], number: JobNumber) -> JobOutcome
    ensures { outcome_value result ≡ history.outcome_of past.now number }
{
    match past {
        [] => JobOutcome::Waiting,
        [e, past @ ..] => turned(update_of(e), number, outcome_of(past, number)),
    }
}

#[tactic(auto, unfolding(table_model::specs::Jobs::tracked_tasks))]
pub(crate) fn tracked_tasks(alloc: Global, past: &[Event]) -> Result<Vec<TrackedTask>, AllocError>
    ensures { IfOk result (λ board. board.items ≡ history.tracked_tasks past.now) }
{
    let mut board = Vec::new(alloc);
    for task in tasks(alloc, past)? {
        let outcome = outcome_of(past, task.job.number);
        board.push(TrackedTask { task, outcome })?;
    }
    Ok(board)
}

fn effect(alloc: Global, table: Vec<Entry>, work: &Work) -> Result<Vec<Entry>, AllocError>
    ensures { IfOk result (λ after. after.items ≡ history.effect table.items work.now) }
{
    match work {
        Work::Install(entry) => put(alloc, entry, &table),
        Work::Remove(key) => Ok(take_out(key, table)),
    }
}

// What the programmed jobs make of a table, in the order of their numbers.
fn table_from(
    alloc: Global,
    table: Vec<Entry>,
    board: &[TrackedTask],
) -> Result<Vec<Entry>, AllocError>
    ensures { IfOk result (λ after. after.items
        ≡ fold (λ table tracked. history.effect table tracked.task.job.work) table.items
        (filter (λ tracked. history.is_programmed tracked.outcome) board.now)) }
{
    match board {
        [] => Ok(table),
        [tracked, board @ ..] => {
            if is_programmed(tracked.outcome) {
                table_from(alloc, effect(alloc, table, &tracked.task.job.work)?, board)
            } else {
                table_from(alloc, table, board)
            }
        }
    }
}

#[tactic(auto, unfolding(table_model::specs::Jobs::table_of))]
fn table_of(alloc: Global, board: &[TrackedTask]) -> Result<Vec<Entry>, AllocError>
    ensures { IfOk result (λ table. table.items ≡ history.table_of board.now) }
{
    table_from(alloc, Vec::new(alloc), board)
}

/// The forwarding table.
#[tactic(auto, unfolding(table_model::specs::Jobs::fib))]
pub(crate) fn fib(alloc: Global, past: &[Event]) -> Result<Vec<Entry>, AllocError>
    ensures { IfOk result (λ table. table.items ≡ history.fib past.now) }
{
    let board = tracked_tasks(alloc, past)?;
    table_of(alloc, &board)
}

fn is_among(key: &Key, keys: &[Key]) -> bool
    ensures { result ≡ references.is_among key.now keys.now }
{
    match keys {
        [] => false,
        [other, rest @ ..] => key.is(other) || is_among(key, rest),
    }
}

// The keys that a job touches beside its own.
fn touches(alloc: Global, task: &Task) -> Result<Vec<Key>, AllocError>
    ensures { IfOk result (λ keys. keys.items ≡ history.touches task.now) }
{
    let mut keys = work_refs(alloc, &task.job.work)?.into_vec();
    let mut before = task.before.clone()?.into_vec();
    keys.append(&mut before)?;
    Ok(keys)
}

// Whether two jobs can't be done in any order.
#[tactic(auto, unfolding(table_model::specs::Jobs::conflict))]
fn conflict(alloc: Global, a: &Task, b: &Task) -> Result<bool, AllocError>
    ensures { IfOk result (λ they. they ≡ history.conflict a.now b.now) }
{
    let one = work_key(&a.job.work);
    let other = work_key(&b.job.work);
    let there = is_among(&one, &touches(alloc, b)?);
    let here = is_among(&other, &touches(alloc, a)?);
    Ok(one.is(&other) || there || here)
}

// Whether the slot's job is earlier, undone and in conflict.
fn blocks(alloc: Global, tracked: &TrackedTask, task: &Task) -> Result<bool, AllocError>
    ensures { IfOk result (λ so. so
        ≡ (history.is_undone tracked.now.outcome && history.number_lt tracked.now.task.job.number task.now.job.number
        && history.conflict tracked.now.task task.now)) }
{
    let against = conflict(alloc, &tracked.task, task)?;
    Ok(is_undone(tracked.outcome) && number_lt(tracked.task.job.number, task.job.number) && against)
}

fn is_blocked(alloc: Global, board: &[TrackedTask], task: &Task) -> Result<bool, AllocError>
    ensures { IfOk result (λ blocked. blocked ≡ history.is_blocked board.now task.now) }
{
    match board {
        [] => Ok(false),
        [tracked, board @ ..] => {
            let here = blocks(alloc, tracked, task)?;
            Ok(here || is_blocked(alloc, board, task)?)
        }
    }
}

// The worker that serves the job's key is this one.
fn on_shard(workers: u32, worker: u32, task: &Task) -> bool
    ensures { result ≡ history.on_shard workers worker task.now }
{
    let key = work_key(&task.job.work);
    if workers == 0 {
        is_without_workers(&key, worker)
    } else {
        shard(&key, workers) == worker
    }
}

// The definition's remainder by no workers is the number itself.
#[tactic(auto, using(crate::proofs::Steps::without_workers))]
fn is_without_workers(key: &Key, worker: u32) -> bool
    ensures { result ≡ (shard_of key.now 0 == worker) }
{
    let number = number_of(&key.name);
    let rest = length_of(&key.name) as u64 + key.instance as u64 + key.name.place() as u64;
    number <= 4294967295 && number as u64 + rest == worker as u64
}

fn number_of(name: &KeyName) -> u128
    ensures { result ≡ name_number name.now }
{
    match name {
        KeyName::Hop(index) => *index as u128,
        KeyName::Group(id) => *id as u128,
        KeyName::V4(prefix) => prefix.bits as u128,
        KeyName::V6(prefix) => prefix.bits,
        KeyName::Label(label) => *label as u128,
    }
}

fn length_of(name: &KeyName) -> u8
    ensures { result ≡ name_length name.now }
{
    match name {
        KeyName::Hop(_) => 0,
        KeyName::Group(_) => 0,
        KeyName::V4(prefix) => prefix.len,
        KeyName::V6(prefix) => prefix.len,
        KeyName::Label(_) => 0,
    }
}

fn is_next(
    alloc: Global,
    workers: u32,
    board: &[TrackedTask],
    worker: u32,
    tracked: &TrackedTask,
) -> Result<bool, AllocError>
    ensures { IfOk result (λ next. next
        ≡ (history.on_shard workers worker tracked.now.task && history.is_waiting tracked.now.outcome && not (history.is_blocked board.now tracked.now.task))) }
{
    let blocked = is_blocked(alloc, board, &tracked.task)?;
    Ok(on_shard(workers, worker, &tracked.task) && is_waiting(tracked.outcome) && !blocked)
}

// The first of these slots whose job may be done.
fn next_among<'a>(
    alloc: Global,
    workers: u32,
    board: &[TrackedTask],
    worker: u32,
    rest: &'a [TrackedTask],
) -> Result<Option<&'a TrackedTask>, AllocError>
    ensures { IfOk result (λ next. option_copied next
        ≡ find (λ tracked. history.on_shard workers worker tracked.task && history.is_waiting tracked.outcome
        && not (history.is_blocked board.now tracked.task)) rest.now) }
{
    match rest {
        [] => Ok(None),
        [tracked, rest @ ..] => {
            if is_next(alloc, workers, board, worker, tracked)? {
                Ok(Some(tracked))
            } else {
                next_among(alloc, workers, board, worker, rest)
            }
        }
    }
}

/// The least job of the worker that waits and isn't blocked.
#[tactic(auto, unfolding(table_model::specs::Jobs::next_task))]
pub(crate) fn next_task<'a>(
    alloc: Global,
    workers: u32,
    board: &'a [TrackedTask],
    worker: u32,
) -> Result<Option<&'a TrackedTask>, AllocError>
    ensures { IfOk result (λ next. option_copied next ≡ history.next_task workers board.now worker) }
{
    next_among(alloc, workers, board, worker, board)
}

/// Whether no job of the worker is undone.
#[tactic(auto, unfolding(table_model::specs::Jobs::is_clear))]
pub(crate) fn is_clear(workers: u32, board: &[TrackedTask], worker: u32) -> bool
    ensures { result ≡ history.is_clear workers board.now worker }
{
    !has_undone(workers, board, worker)
}

fn has_undone(workers: u32, board: &[TrackedTask], worker: u32) -> bool
    ensures { result ≡ list_any (λ tracked. history.on_shard workers worker tracked.task && history.is_undone tracked.outcome) board.now }
{
    match board {
        [] => false,
        [tracked, board @ ..] => {
            let here = on_shard(workers, worker, &tracked.task) && is_undone(tracked.outcome);
            here || has_undone(workers, board, worker)
        }
    }
}

/// Whether the work can't be done: a reference isn't there, or the key is referred to.
pub(crate) fn is_skipped(alloc: Global, table: &[Entry], work: &Work) -> Result<bool, AllocError>
    ensures { IfOk result (λ skipped. skipped ≡ history.is_skipped table.now work.now) }
{
    match work {
        Work::Install(entry) => Ok(!resolves(alloc, table, entry)?),
        Work::Remove(key) => Ok(used(table, key)),
    }
}

pub(crate) fn skip_reason(work: &Work) -> u8
    ensures { result ≡ history.skip_reason work.now }
{
    match work {
        Work::Install(_) => 21,
        Work::Remove(_) => 22,
    }
}

fn copy_of_work(work: &Work) -> Result<Work, AllocError>
    ensures { IfOk result (λ copied. copied ≡ work.now) }
{
    match work {
        Work::Install(entry) => Ok(Work::Install(copy(entry)?)),
        Work::Remove(key) => Ok(Work::Remove(*key)),
    }
}

/// The same job once more.
pub(crate) fn copy_of_job(job: &Job) -> Result<Job, AllocError>
    ensures { IfOk result (λ copied. copied ≡ job.now) }
{
    Ok(Job {
        number: job.number,
        work: copy_of_work(&job.work)?,
    })
}
