//! The results that a session collects.
ghost use Rattle.std.specs.Prelude.{◌≡◌, ◌≤◌, ◌*◌, ◌^◌, ◌++◌, ◌∷◌, ◌<◌, IfOk, if◌then◌else◌, count_by, drop, find, length, option_copied, option_to_list};
ghost use Rattle.table_model.specs.Jobs as jobs;
ghost use Rattle.table_model.specs.Results as history;
ghost use Rattle.reference_model.specs.JobOutcomes.{outcome_value};

use crate::board::{
    JobOutcome, JobUpdate, TrackedTask, is_undone, number_eq, skip_reason, tracked_tasks, update_of,
};
use crate::event::Event;
use crate::tasks::{Task, tasks};
use std::alloc::{AllocError, Global};
use std::collections::LinkedList;
use table_model::{Batch, Command, FibResult, JobNumber, Reply};

// Whether the session collects the job's result.
fn wanted_by(session: u64, task: &Task) -> bool
    ensures { result ≡ history.wanted_by session task.now }
{
    match task.owner {
        None => false,
        Some(owner) => task.wants && owner == session,
    }
}

// Why the job failed, if it did.
fn failure(task: &Task, outcome: JobOutcome) -> Option<u8>
    ensures { result ≡ history.failure task.now (outcome_value outcome) }
{
    match outcome {
        JobOutcome::Faulted => Some(20),
        JobOutcome::PassedOver => Some(skip_reason(&task.job.work)),
        _ => None,
    }
}

fn task_of(number: JobNumber, made: &[Task]) -> Option<&Task>
    ensures { option_copied result ≡ find (λ task. jobs.number_eq number task.job.number) made.now }
{
    match made {
        [] => None,
        [task, rest @ ..] => {
            if number_eq(number, task.job.number) {
                Some(task)
            } else {
                task_of(number, rest)
            }
        }
    }
}

fn result_of(session: u64, outcome: JobOutcome, now: i64, task: &Task) -> Option<FibResult>
    ensures { result
        ≡ (if history.wanted_by session task.now then Some (record {
          id = task.now.id;
          failed = history.failure task.now (outcome_value outcome);
          now = now;
        }) else None) }
{
    if wanted_by(session, task) {
        Some(FibResult {
            id: task.id,
            failed: failure(task, outcome),
            now,
        })
    } else {
        None
    }
}

// The result that an event brings the session.
fn result_by(session: u64, made: &[Task], turn: Option<JobUpdate>) -> Option<FibResult>
    ensures { result ≡ history.result_by session made.now turn }
{
    match turn {
        None => None,
        Some(turn) => result_at(session, made, turn.number, turn.outcome, turn.now),
    }
}

// By what the event says of a job.
fn result_at(
    session: u64,
    made: &[Task],
    number: JobNumber,
    outcome: JobOutcome,
    now: i64,
) -> Option<FibResult>
    ensures { result ≡ history.result_by session made.now (Some (record { number = number; outcome = outcome_value outcome; now = now })) }
{
    if is_undone(outcome) {
        return None;
    }
    match task_of(number, made) {
        None => None,
        Some(task) => result_of(session, outcome, now, task),
    }
}

/// In the order of completion.
#[tactic(auto, unfolding(table_model::specs::Results::results))]
pub(crate) fn results(
    alloc: Global,
    past: &[Event],
    session: u64,
) -> Result<Vec<FibResult>, AllocError>
    ensures { IfOk result (λ due. due.items ≡ history.results past.now session) }
{
    match past {
        [] => Ok(Vec::new(alloc)),
        [e, past @ ..] => {
            let made = tasks(alloc, past)?;
            let due = results(alloc, past, session)?;
            followed(due, result_by(session, &made, update_of(e)))
        }
    }
}

fn followed(mut due: Vec<FibResult>, last: Option<FibResult>) -> Result<Vec<FibResult>, AllocError>
    ensures { IfOk result (λ all. all.items ≡ due.items ++ option_to_list last) }
{
    if let Some(last) = last {
        due.push(last)?;
    }
    Ok(due)
}

fn batch_length(reply: &Reply) -> usize
    ensures { result ≡ history.batch_length reply.now }
{
    match reply {
        Reply::Collected(batch, _) => batch.len(),
        _ => 0,
    }
}

fn collected_by(session: u64, e: &Event) -> usize
    ensures { result ≡ history.collected_by session e.now }
{
    match &e.command {
        Command::Collect(asker) => {
            if *asker == session {
                batch_length(&e.reply)
            } else {
                0
            }
        }
        _ => 0,
    }
}

/// How many results the session has collected.
#[tactic(auto, unfolding(table_model::specs::Results::taken))]
fn taken(past: &[Event], session: u64) -> u128
    ensures is { result ≡ history.taken past.now session }
    ensures bound { result ≤ 18446744073709551616 * length past.now }
{
    match past {
        [] => 0,
        [e, past @ ..] => taken(past, session) + collected_by(session, e) as u128,
    }
}

// The results after so many, as a list that gives its places away.
fn from_place(
    alloc: Global,
    place: u128,
    all: &[FibResult],
) -> Result<LinkedList<FibResult>, AllocError>
    ensures { IfOk result (λ due. due ≡ drop place all.now) }
{
    match all {
        [] => Ok(LinkedList::new(alloc)),
        [first, rest @ ..] => {
            if place > 0 {
                from_place(alloc, place - 1, rest)
            } else {
                with_first(*first, from_place(alloc, 0, rest)?)
            }
        }
    }
}

fn with_first(
    first: FibResult,
    mut due: LinkedList<FibResult>,
) -> Result<LinkedList<FibResult>, AllocError>
    ensures { IfOk result (λ all. all ≡ first ∷ due) }
{
    due.push_front(first)?;
    Ok(due)
}

/// The first 256 that aren't taken yet.
#[tactic(auto, unfolding(table_model::specs::Results::batch))]
pub(crate) fn batch(alloc: Global, past: &[Event], session: u64) -> Result<Batch, AllocError>
    ensures { IfOk result (λ batch. batch ≡ history.batch past.now session) }
{
    let all = results(alloc, past, session)?;
    let mut due = from_place(alloc, taken(past, session), &all)?;
    Ok(Batch::cut(&mut due))
}

fn is_awaited(session: u64, tracked: &TrackedTask) -> bool
    ensures { result ≡ history.is_awaited session tracked.now }
{
    wanted_by(session, &tracked.task) && is_undone(tracked.outcome)
}

fn awaited(session: u64, board: &[TrackedTask]) -> usize
    ensures is { result ≡ count_by (history.is_awaited session) board.now }
    ensures bound { result ≤ length board.now }
{
    match board {
        [] => 0,
        [tracked, board @ ..] => {
            let more = awaited(session, board);
            if is_awaited(session, tracked) {
                more + 1
            } else {
                more
            }
        }
    }
}

/// How many answers the session still waits for, after the next batch.
#[tactic(auto, unfolding(table_model::specs::Results::outstanding))]
pub(crate) fn outstanding(alloc: Global, past: &[Event], session: u64) -> Result<u64, AllocError>
    ensures { IfOk result (λ left. left ≡ history.outstanding past.now session) }
{
    let board = tracked_tasks(alloc, past)?;
    let all = results(alloc, past, session)?;
    let next = batch(alloc, past, session)?;
    let gone = taken(past, session) + next.len() as u128;
    let left = (all.len() as u128).saturating_sub(gone);
    Ok((awaited(session, &board) as u128 + left) as u64)
}
