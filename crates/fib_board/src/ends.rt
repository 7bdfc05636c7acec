//! A job goes out to its worker, or ends and leaves its result.
ghost use Rattle.std.specs.Prelude.{◌≡◌, ◌+◌, ◌≤◌, ◌<◌, ◌^◌, ◌++◌, ◌∷◌, [], ◌&&◌, ◌==◌, true, false, ℕ, Some, None, if◌then◌else◌, length, map, slice_get, slice_index_or, vec_len, vec_capacity};
ghost use Rattle.std.specs.List.{remove};
ghost use Rattle.std.specs.VecDeque.{deque_len, deque_capacity};
ghost use Rattle.table_model.specs.Completed.{is_none_or_reason};
ghost use Rattle.table_model.specs.Jobs.{TrackedTask, is_waiting};
ghost use Rattle.table_model.specs.BoardState.{due_for};
ghost use Rattle.fib_board.specs.BoardInvariant.{ascends, due_total};
ghost use Rattle.fib_board.specs.Steps.{results_with, sent, without};

use crate::due::{Row, append};
use crate::pending_job::{Ended, PendingJob};
use crate::place::ResultNode;
use std::collections::VecDeque;
use table_model::{FibResult, Job, Work};

/// The job at this place goes out.
pub fn send(jobs: &mut VecDeque<PendingJob>, at: usize) -> Job
    requires within { at < length jobs.old.items }
    requires waits { (tracked : TrackedTask) → slice_get jobs.old.items at ≡ Some tracked → is_waiting tracked.outcome ≡ true }
    requires ascending { ascends jobs.old.items ≡ true }
    ensures job { (tracked : TrackedTask) → slice_get jobs.old.items at ≡ Some tracked → result ≡ tracked.task.job }
    ensures items { (tracked : TrackedTask) → slice_get jobs.old.items at ≡ Some tracked → jobs.new.items ≡ map (sent tracked.task.job.number) jobs.old.items }
    ensures ascending { ascends jobs.new.items ≡ true }
    ensures len { deque_len jobs.new ≡ deque_len jobs.old }
    ensures capacity { deque_capacity jobs.new ≡ deque_capacity jobs.old }
{
    jobs[at].send()
}

/// The job at this place is done. Its owner gets a result where it wants one.
pub fn end(
    jobs: &mut VecDeque<PendingJob>,
    due: &mut Vec<Row>,
    at: usize,
    failed: Option<u8>,
    now: i64,
) -> Work
    requires within { at < length jobs.old.items }
    requires ascending { ascends jobs.old.items ≡ true }
    requires reason { is_none_or_reason failed ≡ true }
    requires room { vec_len due.old < vec_capacity due.old }
    requires few { due_total due.old.items + 1 < 2 ^ 63 }
    ensures work { (tracked : TrackedTask) → slice_get jobs.old.items at ≡ Some tracked → result ≡ tracked.task.job.work }
    ensures items { (tracked : TrackedTask) → slice_get jobs.old.items at ≡ Some tracked → jobs.new.items ≡ without tracked.task.job.number jobs.old.items }
    ensures ascending { ascends jobs.new.items ≡ true }
    ensures len { deque_len jobs.new + 1 ≡ deque_len jobs.old }
    ensures capacity { deque_capacity jobs.new ≡ deque_capacity jobs.old }
    ensures due { (tracked : TrackedTask) (session : ℕ) → slice_get jobs.old.items at ≡ Some tracked
        → due_for due.new.items session ≡ due_for due.old.items session ++ results_with session tracked.task failed now }
    ensures total { due_total due.new.items ≤ due_total due.old.items + 1 }
    ensures rows { vec_len due.new ≤ vec_len due.old + 1 }
    ensures row_room { vec_capacity due.old ≤ vec_capacity due.new }
{
    let Ended {
        id,
        owner,
        wants,
        work,
        place,
    } = take(jobs, at).end();
    add_result(due, owner, wants, FibResult { id, failed, now }, place);
    work
}

// The job at this place, which is no more among them.
fn take(jobs: &mut VecDeque<PendingJob>, at: usize) -> PendingJob
    requires { at < length jobs.old.items }
    ensures value { result ≡ slice_index_or jobs.old.items at result }
    ensures items { jobs.new.items ≡ remove jobs.old.items at }
    ensures len { deque_len jobs.new + 1 ≡ deque_len jobs.old }
    ensures capacity { deque_capacity jobs.new ≡ deque_capacity jobs.old }
{
    match jobs.remove(at) {
        Some(job) => job,
        None => unreachable!(),
    }
}

/// Lets the work of a job go.
pub fn discard(_work: Work) {}

// The owner gets the result where it wants one.
fn add_result(
    due: &mut Vec<Row>,
    owner: Option<u64>,
    wants: bool,
    told: FibResult,
    place: ResultNode,
)
    requires room { vec_len due.old < vec_capacity due.old }
    requires few { due_total due.old.items + 1 < 2 ^ 63 }
    ensures due { (session : ℕ) → due_for due.new.items session
        ≡ due_for due.old.items session ++ (if wants && elim owner [ None ↦ false | Some of ↦ of == session ] then told ∷ [] else []) }
    ensures total { due_total due.new.items ≤ due_total due.old.items + 1 }
    ensures rows { vec_len due.new ≤ vec_len due.old + 1 }
    ensures row_room { vec_capacity due.old ≤ vec_capacity due.new }
{
    match owner {
        None => {}
        Some(session) => {
            if wants {
                append(due, session, place.filled(told));
            }
        }
    }
}
