//! The undone jobs, in the order of their numbers.
ghost use Rattle.std.specs.Prelude.{◌≡◌, ◌&&◌, ◌≤◌, ◌<◌, ◌+◌, ◌∷◌, ◌++◌, [], true, Some, slice_get, count_by, length, map, take, not};
ghost use Rattle.std.specs.VecDeque.{deque_len, deque_capacity};
ghost use Rattle.std.specs.List.{list_any, position};
ghost use Rattle.table_model.specs.Jobs as history;
ghost use Rattle.table_model.specs.Results.{is_awaited};
ghost use Rattle.fib_board.specs.Steps.{is_out_as, unwanted};
ghost use Rattle.fib_board.specs.BoardInvariant.{ascends, may_start};

use crate::pending_job::PendingJob;
use std::collections::VecDeque;
use table_model::JobNumber;

// Whether one of the jobs before this place blocks the job.
fn is_blocked(jobs: &VecDeque<PendingJob>, at: usize, pending_job: &PendingJob) -> bool
    requires { at ≤ deque_len jobs.now }
    ensures { result ≡ history.is_blocked (take at jobs.now.items) pending_job.now.task }
{
    jobs.range(..at).any(|other| other.blocks(pending_job))
}

// Whether the job is the worker's, waits, and none of those before this place blocks it.
fn may_start(
    jobs: &VecDeque<PendingJob>,
    at: usize,
    pending_job: &PendingJob,
    workers: u32,
    worker: u32,
) -> bool
    requires workers { 0 < workers }
    requires within { at ≤ deque_len jobs.now }
    ensures { result
        ≡ (history.on_shard workers worker pending_job.now.task && history.is_waiting pending_job.now.outcome
        && not (history.is_blocked (take at jobs.now.items) pending_job.now.task)) }
{
    pending_job.is_on(workers, worker)
        && pending_job.is_waiting()
        && !is_blocked(jobs, at, pending_job)
}

// The same of the job at this place. Those behind it are later and can't block it.
fn may_start_at(jobs: &VecDeque<PendingJob>, workers: u32, worker: u32, at: usize) -> bool
    requires workers { 0 < workers }
    requires within { at < deque_len jobs.now }
    requires ascending { ascends jobs.now.items ≡ true }
    ensures { (tracked : history.TrackedTask) → slice_get jobs.now.items at ≡ Some tracked → result ≡ may_start workers jobs.now.items worker tracked }
{
    may_start(jobs, at, &jobs[at], workers, worker)
}

/// The place of the least job of the worker that waits and isn't blocked.
pub fn next_place(jobs: &VecDeque<PendingJob>, workers: u32, worker: u32) -> Option<usize>
    requires workers { 0 < workers }
    requires ascending { ascends jobs.now.items ≡ true }
    ensures { result ≡ position (may_start workers jobs.now.items worker) jobs.now.items }
{
    for at in 0..jobs.len() {
        if may_start_at(jobs, workers, worker, at) {
            return Some(at);
        }
    }
    None
}

/// The place of the job with this number that is out.
pub fn out_place(jobs: &VecDeque<PendingJob>, number: JobNumber) -> Option<usize>
    ensures { result ≡ position (is_out_as number) jobs.now.items }
{
    jobs.iter()
        .position(|pending_job| pending_job.is_out_as(number))
}

/// Whether no job of the worker is undone.
#[tactic(auto, unfolding(table_model::specs::Jobs::is_clear))]
pub fn is_clear(jobs: &VecDeque<PendingJob>, workers: u32, worker: u32) -> bool
    requires { 0 < workers }
    ensures { result ≡ history.is_clear workers jobs.now.items worker }
{
    !has_undone(jobs, workers, worker)
}

fn has_undone(jobs: &VecDeque<PendingJob>, workers: u32, worker: u32) -> bool
    requires { 0 < workers }
    ensures { result ≡ list_any (λ tracked. history.on_shard workers worker tracked.task && history.is_undone tracked.outcome) jobs.now.items }
{
    jobs.iter().any(|pending_job| pending_job.is_on(workers, worker) && pending_job.is_undone())
}

/// How many jobs the session waits for.
pub fn awaited(jobs: &VecDeque<PendingJob>, session: u64) -> usize
    ensures count { result ≡ count_by (is_awaited session) jobs.now.items }
    ensures bound { result ≤ length jobs.now.items }
{
    jobs.iter()
        .filter(|pending_job| pending_job.is_awaited_by(session))
        .count()
}

/// Adds a job to a list that has room for it.
pub fn push(jobs: &mut VecDeque<PendingJob>, pending_job: PendingJob)
    requires { deque_len jobs.old < deque_capacity jobs.old }
    ensures items { jobs.new.items ≡ jobs.old.items ++ pending_job ∷ [] }
    ensures len { deque_len jobs.new ≡ deque_len jobs.old + 1 }
    ensures capacity { deque_capacity jobs.old ≤ deque_capacity jobs.new }
{
    if jobs.push_back(pending_job).is_err() {
        unreachable!()
    }
}

/// The session wants no result any more.
pub fn drop_owner(jobs: &mut VecDeque<PendingJob>, session: u64)
    ensures items { jobs.new.items ≡ map (unwanted session) jobs.old.items }
    ensures len { deque_len jobs.new ≡ deque_len jobs.old }
    ensures capacity { deque_capacity jobs.new ≡ deque_capacity jobs.old }
{
    drop_owner_each(jobs.make_contiguous(), session);
}

fn drop_owner_each(jobs: &mut [PendingJob], session: u64)
    ensures { jobs.new ≡ map (unwanted session) jobs.old }
{
    for pending_job in jobs.iter_mut() {
        pending_job.drop_owner(session);
    }
}
