ghost use Rattle.std.specs.Prelude.{◌≡◌, ◌+◌, ◌≤◌, ◌<◌, ◌++◌, [], ◌∷◌, true, ℕ, Some, None, if◌then◌else◌, IfOk, OnOk, length, map, take, count_by, slice_get};
ghost use Rattle.std.specs.List.{list_any, list_all};
ghost use Rattle.table_model.specs.Jobs as history;
ghost use Rattle.table_model.specs.Laws.{left_by};
ghost use Rattle.table_model.specs.BoardState.{due_for};
ghost use Rattle.table_model.specs.Results.{is_awaited, failure};
ghost use Rattle.table_model.specs.Completed.{is_none_or_reason};
ghost use Rattle.fib_board.specs.BoxedWork.{work_in};
ghost use Rattle.fib_board.specs.Steps.{cost, waiting, is_before, given_for, undone_after_take, skipped_results, is_out_as, out_task, undone_after_report, fib_after_report, reported_results, due_after_collect, due_after_forget, unwanted, fib_by};

use crate::boxed::{BoxedJob, BoxedWork};
use crate::due::{self, Row};
use crate::ends::{discard, end, send};
use crate::jobs::{awaited, drop_owner, is_clear, next_place, out_place, push};
use crate::pending_job::PendingJob;
use crate::place::{ResultNode, add_result_nodes};
use aft_store::{Store, is_used, resolves};
use std::alloc::{AllocError, Global};
use std::collections::VecDeque;
use std::marker::Model;
use table_model::{Batch, Job, JobNumber, Verdict, Work};

/// What a worker that asks is answered.
#[derive(Drop)]
pub enum Given {
    /// The job is out.
    Work(Job),
    /// The job can't be done, and is done as failed.
    Skipped(JobNumber),
    /// The worker has no job that it may do now.
    Idle,
}

/// The jobs that aren't done, the forwarding table, and the results that sessions haven't collected.
#[derive(Drop)]
pub struct Board {
    workers: u32,
    jobs: VecDeque<PendingJob>,
    due: Vec<Row>,
    // Places for the results of jobs that may be added. The other lists have room for as many.
    spare: Vec<ResultNode>,
    fib: Store,
    // At least as many as there are places, those of due results included.
    made: u64,
}

impl Model for Board {
    ghost use Rattle.std.specs.Prelude.{◌<◌, vec_len, vec_capacity};
    ghost use Rattle.std.specs.VecDeque.{deque_len, deque_capacity};
    ghost use Rattle.table_model.specs.BoardState.{BoardState};
    ghost use Rattle.fib_board.specs.BoardInvariant.{HasRoom};

    ghost Value = { BoardState };

    ghost view = { λ b. record {
      workers = b.workers;
      undone = b.jobs.items;
      fib = b.fib.entries;
      due = b.due.items;
      spare = vec_len b.spare;
    } };

    ghost invariant = { λ b. (0 < b.workers) × HasRoom b.jobs.items b.due.items (deque_len b.jobs) (vec_len b.spare) (deque_capacity b.jobs)
        (vec_len b.due) (vec_capacity b.due) b.fib.spare b.made };
}

impl Board {
    /// A board with no jobs, for so many workers.
    pub fn new(alloc: Global, workers: u32) -> Result<Board, AllocError>
        requires { 1 ≤ workers }
        ensures workers { IfOk result (λ board. board.workers ≡ workers) }
        ensures undone { IfOk result (λ board. board.undone ≡ []) }
        ensures fib { IfOk result (λ board. board.fib ≡ []) }
        ensures due { IfOk result (λ board. (session : ℕ) → due_for board.due session ≡ []) }
    {
        Ok(Board {
            workers,
            jobs: VecDeque::new(alloc),
            due: Vec::new(alloc),
            spare: Vec::new(alloc),
            fib: Store::new(alloc),
            made: 0,
        })
    }

    /// The forwarding table.
    pub fn fib(&self) -> &Store
        ensures { result.now.entries ≡ self.now.fib }
    {
        &self.fib
    }

    /// Whether no job of the worker is undone.
    pub fn is_clear(&self, worker: u32) -> bool
        ensures { result ≡ history.is_clear self.now.workers self.now.undone worker }
    {
        is_clear(&self.jobs, self.workers, worker)
    }

    /// How many results the session still waits for, or hasn't collected.
    pub fn outstanding(&self, session: u64) -> u64
        ensures { result ≡ count_by (is_awaited session) self.now.undone + length (due_for self.now.due session) }
    {
        awaited(&self.jobs, session) as u64 + due::count(&self.due, session) as u64
    }

    /// Adds a job behind all others. Its memory was taken by `reserve`.
    ///
    /// Four things of the job are taken as given, and no clause needs them: its number is above those of the jobs that
    /// are done too; an entry that it displaced has its key; a job whose result is wanted has an owner, who wasn't
    /// forgotten; and the references of an entry that it installs are different keys.
    pub fn add_reserved(&mut self, job: BoxedJob)
        requires room { cost job ≤ self.old.spare }
        requires last { list_all (is_before job.job.number) self.old.undone ≡ true }
        requires copy { job.copy ≡ left_by job.job.work }
        ensures workers { self.new.workers ≡ self.old.workers }
        ensures undone { self.new.undone ≡ self.old.undone ++ waiting job ∷ [] }
        ensures fib { self.new.fib ≡ self.old.fib }
        ensures due { (session : ℕ) → due_for self.new.due session ≡ due_for self.old.due session }
        ensures spare { self.old.spare ≤ self.new.spare + cost job }
    {
        match self.spare.pop() {
            Some(place) => push(&mut self.jobs, PendingJob::new(job, place)),
            None => unreachable!(),
        }
    }

    /// The first 256 results that are due to the session, which are due no more. This takes no memory.
    pub fn collect(&mut self, session: u64) -> Batch
        ensures batch { result ≡ take 256 (due_for self.old.due session) }
        ensures workers { self.new.workers ≡ self.old.workers }
        ensures undone { self.new.undone ≡ self.old.undone }
        ensures fib { self.new.fib ≡ self.old.fib }
        ensures due { (other : ℕ) → due_for self.new.due other ≡ due_after_collect session other (due_for self.old.due other) }
        ensures spare { self.new.spare ≡ self.old.spare }
    {
        due::collect(&mut self.due, session)
    }

    /// The session left: what is due to it goes, and its jobs bring no result any more.
    pub fn forget(&mut self, session: u64)
        ensures workers { self.new.workers ≡ self.old.workers }
        ensures undone { self.new.undone ≡ map (unwanted session) self.old.undone }
        ensures fib { self.new.fib ≡ self.old.fib }
        ensures due { (other : ℕ) → due_for self.new.due other ≡ due_after_forget session other (due_for self.old.due other) }
        ensures spare { self.new.spare ≡ self.old.spare }
    {
        due::forget(&mut self.due, session);
        drop_owner(&mut self.jobs, session);
    }

    /// The worker's next job. It goes out to the worker, or can't be done and is done as failed.
    pub fn take(&mut self, worker: u32, now: i64) -> Given
        ensures given { result ≡ given_for self.old.fib (history.next_task self.old.workers self.old.undone worker) }
        ensures workers { self.new.workers ≡ self.old.workers }
        ensures undone { self.new.undone ≡ undone_after_take self.old.fib self.old.undone (history.next_task self.old.workers self.old.undone worker) }
        ensures fib { self.new.fib ≡ self.old.fib }
        ensures due { (session : ℕ) → due_for self.new.due session
            ≡ due_for self.old.due session ++ skipped_results session self.old.fib now (history.next_task self.old.workers self.old.undone worker) }
        ensures spare { self.old.spare ≤ self.new.spare }
    {
        match next_place(&self.jobs, self.workers, worker) {
            None => Given::Idle,
            Some(at) => self.start(at, now),
        }
    }

    // The job at this place, which waits, goes out or is passed over.
    fn start(&mut self, at: usize, now: i64) -> Given
        requires within { at < length self.old.undone }
        requires waits { (tracked : history.TrackedTask) → slice_get self.old.undone at ≡ Some tracked → history.is_waiting tracked.outcome ≡ true }
        ensures given { result ≡ given_for self.old.fib (slice_get self.old.undone at) }
        ensures workers { self.new.workers ≡ self.old.workers }
        ensures undone { self.new.undone ≡ undone_after_take self.old.fib self.old.undone (slice_get self.old.undone at) }
        ensures fib { self.new.fib ≡ self.old.fib }
        ensures due { (session : ℕ) → due_for self.new.due session
            ≡ due_for self.old.due session ++ skipped_results session self.old.fib now (slice_get self.old.undone at) }
        ensures spare { self.old.spare ≤ self.new.spare }
    {
        let pending_job = &self.jobs[at];
        let number = pending_job.number();
        match skip_reason(&self.fib, pending_job.work()) {
            Some(reason) => {
                discard(end(&mut self.jobs, &mut self.due, at, Some(reason), now));
                Given::Skipped(number)
            }
            None => Given::Work(send(&mut self.jobs, at)),
        }
    }

    /// A worker's device did the job with this number, or failed to. False where no such job is out: then nothing
    /// changes.
    pub fn report(&mut self, job: JobNumber, verdict: Verdict, now: i64) -> bool
        ensures was_out { result ≡ list_any (is_out_as job) self.old.undone }
        ensures workers { self.new.workers ≡ self.old.workers }
        ensures undone { self.new.undone ≡ undone_after_report self.old.undone (out_task job self.old.undone) }
        ensures fib { self.new.fib ≡ fib_after_report verdict self.old.fib (out_task job self.old.undone) }
        ensures due { (session : ℕ) → due_for self.new.due session
            ≡ due_for self.old.due session ++ reported_results session verdict now (out_task job self.old.undone) }
        ensures spare { self.old.spare ≤ self.new.spare }
    {
        match out_place(&self.jobs, job) {
            None => false,
            Some(at) => {
                self.complete(at, verdict, now);
                true
            }
        }
    }

    // The job at this place is done.
    fn complete(&mut self, at: usize, verdict: Verdict, now: i64)
        requires within { at < length self.old.undone }
        ensures workers { self.new.workers ≡ self.old.workers }
        ensures undone { self.new.undone ≡ undone_after_report self.old.undone (slice_get self.old.undone at) }
        ensures fib { self.new.fib ≡ fib_after_report verdict self.old.fib (slice_get self.old.undone at) }
        ensures due { (session : ℕ) → due_for self.new.due session
            ≡ due_for self.old.due session ++ reported_results session verdict now (slice_get self.old.undone at) }
        ensures spare { self.old.spare ≤ self.new.spare }
    {
        let failed = fault(verdict);
        let work = end(&mut self.jobs, &mut self.due, at, failed, now);
        program(&mut self.fib, verdict, work);
    }

    /// Makes room for jobs that together cost so much. This alone takes memory.
    pub fn reserve(&mut self, more: u64) -> Result<(), AllocError>
        ensures ok { OnOk result (more ≤ self.new.spare) }
        ensures workers { self.new.workers ≡ self.old.workers }
        ensures undone { self.new.undone ≡ self.old.undone }
        ensures fib { self.new.fib ≡ self.old.fib }
        ensures due { self.new.due ≡ self.old.due }
        ensures spare { self.old.spare ≤ self.new.spare }
    {
        let had = self.spare.len();
        let more = more as usize;
        if more <= had {
            return Ok(());
        }
        let added = (more - had) as u64;
        if added > MOST_PLACES - self.made {
            return Err(AllocError);
        }
        let all = self.jobs.len() + more;
        self.jobs.reserve(more)?;
        self.due.reserve(all)?;
        self.fib.reserve(all as u64)?;
        add_result_nodes(*self.jobs.allocator(), &mut self.spare, more)?;
        self.made += added;
        Ok(())
    }
}

// No more places than these are made.
const MOST_PLACES: u64 = 4_611_686_018_427_387_904;

// The work can't be done: a reference isn't there, or the key is referred to.
fn skip_reason(fib: &Store, work: &BoxedWork) -> Option<u8>
    ensures { result ≡ (if history.is_skipped fib.now.entries (work_in work.now) then Some (history.skip_reason (work_in work.now)) else None) }
{
    match work {
        BoxedWork::Install(entry) => { if resolves(fib, entry) { None } else { Some(21) } }
        BoxedWork::Remove(key) => { if is_used(fib, key) { Some(22) } else { None } }
    }
}

// Why the job failed that the device was given, if it did.
fn fault(verdict: Verdict) -> Option<u8>
    ensures fault { (task : history.Task) → result ≡ failure task (history.reported verdict) }
    ensures reason { is_none_or_reason result ≡ true }
{
    match verdict {
        Verdict::Programmed => None,
        Verdict::DeviceFault => Some(20),
    }
}

// What the device did becomes of the forwarding table.
fn program(fib: &mut Store, verdict: Verdict, work: Work)
    requires { 0 < fib.old.spare }
    ensures entries { fib.new.entries ≡ fib_by verdict fib.old.entries work }
    ensures spare { fib.old.spare ≤ fib.new.spare + 1 }
{
    match verdict {
        Verdict::Programmed => apply(fib, work),
        Verdict::DeviceFault => {}
    }
}

fn apply(fib: &mut Store, work: Work)
    requires { 0 < fib.old.spare }
    ensures entries { fib.new.entries ≡ history.effect fib.old.entries work }
    ensures spare { fib.old.spare ≤ fib.new.spare + 1 }
{
    match work {
        Work::Install(entry) => {
            let _ = fib.put_reserved(entry);
        }
        Work::Remove(key) => {
            let _ = fib.remove(&key);
        }
    }
}
