ghost use Rattle.std.specs.Prelude.{◌≡◌, ◌&&◌, ◌<◌, true};
ghost use Rattle.aft_entries.specs.References as references;
ghost use Rattle.table_model.specs.Jobs as history;
ghost use Rattle.table_model.specs.Laws.{left_by};
ghost use Rattle.table_model.specs.Results as results;
ghost use Rattle.fib_board.specs.BoxedWork.{work_in, entry_in};
ghost use Rattle.fib_board.specs.Steps.{waiting, unwanted, has_number, is_out_as};

use crate::boxed::{BoxedJob, BoxedWork, displaced_refers, key_of, unboxed_work, work_refers};
use crate::place::ResultNode;
use aft_entries::{Entry, Key, shard};
use std::marker::Model;
use table_model::{Job, JobNumber, Work};

/// A job that isn't done.
#[derive(Drop)]
pub struct PendingJob {
    number: JobNumber,
    id: u64,
    owner: Option<u64>,
    wants: bool,
    // What the forwarding table will get.
    work: BoxedWork,
    // The same for the worker, until the job goes out.
    given: Option<BoxedWork>,
    displaced: Option<Box<Entry>>,
    place: ResultNode,
}

impl Model for PendingJob {
    ghost use Rattle.table_model.specs.Jobs.{TrackedTask, refs_before};
    ghost use Rattle.fib_board.specs.BoardInvariant.{outcome_with, IsSame};
    ghost use Rattle.fib_board.specs.BoxedWork.{work_in, entry_in};

    ghost Value = { TrackedTask };

    ghost view = { λ p. record {
      task = record {
        job = record { number = p.number; work = work_in p.work };
        id = p.id;
        owner = p.owner;
        wants = p.wants;
        before = refs_before (entry_in p.displaced);
      };
      outcome = outcome_with p.given;
    } };

    ghost invariant = { λ p. IsSame p.given p.work };
}

/// What is left of a job that is done.
#[derive(Drop)]
pub struct Ended {
    /// The operation's id.
    pub id: u64,
    /// The session of that operation.
    pub owner: Option<u64>,
    /// Whether the owner wants the result.
    pub wants: bool,
    /// What the forwarding table gets.
    pub work: Work,
    /// The place that was made for the result.
    pub place: ResultNode,
}

impl PendingJob {
    /// A job that waits, with a place for its result.
    pub fn new(made: BoxedJob, place: ResultNode) -> PendingJob
        requires copy { made.copy ≡ left_by made.job.work }
        ensures { result ≡ waiting made }
    {
        let BoxedJob {
            number,
            id,
            owner,
            wants,
            work,
            displaced,
            copy,
        } = made;
        PendingJob {
            number,
            id,
            owner,
            wants,
            work: work_with(&work, copy),
            given: Some(work),
            displaced,
            place,
        }
    }

    /// What names the job.
    pub fn number(&self) -> JobNumber
        ensures { result ≡ self.now.task.job.number }
    {
        self.number
    }

    /// What the forwarding table will get.
    pub fn work(&self) -> &BoxedWork
        ensures { work_in result.now ≡ self.now.task.job.work }
    {
        &self.work
    }

    /// Whether the session collects the job's result.
    pub fn is_wanted_by(&self, session: u64) -> bool
        ensures { result ≡ results.wanted_by session self.now.task }
    {
        match self.owner {
            None => false,
            Some(owner) => self.wants && owner == session,
        }
    }

    /// Whether a worker has it.
    pub fn is_out(&self) -> bool
        ensures { result ≡ history.is_out self.now.outcome }
    {
        self.given.is_none()
    }

    /// Whether no worker has taken it.
    pub fn is_waiting(&self) -> bool
        ensures { result ≡ history.is_waiting self.now.outcome }
    {
        self.given.is_some()
    }

    /// Whether it waits or is out.
    pub fn is_undone(&self) -> bool
        ensures { result ≡ history.is_undone self.now.outcome }
    {
        self.is_waiting() || self.is_out()
    }

    /// Whether a session waits for the result.
    pub fn is_awaited_by(&self, session: u64) -> bool
        ensures { result ≡ results.is_awaited session self.now }
    {
        self.is_wanted_by(session) && self.is_undone()
    }

    /// The job goes out to its worker.
    pub fn send(&mut self) -> Job
        requires { history.is_waiting self.old.outcome ≡ true }
        ensures job { result ≡ self.old.task.job }
        ensures out { self.new ≡ record { task = self.old.task; outcome = history.Out } }
    {
        match std::mem::replace(&mut self.given, None) {
            Some(work) => Job {
                number: self.number,
                work: unboxed_work(work),
            },
            None => unreachable!(),
        }
    }

    /// The session wants the result no more.
    pub fn drop_owner(&mut self, session: u64)
        ensures { self.new ≡ unwanted session self.old }
    {
        self.wants = self.wants && !self.is_wanted_by(session);
    }

    /// The job is done.
    pub fn end(self) -> Ended
        ensures id { result.id ≡ self.task.id }
        ensures owner { result.owner ≡ self.task.owner }
        ensures wants { result.wants ≡ self.task.wants }
        ensures work { result.work ≡ self.task.job.work }
    {
        let PendingJob {
            id,
            owner,
            wants,
            work,
            place,
            ..
        } = self;
        Ended {
            id,
            owner,
            wants,
            work: unboxed_work(work),
            place,
        }
    }

    fn key(&self) -> Key
        ensures { result ≡ history.work_key self.now.task.job.work }
    {
        key_of(&self.work)
    }

    /// Whether the worker, of so many, serves the job.
    pub fn is_on(&self, workers: u32, worker: u32) -> bool
        requires { 0 < workers }
        ensures { result ≡ history.on_shard workers worker self.now.task }
    {
        shard(&self.key(), workers) == worker
    }

    // Whether the job refers to the key, or displaces an entry that does.
    fn touches(&self, key: &Key) -> bool
        ensures { result ≡ references.is_among key.now (history.touches self.now.task) }
    {
        work_refers(&self.work, key) || displaced_refers(&self.displaced, key)
    }

    // Whether the later of the two jobs waits for the earlier.
    #[tactic(auto, unfolding(table_model::specs::Jobs::conflict))]
    fn conflicts(&self, other: &PendingJob) -> bool
        ensures { result ≡ history.conflict self.now.task other.now.task }
    {
        let (here, there) = (self.key(), other.key());
        here.is(&there) || other.touches(&here) || self.touches(&there)
    }

    /// Whether the other job has to wait for this one.
    pub fn blocks(&self, other: &PendingJob) -> bool
        ensures { result
            ≡ (history.is_undone self.now.outcome && history.number_lt self.now.task.job.number other.now.task.job.number
            && history.conflict self.now.task other.now.task) }
    {
        self.is_undone() && is_less(self.number, other.number) && self.conflicts(other)
    }

    /// Whether the number is the job's.
    pub fn has_number(&self, number: JobNumber) -> bool
        ensures { result ≡ has_number number self.now }
    {
        self.number.position == number.position && self.number.index == number.index
    }

    /// Whether the job with this number is this one, and is out.
    pub fn is_out_as(&self, number: JobNumber) -> bool
        ensures { result ≡ is_out_as number self.now }
    {
        self.has_number(number) && self.is_out()
    }
}

fn is_less(a: JobNumber, b: JobNumber) -> bool
    ensures { result ≡ history.number_lt a b }
{
    a.position < b.position || (a.position == b.position && a.index < b.index)
}

// The work with the entry's copy.
fn work_with(work: &BoxedWork, copy: Option<Box<Entry>>) -> BoxedWork
    requires { entry_in copy ≡ left_by (work_in work.now) }
    ensures { work_in result ≡ work_in work.now }
{
    match work {
        BoxedWork::Remove(key) => BoxedWork::Remove(*key),
        BoxedWork::Install(_) => match copy {
            Some(entry) => BoxedWork::Install(entry),
            None => unreachable!(),
        },
    }
}
