//! Jobs whose entries stand in boxes, so that the places of a list of jobs are small.
ghost use Rattle.std.specs.Prelude.{◌≡◌, IfOk, option_map};
ghost use Rattle.aft_entries.specs.Order.{key_eq};
ghost use Rattle.aft_entries.specs.References as references;
ghost use Rattle.table_model.specs.Jobs as history;
ghost use Rattle.fib_board.specs.BoxedWork.{work_in, entry_in};
ghost use Rattle.fib_board.specs.Removals.{removal};

use aft_entries::{Entry, Key, refers};
use std::alloc::{AllocError, Global};
use std::marker::Model;
use table_model::{Job, JobNumber, NewJob, Work};

/// What a job does to the forwarding table.
#[derive(Drop)]
pub enum BoxedWork {
    /// The entry is put in place of the one with its key.
    Install(Box<Entry>),
    /// The key is taken out.
    Remove(Key),
}

/// A job as it is made, seen as a `NewJob`. Its entries stand in boxes of their own.
#[derive(Drop)]
pub struct BoxedJob {
    /// What names it.
    pub number: JobNumber,
    /// The id of the operation that made it, and 0 in a purge.
    pub id: u64,
    /// The session of that operation, and none in a purge.
    pub owner: Option<u64>,
    /// Whether the owner wants its result.
    pub wants: bool,
    /// What a worker is given.
    pub work: BoxedWork,
    /// The entry that left the table for it, if one did. It has the job's key.
    pub displaced: Option<Box<Entry>>,
    /// What the forwarding table will hold: the installed entry once more, and none of a removal.
    pub copy: Option<Box<Entry>>,
}

impl Model for BoxedJob {
    ghost use Rattle.table_model.specs.declared.job.NewJob.{NewJob};
    ghost use Rattle.fib_board.specs.BoxedWork.{work_in, entry_in};

    ghost Value = { NewJob };

    ghost view = { λ b. record {
      job = record { number = b.number; work = work_in b.work };
      id = b.id;
      owner = b.owner;
      wants = b.wants;
      displaced = entry_in b.displaced;
      copy = entry_in b.copy;
    } };
}

impl BoxedJob {
    /// The job with its entries in boxes. This alone takes memory.
    pub fn new(alloc: Global, made: NewJob) -> Result<BoxedJob, AllocError>
        ensures { IfOk result (λ boxed. boxed ≡ made) }
    {
        let NewJob {
            job,
            id,
            owner,
            wants,
            displaced,
            copy,
        } = made;
        let Job { number, work } = job;
        let copy = boxed_entry(alloc, copy)?;
        let displaced = boxed_entry(alloc, displaced)?;
        let work = boxed_work(alloc, work)?;
        Ok(BoxedJob {
            number,
            id,
            owner,
            wants,
            work,
            displaced,
            copy,
        })
    }

    /// The job that removes an entry which left the table with no operation of a session. It keeps the entry's box, and
    /// takes no memory.
    pub fn removal(number: JobNumber, displaced: Box<Entry>) -> BoxedJob
        ensures { result ≡ removal number displaced.value }
    {
        BoxedJob {
            number,
            id: 0,
            owner: None,
            wants: false,
            work: BoxedWork::Remove(entry_key(&displaced)),
            displaced: Some(displaced),
            copy: None,
        }
    }
}

fn boxed_entry(alloc: Global, entry: Option<Entry>) -> Result<Option<Box<Entry>>, AllocError>
    ensures { IfOk result (λ boxed. entry_in boxed ≡ entry) }
{
    match entry {
        None => Ok(None),
        Some(entry) => Ok(Some(Box::new(alloc, entry)?)),
    }
}

fn boxed_work(alloc: Global, work: Work) -> Result<BoxedWork, AllocError>
    ensures { IfOk result (λ boxed. work_in boxed ≡ work) }
{
    match work {
        Work::Remove(key) => Ok(BoxedWork::Remove(key)),
        Work::Install(entry) => Ok(BoxedWork::Install(Box::new(alloc, entry)?)),
    }
}

/// The work without its box.
pub(crate) fn unboxed_work(work: BoxedWork) -> Work
    ensures { result ≡ work_in work }
{
    match work {
        BoxedWork::Install(entry) => Work::Install(Box::into_inner(entry)),
        BoxedWork::Remove(key) => Work::Remove(key),
    }
}

/// The key that the work is about.
pub(crate) fn key_of(work: &BoxedWork) -> Key
    ensures { result ≡ history.work_key (work_in work.now) }
{
    match work {
        BoxedWork::Install(entry) => entry_key(entry),
        BoxedWork::Remove(key) => *key,
    }
}

fn entry_key(entry: &Entry) -> Key
    ensures { result ≡ entry.now.key }
{
    entry.key
}

/// Whether the work needs the key.
pub(crate) fn work_refers(work: &BoxedWork, key: &Key) -> bool
    ensures { result ≡ references.is_among key.now (history.work_refs (work_in work.now)) }
{
    match work {
        BoxedWork::Install(entry) => refers(entry, key),
        BoxedWork::Remove(_) => false,
    }
}

/// Whether the entry that goes needs the key.
pub(crate) fn displaced_refers(displaced: &Option<Box<Entry>>, key: &Key) -> bool
    ensures { result ≡ references.is_among key.now (history.refs_before (entry_in displaced.now)) }
{
    match displaced {
        Some(entry) => refers(entry, key),
        None => false,
    }
}
