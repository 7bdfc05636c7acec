use aft_entries::{Entry, Key};

/// What names a job: the position of the event that made it, and its place among the jobs of that event.
/// Jobs stand in the order of their numbers.
#[derive(Clone, Copy, Debug, PartialEq, Eq, PartialOrd, Ord)]
pub struct JobNumber {
    /// The position of the event that made it.
    pub position: u64,
    /// Its place among the jobs of that event, counted from 0.
    pub index: u64,
}

/// What a job does to the forwarding table.
#[derive(Drop)]
pub enum Work {
    /// The entry is put in place of the one with its key.
    Install(Entry),
    /// The key is taken out.
    Remove(Key),
}

/// A job for the forwarding table, as a worker is given it.
#[derive(Drop)]
pub struct Job {
    /// What names it.
    pub number: JobNumber,
    /// What is to be done.
    pub work: Work,
}

/// What a device did with a job.
#[derive(Clone, Copy, Debug, PartialEq, Eq)]
pub enum Verdict {
    /// The device did it.
    Programmed,
    /// The device failed, and did nothing.
    DeviceFault,
}

/// A job as it is made.
#[derive(Drop)]
pub struct NewJob {
    /// What a worker is given.
    pub job: Job,
    /// The id of the operation that made it, and 0 in a purge.
    pub id: u64,
    /// The session of that operation, and none in a purge.
    pub owner: Option<u64>,
    /// Whether the owner wants its result.
    pub wants: bool,
    /// The entry that left the table for it, if one did. It has the job's key.
    pub displaced: Option<Entry>,
    /// What the forwarding table will hold: the installed entry once more, and none of a removal.
    pub copy: Option<Entry>,
}
