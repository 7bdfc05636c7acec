use crate::job::{JobNumber, Verdict};
use crate::params::AskedParams;
use aft_entries::{Ask, Kind};

/// The network instances of a Flush or a Get, by number.
#[derive(Clone, Copy, Debug, PartialEq, Eq)]
pub enum Which {
    /// Every instance.
    All,
    /// The instance of this number.
    One(u16),
}

/// The kinds of entries of a Get.
#[derive(Clone, Copy, Debug, PartialEq, Eq)]
pub enum KindAsk {
    /// Every kind.
    All,
    /// This kind alone.
    Only(Kind),
}

/// By what a Flush is allowed: an election id, or an override of the election.
#[derive(Clone, Copy, Debug, PartialEq, Eq)]
pub enum FlushBy {
    /// An election id, which must be at least the highest, and not 0.
    Id(u128),
    /// Whatever the election says.
    Override,
}

/// An AFT operation of a Modify request, read and checked as far as it stands by itself.
#[derive(Drop)]
pub struct Operation {
    /// The client's own number for it, which results repeat.
    pub id: u64,
    /// The election id that it bears, if any.
    pub election: Option<u128>,
    /// What it asks for, or why it is refused already.
    pub ask: Ask,
}

/// One event's command. A session is named by the position of its `Begin`. An `i64` is the moment of the
/// event, in nanoseconds of the caller's clock, and a `u32` is a worker.
#[derive(Drop)]
pub enum Command {
    /// A Modify call opens a session.
    Begin,
    /// The session asks for its parameters.
    SetParams(u64, AskedParams),
    /// The session announces an election id.
    Announce(u64, u128),
    /// The session asks for an operation.
    Operate(u64, Operation, i64),
    /// The session collects results of the forwarding table.
    Collect(u64),
    /// The session's Modify call is over.
    Leave(u64),
    /// A Flush call asks that the entries of some instances go.
    Flush(FlushBy, Which, i64),
    /// A Get call asks for entries.
    Select(Which, KindAsk),
    /// A worker asks for its next job.
    Take(u32, i64),
    /// A worker says what its device did with a job.
    Report(JobNumber, Verdict, i64),
    /// No more is to be taken on.
    Halt,
}

/// What a table is set up with.
#[derive(Clone, Copy, Debug, PartialEq, Eq)]
pub struct Config {
    /// How many network instances there are, 1 to 256: their numbers lie below this.
    pub instances: u16,
    /// How many workers there are, 1 to 16: their numbers lie below this.
    pub workers: u32,
    /// The most entries that the table takes, 1 to 1,000,000.
    pub limit: u64,
}
