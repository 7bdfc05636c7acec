use crate::job::{Job, JobNumber};
use crate::params::Params;
use crate::results::Batch;
use aft_entries::{Reason, Rows};

/// What the table answers to a command.
#[derive(Drop)]
pub enum Reply {
    /// The session that was begun.
    Began(u64),
    /// The session's parameters are accepted.
    ParamsSet,
    /// They aren't those of a single primary, or have a number that isn't in the numbering.
    ParamsUnsupported,
    /// The session has set its parameters before.
    ParamsNotAllowed,
    /// The parameters of another live session, which are others.
    ParamsDiffer(Params),
    /// The session has no accepted parameters.
    NoParams,
    /// The highest election id, the one announced included.
    Announced(u128),
    /// The announced id is 0, which is no election id.
    ZeroId,
    /// The operation is done in the table.
    RibDone,
    /// Why the operation isn't done.
    RibFailed(Reason),
    /// Results, and how many more the session has to wait for or to collect.
    Collected(Batch, u64),
    /// The session is over.
    Left,
    /// Whether an entry of a named instance remains, since another instance needs it.
    Flushed(bool),
    /// The highest election id: the given one is less, or 0.
    FlushRefused(u128),
    /// The entries that were asked for, each with whether the forwarding table has it.
    Selected(Rows),
    /// The job that the worker is to do.
    Given(Job),
    /// The job can't be done, and is done as failed.
    Skipped(JobNumber),
    /// The worker has no job that it may do now.
    Idle,
    /// A Halt stands, and the worker has nothing left to do.
    HaltSeen,
    /// The report is taken down.
    Reported,
    /// The job that is reported isn't out.
    NotOut,
    /// From now on a Halt stands.
    HaltDone,
    /// A Halt stands.
    Stopped,
    /// The session isn't live.
    Gone,
    /// Memory ran out, and nothing changed.
    NoMemory,
}
