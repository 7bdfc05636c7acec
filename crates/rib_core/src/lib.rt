//! The table of a gRIBI server as one machine over commands: those of its Modify, Flush and Get calls, those of the workers that
//! bring its entries into the forwarding table, and a Halt.
//!
//! It keeps no history: each part that it keeps is that of the history it stands for. Begin with `RibCore::new`, and call
//! `act` for each command. The contract is `specs/Stands`: after a call the core stands for the history with that event, so
//! that the reply is the one-thread server's of `table_model`'s `specs/Reply`.
//!
//! It is a `Machine` of table_lock, so that any number of passes can share it (`specs/Recorded`).
//!
//! An operation takes all memory that its entry will ever need before it changes anything. So a DELETE of a key that is
//! there, a Flush, the end of a session, a Take and a Report take none.
//!
//! ```ignore
//! let mut core = RibCore::new(alloc, config)?;
//! let Reply::Began(session) = core.act(Command::Begin) else { .. };
//! core.act(Command::SetParams(session, asked));
//! core.act(Command::Announce(session, 1)); // `Reply::Announced(1)`
//! core.act(Command::Operate(session, operation, now)); // `Reply::RibDone`, and a job waits
//! if let Reply::Given(job) = core.act(Command::Take(0, now)) {
//!     core.act(Command::Report(job.number, Verdict::Programmed, now)); // its result waits for a `Collect`
//! }
//! ```
#![tactic(auto)]

mod acknowledgements;
mod copies;
mod flushes;
mod laws;
mod locked;
mod machine;
mod operations;
mod reserve;
mod selection;
mod sessions;
mod tables;
mod workers;

pub use acknowledgements::{
    core_acknowledges_where_due, core_answers_each_job_once, core_fib_follows_reports,
};
pub use laws::{
    core_fib_is_table_without_faults, core_table_changes_by_these, core_tables_are_closed,
};
pub use machine::{OperateEnd, RibCore};
pub use table_model::{
    Command, Config, FlushBy, JobNumber, KindAsk, Operation, Reply, Verdict, Which,
};
