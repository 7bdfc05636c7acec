//! Commands and replies of the table: what sessions, workers and operators ask of it, and what it answers.
//!
//! Begin with `Command` and `Reply`. `specs/` has what a history of them means: sessions, the election, the table of
//! entries, the jobs for the forwarding table, their results, and, in `specs/Reply`, the reply that is due to each command.
//! `specs/Legal` says which histories give each command that reply, and `specs/Laws` what such histories are worth.
//!
//! ```ignore
//! let command = Command::Announce(session, 5);
//! // Of a live session with parameters the reply is `Reply::Announced` of the highest id, this one included.
//! ```
#![tactic(auto)]

mod command;
mod job;
mod params;
mod reply;
mod results;

pub use command::{Command, Config, FlushBy, KindAsk, Operation, Which};
pub use job::{Job, JobNumber, NewJob, Verdict, Work};
pub use params::{AckType, AskedParams, Params, Persistence, Redundancy};
pub use reply::Reply;
pub use results::{Batch, FibResult};
