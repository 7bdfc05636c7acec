//! The only worker of a table that one thread runs, and a session that collects behind it.
//!
//! Call `work_until_idle`: the worker takes its jobs, has a device do each, and reports it, until there is none. `specs/Turns` says
//! which events that adds to a history, and which a session adds that collects behind it until nothing is outstanding; `specs/Works`
//! what becomes of the table and the device. `work_is_complete` says that no job is left then, and `collects_are_complete` that
//! nothing is owed behind the Collects.
//!
//! ```ignore
//! if work_until_idle(&mut core, &mut device, now) {
//!     let first = core.act(Command::Collect(session)); // the results of the jobs that are done
//! }
//! ```
#![tactic(auto)]

mod ask;
mod laws;
mod turning;
mod until_idle;

pub use ask::Asked;
pub use laws::{collects_are_complete, work_is_complete};
pub use turning::turn;
pub use until_idle::work_until_idle;
