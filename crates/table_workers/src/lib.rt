//! Workers beside the table: each brings its shard of the table into the forwarding table of a device.
//!
//! Begin with [`run_worker`], which works until a Halt stands and the shard has no job left; [`work_step`] is one step of
//! it, and [`run_workers`] runs several, each in a thread of its own. A worker calls the table through a pass of the lock,
//! and calls its device between those calls, so no device call holds the lock. `specs/Working` is the contract: what entries
//! a worker makes, and what its device holds then.
//!
//! ```ignore
//! let end = run_worker(rt, &lock, &mut pass, 0, &mut device, &mut clock);
//! // Halted: the device holds the worker's shard of the forwarding table, if it held it before.
//! ```
#![tactic(auto)]

mod run;
mod step;
mod threads;

pub use run::{WorkerEnd, run_worker};
pub use step::{Stepped, work_step};
pub use threads::{Worker, run_workers};
