//! What a worker has a device do for the forwarding table.
//!
//! Begin with [`do_job`], which does one job's work on a device. `specs/Doing` is its contract: what the device holds
//! afterwards, by look-up. `specs/Shards` says what a device holds for a worker, and [`job_keeps_shard`] that it holds
//! that again once the job is reported.
//!
//! ```ignore
//! let verdict = do_job(&mut device, &job);
//! // Programmed: under each key the device has what `effect` of the job's work has there. DeviceFault: it has what it had.
//! ```
#![tactic(auto)]

mod job;
mod laws;

pub use aft_entries::Device;
pub use job::do_job;
pub use laws::{
    empty_holds_shard, job_keeps_shard, only_worker_holds_all, others_keep_shard, takes_keep_shard,
};
pub use table_model::{Job, Verdict, Work};
