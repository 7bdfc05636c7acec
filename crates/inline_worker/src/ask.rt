//! What the worker is told that asks for a job.
use table_model::Job;

/// What the worker is told that asks for a job.
#[derive(Drop)]
pub enum Asked {
    /// The job that it is to do.
    Work(Job),
    /// A job that can't be done was passed over.
    Passed,
    /// There is none that it may do.
    Nothing,
}
