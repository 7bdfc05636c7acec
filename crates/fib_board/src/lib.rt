//! The jobs of the forwarding table that aren't done, the table that the programmed ones leave, and the results that
//! sessions haven't collected.
//!
//! Of two jobs in conflict, as on one key, the later one waits for the earlier. A worker that asks is given the least
//! job of its keys that needn't wait. All memory that a job needs is taken before it is added.
//!
//! Begin with `Board::new`, and `reserve` before each job. `specs/Steps` says what each call does, and `specs/Follows`
//! that a board which stands for a history still does after each of its events.
//!
//! ```ignore
//! let mut board = Board::new(alloc, 1)?;
//! board.reserve(cost)?;
//! board.add_reserved(BoxedJob::new(alloc, made)?);
//! if let Given::Work(job) = board.take(0, now) {
//!     board.report(job.number, Verdict::Programmed, now); // its effect is in `board.fib()`, its result is due
//! }
//! ```
#![tactic(auto)]

mod board;
mod boxed;
mod due;
mod ends;
mod jobs;
mod laws;
mod pending_job;
mod place;

pub use board::{Board, Given};
pub use boxed::{BoxedJob, BoxedWork};
pub use laws::board_follows_history;
pub use table_model::{Batch, FibResult, Job, JobNumber, NewJob, Verdict, Work};
