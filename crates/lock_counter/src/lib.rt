//! A counter under a lock, which threads add to: what a lock's contract is worth to a caller.
//!
//! Begin with `count_in_two`. `specs/Totals.antt` says what a counter's history is.
//!
//! ```text
//! let total = count_in_two(rt, alloc, 100, &[1, 2], &[3])?;    // Some(106), whatever the schedule
//! ```
#![tactic(auto)]

mod counter;
mod threads;

pub use counter::Counter;
pub use threads::{add, add_all, add_all_after, call_twice, count_in_two};

#[cfg(test)]
mod tests;
