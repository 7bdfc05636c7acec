//! How often each next hop and each group is referred to, so that no question of a reference scans the table.
//!
//! `specs/Counting` says what a count is. Places are reserved first, so that counting takes no memory.
//!
//! ```ignore
//! counts.reserve(references)?;
//! counts.add(&entry);
//! if counts.count(&key) == 0 { .. }
//! ```
#![tactic(auto)]

mod counts;
mod places;

pub use counts::RefCounts;
