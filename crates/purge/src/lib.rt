//! Entries leave the table with no operation of a session, and jobs take them out of the forwarding table, all without
//! memory.
//!
//! Begin with `PurgeRoom::new`, and `reserve` as the table grows. Then call `purge`. Its contract is `chosen` of
//! `aft_store`'s `specs/Marked` for what stays, and `purge_tasks` and `purge_order` of `table_model`'s `specs/Jobs` for the
//! jobs.
//!
//! ```ignore
//! let mut room = PurgeRoom::new(alloc);
//! room.reserve(table.len())?;
//! mark_flush(&table, Which::One(0), &mut marks);
//! purge(&mut table, &mut board, &mut room, marks.as_slice(), position); // what is marked stays
//! purge(&mut table, &mut board, &mut room, &[], position + 1); // none stays
//! ```
#![tactic(auto)]

mod purging;
mod ranks;
mod removals;
mod room;

pub use purging::purge;
pub use room::PurgeRoom;
