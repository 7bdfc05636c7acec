//! What a Flush leaves of the table, marked place by place, and the entries that a Get selects.
//!
//! Call `mark_flush` with marks that have room, or `select`. The contract of the first is `kept` and `remains` of
//! `table_model`'s `specs/Table`, over the marks of `specs/Marking`; that of the second is `selected` of its `specs/Reply`.
//!
//! ```ignore
//! let mut marks = Marks::new(alloc);
//! marks.reserve(store.len())?;
//! let remain = mark_flush(&store, Which::One(0), &mut marks); // the marked entries stay
//! let rows = select(alloc, &store, &fib, Which::All, KindAsk::All)?;
//! ```
#![tactic(auto)]

mod asked;
mod flush;
mod marks;
mod passes;
mod same;
mod selection;

pub use flush::mark_flush;
pub use marks::Marks;
pub use selection::select;
pub use table_model::{KindAsk, Which};
