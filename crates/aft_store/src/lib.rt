//! A table of entries of the forwarding tables, in key order, each found by a search by halves. What refers to a key is
//! found by a scan.
//!
//! Begin with `Store::new`, and `reserve` before an entry is put. The contract is `lookup`, `put` and `take_out` of
//! `table_model`'s `specs/Table`, over the list of entries of `specs/StoreState`.
//!
//! ```ignore
//! let mut store = Store::new(alloc);
//! store.reserve(1)?;
//! let displaced = store.put_reserved(entry); // none: the table was empty
//! ```
#![tactic(auto)]

mod boxes;
mod parting;
mod place;
mod scan;
mod store;

pub use boxes::{fill_box, spare_box};
pub use parting::has_mark;
pub use scan::{has, is_used, resolves};
pub use store::Store;
