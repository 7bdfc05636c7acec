//! What an AFT operation is refused for, and what it does to the table (gRIBI, AFTOperation).
//!
//! References, and the chains of backups of groups, are found by scans of the table. Call `judge` first, and `perform`
//! where it answers none. The contract is `refusal` and `performed` of `table_model`'s `specs/Table`.
//!
//! ```ignore
//! if judge(&store, instances, limit, &ask).is_none() {
//!     store.reserve(1)?;
//!     let displaced = perform(&mut store, ask);
//! }
//! ```
#![tactic(auto)]

mod backups;
mod check;
mod operate;

pub use backups::depth;
pub use operate::{judge, perform};
