//! The schema of gRIBI's messages over a numbering, the first fault of a message, and what a message says.
//!
//! Begin with [`first_fault`], whose contract is `specs/Legal`; where it finds none, [`number_at`], [`text_at`],
//! [`message_at`] and [`oneof_at`] read the fields (`specs/FieldValues`).
//!
//! ```
//! match first_fault(&numbering, MessageKind::ModifyRequest, bytes) { None => .., Some(fault) => .. }
//! ```
#![tactic(auto)]

mod field_values;
mod legal;
mod merged_bytes;
mod schema;

pub use field_values::{
    OneofMember, last_number_at, member_of, merge_bytes, merge_oneof, message_at, number_at,
    number_of, oneof_at, piece_of, text_at,
};
pub use legal::{MessageFault, depth_is_enough, first_fault};
pub use merged_bytes::MergedBytes;
pub use schema::{FieldKind, MessageKind, field_kind};
