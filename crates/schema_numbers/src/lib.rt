//! The numbers of gRIBI's fields and enumerators on the wire.
//!
//! Begin with [`default_numbering`], whose table is `specs/Default`; `specs/Valid` has the rules that a [`Numbering`]
//! keeps by its type.
//!
//! ```
//! let number = default_numbering(alloc)?.field(FieldName::AftOperationId);
//! ```
#![tactic(auto)]

mod checked;
mod draft;
mod names;
mod numbering;

pub use draft::NumberingDraft;
pub use names::{FieldName, ValueName};
pub use numbering::{Numbering, default_numbering};
