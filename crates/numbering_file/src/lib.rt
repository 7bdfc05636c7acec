//! A numbering from a file: JSON that gives fields and enumerators other numbers than the default ones.
//!
//! Begin with [`read_numbering`]; `specs/File.antt` is its contract, and `specs/Names.antt` the names that a file may use.
//!
//! ```ignore
//! let numbering = read_numbering(alloc, br#"{"fields":{"ModifyRequest":{"election_id":9}}}"#)?;
//! ```
#![tactic(auto)]

mod names;
mod read;

pub use names::Enumeration;
pub use read::{NumberingFault, read_numbering};
