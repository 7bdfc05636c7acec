//! The fields of a Protocol Buffers message, read and written.
//!
//! Begin with [`FieldReader`]; `specs/Fields` is its contract, `specs/Wire` one field, and `specs/Written` what the
//! writers append.
//!
//! ```
//! let mut reader = FieldReader::new(message);
//! while let Next::Field(field) = reader.next() { .. }
//! ```
#![tactic(auto)]

mod laws;
mod reader;
mod writer;

pub use laws::{
    field_is_read_again, message_is_read_again, varint_is_read_again, varint_is_shortest,
};
pub use reader::{Field, FieldReader, Next, WireFault, WireValue};
pub use writer::{roll_back, write_bytes, write_uint, write_varint};
