//! The messages of gRIBI's entries, read from bytes and written as bytes, over a numbering.
//!
//! Begin with [`decode_entry`] and [`encode_entry`]; `specs/Reading` is what bytes say, `specs/Writing` how an entry is
//! spelled.
//!
//! ```
//! let entry = decode_entry(alloc, &numbering, bytes, Kind::Hop)?;
//! ```
#![tactic(auto)]

mod field_values;
mod fields;
mod index_only;
mod laws;
mod print;
mod read;
mod sizes;
mod write;

pub use field_values::{embedded_at, read_text, string_value_at, text_in, uint_value_at};
pub use fields::{
    write_label, write_length_delimited, write_length_prefix, write_nonempty_text,
    write_nonzero_uint, write_string_value, write_two_uints, write_uint_value,
};
pub use index_only::index_only_hop_index;
pub use laws::entry_is_read_again;
pub use print::encode_entry;
pub use proto_schema::MessageFault;
pub use read::{decode_entry, read_entry};
pub use sizes::nonzero_uint_size;
pub use write::encode_raw_entry;
