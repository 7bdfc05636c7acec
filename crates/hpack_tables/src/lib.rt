//! Header blocks of HPACK (RFC 7541), both ways.
//!
//! Call [`HeaderDecoder::new`] and then `block` for each block that is received; [`HeaderEncoder::new`] and then `block`
//! for each one that is sent, or `draft` and `keep` where sending can still fail. The contract is `specs/Reading.antt`
//! (`BlockAt`) and `specs/Writing.antt` (`Writes`); that the one reads what the other writes is a law of [`laws`].
//!
//! ```text
//! let mut decoder = HeaderDecoder::new(alloc, 4096)?;
//! let fields = decoder.block(&[0x82, 0x86])?; // `:method` GET, `:scheme` http
//! ```
#![tactic(auto)]

mod block;
mod decoder;
mod encoder;
mod fault;
mod field;
mod fields;
mod integer;
/// Laws over what is read and written, each the contract of a function that does nothing.
pub mod laws;
mod room;
mod static_table;
mod string;
mod table;

pub use decoder::HeaderDecoder;
pub use encoder::{EncodedBlock, HeaderEncoder, Style, block_room};
pub use fault::HpackFault;
pub use field::Field;
pub use field::malformed::{is_malformed_request, is_malformed_response, is_malformed_trailers};
pub use fields::Fields;
