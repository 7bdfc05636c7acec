//! The Huffman code of header strings (RFC 7541, section 5.2 and appendix B).
//!
//! Call [`huff_encode`] to add the code of a text, and [`huff_decode`], into reserved room, to add the text of a code.
//! The contract is `specs/Code.antt` (`IsHuffman`), and for refusals `specs/Faults.antt`.
//!
//! ```text
//! huff_encode(b"www.example.com", &mut code)?;
//! text.reserve(code.len() * 8 / 5)?;
//! huff_decode(code.as_slice(), &mut text)
//! ```
#![tactic(auto)]

mod bits;
mod decode;
mod encode;
mod find;
/// Laws over the code, each the contract of a function that does nothing.
pub mod laws;
mod tables;

pub use decode::{HuffFault, huff_decode};
pub use encode::huff_encode;
