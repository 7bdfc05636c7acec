//! Tests of what is read and written of HTTP/2 and gRPC, through public calls.
#![tactic(auto)]

#[cfg(test)]
mod call_heads;
#[cfg(test)]
mod call_trailers;
#[cfg(test)]
mod fields;
#[cfg(test)]
mod frames;
#[cfg(test)]
mod header_blocks;
#[cfg(test)]
mod huffman_strings;
#[cfg(test)]
mod messages;
#[cfg(test)]
mod streams;
