//! The cut of a stream of bytes into gRPC messages (gRPC over HTTP/2, "Length-Prefixed-Message"). Make a
//! `MessageCutter`, `feed` it the bytes of a stream in any pieces, and take `next` until it answers `NeedMore`.
//!
//! The contract is specs/Framing (the messages of a stream of bytes) and specs/NextMessage (what a cutter gives of
//! what it holds); the laws say that a cut is the only one, and the same however the bytes come.
//!
//! ```text
//! let mut cutter = MessageCutter::new(alloc, 4194304);
//! cutter.feed(piece)?;
//! while let Cut::Message(message) = cutter.next() {
//!     take(message)?;
//! }
//! ```
#![tactic(auto)]

mod cutter;
mod front;
mod laws;

pub use cutter::{Cut, MessageCutter, Refusal};
pub use front::{Front, front_of};
pub use laws::{
    cut_goes_on, cut_is_the_only_one, cut_is_whole, front_stays, written_messages_are_cut,
};
