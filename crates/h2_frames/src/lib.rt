//! The frames of HTTP/2 (RFC 9113, section 4): their layout, a reader that takes bytes in any pieces, and a writer.
//!
//! Call [`FrameReader::new`], `feed` with what came and `next` until it says `NeedMore`; [`write_frame`] adds the bytes of
//! a frame. The contract is `specs/Layout.antt` (`frame_text`) and `specs/Stream.antt` (`Frames`, `IsBroken`).
//!
//! ```text
//! let mut reader = FrameReader::new(alloc, true)?;
//! reader.feed(piece)?;
//! while let FrameNext::Frame(frame) = reader.next() { /* .. */ }
//! ```
#![tactic(auto)]

mod code;
mod frame;
mod header;
mod held;
/// Laws over frames, each the contract of a function that does nothing.
pub mod laws;
mod reader;
mod writer;

pub use code::ErrorCode;
pub use frame::{Frame, FrameBody, OtherType};
pub use reader::{FrameNext, FrameReader, PREFACE};
pub use writer::write_frame;
