//! The streams of a connection and their windows (RFC 9113, sections 5 and 6.9), as received and sent frames leave them.
//!
//! Call [`StreamSet::new`], `on_frame` (or `on_frame_seen`) for each frame that is received, and for what is sent `begin`,
//! `sent`, `finish` and `reset`. The contract is `specs/Set.antt` with `specs/Receiving.antt`, and `specs/Stands.antt`: what
//! the set says of an exchange.
//!
//! ```text
//! let mut set = StreamSet::new(alloc, Role::Server, limits)?;
//! match set.on_frame(&frame) {
//!     Ok(()) => { /* `set.may_send(stream)` bytes may be sent */ }
//!     Err(StreamFault::Stream(stream, code)) => { /* send RST_STREAM */ }
//!     Err(StreamFault::Connection(code)) => { /* send GOAWAY */ }
//! }
//! ```
#![tactic(auto)]

/// Laws over sent frames and malformed blocks, each the contract of a function that does nothing.
pub mod laws;
mod live;
pub mod numbered;
mod rules;
mod set;
mod settings;

pub use h2_exchange::{H2Limits, Role, SendFault, StreamFault};
pub use set::StreamSet;
pub use set::receive::SeenStream;
