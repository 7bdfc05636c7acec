//! The calls of gRPC on a connection, as the layers above use them. Feed a `CallConnection` what the peer sent,
//! and take `next` until it answers `NeedMore`; what `answer` and `end` take is sent by `pump`, and its bytes
//! stand in `out` until `drop_out`.
//!
//! The contract is specs/CallTrace (what calls were used for, and what holds of it), specs/NextEvent (what is
//! told next), specs/Sends (what `pump` sends), specs/Laws (what the frames spell) and specs/ClientReads (what a
//! client reads of a server's); `laws` proves the last two.
//!
//! ```text
//! calls.feed(piece)?;
//! if let CallEvent::Begun(stream, Method::Get) = calls.next(&numbering) {
//!     calls.answer(stream, message)?;
//! }
//! calls.pump()?;
//! ```
#![tactic(auto)]

mod calls;
mod event;
pub mod examples;
pub mod laws;

pub use calls::CallConnection;
pub use event::CallEvent;
