//! A connection of HTTP/2 as the layers above use it: what it gives of the bytes that it is fed, and what it sends.
//!
//! [`HttpConnection`] is the trait that a connection meets: `feed` it what came, ask `next_event` until it says
//! `NeedMore`, send by `begin`, `send_head`, `send_piece`, `send_trailers` and `reset`, and pass on what `out` shows.
//! The contract is `specs/ConnectionTrace.antt`, what it was used for, and `specs/Answers.antt`, what it says next.
//!
//! ```text
//! connection.feed(piece)?;
//! let H2Event::NeedMore = connection.next_event() else { /* it refused */ };
//! write_all(connection.out());
//! ```
#![tactic(auto)]

mod connection;
mod draining;
mod event;

pub use connection::HttpConnection;
pub use draining::drain;
pub use event::H2Event;
