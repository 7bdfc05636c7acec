//! A connection of HTTP/2 (RFC 9113): frames, header blocks, streams and windows put together.
//!
//! Call [`H2Conn::new`], and then what the trait `http_connection::HttpConnection` says, which is the contract; `specs/Standing.antt`
//! says how a connection stands for what was received and sent.
//!
//! ```text
//! let mut conn = H2Conn::new(alloc, Role::Server, limits)?;
//! conn.feed(bytes)?;
//! match conn.next_event() {
//!     H2Event::Head(stream, fields, last) => { /* a request begins */ }
//!     H2Event::NeedMore => { /* send `conn.out()`, and feed more */ }
//!     ..
//! }
//! ```
#![tactic(auto)]

mod asked;
mod blocks;
mod conn;
mod heard;
mod sizes;
mod texts;
mod watch;

pub use conn::H2Conn;
