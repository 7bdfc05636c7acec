//! The edge over TCP sockets: what gives links, and the links. This is trusted: no contract can say what a socket gives or takes.
//! Each adapter meets its trait's contract (`rig_io`), tells no bytes, and counts each failure.
//!
//! Begin with [`TcpAcceptor`] for a server and [`TcpDialer`] for a client.
//!
//! ```ignore
//! let mut acceptor = TcpAcceptor::new(&rt, rt.alloc(), true);
//! if acceptor.listen("127.0.0.1:9340", 1) {
//!     if let Accepted::New(link) = acceptor.poll_accept() { .. }
//! }
//! ```
#![tactic(auto)]

mod acceptor;
mod client_link;
mod dialer;
mod link;
mod patience;
mod readiness;

pub use acceptor::TcpAcceptor;
pub use client_link::TcpClientLink;
pub use dialer::TcpDialer;
pub use link::TcpLink;
