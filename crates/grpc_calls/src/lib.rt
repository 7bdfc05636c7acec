//! The calls of gRPC on any connection of HTTP/2, of either role. Make a [`Calls`] of a connection that nothing was
//! used for yet, and use it as the trait `CallConnection` of grpc_stream says.
//!
//! The contract is that trait's. specs/Object says how an object stands for what its calls were used for, by call_standing's
//! specs/Standing, and specs/Refusing how a call is refused.
//!
//! ```text
//! let mut calls = Calls::new(alloc, Role::Server, connection);
//! calls.feed(piece)?;
//! if let CallEvent::Begun(stream, Method::Get) = calls.next(&numbering) {
//!     calls.answer(stream, message)?;
//! }
//! calls.pump()?;
//! ```
#![tactic(auto)]

mod calls;

pub use calls::Calls;
