//! Heads and trailers of gRPC calls over HTTP/2, and the status that ends a call. A server calls
//! `read_request_head` and writes `response_head` and `trailers`; a client writes `request_head` and calls
//! `read_trailers`.
//!
//! The contract is specs/Heads (what a head asks for, or its refusal), specs/Trailers (the status that trailers
//! say), specs/Written (the fields that are written) and specs/CallEnd (how a side of a call ends).
//!
//! ```text
//! match read_request_head(&fields) {
//!     HeadRead::Method(method) => begin(stream, method),
//!     HeadRead::Status(status) => send(stream, trailers(&numbering, &status)?),
//!     other => refuse(stream, other),
//! }
//! ```
#![tactic(auto)]

mod head;
mod laws;
mod reading;
mod status;
mod text;
mod written;

pub use head::{HeadRead, Method, read_request_head};
pub use laws::{request_heads_are_read_again, short_trailers_fit, trailers_are_read_again};
pub use reading::{TrailerFault, read_trailers};
pub use status::{ModifyReason, Status};
pub use text::Text;
pub use written::{request_head, response_head, trailers};
