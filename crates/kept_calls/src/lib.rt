//! What is kept of a gRPC call while its stream lives: whether its peer is still listened to, the bytes that hold no
//! whole message yet, the framed messages that no DATA holds yet, and how this side ends.
//!
//! specs/CallState says what contracts see of it.
//!
//! ```text
//! let mut call = Call::new(alloc, stream, Receiving::Open, false);
//! call.push(message.as_slice())?;
//! call.close(Ending::Trailers, last_fields(alloc, &numbering, &status, false)?);
//! ```
#![tactic(auto)]

mod call;
mod fields;
mod table;

pub use call::{Call, Ending, MESSAGE_LIMIT, Receiving};
pub use fields::{http_fields, last_fields};
pub use table::{add_call, find_call};
