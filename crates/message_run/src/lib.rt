//! A run over a stream of length-prefixed messages: each whole message is handed to a server, what it answers is written, and a
//! last item tells what ended the run.
//!
//! Implement `MessageHandler` for the server, and call `run` first. Its contract is in `specs/Runs.antt`: what was written for the
//! bytes taken, and which status comes when. `specs/Behaviour.antt` says what a handler has to tell of each message, and
//! `specs/Outcomes.antt` what a whole input comes to.
//!
//! ```ignore
//! let mut input = MemSource::new(bytes, Vec::new(alloc));
//! let mut output = MemSink::new(alloc, Vec::new(alloc));
//! let status = run(alloc, &mut server, &mut input, &mut output);
//! // 0: all of the input was read, and `output.bytes()` are the answers.
//! ```
#![tactic(auto)]

mod feed;
mod item;
mod message_handler;
mod piece;
mod put;
mod stop;
mod stream;

pub use item::append_item;
pub use message_handler::{Handled, MessageHandler};
pub use put::write_all;
pub use stream::run;
