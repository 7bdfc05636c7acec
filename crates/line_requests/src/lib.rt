//! What a line of a script asks of its call: to begin, a message, the end of the client's side, or a reset.
//!
//! Begin with [`read_ask`]; `specs/Asks` is its contract, `specs/Entries` the entry that an operation's line sends.
//!
//! ```text
//! match read_ask(alloc, &numbering, last_election, &line)? { LineAsk::Send(request) => .., .. }
//! ```
#![tactic(auto)]

mod ask;
mod entry;
mod lists;
mod number;
mod operation;
mod read;
mod words;

pub use ask::LineAsk;
pub use read::read_ask;
