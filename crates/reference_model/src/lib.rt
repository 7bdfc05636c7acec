//! The definitions of the table as a program: plain and slow, over lists, for tests and for reading. Every function
//! computes one definition of a history, and its contract says that it does.
//!
//! Begin with `run_commands`, or `reply_of` for one more command. The contract is `reply_to` of `table_model`'s
//! `specs/Reply`.
//!
//! ```ignore
//! let history = run_commands(alloc, config, commands)?; // the newest event first
//! let reply = reply_of(alloc, config, history.as_slice(), &Command::Halt)?; // `Reply::HaltDone`
//! ```
#![tactic(auto)]

mod board;
mod chains;
mod election;
mod entries;
mod event;
mod flush;
mod modify;
mod refusal;
mod reply;
mod results;
mod rib;
mod same;
mod server_history;
mod sessions;
mod shapes;
mod tasks;

pub use event::Event;
pub use reply::reply_of;
pub use server_history::{History, run_commands};
