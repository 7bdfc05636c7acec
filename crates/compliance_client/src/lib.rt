//! The client of the compliance script: its calls on one connection, turn by turn, and the verdicts of its lines.
//!
//! [`ClientConn`] stands over any calls of a connection. `specs/Deeds` says what a script's lines and the server's answers make of the
//! calls, `specs/Asks` what the lines ask on the streams, and `specs/Standing` how a client stands for them.
//!
//! ```text
//! client.send(&numbering, &line)?;
//! match client.turn(&numbering, &mut link) { ClientTurn::Over(why) => .., .. }
//! match client.judge_line(&expected) { Some(Judged::Pass) => .., None => wait(), .. }
//! ```
#![tactic(auto)]

mod conn;
mod hearing;
mod judging;
mod kept;
pub mod laws;
mod message;
mod over;
mod reading;
mod sending;
mod turn;
mod writing;

pub use conn::ClientConn;
pub use over::{ClientOver, ClientTurn};
