//! What it means to serve a connection, turn by turn: the promise that each turn keeps, and the run of turns to the end.
//!
//! specs/Serving says how an account of a connection (its frames, and what was done for its calls) agrees with the bytes of its
//! link and with the history of the table; specs/Turning what one turn does; specs/Making what becomes of the pass.
//! `ServedByTurns` is the contract of a connection, and `serve_turns` serves one to its end.
//!
//! ```text
//! let outcome = serve_turns(&runtime, connection, &lock, &mut pass, &mut link, &setting, &mut clock);
//! ```
#![tactic(auto)]

mod outcome;
mod turns;

pub use outcome::{DropCause, Outcome, TurnEnd};
pub use turns::{ServedByTurns, serve_turns};
