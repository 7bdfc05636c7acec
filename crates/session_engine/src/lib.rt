//! What the calls of one connection order of a table under a lock, and what they are answered.
//!
//! Begin with [`SessionEngine::new`]. Each call of the engine is one action of `call_orders` for the call on a stream:
//! `specs/Stands.antt` says what it adds (`DoesAction`), and `call_orders` what actions are right and what streams are owed. What that
//! means over all that was done is a law (`specs/Laws.antt`).
//!
//! ```ignore
//! let mut engine = SessionEngine::new(alloc);
//! let step = engine.begin(rt, &lock, &mut pass, stream, Method::Modify)?;
//! let step = engine.request(rt, &lock, &mut pass, &setting, stream, message, &mut clock)?;
//! ```
#![tactic(auto)]

mod closing;
mod commands;
mod endings;
mod engine;
mod known_rows;
mod laws;
mod open_calls;
mod queries;
mod singles;
mod step;

pub use engine::SessionEngine;
pub use known_rows::KnownRows;
pub use laws::{actions_follow, begins_follow, spent_follows};
pub use open_calls::OpenCall;
pub use step::{EngineFault, Messages, Step};
