//! What is sent of the calls on a connection: `pump_calls` sends what the windows allow, call by call in turns, and
//! `waiting_bytes` counts what no frame holds yet.
//!
//! specs/Pumping says exactly what is sent, specs/Spelling what the frames of a stream spell of what was taken for it, and
//! specs/Moves what frames of one stream add. [`turns_spell`], [`turns_end`], [`others_spell_on`] and [`taken_is_kept`] are
//! the laws that tie them together.
#![tactic(auto)]

mod laws;
mod pumping;
mod waiting;

pub use laws::{blocks_move, others_spell_on, taken_is_kept, turns_end, turns_spell};
pub use pumping::pump_calls;
pub use waiting::waiting_bytes;
