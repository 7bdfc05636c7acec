//! How the calls of a connection stand for what they were used for: what is kept of each call agrees with the frames, with what was
//! taken to be sent and with what was told.
//!
//! specs/Standing is the relation (`StandsFor`, by the fate of the calls; `Holds`, stream by stream), specs/Steps what one step of
//! hearing comes to. `laws` says what follows; the lemmas of proofs/ carry the relation through each use of calls.
#![tactic(auto)]

mod fate;
pub mod laws;
mod written;

pub use fate::{Fate, first, shifted};
pub use written::statuses_are_written;
