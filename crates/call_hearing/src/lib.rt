//! What is heard of the calls on a connection: what the events given so far tell, and what is kept of a call of it.
//!
//! specs/Listening has the definitions, and specs/Laws what holds of them; `laws` proves it.
#![tactic(auto)]

pub mod laws;
mod pending;

pub use pending::Pending;
