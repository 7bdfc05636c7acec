//! What calls tell where their connection gives an event: the relation between calls and what they were used for, carried over
//! the frames that the connection received and answered, and over the event itself.
//!
//! specs/Giving has the definitions, and specs/Laws what holds; `laws` proves it. The lemmas of proofs/ carry the relation
//! through each kind of event.
#![tactic(auto)]

pub mod laws;
