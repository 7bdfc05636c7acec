//! How an account of a server's connection goes on: with what its link tells, with what its calls tell and take, and with what is
//! done for them.
//!
//! There is nothing to run here. specs/Agreeing says how the parts of a connection agree with an account of it; `laws` says what
//! follows, first of all that a connection whose parts agree with an account keeps the promise of `server_turns` to its client.
#![tactic(auto)]

pub mod laws;
