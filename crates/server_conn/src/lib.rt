//! One connection served, turn by turn, over any calls of a connection.
//!
//! `ServerConn` meets `server_turns::ServedByTurns`. specs/Standing says how it stands for an account of its connection, specs/Steps
//! what each part of a turn comes to.
#![tactic(auto)]

mod checks;
mod collecting;
mod conn;
mod ending;
mod giving;
mod handling;
mod hearing;
mod reading;
mod responding;
mod served_by_turns_impl;
mod serving;
mod turn;
mod writing;

pub use conn::ServerConn;
pub use serving::{LIMITS, serve_link};
