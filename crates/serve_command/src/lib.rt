//! The command `serve`: it listens, serves links over a table of its own, with workers beside it, until as many links as were asked
//! for were served, and prints the counts of the table that it closes.
//!
//! Call `serve`. Its contract is `specs/Served`, by the status: what the printed line tells is the closed history's, which is legal and
//! has the calls of each link's pass and of each worker's; each link was served as `server_turns` promises.
#![tactic(auto)]

mod connections;
mod line;
mod running;
mod table;

pub use running::{Order, serve};
