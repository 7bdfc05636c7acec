//! Tests of workers beside the table, over its lock.
#![tactic(auto)]

#[cfg(test)]
mod threads;
#[cfg(test)]
mod workers;
