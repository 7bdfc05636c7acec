//! Tests of the serving of links in memory, each by a connection of its own, with workers in threads beside it.
#![tactic(auto)]

#[cfg(test)]
mod clients;
#[cfg(test)]
mod connections;
#[cfg(test)]
mod runs;
#[cfg(test)]
mod served;
