//! Tests of the program's `serve`, over links and devices in memory.
#![tactic(auto)]

#[cfg(test)]
mod client;
#[cfg(test)]
mod gated;
#[cfg(test)]
mod gated_acceptor;
#[cfg(test)]
mod gated_device;
#[cfg(test)]
mod gated_link;
#[cfg(test)]
mod gated_runs;
#[cfg(test)]
mod runs;
