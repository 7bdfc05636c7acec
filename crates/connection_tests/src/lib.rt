//! Tests of a connection of HTTP/2 through its public calls.
#![tactic(auto)]

#[cfg(test)]
mod broken_rules;
#[cfg(test)]
mod fields;
#[cfg(test)]
mod first_frames;
#[cfg(test)]
mod header_cuts;
#[cfg(test)]
mod windows;
