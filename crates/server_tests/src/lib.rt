//! Tests of a connection that is served to its end, over a link in memory and a table of its own.
#![tactic(auto)]

#[cfg(test)]
mod beside;
#[cfg(test)]
mod calls;
#[cfg(test)]
mod cut;
#[cfg(test)]
mod ends;
#[cfg(test)]
mod faults;
#[cfg(test)]
mod frames;
#[cfg(test)]
mod longest;
#[cfg(test)]
mod notes;
#[cfg(test)]
mod served;
#[cfg(test)]
mod turned;
