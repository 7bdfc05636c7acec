//! Tests of the session engine over the whole table under a lock, through public calls.
#![tactic(auto)]

#[cfg(test)]
mod connection;
#[cfg(test)]
mod long_calls;
#[cfg(test)]
mod modify_calls;
#[cfg(test)]
mod refusals;
#[cfg(test)]
mod scripts;
#[cfg(test)]
mod single_calls;
