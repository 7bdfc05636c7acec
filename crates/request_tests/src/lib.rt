//! Tests of what a Get and a Flush ask for, of their refusals, and of the messages that answer them.
#![tactic(auto)]

#[cfg(test)]
mod asks;
#[cfg(test)]
mod responses;
