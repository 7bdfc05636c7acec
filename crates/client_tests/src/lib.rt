//! Tests of the client of compliance scripts: its bytes are served by a server in memory, and its lines judged by what that answers.
#![tactic(auto)]

#[cfg(test)]
mod judged;
#[cfg(test)]
mod served;
