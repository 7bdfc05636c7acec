//! Tests of the program: runs over whole inputs, and the calls that they stand on.
#![tactic(auto)]

#[cfg(test)]
mod adapters;
#[cfg(test)]
mod apply_streams;
#[cfg(test)]
mod chunked_source;
#[cfg(test)]
mod devices;
#[cfg(test)]
mod fib_results;
#[cfg(test)]
mod long_run;
#[cfg(test)]
mod message_streams;
#[cfg(test)]
mod program_runs;
#[cfg(test)]
mod program_words;
#[cfg(test)]
mod session_answers;
#[cfg(test)]
mod session_orders;
