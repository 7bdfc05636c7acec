//! Tests of what stands at the edges: the words of the command line, scripts, and jobs on devices.
#![tactic(auto)]

#[cfg(test)]
mod command_words;
#[cfg(test)]
mod devices;
#[cfg(test)]
mod scripts;
