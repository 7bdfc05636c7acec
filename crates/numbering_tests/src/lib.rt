//! Tests of numbering files.
#![tactic(auto)]

#[cfg(test)]
mod files;
