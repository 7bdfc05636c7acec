//! Tests of the adapters over sockets, on the loopback addresses of this machine.
#![tactic(auto)]

#[cfg(test)]
mod sockets;
