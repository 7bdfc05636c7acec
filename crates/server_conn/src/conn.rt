//! A served connection, and why a turn is its last.
use grpc_stream::CallConnection;
use server_turns::Outcome;
use session_engine::SessionEngine;
use std::alloc::Global;

/// A server's end of a connection, over its calls.
#[derive(Drop)]
pub struct ServerConn<K: CallConnection> {
    pub(crate) alloc: Global,
    pub(crate) calls: K,
    pub(crate) engine: SessionEngine,
    // The end of the input was given.
    pub(crate) is_ended: bool,
    // How many bytes of answers no frame held behind the last pump.
    pub(crate) waiting: u64,
    // How many calls were ended for want of memory, at most 2^64 - 1.
    pub(crate) refused: u64,
    // A session may await results, or its client has ended its side.
    pub(crate) may_wait: bool,
    // How it is over.
    pub(crate) outcome: Option<Outcome>,
}

/// Much is written or waits.
pub(crate) const MUCH: u64 = 1_048_576;

/// A turn reads at most so many bytes.
pub(crate) const PIECE: usize = 16_384;

/// Why a turn is the last.
#[derive(Drop)]
pub(crate) enum Cause {
    /// The sessions that stayed have yet to leave.
    Ends(Outcome),
    /// The lock serves no more.
    Spent,
}
