use crate::lists::RawOperations;

/// Session parameters, as their numbers on the wire.
#[derive(Clone, Copy, Debug, PartialEq, Eq)]
pub struct RawParams {
    pub redundancy: u64,
    pub persistence: u64,
    pub ack: u64,
}

/// A request of a Modify call, as it is read.
#[derive(Drop)]
pub struct ModifyRequest {
    pub operations: RawOperations,
    pub params: Option<RawParams>,
    pub election: Option<u128>,
}
