use aft_entries::Name;

/// Which instances a Get or a Flush asks for: all of them, or one by its name.
#[derive(Drop)]
pub enum InstanceAsk {
    All,
    Named(Name),
}

/// Under which election id a Flush is asked for, or whatever the election says.
#[derive(Clone, Copy, Debug, PartialEq, Eq)]
pub enum FlushAsk {
    Id(u128),
    Override,
}

/// A request of a Get call, as it is read. `aft` is the number on the wire of the kinds that are asked for.
#[derive(Drop)]
pub struct GetRequest {
    pub instance: Option<InstanceAsk>,
    pub aft: u64,
}

/// A request of a Flush call, as it is read.
#[derive(Drop)]
pub struct FlushRequest {
    pub election: Option<FlushAsk>,
    pub instance: Option<InstanceAsk>,
}

/// The answer of a Flush call: its moment in nanoseconds, and the result as its number on the wire.
#[derive(Clone, Copy, Debug, PartialEq, Eq)]
pub struct FlushResponse {
    pub timestamp: i64,
    pub result: u64,
}
