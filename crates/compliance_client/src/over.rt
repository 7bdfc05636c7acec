use h2_exchange::CalmCause;
use h2_frames::ErrorCode;

/// How a client's connection ended.
#[derive(Clone, Copy, Debug)]
pub enum ClientOver {
    /// Reading failed.
    ReadFault,
    /// Writing failed.
    WriteFault,
    /// The server has ended its bytes.
    Ended,
    /// The server broke a rule of the connection: the code, and the place of the frame that broke it.
    Protocol(ErrorCode, u64),
    /// The server passed a counted limit.
    Calm(CalmCause),
    /// There was no memory.
    NoMemory,
}

/// What a turn of a client's connection came to.
#[derive(Clone, Copy, Debug)]
pub enum ClientTurn {
    /// A byte was got or placed.
    Progress,
    /// Nothing was there to be done.
    Idle,
    /// The connection is over.
    Over(ClientOver),
}
