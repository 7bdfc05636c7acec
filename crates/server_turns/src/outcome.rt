use h2_exchange::CalmCause;
use h2_frames::ErrorCode;

/// Why a connection is dropped at the end of its input.
#[derive(Clone, Copy, Debug, PartialEq, Eq)]
pub enum DropCause {
    /// A call was open: neither ended by its client, nor reset, nor ended by a status.
    OpenCall,
    /// The input ended inside the preface, a frame or a header block.
    CutFrame,
    /// The windows that the client granted are smaller than the answers.
    NoWindow,
}

/// How a connection ended.
#[derive(Drop)]
pub enum Outcome {
    /// The input ended, no call is open, and every answer is written.
    Served,
    /// Reading failed.
    ReadFault,
    /// Writing failed.
    WriteFault,
    /// The input ended where it may not, or before the answers could be written.
    Dropped(DropCause),
    /// The client broke a rule of the connection: the code, and the place of the frame that broke it.
    Protocol(ErrorCode, u64),
    /// The client passed a counted limit.
    Calm(CalmCause),
    /// A command was answered that a Halt stands.
    Halted,
    /// A call under the lock was Spent: the lock serves no more.
    Spent,
    /// There was no memory for the connection.
    NoMemory,
}

/// What a turn of a connection came to.
#[derive(Drop)]
pub enum TurnEnd {
    /// It got on.
    Progress,
    /// Nothing was there to be done.
    Idle,
    /// The connection is over.
    Over(Outcome),
}
