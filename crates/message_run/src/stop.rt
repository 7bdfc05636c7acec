ghost use Rattle.std.specs.Prelude.{◌≡◌, is_some};
ghost use Rattle.message_run.specs.Reading.{close_of};

/// What ends a run.
#[derive(Clone, Copy, Debug, PartialEq, Eq)]
pub enum Stop {
    /// The input is over, and all of it was read and answered.
    Finished,
    /// A reply ended the stream, with this status number of gRPC.
    Refused(u8),
    /// The input can't be read at this place. It may pass 64 bits, since a message's place may be any number.
    Unreadable(u128),
    /// Reading failed.
    ReadFault,
    /// Writing failed.
    WriteFault,
    /// There was no memory.
    NoMemory,
}

impl Stop {
    /// Whether the run closes: then the server leaves.
    pub fn closes(self) -> bool
        ensures { result ≡ is_some (close_of self) }
    {
        match self {
            Stop::Finished => true,
            Stop::Refused(_) => true,
            Stop::Unreadable(_) => true,
            Stop::ReadFault => false,
            Stop::WriteFault => false,
            Stop::NoMemory => false,
        }
    }
}
