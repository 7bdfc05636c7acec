use h2_frames::ErrorCode;

/// What a received frame breaks (RFC 9113, section 5.4).
#[derive(Clone, Copy, Debug)]
pub enum StreamFault {
    /// The stream ends with this code, and the connection goes on.
    Stream(u32, ErrorCode),
    /// The connection ends with this code.
    Connection(ErrorCode),
}

/// Why nothing was sent.
#[derive(Clone, Copy, Debug, PartialEq, Eq)]
pub enum SendFault {
    /// The stream isn't open for sending.
    NotOpen,
    /// No stream id is left: the last one is 2,147,483,647.
    IdsSpent,
    /// The allocator had no memory.
    NoMemory,
}
