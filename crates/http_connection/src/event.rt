use bytes::Bytes;
use h2_exchange::CalmCause;
use h2_frames::ErrorCode;
use hpack_tables::Fields;

/// What a connection says next.
#[derive(Drop)]
pub enum H2Event {
    /// The head of a stream, or a response's trailers, and whether the peer's side ends with it.
    Head(u32, Fields, bool),
    /// Data of a stream, without padding.
    Piece(u32, Bytes),
    /// The peer's side of a stream ended.
    Ended(u32),
    /// A stream is over: its peer reset it, or this side did for a stream error of the peer's.
    Reset(u32, ErrorCode),
    /// The peer begins no more streams; the last one that it acted on, and why.
    GoneAway(u32, ErrorCode),
    /// What was fed and not yet taken is less than a whole frame.
    NeedMore,
    /// The peer broke a rule of the connection: the code, and the place of the frame that broke it.
    /// From then on it is the answer.
    Refused(ErrorCode, u64),
    /// The peer passed a counted limit. From then on it is the answer.
    Calm(CalmCause),
    /// There was no memory. From then on it is the answer.
    NoMemory,
}
