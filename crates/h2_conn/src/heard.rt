use bytes::Bytes;
use h2_exchange::CalmCause;
use h2_frames::ErrorCode;
use hpack_tables::Fields;

/// Why a connection ends.
#[derive(Clone, Copy, Debug)]
pub enum End {
    Broken(ErrorCode, u64),
    Calm(CalmCause),
}

/// What a frame gives, but for its data.
#[derive(Drop)]
pub enum Took {
    Quiet,
    /// Its data are a piece of this stream.
    Data(u32),
    Head(u32, Fields, bool),
    Ended(u32),
    Reset(u32, ErrorCode),
    GoneAway(u32, ErrorCode),
    /// The connection ends; the peer's last stream before the frame.
    Stopped(End, u32),
    NoMemory,
}

/// What is read next.
#[derive(Drop)]
pub enum Heard {
    Quiet,
    NeedMore,
    Piece(u32, Bytes),
    Head(u32, Fields, bool),
    Ended(u32),
    Reset(u32, ErrorCode),
    GoneAway(u32, ErrorCode),
    Stopped(End, u32),
    NoMemory,
}
