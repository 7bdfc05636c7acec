use bytes::Bytes;
use grpc_heads::{Method, Status};
use h2_exchange::CalmCause;
use h2_frames::ErrorCode;

/// What the calls of a connection come to next.
#[derive(Drop)]
pub enum CallEvent {
    /// A client began a call.
    Begun(u32, Method),
    /// A whole message of a client.
    Request(u32, Bytes),
    /// A client ended its side of a call.
    Finished(u32),
    /// A call that had begun is over: its client reset it, it broke a rule, or it is refused. At a client:
    /// a message of the server is refused, and the call wants its reset.
    Dropped(u32),
    /// A whole message of a server.
    Answered(u32, Bytes),
    /// A call ended with this status. One without a status that can be read ends with 2 UNKNOWN.
    Closed(u32, Status),
    /// What was fed and not yet taken is less than a whole frame.
    NeedMore,
    /// The peer broke a rule of the connection: the code, and the place of the frame that broke it.
    /// From then on it is the answer.
    Refused(ErrorCode, u64),
    /// The peer passed a counted limit. From then on it is the answer.
    Calm(CalmCause),
    /// There was no memory. From then on it is the answer.
    NoMemory,
}
