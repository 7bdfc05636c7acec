use gribi_messages::{FlushRequest, GetRequest, ModifyRequest};

/// What a line asks of its call.
#[derive(Drop)]
pub enum LineAsk {
    /// To begin a Modify call.
    Modify,
    /// A message of a Modify call.
    Send(ModifyRequest),
    /// The end of the client's side.
    Finish,
    /// A reset.
    Reset,
    /// A whole Get call: its beginning, its message, and the end of the client's side.
    Get(GetRequest),
    /// A whole Flush call.
    Flush(FlushRequest),
    /// Nothing: a line that expects something.
    Nothing,
}
