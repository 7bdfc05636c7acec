//! What is still to be told of an event.

/// What the last event still tells.
#[derive(Clone, Copy, Debug)]
pub enum Pending {
    /// Nothing.
    Nothing,
    /// The messages that a call's bytes hold.
    Cut(u32),
    /// The end of a client's side, behind its head.
    End(u32),
}
