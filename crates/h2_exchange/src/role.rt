/// Which side of a connection this is (RFC 9113, section 2.2).
#[derive(Clone, Copy, Debug, PartialEq, Eq)]
pub enum Role {
    /// The side that begins streams.
    Client,
    /// The side that answers on them.
    Server,
}
