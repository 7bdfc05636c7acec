/// How many clients may write. The table takes a single primary alone.
#[derive(Clone, Copy, Debug, PartialEq, Eq)]
pub enum Redundancy {
    /// ALL_PRIMARY, which the table refuses.
    AllPrimary,
    /// SINGLE_PRIMARY.
    SinglePrimary,
}

/// What becomes of the entries when the primary's session ends.
#[derive(Clone, Copy, Debug, PartialEq, Eq)]
pub enum Persistence {
    /// DELETE: they go.
    Delete,
    /// PRESERVE: they stay.
    Preserve,
}

/// Whether a client wants the results of the forwarding table too.
#[derive(Clone, Copy, Debug, PartialEq, Eq)]
pub enum AckType {
    /// RIB_ACK.
    Rib,
    /// RIB_AND_FIB_ACK.
    RibAndFib,
}

/// The parameters of a session. Its redundancy is a single primary.
#[derive(Clone, Copy, Debug, PartialEq, Eq)]
pub struct Params {
    /// What becomes of the entries.
    pub persistence: Persistence,
    /// Which results are wanted.
    pub ack: AckType,
}

/// The parameters that a session asks for; none is a number that the numbering doesn't name.
#[derive(Clone, Copy, Debug, PartialEq, Eq)]
pub struct AskedParams {
    /// How many clients may write.
    pub redundancy: Option<Redundancy>,
    /// What becomes of the entries.
    pub persistence: Option<Persistence>,
    /// Which results are wanted.
    pub ack: Option<AckType>,
}
