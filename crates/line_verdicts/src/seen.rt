use grpc_heads::ModifyReason;

/// How a call ended: its status code, and the reason where the status of a Modify call carries one.
#[derive(Clone, Copy, Debug, PartialEq, Eq)]
pub struct SeenEnd {
    /// 0 for OK to 16 for UNAUTHENTICATED.
    pub code: u8,
    pub reason: Option<ModifyReason>,
}

/// What an expect line can name. Contracts see it as the words that stand behind the call's name, by `seen_words` of `specs/Seen`.
#[derive(Clone, Copy, Debug, PartialEq, Eq)]
pub enum Seen {
    /// Session parameters were accepted.
    ParamsOk,
    /// An announcement was answered with this election id.
    Elected(u128),
    /// The operation of this id is in the RIB.
    RibProgrammed(u64),
    /// The operation of this id is in the FIB.
    FibProgrammed(u64),
    /// The operation of this id failed, for this reason.
    Failed(u64, u64),
    /// The operation of this id failed in the FIB, for this reason.
    FibFailed(u64, u64),
    /// An ended call gave so many entries.
    Entries(u64),
    /// A Flush left no entry of the instances that it named.
    FlushedOk,
    /// A Flush left some.
    FlushedRemain,
    /// The call ended.
    End(SeenEnd),
}

/// The verdict of an expect line.
#[derive(Clone, Copy, Debug, PartialEq, Eq)]
pub enum Judged {
    Pass,
    /// What stands there in place of what was expected.
    Fail(Seen),
    /// Nothing came that decides.
    Unanswered,
}
