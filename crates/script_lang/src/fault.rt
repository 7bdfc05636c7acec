use thiserror::Error;

/// Why a line of a script isn't read, in the order in which the causes are tested, want of memory apart.
#[derive(Clone, Copy, Debug, PartialEq, Eq, Error)]
pub enum ScriptFaultKind {
    /// The line holds the first byte past 1,048,576, or it is line 10,001.
    #[error("too-long")]
    TooLong,
    /// The line isn't UTF-8.
    #[error("not-utf8")]
    NotUtf8,
    /// The first word begins no row.
    #[error("unknown-word")]
    UnknownWord,
    /// The line has the form of no row.
    #[error("bad-shape")]
    BadShape,
    /// A number is past its limit: 128 bits in an election id, 64 bits elsewhere.
    #[error("bad-number")]
    BadNumber,
    /// The line begins a call, and so did an earlier one of the same name.
    #[error("name-taken")]
    NameTaken,
    /// The line names a call that no earlier line begins.
    #[error("unknown-call")]
    UnknownCall,
    /// There is no memory.
    #[error("no memory")]
    NoMemory,
}

/// A line that isn't read. The first line has number 1.
#[derive(Clone, Copy, Debug, PartialEq, Eq)]
pub struct ScriptFault {
    pub line: u32,
    pub kind: ScriptFaultKind,
}
