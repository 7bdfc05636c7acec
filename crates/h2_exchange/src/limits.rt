ghost use Rattle.std.specs.Prelude.{◌<◌, ◌≤◌, ◌^◌};

/// What a side allows its peer.
#[derive(Clone, Copy, Debug)]
pub struct H2Limits {
    /// The most streams that are live at once.
    pub streams: u32,
    /// How many bytes a stream, and how many all streams together, may receive before some are credited.
    pub window: u32,
    /// The largest header list, in bytes as RFC 7541, section 4.1, counts them.
    pub list: u32,
    ghost window_is_raised: { 65536 ≤ window },
    ghost window_in_range: { window < 2 ^ 31 },
}

/// Which of the counted limits a peer passed.
#[derive(Clone, Copy, Debug, PartialEq, Eq)]
pub enum CalmCause {
    /// The bytes of one header block.
    HeaderBytes,
    /// The frames of one header block.
    HeaderFrames,
    /// The decoded size of one header list.
    HeaderList,
    /// Streams that were reset before their request was whole.
    Resets,
}
