//! Sent frames at which a set needs no call, and header blocks whose fields are malformed. Each law is the contract of a
//! function that does nothing.
ghost use Rattle.h2_streams.specs.Laws.{HeaderFramesChangeNothing, ControlFramesChangeNothing, MalformedBlocks};

/// SETTINGS, PING and GOAWAY that are sent change nothing.
pub fn control_frames_change_nothing()
    ensures { ControlFramesChangeNothing }
{}

/// CONTINUATION, HEADERS of a server, and HEADERS on a stream that was begun change nothing where they end no stream.
pub fn header_frames_change_nothing()
    ensures { HeaderFramesChangeNothing }
{}

/// A malformed header block is a stream error: that of an earlier rule, or PROTOCOL_ERROR.
pub fn malformed_blocks()
    ensures { MalformedBlocks }
{}
