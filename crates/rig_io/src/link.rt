ghost use Rattle.std.specs.Prelude.{◌≡◌, ◌<◌, List, ℕ, Option, length};
ghost use Rattle.rig_io.specs.Link.{Piece, InputLeft};

/// What a poll of a link got.
#[derive(Clone, Copy, Debug, PartialEq, Eq)]
pub enum LinkRead {
    /// So many bytes, at least one, now at the buffer's front.
    Got(usize),
    /// Nothing is there now.
    NotReady,
    /// The other side has ended its bytes, and all of them were got.
    End,
    /// Reading failed; nothing was got.
    Failed,
}

/// What a poll of a link placed.
#[derive(Clone, Copy, Debug, PartialEq, Eq)]
pub enum LinkWrite {
    /// So many bytes of the piece's front, at least one.
    Put(usize),
    /// Nothing can be placed now.
    NotReady,
    /// Writing failed; nothing was placed.
    Failed,
}

/// A link to another side, whose calls don't wait.
pub trait Link {
    ghost use Rattle.rig_io.specs.Fault.{HasCause, StaysUnless};
    ghost use Rattle.rig_io.specs.Link.{ReadInBounds, WriteInBounds, PollReads, Receives, Sends};

    /// The pieces received and sent in the order of the calls, where the link tells them.
    ghost pieces: { Self → Option (List Piece) };

    /// The bytes that are left, where the link tells them.
    ghost left: { Self → Option InputLeft };

    /// How often the link has failed.
    ghost faults: { Self → ℕ };

    /// How often nothing was there.
    ghost read_idles: { Self → ℕ };

    /// How often nothing could be placed.
    ghost write_idles: { Self → ℕ };

    /// How often a poll answered that the input has ended.
    ghost ends: { Self → ℕ };

    /// Gets at least one byte, if one is there.
    fn poll_read(&mut self, buffer: &mut [u8]) -> LinkRead
        requires { 0 < length buffer.old }
        ensures bound { ReadInBounds result (length buffer.new) }
        ensures size { length buffer.new ≡ length buffer.old }
        ensures bytes { PollReads (left self.old) (left self.new) result buffer.new }
        ensures pieces { Receives (pieces self.old) (pieces self.new) result buffer.new }
        ensures cause { HasCause (faults self.old) (faults self.new) (result ≡ LinkRead.Failed) }
        ensures stays { StaysUnless (faults self.old) (faults self.new) (result ≡ LinkRead.Failed) }
        ensures idle { HasCause (read_idles self.old) (read_idles self.new) (result ≡ LinkRead.NotReady) }
        ensures awake { StaysUnless (read_idles self.old) (read_idles self.new) (result ≡ LinkRead.NotReady) }
        ensures end { HasCause (ends self.old) (ends self.new) (result ≡ LinkRead.End) }
        ensures goes_on { StaysUnless (ends self.old) (ends self.new) (result ≡ LinkRead.End) }
        ensures writes { write_idles self.new ≡ write_idles self.old };

    /// Places at least one byte of the piece, if that can be done now.
    fn poll_write(&mut self, piece: &[u8]) -> LinkWrite
        requires { 0 < length piece.now }
        ensures bound { WriteInBounds result (length piece.now) }
        ensures bytes { left self.new ≡ left self.old }
        ensures pieces { Sends (pieces self.old) (pieces self.new) result piece.now }
        ensures cause { HasCause (faults self.old) (faults self.new) (result ≡ LinkWrite.Failed) }
        ensures stays { StaysUnless (faults self.old) (faults self.new) (result ≡ LinkWrite.Failed) }
        ensures idle { HasCause (write_idles self.old) (write_idles self.new) (result ≡ LinkWrite.NotReady) }
        ensures awake { StaysUnless (write_idles self.old) (write_idles self.new) (result ≡ LinkWrite.NotReady) }
        ensures reads { read_idles self.new ≡ read_idles self.old }
        ensures ends { ends self.new ≡ ends self.old };
}
