ghost use Rattle.std.specs.Prelude.{◌≡◌, ◌<◌, List, ℕ, Option, length, None};

use crate::readiness::{READS, Readiness, WRITES};
use mio::net::TcpStream;
use rig_io::{Link, LinkRead, LinkWrite};
use std::alloc::Global;
use std::io::{ErrorKind, Read, Write};
use std::sync::Arc;

// So many answers with no look of the acceptor between, and a link tries its socket unasked.
const STALE: u64 = 1000;

/// A link over an accepted socket. It tries its socket where its last call moved bytes, or its acceptor found it ready.
#[derive(Drop)]
pub struct TcpLink {
    stream: TcpStream,
    readiness: Arc<Readiness, Global>,
    place: usize,
    // Whether the last call did not find that it would block.
    may_read: bool,
    may_write: bool,
    // The acceptor's looks at the last answer that nothing is ready, and how many such answers there were since then.
    looks: u64,
    stale: u64,
    faults: u64,
    read_idles: u64,
    write_idles: u64,
    ends: u64,
}

impl TcpLink {
    /// The link of this place among those that share the readiness.
    pub(crate) fn new(
        stream: TcpStream,
        readiness: Arc<Readiness, Global>,
        place: usize,
    ) -> TcpLink {
        TcpLink {
            stream,
            readiness,
            place,
            may_read: true,
            may_write: true,
            looks: 0,
            stale: 0,
            faults: 0,
            read_idles: 0,
            write_idles: 0,
            ends: 0,
        }
    }

    /// How often the link has failed.
    pub fn faults(&self) -> u64
        ensures { result ≡ self.now.faults }
    {
        self.faults
    }

    // Whether a call is worth its while: what is remembered says so, or the acceptor has not looked for long.
    fn is_worth(&mut self, may: bool, bit: u64) -> bool
        ensures faults { self.new.faults ≡ self.old.faults }
        ensures read_idles { self.new.read_idles ≡ self.old.read_idles }
        ensures write_idles { self.new.write_idles ≡ self.old.write_idles }
        ensures ends { self.new.ends ≡ self.old.ends }
    {
        if may || self.readiness.take(self.place, bit) {
            return true;
        }
        let looks = self.readiness.looks();
        if looks != self.looks {
            self.looks = looks;
            self.stale = 0;
        }
        self.stale = self.stale.saturating_add(1);
        self.stale % STALE == 0
    }
}

impl Link for TcpLink {
    ghost use Rattle.std.specs.Prelude.{None};
    ghost use Rattle.rig_io.specs.Fault.{HasCause, StaysUnless};
    ghost use Rattle.rig_io.specs.Link.{ReadInBounds, WriteInBounds, PollReads, Receives, Sends};

    ghost pieces = { λ _. None };

    ghost left = { λ _. None };

    ghost faults = { λ l. l.faults };

    ghost read_idles = { λ l. l.read_idles };

    ghost write_idles = { λ l. l.write_idles };

    ghost ends = { λ l. l.ends };

    fn poll_read(&mut self, buffer: &mut [u8]) -> LinkRead {
        let may = self.may_read;
        if !self.is_worth(may, READS) {
            self.read_idles = self.read_idles.saturating_add(1);
            return LinkRead::NotReady;
        }
        match self.stream.read(buffer) {
            Ok(0) => {
                self.ends = self.ends.saturating_add(1);
                LinkRead::End
            }
            Ok(count) => {
                self.may_read = true;
                self.readiness.moved();
                LinkRead::Got(count)
            }
            Err(e) => {
                if e.kind() == ErrorKind::WouldBlock {
                    self.may_read = false;
                    self.looks = self.readiness.looks();
                    self.read_idles = self.read_idles.saturating_add(1);
                    LinkRead::NotReady
                } else {
                    self.faults = self.faults.saturating_add(1);
                    LinkRead::Failed
                }
            }
        }
    }

    fn poll_write(&mut self, piece: &[u8]) -> LinkWrite {
        let may = self.may_write;
        if !self.is_worth(may, WRITES) {
            self.write_idles = self.write_idles.saturating_add(1);
            return LinkWrite::NotReady;
        }
        match self.stream.write(piece) {
            Ok(0) => {
                self.faults = self.faults.saturating_add(1);
                LinkWrite::Failed
            }
            Ok(count) => {
                self.may_write = true;
                self.readiness.moved();
                LinkWrite::Put(count)
            }
            Err(e) => {
                if e.kind() == ErrorKind::WouldBlock {
                    self.may_write = false;
                    self.looks = self.readiness.looks();
                    self.write_idles = self.write_idles.saturating_add(1);
                    LinkWrite::NotReady
                } else {
                    self.faults = self.faults.saturating_add(1);
                    LinkWrite::Failed
                }
            }
        }
    }
}
