ghost use Rattle.std.specs.Prelude.{◌≡◌, ◌<◌, List, ℕ, Option, length, None};

use crate::patience::short_wait_after;
use mio::net::TcpStream;
use mio::{Events, Poll};
use rig_io::{Link, LinkRead, LinkWrite};
use std::alloc::Global;
use std::io::{ErrorKind, Read, Write};
use std::time::Duration;

/// A link over a dialled socket. A patient one waits at most a millisecond in a read that finds nothing, once many in a row did.
#[derive(Drop)]
pub struct TcpClientLink {
    stream: TcpStream,
    poll: Poll,
    events: Events<Global>,
    is_patient: bool,
    // How many reads found nothing since bytes moved.
    quiet: u64,
    faults: u64,
    read_idles: u64,
    write_idles: u64,
    ends: u64,
}

impl TcpClientLink {
    /// The link of a connected socket, which the poll watches.
    pub(crate) fn new(
        stream: TcpStream,
        poll: Poll,
        events: Events<Global>,
        is_patient: bool,
    ) -> TcpClientLink {
        TcpClientLink {
            stream,
            poll,
            events,
            is_patient,
            quiet: 0,
            faults: 0,
            read_idles: 0,
            write_idles: 0,
            ends: 0,
        }
    }

    /// How often the link has failed.
    pub fn faults(&self) -> u64
        ensures { result ≡ self.now.faults }
    {
        self.faults
    }

    // Waits for a little where nothing was there for some time.
    fn rest(&mut self)
        ensures faults { self.new.faults ≡ self.old.faults }
        ensures read_idles { self.new.read_idles ≡ self.old.read_idles }
        ensures write_idles { self.new.write_idles ≡ self.old.write_idles }
        ensures ends { self.new.ends ≡ self.old.ends }
    {
        self.quiet = self.quiet.saturating_add(1);
        let wait = short_wait_after(self.quiet);
        if self.is_patient && wait > 0 {
            let _ = self
                .poll
                .poll(&mut self.events, Some(Duration::from_millis(wait)));
        }
    }
}

impl Link for TcpClientLink {
    ghost use Rattle.std.specs.Prelude.{None};
    ghost use Rattle.rig_io.specs.Fault.{HasCause, StaysUnless};
    ghost use Rattle.rig_io.specs.Link.{ReadInBounds, WriteInBounds, PollReads, Receives, Sends};

    ghost pieces = { λ _. None };

    ghost left = { λ _. None };

    ghost faults = { λ l. l.faults };

    ghost read_idles = { λ l. l.read_idles };

    ghost write_idles = { λ l. l.write_idles };

    ghost ends = { λ l. l.ends };

    fn poll_read(&mut self, buffer: &mut [u8]) -> LinkRead {
        match self.stream.read(buffer) {
            Ok(0) => {
                self.ends = self.ends.saturating_add(1);
                LinkRead::End
            }
            Ok(count) => {
                self.quiet = 0;
                LinkRead::Got(count)
            }
            Err(e) => {
                if e.kind() == ErrorKind::WouldBlock {
                    self.rest();
                    self.read_idles = self.read_idles.saturating_add(1);
                    LinkRead::NotReady
                } else {
                    self.faults = self.faults.saturating_add(1);
                    LinkRead::Failed
                }
            }
        }
    }

    fn poll_write(&mut self, piece: &[u8]) -> LinkWrite {
        match self.stream.write(piece) {
            Ok(0) => {
                self.faults = self.faults.saturating_add(1);
                LinkWrite::Failed
            }
            Ok(count) => {
                self.quiet = 0;
                LinkWrite::Put(count)
            }
            Err(e) => {
                if e.kind() == ErrorKind::WouldBlock {
                    self.write_idles = self.write_idles.saturating_add(1);
                    LinkWrite::NotReady
                } else {
                    self.faults = self.faults.saturating_add(1);
                    LinkWrite::Failed
                }
            }
        }
    }
}
