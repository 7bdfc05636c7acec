ghost use Rattle.std.specs.Prelude.{◌≡◌, ◌<◌, ◌≤◌, ◌+◌, List, ℕ, Option};

use crate::client_link::TcpClientLink;
use mio::net::TcpStream;
use mio::{Events, Interest, Poll, Token};
use rig_io::{Dialer, Dialled};
use std::alloc::Global;
use std::io::{self, ErrorKind};
use std::net::{Net, SocketAddr};
use std::time::Duration;

// A connection that isn't there after so many looks of so many milliseconds isn't waited for.
const LOOKS: u32 = 100;

const LOOK_MILLIS: u64 = 100;

// Waits until the socket is connected, and for ten seconds at most.
fn connected(stream: &TcpStream, poll: &mut Poll, events: &mut Events<Global>) -> io::Result<()> {
    for _ in 0..LOOKS {
        poll.poll(events, Some(Duration::from_millis(LOOK_MILLIS)))?;
        if let Some(e) = stream.take_error()? {
            return Err(e);
        }
        match stream.peer_addr() {
            Ok(_) => return Ok(()),
            Err(e) => {
                if e.kind() != ErrorKind::NotConnected {
                    return Err(e);
                }
            }
        }
    }
    Err(io::Error::from(ErrorKind::TimedOut))
}

fn open<R: Net>(
    rt: &R,
    alloc: Global,
    address: &str,
    is_patient: bool,
) -> io::Result<TcpClientLink> {
    let Ok(address) = address.parse::<SocketAddr>() else {
        return Err(io::Error::from(ErrorKind::InvalidInput));
    };
    let mut poll = Poll::new(rt)?;
    let mut events = Events::with_capacity(alloc, 4)?;
    let mut stream = TcpStream::connect(rt, address)?;
    poll.registry().register(
        &mut stream,
        Token(0),
        Interest::READABLE | Interest::WRITABLE,
    )?;
    connected(&stream, &mut poll, &mut events)?;
    // Where this fails the link is only slower, or gone, which its calls tell.
    let _ = stream.set_nodelay(true);
    Ok(TcpClientLink::new(stream, poll, events, is_patient))
}

/// Dials TCP connections to an address, as `127.0.0.1:9340` or `[::1]:9340`, and waits for each, at most ten seconds. The links of
/// a patient one wait a little where nothing is there to read.
#[derive(Drop)]
pub struct TcpDialer<'a, R: Net> {
    rt: &'a R,
    alloc: Global,
    is_patient: bool,
    given_count: u64,
    retired_count: u64,
    faults: u64,
    ghost taken: { retired_count ≤ given_count },
}

impl<'a, R: Net> TcpDialer<'a, R> {
    /// A dialer that has given no link.
    pub fn new(rt: &'a R, alloc: Global, is_patient: bool) -> TcpDialer<'a, R>
        ensures { (result.given_count ≡ 0) × (result.retired_count ≡ 0) }
    {
        TcpDialer {
            rt,
            alloc,
            is_patient,
            given_count: 0,
            retired_count: 0,
            faults: 0,
        }
    }

    /// How often it has failed.
    pub fn faults(&self) -> u64
        ensures { result ≡ self.now.faults }
    {
        self.faults
    }
}

impl<'a, R: Net> Dialer for TcpDialer<'a, R> {
    ghost use Rattle.std.specs.Prelude.{None};

    type Link = TcpClientLink;

    ghost given_count = { λ d. d.given_count };

    ghost retired_count = { λ d. d.retired_count };

    ghost given = { λ _. None };

    ghost retired = { λ _. None };

    ghost faults = { λ d. d.faults };

    fn dial(&mut self, address: &str) -> Dialled<TcpClientLink> {
        let Some(given_count) = self.given_count.checked_add(1) else {
            self.faults = self.faults.saturating_add(1);
            return Dialled::Failed;
        };
        match open(self.rt, self.alloc, address, self.is_patient) {
            Ok(link) => {
                self.given_count = given_count;
                Dialled::New(link)
            }
            Err(_) => {
                self.faults = self.faults.saturating_add(1);
                Dialled::Failed
            }
        }
    }

    fn retire(&mut self, link: TcpClientLink) {
        drop(link);
        self.retired_count += 1;
    }
}
