ghost use Rattle.std.specs.Prelude.{◌≡◌, ◌<◌, ◌≤◌, ◌+◌, List, ℕ, Option};

use crate::link::TcpLink;
use crate::patience::wait_after;
use crate::readiness::{READS, Readiness, WRITES};
use mio::net::TcpListener;
use mio::{Events, Interest, Poll, Token};
use rig_io::{Accepted, Acceptor};
use std::alloc::Global;
use std::io::{self, ErrorKind};
use std::net::{Net, SocketAddr};
use std::sync::Arc;
use std::time::Duration;

const LISTENER: usize = usize::MAX;

// What there is once it listens.
#[derive(Drop)]
struct Open {
    listener: TcpListener,
    poll: Poll,
    events: Events<Global>,
    readiness: Arc<Readiness, Global>,
    // Whether the last accept did not find that it would block.
    may_accept: bool,
    // The links' moves at the last look, and how many looks since then found nothing.
    moves: u64,
    quiet: u64,
}

impl Open {
    fn new<R: Net>(rt: &R, alloc: Global, address: &str, connections: u64) -> io::Result<Open> {
        let Ok(address) = address.parse::<SocketAddr>() else {
            return Err(io::Error::from(ErrorKind::InvalidInput));
        };
        let mut listener = TcpListener::bind(rt, address)?;
        let poll = Poll::new(rt)?;
        poll.registry()
            .register(&mut listener, Token(LISTENER), Interest::READABLE)?;
        let events = Events::with_capacity(alloc, 1024)?;
        let readiness = Arc::new(alloc, Readiness::new(alloc, connections)?)?;
        Ok(Open {
            listener,
            poll,
            events,
            readiness,
            may_accept: true,
            moves: 0,
            quiet: 0,
        })
    }

    // Looks for what is ready. It waits where nothing was for some time, longer each time.
    fn look(&mut self, is_patient: bool) {
        let moves = self.readiness.moves();
        if moves != self.moves {
            self.moves = moves;
            self.quiet = 0;
        }
        let wait = if is_patient {
            wait_after(self.quiet)
        } else {
            0
        };
        self.quiet = self.quiet.saturating_add(1);
        let _ = self
            .poll
            .poll(&mut self.events, Some(Duration::from_millis(wait)));
        for event in self.events.iter() {
            self.quiet = 0;
            let place = event.token().0;
            if place == LISTENER {
                self.may_accept = true;
            } else {
                let mut bits = 0;
                if event.is_readable() || event.is_read_closed() || event.is_error() {
                    bits |= READS;
                }
                if event.is_writable() || event.is_write_closed() || event.is_error() {
                    bits |= WRITES;
                }
                self.readiness.set(place, bits);
            }
        }
        self.readiness.looked();
    }

    fn accept(&mut self, place: usize) -> io::Result<TcpLink> {
        let (mut stream, _) = self.listener.accept()?;
        // Where this fails the link is only slower, or gone, which its calls tell.
        let _ = stream.set_nodelay(true);
        self.poll.registry().register(
            &mut stream,
            Token(place),
            Interest::READABLE | Interest::WRITABLE,
        )?;
        let readiness = Arc::try_clone(&self.readiness)?;
        Ok(TcpLink::new(stream, readiness, place))
    }
}

// No connection is there, or the one that was is gone: that is no failure of the acceptor.
fn is_idle(kind: ErrorKind) -> bool {
    kind == ErrorKind::WouldBlock
        || kind == ErrorKind::ConnectionAborted
        || kind == ErrorKind::Interrupted
}

/// Accepts TCP connections at an address, as `127.0.0.1:9340` or `[::1]:9340`. A patient one waits in `poll_accept` once nothing
/// was ready for some time, at most 32 ms, and ends the wait when something is.
#[derive(Drop)]
pub struct TcpAcceptor<'a, R: Net> {
    rt: &'a R,
    alloc: Global,
    is_patient: bool,
    open: Option<Open>,
    asked: u64,
    before: u64,
    given_count: u64,
    retired_count: u64,
    faults: u64,
    idles: u64,
    ghost taken: { retired_count ≤ given_count },
    ghost before_is: { before ≤ given_count },
    ghost bounded: { given_count ≤ before + asked },
}

impl<'a, R: Net> TcpAcceptor<'a, R> {
    /// An acceptor that listens nowhere yet.
    pub fn new(rt: &'a R, alloc: Global, is_patient: bool) -> TcpAcceptor<'a, R>
        ensures { (result.given_count ≡ 0) × (result.retired_count ≡ 0) }
    {
        TcpAcceptor {
            rt,
            alloc,
            is_patient,
            open: None,
            asked: 0,
            before: 0,
            given_count: 0,
            retired_count: 0,
            faults: 0,
            idles: 0,
        }
    }

    /// How many links it gave.
    pub fn given_count(&self) -> u64
        ensures { result ≡ self.now.given_count }
    {
        self.given_count
    }

    /// The address that it listens at. Where port 0 was asked for, the system chose the port.
    pub fn local_addr(&self) -> io::Result<SocketAddr> {
        match &self.open {
            None => Err(io::Error::from(ErrorKind::NotConnected)),
            Some(open) => open.listener.local_addr(),
        }
    }
}

impl<'a, R: Net + Sync> Acceptor for TcpAcceptor<'a, R> {
    ghost use Rattle.std.specs.Prelude.{None};

    type Link = TcpLink;

    ghost given_count = { λ a. a.given_count };

    ghost retired_count = { λ a. a.retired_count };

    ghost asked = { λ a. (a.asked, a.before) };

    ghost given = { λ _. None };

    ghost retired = { λ _. None };

    ghost faults = { λ a. a.faults };

    ghost idles = { λ a. a.idles };

    fn listen(&mut self, address: &str, connections: u64) -> bool {
        match Open::new(self.rt, self.alloc, address, connections) {
            Ok(open) => {
                self.open = Some(open);
                self.before = self.given_count;
                self.asked = connections;
                true
            }
            Err(_) => {
                self.faults = self.faults.saturating_add(1);
                false
            }
        }
    }

    fn poll_accept(&mut self) -> Accepted<TcpLink> {
        let is_patient = self.is_patient;
        let place = self.given_count - self.before;
        let Some(open) = &mut self.open else {
            if place == self.asked {
                return Accepted::Closed;
            }
            self.faults = self.faults.saturating_add(1);
            return Accepted::Failed;
        };
        if place == self.asked {
            open.look(is_patient);
            return Accepted::Closed;
        }
        if !open.may_accept {
            open.look(is_patient);
            self.idles = self.idles.saturating_add(1);
            return Accepted::NotReady;
        }
        let Some(given_count) = self.given_count.checked_add(1) else {
            self.faults = self.faults.saturating_add(1);
            return Accepted::Failed;
        };
        match open.accept(place as usize) {
            Ok(link) => {
                self.given_count = given_count;
                Accepted::New(link)
            }
            Err(e) => {
                let kind = e.kind();
                if is_idle(kind) {
                    open.may_accept = kind != ErrorKind::WouldBlock;
                    open.look(is_patient);
                    self.idles = self.idles.saturating_add(1);
                    Accepted::NotReady
                } else {
                    self.faults = self.faults.saturating_add(1);
                    Accepted::Failed
                }
            }
        }
    }

    fn retire(&mut self, link: TcpLink) {
        drop(link);
        self.retired_count += 1;
    }
}
