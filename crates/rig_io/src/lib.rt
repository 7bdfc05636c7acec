//! What bytes come from and go to: sources and sinks, links whose calls don't wait, what gives
//! links, and clocks. Each trait tells, where it can, what passes, and counts its failures; each has
//! a form in memory, which fails where it is told to.
//!
//! Begin with `Source::take` and `Sink::put`, or `Link::poll_read` and `Link::poll_write`. The
//! contracts stand in `specs/Stream.antt`, `specs/Link.antt` and `specs/Accept.antt`, what a count
//! says in `specs/Fault.antt`, and the forms in memory in the files of `specs/` that begin with `Mem`.
//!
//! ```text
//! let mut link = MemLink::new(alloc, Vec::new(alloc));
//! link.feed(b"hello")?;
//! let got = link.poll_read(&mut buffer);    // LinkRead::Got(5)
//! let put = link.poll_write(b"hi");         // LinkWrite::Put(2), and link.sent() is b"hi"
//! link.end_input();
//! let end = link.poll_read(&mut buffer);    // LinkRead::End
//! ```
#![tactic(auto)]

mod acceptor;
mod clock;
mod dialer;
mod gates;
mod link;
mod mem_acceptor;
mod mem_dialer;
mod mem_link;
mod sink;
mod source;

pub use acceptor::{Accepted, Acceptor};
pub use clock::{Clock, StepClock};
pub use dialer::{Dialer, Dialled};
pub use gates::Gates;
pub use link::{Link, LinkRead, LinkWrite};
pub use mem_acceptor::MemAcceptor;
pub use mem_dialer::MemDialer;
pub use mem_link::{LinkStep, MemLink, Transfer};
pub use sink::{MemSink, Placed, Sink};
pub use source::{MemSource, Source, Took};
