//! Items that take turns, until each is over.
//!
//! Begin with `Reactor::adopt` and `Reactor::round`; an item is a `Turning`. The contract stands in
//! `specs/Turns.antt`: in a round each item that isn't over has one turn.
//!
//! ```text
//! let mut reactor = Reactor::new(alloc);
//! reactor.adopt(item)?;
//! while reactor.live() > 0 {
//!     let round = reactor.round(rt);             // round.progressed, round.ended
//!     while let Some(item) = reactor.take_over() { .. }
//! }
//! ```
#![tactic(auto)]

mod reactor;
mod turning;

pub use reactor::{Reactor, Round};
pub use turning::{Turned, Turning};
