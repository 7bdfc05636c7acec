//! The server over any acceptor and any kind of connection: a table under a lock, links that are served turn by turn in one
//! thread, and workers in threads of their own beside it.
//!
//! Begin with `serve_connections`. A connection is what meets `server_turns::ServedByTurns`, and a `MakesConnection` makes a new one
//! for each link. The contract is `specs/Links` over `link_serving`'s: each link is served through a pass of its own, and the
//! promise of `server_turns` is kept to its client.
//!
//! ```ignore
//! let mut service = TableService::new(room, clock, maker);
//! let tally = serve_connections(rt, alloc, &lock, &mut root, &mut acceptor, &mut service, &mut workers);
//! // Halted: each worker's run is over, and as many links were retired as were given.
//! ```
#![tactic(auto)]

mod item;
mod room;
mod serve;
mod service;

pub use item::ServedLink;
pub use room::{Naming, Room};
pub use serve::{serve_connections, serve_table};
pub use service::{MakesConnection, TableService};
