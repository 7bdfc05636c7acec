//! Links that are accepted, served turn by turn in one thread, and taken back.
//!
//! Begin with `serve_links`, which serves all links that an acceptor gives. What is done with a link is a `Service`'s: it
//! makes an item of the link and a pass of the lock, which has one turn in each round until it is over. The contract is
//! `specs/Serving`: each link is served through a pass of its own, and all of them are taken back. `serve_beside` runs
//! workers in threads of their own beside it (`specs/Beside`).
//!
//! ```ignore
//! let tally = serve_links(rt, alloc, &lock, &mut root, &mut acceptor, &mut service);
//! // As many links were retired as were given, and the pass of each was joined into the root.
//! ```
#![tactic(auto)]

mod beside;
mod course;
mod service;
mod serving;

pub use beside::{Beside, run_beside, serve_and_halt, serve_beside};
pub use course::Tally;
pub use service::{Ended, Service};
pub use serving::serve_links;
