//! What the frames of a connection say (RFC 9113, in the profile of gRPC): definitions over whole exchanges, the few
//! types that they share with the code above, and laws, each the contract of a function that does nothing.
//!
//! Nothing runs here. Read `specs/Exchange.antt` first, which says what an exchange is, and then `specs/Events.antt` and
//! `specs/Stops.antt`: what its frames give, and what stops it. [`examples`] has small exchanges that are computed.
//!
//! ```text
//! events Server (limits 100) (Ok request ∷ []) (Received no_settings ∷ Received head ∷ [])
//!     ≡ Head 1 request false ∷ []
//! ```
#![tactic(auto)]

/// Small exchanges, computed by the definitions.
pub mod examples;
mod fault;
/// Laws over exchanges that go on.
pub mod laws;
mod limits;
mod role;

pub use fault::{SendFault, StreamFault};
pub use limits::{CalmCause, H2Limits};
pub use role::Role;
