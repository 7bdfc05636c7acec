//! What an expect line of a script is worth: the items that a call's messages gave, and the verdict of a line over them.
//!
//! Begin with [`CallItems`], which takes the messages of one call and judges lines. `specs/Items` says what a message gives,
//! `specs/Seen` how an item stands on an expect line, and `specs/Verdicts` which verdict a line has.
//!
//! ```text
//! items.take_modify(&numbering, &response)?;
//! match items.judge(&line) { Some(Judged::Pass) => .., None => wait(), .. }
//! ```
#![tactic(auto)]

mod items;
mod laws;
mod matching;
mod messages;
mod print;
mod seen;
mod tally;
mod verdict;

pub use items::CallItems;
pub use laws::items_match_their_words;
pub use print::print_seen;
pub use seen::{Judged, Seen, SeenEnd};
pub use tally::Tally;
