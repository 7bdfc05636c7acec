//! The words of the program's command line.
//!
//! Call [`read_words`] with the words behind the program's name; `specs/Grammar.antt` is its contract: which words are a
//! command, and what they ask for.
//!
//! ```ignore
//! match read_words(alloc, &words) {
//!     Ok(Wish::Apply { instances }) => ..,
//!     Ok(Wish::Serve { listen, connections, instances, workers, reactors }) => ..,
//!     Err(WordsFault::NotInGrammar) => .., // the usage line
//!     Err(WordsFault::NoMemory) => ..,
//! }
//! ```
#![tactic(auto)]

mod given;
mod laws;
mod number;
mod wish;

pub use laws::written_options_are_read;
pub use wish::{Wish, Word, Words, WordsFault, read_words};
