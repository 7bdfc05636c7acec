//! The script language of the compliance client: one line is one call, one message, or one thing that is expected.
//!
//! Begin with [`read_script`]; `specs/Scripts` is its contract, `specs/Forms` the rows that a line may have, `specs/Words`
//! how a text is cut into lines and words. [`print_script`] writes a script by `specs/Printed`; `laws` says that a script keeps the
//! lines of its text, and that written words are read as the same words.
//!
//! ```
//! let script = read_script(alloc, b"modify a\nfinish a\nexpect a end OK")?;
//! ```
#![tactic(auto)]

mod entry;
mod expect;
mod fault;
mod fit;
mod form;
mod laws;
mod line;
mod number;
mod print;
mod read;
mod split;
mod words;

pub use fault::{ScriptFault, ScriptFaultKind};
pub use laws::{lines_are_kept, printed_words_are_read_again};
pub use line::{Line, LineText, NumberedLine, Row, Script};
pub use print::print_script;
pub use read::read_script;
pub use words::Words;
