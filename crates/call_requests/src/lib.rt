//! What a Get or a Flush call asks of the table, and the messages that answer it.
//!
//! Begin with [`read_get`] and [`read_flush`], which give the parts of a command, or the status that refuses the message
//! (`specs/Asked.antt`). [`Selection::next_response`] and [`flush_response`] give the messages of the answer
//! (`specs/Responses.antt`); the status that a reply ends its call with is `call_answers::end_of`.
//!
//! ```ignore
//! let (which, kinds) = read_get(alloc, &setting, message)?;
//! if let Reply::Selected(rows) = core.act(Command::Select(which, kinds)) {
//!     let mut selection = Selection::new(rows);
//!     while !selection.is_over() {
//!         send(selection.next_response(alloc, &setting)?);
//!     }
//! }
//! ```
#![tactic(auto)]

mod asks;
mod laws;
mod responses;

pub use asks::{AskFault, read_flush, read_get};
pub use call_answers::Setting;
pub use laws::{responses_are_short, selected_rows_are_known};
pub use responses::{ROWS_A_RESPONSE, Selection, flush_response};
