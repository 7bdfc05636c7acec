//! What a Modify call asks of the table, and what it answers: requests become commands, and replies become responses or the
//! status that ends the call.
//!
//! Of a request whose bytes have no fault `read_header` and `operations_in` give the commands in their order, and `read_orders`
//! gives all of them at once (`specs/Orders.antt`). Of a reply `append_answer` gives the one response that is owed
//! (`specs/Answers.antt`), and `end_of` the status that ends the call (`specs/Ends.antt`).
//!
//! ```ignore
//! let orders = read_orders(alloc, &setting, message)?;
//! if let Some(asked) = orders.params {
//!     let reply = core.act(Command::SetParams(session, asked));
//!     append_answer(alloc, &setting.numbering, 0, 0, &reply, &mut out)?;
//! }
//! ```
#![tactic(auto)]

mod answers;
mod ends;
mod orders;

pub use answers::{Message, answer_of, append_answer, append_operation_result};
pub use ends::end_of;
pub use gribi_messages::{MessageFault, OperationReader};
pub use grpc_heads::Status;
pub use orders::{
    Operations, Orders, Setting, operations_in, read_header, read_operation, read_orders,
};
pub use table_model::{AskedParams, Operation, Reply};
