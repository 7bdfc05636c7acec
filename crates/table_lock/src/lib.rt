//! A lock round a machine. Each call of the machine stands once in one history, whatever threads make it,
//! and each pass knows a beginning of that history with all its own calls in it.
//!
//! Begin with `TableLock::new`, and call with `TableLock::call`. The contract stands in
//! `specs/Passes.antt`: what clauses see of a lock, a pass and a note, and what a call does to them.
//! `specs/Lock.antt` is the rule that holds between any two steps.
//!
//! ```text
//! let (lock, mut root) = TableLock::new(alloc, machine)?;
//! let mut pass = lock.split(&mut root);              // goes to another thread
//! let reply = lock.call(rt, &mut pass, command)?;    // Spent after 2^62 calls
//! lock.join(&mut root, pass);
//! let machine = lock.close(root);
//! ```
#![tactic(auto)]

mod doorbell;
mod lock;
mod machine;
mod send_sync;
mod steps;
mod transitions;
mod view;

pub use lock::{Note, Pass, Spent, TableLock};
pub use machine::{Entry, Machine};
pub use view::Item;
