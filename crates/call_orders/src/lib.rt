//! What the calls of a connection make of the table, and what they owe their clients.
//!
//! There is nothing to run here: the crate has definitions, worked cases and laws. What was done for the calls of a connection is
//! a list of actions, the latest first (`specs/Calls.antt`): each handles what a client did, collects results, or gives the next
//! response of a Get. `specs/Actions.antt` says which actions are right, and `specs/Orders.antt`, the contract of the layers
//! above, that the calls of a connection made the entries of a pass (`AreOrders`) and what their streams are owed (`answers` of
//! `specs/Calls.antt`). A reader who doesn't want to follow states of calls reads the laws (`specs/Laws.antt`) and the worked
//! cases (`specs/Examples.antt`).
//!
//! ```ignore
//! ensures { AreOrders setting.now calls own end actions × Sends (answers setting.now actions) }
//! ```
#![tactic(auto)]

pub mod examples;
pub mod laws;
