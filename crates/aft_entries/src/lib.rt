//! Entries of the forwarding tables: keys, payloads, and what an operation asks.
//!
//! Begin with [`check_entry`], which reads an operation as it was sent; `specs/Checked` is its contract. `specs/Order`
//! has the order of keys, `specs/References` what an entry refers to.
//!
//! ```
//! match check_entry(alloc, &instances, operation)? { Ask::Put(entry, is_replace) => .., .. }
//! ```
#![tactic(auto)]

mod check;
mod device;
mod entry;
mod index_only;
mod instances;
mod key;
mod laws;
mod lists;
mod mem_device;
mod operation;

pub use check::check_entry;
pub use device::Device;
pub use entry::{Entry, GroupPayload, HopPayload, Payload, RoutePayload, refers, refs};
pub use index_only::check_index_only_hop;
pub use instances::{Instances, InstancesFault};
pub use key::{Key, KeyName, Kind, shard};
pub use laws::{checked_entries_fit, members_are_sorted, same_payloads_are_equal};
pub use lists::{Keys, Labels, Member, Members, Name};
pub use mem_device::MemDevice;
pub use operation::{
    Act, Ask, Op, RawEntry, RawGroup, RawHop, RawLabels, RawMembers, RawOperation, RawRoute,
    Reason, Row, Rows,
};
