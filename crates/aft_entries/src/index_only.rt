ghost use Rattle.std.specs.Prelude.{◌≡◌, [], ℕ, Option};
ghost use Rattle.aft_entries.specs.IndexOnly.{index_only_operation, index_only_payload as payload_said};
ghost use Rattle.aft_entries.specs.Checked.{checked};

use crate::entry::{Entry, HopPayload, Payload};
use crate::instances::Instances;
use crate::key::{Key, KeyName};
use crate::lists::Labels;
use crate::operation::{Ask, Op, Reason};
use std::alloc::Global;

fn no_labels(alloc: Global) -> Labels
    ensures { result ≡ [] }
{
    Labels::from_vec(Vec::new(alloc))
}

#[inline(always)]
fn index_only_payload(alloc: Global) -> HopPayload
    ensures { result ≡ payload_said }
{
    HopPayload {
        ip: None,
        mac: None,
        interface: None,
        subinterface: None,
        source: None,
        target: None,
        push: no_labels(alloc),
    }
}

/// What an operation asks for on a next hop of which nothing is said but its index: what `check_entry` answers there, without
/// reading the texts that aren't.
#[tactic(auto, unfolding(crate::specs::Checked::checked, crate::specs::Checked::is_bad_hop, crate::specs::Checked::hop_of))]
#[inline(always)]
pub fn check_index_only_hop(
    alloc: Global,
    instances: &Instances,
    op: Option<Op>,
    instance: &str,
    index: u64,
) -> Ask
    ensures { (id : ℕ) (election : Option ℕ) → result ≡ checked instances.now (index_only_operation id instance.now op index election) }
{
    let op = match op {
        None => return Ask::Bad(Reason::OpUnsupported),
        Some(op) => op,
    };
    let instance = match instances.find(instance) {
        None => return Ask::Bad(Reason::UnknownInstance),
        Some(instance) => instance,
    };
    if index == 0 {
        return Ask::Bad(Reason::BadKey);
    }
    let name = KeyName::Hop(index);
    let key = Key { instance, name };
    match op {
        Op::Delete => Ask::Remove(key),
        Op::Add => {
            let payload = Payload::Hop(index_only_payload(alloc));
            Ask::Put(Entry { key, payload }, false)
        }
        Op::Replace => {
            let payload = Payload::Hop(index_only_payload(alloc));
            Ask::Put(Entry { key, payload }, true)
        }
    }
}
