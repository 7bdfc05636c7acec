//! What of an entry is wrong by itself.
ghost use Rattle.std.specs.Prelude.{◌≡◌, ◌==◌, ◌||◌, nat_lt, map};
ghost use Rattle.std.specs.List.{list_any};
ghost use Rattle.aft_entries.specs.InstanceNames.{holds_twice};
ghost use Rattle.table_model.specs.Table as history;

use addr_text::{Prefix4, Prefix6};
use aft_entries::{GroupPayload, HopPayload, KeyName, Member, Payload};

/// Whether a name is out of range, or has bits past its length.
#[tactic(auto, unfolding(table_model::specs::Table::is_bad_name))]
pub(crate) fn is_bad_name(name: &KeyName) -> bool
    ensures { result ≡ history.is_bad_name name.now }
{
    match name {
        KeyName::Hop(index) => *index == 0,
        KeyName::Group(id) => *id == 0,
        KeyName::V4(prefix) => !is_prefix4(*prefix),
        KeyName::V6(prefix) => !is_prefix6(*prefix),
        KeyName::Label(label) => *label > 1048575,
    }
}

fn is_prefix4(prefix: Prefix4) -> bool
    ensures { result ≡ history.is_prefix 32 prefix.bits prefix.len }
{
    prefix.len <= 32 && prefix.bits as u64 % (1 << (32 - prefix.len)) == 0
}

fn is_prefix6(prefix: Prefix6) -> bool
    ensures { result ≡ history.is_prefix 128 prefix.bits prefix.len }
{
    if prefix.len == 0 {
        prefix.bits == 0
    } else {
        prefix.len <= 128 && prefix.bits % (1 << (128 - prefix.len)) == 0
    }
}

/// Whether a payload breaks a rule on its own.
#[tactic(auto, unfolding(table_model::specs::Table::is_bad_payload))]
pub(crate) fn is_bad_payload(instances: u16, payload: &Payload) -> bool
    ensures { result ≡ history.is_bad_payload instances payload.now }
{
    match payload {
        Payload::Hop(hop) => is_bad_hop(hop),
        Payload::Group(group) => is_bad_group(group),
        Payload::Route(route) => route.instance >= instances,
    }
}

#[tactic(auto, unfolding(table_model::specs::Table::is_bad_payload))]
fn is_bad_hop(hop: &HopPayload) -> bool
    ensures { result ≡ history.is_bad_payload 0 (Payload.Hop hop.now) }
{
    let long = match &hop.interface {
        None => false,
        Some(name) => name.as_str().len() > 255,
    };
    let high = has_high_label(hop.push.as_slice());
    long || hop.push.as_slice().len() > 16 || high
}

fn has_high_label(labels: &[u32]) -> bool
    ensures { result ≡ list_any (λ label. nat_lt 1048575 label) labels.now }
{
    match labels {
        [] => false,
        [first, rest @ ..] => *first > 1048575 || has_high_label(rest),
    }
}

#[tactic(auto, unfolding(table_model::specs::Table::is_bad_payload))]
fn is_bad_group(group: &GroupPayload) -> bool
    ensures { result ≡ history.is_bad_payload 0 (Payload.Group group.now) }
{
    let members = group.members.as_slice();
    let zero = has_zero(members);
    let twice = has_twice(members);
    members.len() > 256 || zero || twice
}

fn has_zero(members: &[Member]) -> bool
    ensures { result ≡ list_any (λ member. member.hop == 0 || member.weight == 0) members.now }
{
    match members {
        [] => false,
        [first, rest @ ..] => first.hop == 0 || first.weight == 0 || has_zero(rest),
    }
}

// Whether two members have the same next hop.
fn has_twice(members: &[Member]) -> bool
    ensures { result ≡ holds_twice (λ a b. a == b) (map (λ member. member.hop) members.now) }
{
    match members {
        [] => false,
        [first, rest @ ..] => {
            let again = has_hop(rest, first.hop);
            again || has_twice(rest)
        }
    }
}

fn has_hop(members: &[Member], hop: u64) -> bool
    ensures { result ≡ list_any (λ other. other == hop) (map (λ member. member.hop) members.now) }
{
    match members {
        [] => false,
        [first, rest @ ..] => first.hop == hop || has_hop(rest, hop),
    }
}
