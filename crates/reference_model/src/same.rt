//! Whether two payloads are the same.
ghost use Rattle.std.specs.Prelude.{◌≡◌, ◌&&◌, ◌==◌, nat_eq};
ghost use Rattle.aft_entries.specs.Same as spec;

use addr_text::Address;
use aft_entries::{GroupPayload, HopPayload, Member, Name, Payload};

fn same_address(a: Address, b: Address) -> bool
    ensures { result ≡ spec.same_address a b }
{
    match (a, b) {
        (Address::V4(a), Address::V4(b)) => a == b,
        (Address::V4(_), Address::V6(_)) => false,
        (Address::V6(_), Address::V4(_)) => false,
        (Address::V6(a), Address::V6(b)) => a == b,
    }
}

fn same_addresses(a: Option<Address>, b: Option<Address>) -> bool
    ensures { result ≡ spec.same_option spec.same_address a b }
{
    match (a, b) {
        (None, None) => true,
        (None, Some(_)) => false,
        (Some(_), None) => false,
        (Some(a), Some(b)) => same_address(a, b),
    }
}

fn same_numbers(a: Option<u64>, b: Option<u64>) -> bool
    ensures { result ≡ spec.same_option nat_eq a b }
{
    match (a, b) {
        (None, None) => true,
        (None, Some(_)) => false,
        (Some(_), None) => false,
        (Some(a), Some(b)) => a == b,
    }
}

fn same_bytes(a: &[u8], b: &[u8]) -> bool
    ensures { result ≡ spec.same_list nat_eq a.now b.now }
{
    match a {
        [] => b.is_empty(),
        [x, a @ ..] => match b {
            [] => false,
            [y, b @ ..] => *x == *y && same_bytes(a, b),
        },
    }
}

fn same_labels(a: &[u32], b: &[u32]) -> bool
    ensures { result ≡ spec.same_list nat_eq a.now b.now }
{
    match a {
        [] => b.is_empty(),
        [x, a @ ..] => match b {
            [] => false,
            [y, b @ ..] => *x == *y && same_labels(a, b),
        },
    }
}

fn same_members(a: &[Member], b: &[Member]) -> bool
    ensures { result ≡ spec.same_list (λ m n. m.hop == n.hop && m.weight == n.weight) a.now b.now }
{
    match a {
        [] => b.is_empty(),
        [m, a @ ..] => match b {
            [] => false,
            [n, b @ ..] => m.hop == n.hop && m.weight == n.weight && same_members(a, b),
        },
    }
}

fn same_mac(a: &Option<[u8; 6]>, b: &Option<[u8; 6]>) -> bool
    ensures { result ≡ spec.same_option (spec.same_list nat_eq) a.now b.now }
{
    match a {
        None => b.is_none(),
        Some(a) => match b {
            None => false,
            Some(b) => same_bytes(a, b),
        },
    }
}

fn same_name(a: &Option<Name>, b: &Option<Name>) -> bool
    ensures { result ≡ spec.same_option (spec.same_list nat_eq) a.now b.now }
{
    match a {
        None => b.is_none(),
        Some(a) => match b {
            None => false,
            Some(b) => same_bytes(a.as_str().as_bytes(), b.as_str().as_bytes()),
        },
    }
}

#[tactic(auto, unfolding(aft_entries::specs::Same::same_payload))]
fn same_hop(a: &HopPayload, b: &HopPayload) -> bool
    ensures { result ≡ spec.same_payload (Payload.Hop a.now) (Payload.Hop b.now) }
{
    let texts = same_mac(&a.mac, &b.mac) && same_name(&a.interface, &b.interface);
    let ends = same_addresses(a.source, b.source) && same_addresses(a.target, b.target);
    let labels = same_labels(a.push.as_slice(), b.push.as_slice());
    let under = same_numbers(a.subinterface, b.subinterface);
    same_addresses(a.ip, b.ip) && texts && under && ends && labels
}

#[tactic(auto, unfolding(aft_entries::specs::Same::same_payload))]
fn same_group(a: &GroupPayload, b: &GroupPayload) -> bool
    ensures { result ≡ spec.same_payload (Payload.Group a.now) (Payload.Group b.now) }
{
    let members = same_members(a.members.as_slice(), b.members.as_slice());
    members && same_numbers(a.backup, b.backup)
}

#[tactic(auto, unfolding(aft_entries::specs::Same::same_payload))]
pub(crate) fn same_payload(a: &Payload, b: &Payload) -> bool
    ensures { result ≡ spec.same_payload a.now b.now }
{
    match (a, b) {
        (Payload::Hop(a), Payload::Hop(b)) => same_hop(a, b),
        (Payload::Group(a), Payload::Group(b)) => same_group(a, b),
        (Payload::Route(a), Payload::Route(b)) => a.instance == b.instance && a.group == b.group,
        (Payload::Hop(_), Payload::Group(_)) => false,
        (Payload::Hop(_), Payload::Route(_)) => false,
        (Payload::Group(_), Payload::Hop(_)) => false,
        (Payload::Group(_), Payload::Route(_)) => false,
        (Payload::Route(_), Payload::Hop(_)) => false,
        (Payload::Route(_), Payload::Group(_)) => false,
    }
}
