//! Whether two payloads are the same.
ghost use Rattle.std.specs.Prelude.{◌≡◌, nat_eq};
ghost use Rattle.aft_entries.specs.Same as spec;

use aft_entries::{GroupPayload, HopPayload, Name, Payload};

fn same_name(a: &Option<Name>, b: &Option<Name>) -> bool
    ensures { result ≡ spec.same_option (spec.same_list nat_eq) a.now b.now }
{
    match a {
        None => b.is_none(),
        Some(a) => match b {
            None => false,
            Some(b) => a.as_str().as_bytes() == b.as_str().as_bytes(),
        },
    }
}

#[tactic(auto, unfolding(aft_entries::specs::Same::same_payload))]
fn same_hop(a: &HopPayload, b: &HopPayload) -> bool
    ensures { result ≡ spec.same_payload (Payload.Hop a.now) (Payload.Hop b.now) }
{
    let texts = a.mac == b.mac && same_name(&a.interface, &b.interface);
    let ends = a.source == b.source && a.target == b.target;
    let labels = a.push.as_slice() == b.push.as_slice();
    a.ip == b.ip && texts && a.subinterface == b.subinterface && ends && labels
}

#[tactic(auto, unfolding(aft_entries::specs::Same::same_payload))]
fn same_group(a: &GroupPayload, b: &GroupPayload) -> bool
    ensures { result ≡ spec.same_payload (Payload.Group a.now) (Payload.Group b.now) }
{
    a.members.as_slice() == b.members.as_slice() && a.backup == b.backup
}

#[tactic(auto, unfolding(aft_entries::specs::Same::same_payload))]
pub(crate) fn same_payload(a: &Payload, b: &Payload) -> bool
    ensures { result ≡ spec.same_payload a.now b.now }
{
    match (a, b) {
        (Payload::Hop(a), Payload::Hop(b)) => same_hop(a, b),
        (Payload::Group(a), Payload::Group(b)) => same_group(a, b),
        (Payload::Route(a), Payload::Route(b)) => a.instance == b.instance && a.group == b.group,
        (Payload::Hop(_), Payload::Group(_)) => false,
        (Payload::Hop(_), Payload::Route(_)) => false,
        (Payload::Group(_), Payload::Hop(_)) => false,
        (Payload::Group(_), Payload::Route(_)) => false,
        (Payload::Route(_), Payload::Hop(_)) => false,
        (Payload::Route(_), Payload::Group(_)) => false,
    }
}
