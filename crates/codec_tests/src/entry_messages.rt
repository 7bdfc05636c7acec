ghost use Rattle.std.specs.Prelude.{IsTrue};
ghost use Rattle.aft_entries.specs.Shapes.{fits};
ghost use Rattle.aft_messages.specs.Printing.{HasKnownInstance};

use addr_text::{Address, Prefix4};
use aft_entries::{
    Entry, GroupPayload, HopPayload, Instances, Key, KeyName, Kind, Labels, Member, Members, Name,
    Payload, RawEntry, RawHop, RawRoute, RoutePayload,
};
use aft_messages::{MessageFault, decode_entry, encode_entry, encode_raw_entry};
use proto_wire::WireFault;
use schema_numbers::default_numbering;
use std::alloc::{AllocError, Global};
use std::test::Fail;

fn text(name: &Option<Name>) -> Option<&str> {
    match name {
        None => None,
        Some(name) => Some(name.as_str()),
    }
}

const ROUTE: &[u8] = b"\x0a\x0f198.51.100.0/24\x12\x0f\x0a\x02\x08\x01\x12\x09\x0a\x07DEFAULT";

const LABEL: &[u8] = b"\x08\x80\x80\x40\x12\x04\x0a\x02\x08\x01";

const GROUP: &[u8] =
    b"\x08\x01\x12\x12\x0a\x08\x08\x02\x12\x04\x0a\x02\x08\x05\x0a\x02\x08\x01\x0a\x02\x08\x02";

const HOP: &[u8] =
    b"\x08\x07\x12\x26\x0a\x06\x0a\x041::2\x12\x04\x0a\x02ab\x1a\x07\x0a\x03\x0a\x01i\x12\x00\x22\x07\x0a\x03\x0a\x01s\x12\x00\x2a\x02\x08\x03\x2a\x00";

// Whether the route is to group 1 of this instance.
fn is_to_group(route: &RawRoute, instance: Option<&str>) -> bool {
    route.group == Some(1) && text(&route.instance) == instance
}

// Whether the next hop has the texts, the subinterface and the labels of `HOP`.
fn has_fields(hop: &RawHop) -> bool {
    text(&hop.ip) == Some("1::2")
        && text(&hop.mac) == Some("ab")
        && text(&hop.interface) == Some("i")
        && hop.subinterface == Some(0)
        && text(&hop.source) == Some("s")
        && text(&hop.target) == Some("")
        && hop.push.as_slice() == [Some(3), None].as_slice()
}

// Whether the entry is what the whole message of its kind says.
fn is_meant(entry: &RawEntry) -> bool {
    match entry {
        RawEntry::V4(prefix, route) => {
            prefix.as_str() == "198.51.100.0/24" && is_to_group(route, Some("DEFAULT"))
        }
        RawEntry::V6(prefix, route) => {
            prefix.as_str() == "198.51.100.0/24" && is_to_group(route, Some("DEFAULT"))
        }
        RawEntry::Label(label, route) => *label == Some(1_048_576) && is_to_group(route, None),
        RawEntry::Group(id, group) => {
            *id == 1
                && group.members.as_slice() == [(2, Some(5)), (1, None), (2, None)].as_slice()
                && group.backup.is_none()
        }
        RawEntry::Hop(index, hop) => *index == 7 && has_fields(hop),
        _ => false,
    }
}

// What the message of an entry says.
fn read(alloc: Global, bytes: &[u8], kind: Kind) -> Result<RawEntry, MessageFault> {
    match default_numbering(alloc) {
        Err(_) => Err(MessageFault::NoMemory),
        Ok(n) => decode_entry(alloc, &n, bytes, kind),
    }
}

// Whether the whole message of an entry is read.
fn is_read(alloc: Global, bytes: &[u8], kind: Kind) -> bool {
    match read(alloc, bytes, kind) {
        Err(_) => false,
        Ok(entry) => is_meant(&entry),
    }
}

#[test]
fn entries_are_read(rt: HostRuntime) {
    let cases = [
        (ROUTE, Kind::V4),
        (ROUTE, Kind::V6),
        (LABEL, Kind::Label),
        (GROUP, Kind::Group),
        (HOP, Kind::Hop),
    ];
    for (bytes, kind) in cases {
        assert!(rt; is_read(rt.alloc(), bytes, kind));
    }
}

// Whether the entry is written, behind another byte, as these bytes.
fn is_spelled(alloc: Global, entry: &RawEntry, bytes: &[u8]) -> Result<bool, AllocError> {
    let n = default_numbering(alloc)?;
    let mut out = Vec::from_slice(alloc, &[7])?;
    encode_raw_entry(&n, entry, &mut out)?;
    Ok(&out[1..] == bytes)
}

// Whether an entry that is read from these bytes is written as the others.
fn is_again(alloc: Global, bytes: &[u8], kind: Kind, spelled: &[u8]) -> bool {
    match read(alloc, bytes, kind) {
        Err(_) => false,
        Ok(entry) => is_spelled(alloc, &entry, spelled) == Ok(true),
    }
}

// The message of an entry, its kind, and how the entry is written.
const FORMS: [(&[u8], Kind, &[u8]); 12] = [
    (ROUTE, Kind::V4, ROUTE),
    (LABEL, Kind::Label, LABEL),
    (GROUP, Kind::Group, GROUP),
    (HOP, Kind::Hop, HOP),
    // nothing set, and wrappers that are there and empty
    (b"", Kind::Label, b"\x12\x00"),
    (
        b"\x12\x04\x0a\x00\x12\x00",
        Kind::V6,
        b"\x12\x04\x0a\x00\x12\x00",
    ),
    (
        b"\x08\x00\x12\x04\x0a\x02\x08\x00",
        Kind::Label,
        b"\x08\x00\x12\x02\x0a\x00",
    ),
    // the last text, and the last number in a wrapper
    (
        b"\x0a\x01a\x0a\x01b\x12\x06\x0a\x04\x08\x01\x08\x02",
        Kind::V4,
        b"\x0a\x01b\x12\x04\x0a\x02\x08\x02",
    ),
    // occurrences of a payload, and of a wrapper in it, are joined
    (
        b"\x12\x04\x0a\x02\x08\x01\x12\x05\x12\x03\x0a\x01A\x12\x02\x0a\x00",
        Kind::V6,
        b"\x12\x09\x0a\x02\x08\x01\x12\x03\x0a\x01A",
    ),
    // fields of another wire type, and unknown ones
    (
        b"\x08\x05\x10\x07\x12\x02\x08\x01\x1a\x01a",
        Kind::V4,
        b"\x12\x00",
    ),
    // no weight, and a weight of 0; a backup of 0
    (
        b"\x12\x0c\x0a\x02\x12\x00\x0a\x04\x12\x02\x0a\x00\x12\x00",
        Kind::Group,
        b"\x12\x0a\x0a\x00\x0a\x04\x12\x02\x0a\x00\x12\x00",
    ),
    // members of two occurrences of the payload
    (
        b"\x12\x04\x0a\x02\x08\x01\x12\x08\x0a\x02\x08\x02\x12\x02\x08\x09",
        Kind::Group,
        b"\x12\x0c\x0a\x02\x08\x01\x0a\x02\x08\x02\x12\x02\x08\x09",
    ),
];

#[test]
fn entries_are_written_again(rt: HostRuntime) {
    for (bytes, kind, spelled) in FORMS {
        assert!(rt; is_again(rt.alloc(), bytes, kind, spelled));
    }
}

// The fault that a message is refused for.
fn fault_of(alloc: Global, bytes: &[u8], kind: Kind) -> Option<MessageFault> {
    match read(alloc, bytes, kind) {
        Err(fault) => Some(fault),
        Ok(_) => None,
    }
}

#[test]
fn faults_are_named(rt: HostRuntime) {
    let cases: [(&[u8], Kind, MessageFault); 3] = [
        (
            b"\x12\x05\x12\x03\x0a\x01\xff",
            Kind::V6,
            MessageFault::Utf8(4),
        ),
        // a text that a later text outdoes
        (b"\x0a\x01\xff\x0a\x01a", Kind::V4, MessageFault::Utf8(0)),
        (
            b"\x12\x02\x0a\x05",
            Kind::Group,
            MessageFault::Wire(2, WireFault::Truncated),
        ),
    ];
    for (bytes, kind, fault) in cases {
        assert!(rt; fault_of(rt.alloc(), bytes, kind) == Some(fault));
    }
}

// Whether the entry of this name and payload is written as these bytes.
fn is_written(alloc: Global, name: KeyName, payload: Payload, bytes: &[u8]) -> Result<bool, Fail>
    requires fits { IsTrue (fits name payload) }
    requires named { HasKnownInstance 1 payload }
{
    let n = default_numbering(alloc)?;
    let mut names = Vec::new(alloc);
    names.push(String::from_str(alloc, "DEFAULT")?)?;
    let instances = Instances::new(names)?;
    let key = Key { instance: 0, name };
    let mut out = Vec::new(alloc);
    encode_entry(alloc, &n, &instances, &Entry { key, payload }, &mut out)?;
    Ok(out.as_slice() == bytes)
}

#[test]
fn checked_routes_are_written(rt: HostRuntime) -> Result<(), Fail> {
    let route = RoutePayload {
        instance: 0,
        group: 1,
    };
    let prefix = Prefix4 {
        bits: 0xc633_6400,
        len: 24,
    };
    let name = KeyName::V4(prefix);
    assert!(rt; is_written(rt.alloc(), name, Payload::Route(route), ROUTE)?);
    Ok(())
}

#[test]
fn an_empty_hop_is_written(rt: HostRuntime) -> Result<(), Fail> {
    let empty = HopPayload {
        ip: None,
        mac: None,
        interface: None,
        subinterface: None,
        source: None,
        target: None,
        push: Labels::from_vec(Vec::new(rt.alloc())),
    };
    let bytes = b"\x08\x01\x12\x00";
    assert!(rt; is_written(rt.alloc(), KeyName::Hop(1), Payload::Hop(empty), bytes)?);
    Ok(())
}

#[test]
fn a_whole_hop_is_written(rt: HostRuntime) -> Result<(), Fail> {
    let whole = HopPayload {
        ip: Some(Address::V6(1)),
        mac: Some([2, 0, 0, 0, 0, 0xff]),
        interface: None,
        subinterface: Some(0),
        source: None,
        target: Some(Address::V4(0x0102_0304)),
        push: Labels::from_vec(Vec::from_slice(rt.alloc(), &[3])?),
    };
    let bytes =
        b"\x08\x01\x12\x31\x0a\x05\x0a\x03::1\x12\x13\x0a\x1102:00:00:00:00:ff\x1a\x02\x12\x00\x22\x0b\x12\x09\x0a\x071.2.3.4\x2a\x02\x08\x03";
    assert!(rt; is_written(rt.alloc(), KeyName::Hop(1), Payload::Hop(whole), bytes)?);
    Ok(())
}

#[test]
fn checked_groups_are_written(rt: HostRuntime) -> Result<(), Fail> {
    let member = Member { hop: 1, weight: 1 };
    let group = GroupPayload {
        members: Members::from_vec(Vec::from_slice(rt.alloc(), &[member])?),
        backup: Some(2),
    };
    let bytes = b"\x08\x01\x12\x0e\x0a\x08\x08\x01\x12\x04\x0a\x02\x08\x01\x12\x02\x08\x02";
    assert!(rt; is_written(rt.alloc(), KeyName::Group(1), Payload::Group(group), bytes)?);
    Ok(())
}
