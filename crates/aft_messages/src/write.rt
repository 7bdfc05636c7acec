ghost use Rattle.std.specs.Prelude.{◌≡◌, ◌++◌, [], Some, OnOk, OnErr};
ghost use Rattle.std.specs.List.{flat_map};
ghost use Rattle.std.specs.Option.{option_copied};
ghost use Rattle.proto_wire.specs.Written.{bytes_field};
ghost use Rattle.schema_numbers.specs.Numbers.{field_of};
ghost use Rattle.schema_numbers.specs.declared.names.FieldName.TheVariants as field;
ghost use Rattle.aft_entries.specs.declared.operation.RawEntry.TheVariants as raw_entry;
ghost use Rattle.aft_messages.specs.Encodable.{IsText};
ghost use Rattle.aft_messages.specs.Writing.{address_fields, interface_field, tunnel_field, pushed_label_field, hop_bytes, member_field, group_bytes, route_bytes, nonempty_field, uint_value_field, raw_bytes};

use crate::fields::{
    write_label, write_length_delimited, write_nonempty_length_delimited, write_nonempty_text,
    write_nonzero_uint, write_string_value, write_uint_value,
};
use aft_entries::{Name, RawEntry, RawGroup, RawHop};
use proto_wire::roll_back;
use schema_numbers::{FieldName, Numbering};
use std::alloc::AllocError;

/// The bytes of a name, if there is one.
pub fn text_of(name: &Option<Name>) -> Option<&[u8]>
    ensures value { option_copied result ≡ name.now }
    ensures utf8 { IsText name.now }
{
    match name {
        None => None,
        Some(name) => Some(name.as_str().as_bytes()),
    }
}

#[tactic(auto, unfolding(crate::specs::Writing::address_fields))]
fn write_addresses(
    n: &Numbering,
    ip: Option<&[u8]>,
    mac: Option<&[u8]>,
    out: &mut Vec<u8>,
) -> Result<(), AllocError>
    ensures ok { OnOk result (out.new.items ≡ out.old.items ++ address_fields n.now (option_copied ip.entry) (option_copied mac.entry)) }
    ensures err { OnErr result (out.new.items ≡ out.old.items) }
{
    let before = out.len();
    write_string_value(n.field(FieldName::NextHopIpAddress), ip, out)?;
    if write_string_value(n.field(FieldName::NextHopMacAddress), mac, out).is_err() {
        return Err(roll_back(out, before));
    }
    Ok(())
}

#[tactic(auto, unfolding(crate::specs::Writing::interface_field))]
fn write_interface(
    n: &Numbering,
    interface: Option<&[u8]>,
    subinterface: Option<u64>,
    out: &mut Vec<u8>,
) -> Result<(), AllocError>
    ensures ok { OnOk result (out.new.items ≡ out.old.items ++ interface_field n.now (option_copied interface.entry) subinterface) }
    ensures err { OnErr result (out.new.items ≡ out.old.items) }
{
    let before = out.len();
    let inner = n.field(FieldName::InterfaceRefSubinterface);
    let outer = n.field(FieldName::NextHopInterfaceRef);
    write_string_value(n.field(FieldName::InterfaceRefInterface), interface, out)?;
    if write_uint_value(inner, subinterface, out).is_err()
        || write_nonempty_length_delimited(outer, before, out).is_err()
    {
        return Err(roll_back(out, before));
    }
    Ok(())
}

#[tactic(auto, unfolding(crate::specs::Writing::tunnel_field))]
fn write_tunnel(
    n: &Numbering,
    source: Option<&[u8]>,
    target: Option<&[u8]>,
    out: &mut Vec<u8>,
) -> Result<(), AllocError>
    ensures ok { OnOk result (out.new.items ≡ out.old.items ++ tunnel_field n.now (option_copied source.entry) (option_copied target.entry)) }
    ensures err { OnErr result (out.new.items ≡ out.old.items) }
{
    let before = out.len();
    let inner = n.field(FieldName::IpInIpDstIp);
    let outer = n.field(FieldName::NextHopIpInIp);
    write_string_value(n.field(FieldName::IpInIpSrcIp), source, out)?;
    if write_string_value(inner, target, out).is_err()
        || write_nonempty_length_delimited(outer, before, out).is_err()
    {
        return Err(roll_back(out, before));
    }
    Ok(())
}

/// All of a next hop but its labels.
pub fn write_hop_texts(
    n: &Numbering,
    addresses: (Option<&[u8]>, Option<&[u8]>),
    interface: (Option<&[u8]>, Option<u64>),
    tunnel: (Option<&[u8]>, Option<&[u8]>),
    out: &mut Vec<u8>,
) -> Result<(), AllocError>
    ensures ok { OnOk result (out.new.items ≡ out.old.items
        ++ address_fields n.now (option_copied addresses.entry.0) (option_copied addresses.entry.1)
        ++ interface_field n.now (option_copied interface.entry.0) interface.entry.1
        ++ tunnel_field n.now (option_copied tunnel.entry.0) (option_copied tunnel.entry.1)) }
    ensures err { OnErr result (out.new.items ≡ out.old.items) }
{
    let before = out.len();
    write_addresses(n, addresses.0, addresses.1, out)?;
    if write_interface(n, interface.0, interface.1, out).is_err()
        || write_tunnel(n, tunnel.0, tunnel.1, out).is_err()
    {
        return Err(roll_back(out, before));
    }
    Ok(())
}

/// Appends a label of the stack that a next hop pushes.
#[tactic(auto, unfolding(crate::specs::Writing::pushed_label_field))]
pub fn write_pushed_label(
    n: &Numbering,
    label: Option<u64>,
    out: &mut Vec<u8>,
) -> Result<(), AllocError>
    ensures ok { OnOk result (out.new.items ≡ out.old.items ++ pushed_label_field n.now label) }
    ensures err { OnErr result (out.new.items ≡ out.old.items) }
{
    let before = out.len();
    write_label(n.field(FieldName::PushedLabelLabelUint64), label, out)?;
    if write_length_delimited(
        n.field(FieldName::NextHopPushedMplsLabelStack),
        before,
        out,
    ).is_err()
    {
        return Err(roll_back(out, before));
    }
    Ok(())
}

fn write_labels(n: &Numbering, labels: &[Option<u64>], out: &mut Vec<u8>) -> Result<(), AllocError>
    ensures ok { OnOk result (out.new.items ≡ out.old.items ++ flat_map (pushed_label_field n.now) labels.now) }
    ensures err { OnErr result (out.new.items ≡ out.old.items) }
{
    let before = out.len();
    for label in labels {
        if write_pushed_label(n, *label, out).is_err() {
            return Err(roll_back(out, before));
        }
    }
    Ok(())
}

#[tactic(auto, unfolding(crate::specs::Writing::hop_bytes))]
fn write_hop(n: &Numbering, hop: &RawHop, out: &mut Vec<u8>) -> Result<(), AllocError>
    ensures ok { OnOk result (out.new.items ≡ out.old.items ++ bytes_field (field_of n.now field.NextHopKeyNextHop) (hop_bytes n.now hop.now)) }
    ensures err { OnErr result (out.new.items ≡ out.old.items) }
{
    let before = out.len();
    let addresses = (text_of(&hop.ip), text_of(&hop.mac));
    let interface = (text_of(&hop.interface), hop.subinterface);
    let tunnel = (text_of(&hop.source), text_of(&hop.target));
    write_hop_texts(n, addresses, interface, tunnel, out)?;
    if write_labels(n, hop.push.as_slice(), out).is_err()
        || write_length_delimited(n.field(FieldName::NextHopKeyNextHop), before, out).is_err()
    {
        return Err(roll_back(out, before));
    }
    Ok(())
}

// The leaves of a group's next hop, where there is a weight.
fn write_weight(n: &Numbering, weight: Option<u64>, out: &mut Vec<u8>) -> Result<(), AllocError>
    ensures ok { OnOk result (out.new.items ≡ out.old.items
        ++ nonempty_field (field_of n.now field.MemberKeyNextHop) (uint_value_field (field_of n.now field.MemberLeavesWeight) weight)) }
    ensures err { OnErr result (out.new.items ≡ out.old.items) }
{
    let before = out.len();
    write_uint_value(n.field(FieldName::MemberLeavesWeight), weight, out)?;
    if write_nonempty_length_delimited(n.field(FieldName::MemberKeyNextHop), before, out).is_err() {
        return Err(roll_back(out, before));
    }
    Ok(())
}

/// Appends a member of a group: its next hop and its weight.
#[tactic(auto, unfolding(crate::specs::Writing::member_field))]
pub fn write_member(
    n: &Numbering,
    index: u64,
    weight: Option<u64>,
    out: &mut Vec<u8>,
) -> Result<(), AllocError>
    ensures ok { OnOk result (out.new.items ≡ out.old.items ++ member_field n.now (index, weight)) }
    ensures err { OnErr result (out.new.items ≡ out.old.items) }
{
    let before = out.len();
    write_nonzero_uint(n.field(FieldName::MemberKeyIndex), index, out)?;
    if write_weight(n, weight, out).is_err()
        || write_length_delimited(n.field(FieldName::NextHopGroupNextHop), before, out).is_err()
    {
        return Err(roll_back(out, before));
    }
    Ok(())
}

fn write_members(
    n: &Numbering,
    members: &[(u64, Option<u64>)],
    out: &mut Vec<u8>,
) -> Result<(), AllocError>
    ensures ok { OnOk result (out.new.items ≡ out.old.items ++ flat_map (member_field n.now) members.now) }
    ensures err { OnErr result (out.new.items ≡ out.old.items) }
{
    let before = out.len();
    for member in members {
        let (index, weight) = *member;
        if write_member(n, index, weight, out).is_err() {
            return Err(roll_back(out, before));
        }
    }
    Ok(())
}

#[tactic(auto, unfolding(crate::specs::Writing::group_bytes))]
fn write_group(n: &Numbering, group: &RawGroup, out: &mut Vec<u8>) -> Result<(), AllocError>
    ensures ok { OnOk result (out.new.items ≡ out.old.items ++ bytes_field (field_of n.now field.NextHopGroupKeyNextHopGroup) (group_bytes n.now group.now)) }
    ensures err { OnErr result (out.new.items ≡ out.old.items) }
{
    let before = out.len();
    let backup = n.field(FieldName::NextHopGroupBackupNextHopGroup);
    let outer = n.field(FieldName::NextHopGroupKeyNextHopGroup);
    write_members(n, group.members.as_slice(), out)?;
    if write_uint_value(backup, group.backup, out).is_err()
        || write_length_delimited(outer, before, out).is_err()
    {
        return Err(roll_back(out, before));
    }
    Ok(())
}

// The numbers of the fields of one kind of route: its payload, and in that the group and the group's network instance.
#[derive(Clone, Copy)]
struct RouteFields {
    payload: u32,
    group: u32,
    instance: u32,
}

// The payload of a route as an embedded message.
#[tactic(auto, unfolding(crate::specs::Writing::route_bytes))]
fn write_route(
    fields: RouteFields,
    group: Option<u64>,
    instance: Option<&[u8]>,
    out: &mut Vec<u8>,
) -> Result<(), AllocError>
    ensures ok { OnOk result (out.new.items ≡ out.old.items ++ bytes_field fields.payload
        (route_bytes fields.group fields.instance (record { group = group; instance = option_copied instance.entry }))) }
    ensures err { OnErr result (out.new.items ≡ out.old.items) }
{
    let before = out.len();
    write_uint_value(fields.group, group, out)?;
    if write_string_value(fields.instance, instance, out).is_err()
        || write_length_delimited(fields.payload, before, out).is_err()
    {
        return Err(roll_back(out, before));
    }
    Ok(())
}

// The prefix of a route, in the field `key`, and its payload.
fn write_prefix_route(
    key: u32,
    prefix: &[u8],
    fields: RouteFields,
    group: Option<u64>,
    instance: Option<&[u8]>,
    out: &mut Vec<u8>,
) -> Result<(), AllocError>
    ensures ok { OnOk result (out.new.items ≡ out.old.items ++ nonempty_field key prefix.now ++ bytes_field fields.payload
        (route_bytes fields.group fields.instance (record { group = group; instance = option_copied instance.entry }))) }
    ensures err { OnErr result (out.new.items ≡ out.old.items) }
{
    let before = out.len();
    write_nonempty_text(key, prefix, out)?;
    if write_route(fields, group, instance, out).is_err() {
        return Err(roll_back(out, before));
    }
    Ok(())
}

/// Appends the message of an IPv4 entry.
pub fn write_ipv4(
    n: &Numbering,
    prefix: &[u8],
    group: Option<u64>,
    instance: Option<&[u8]>,
    out: &mut Vec<u8>,
) -> Result<(), AllocError>
    ensures ok { OnOk result (out.new.items ≡ out.old.items
        ++ raw_bytes n.now (raw_entry.V4 prefix.now (record { group = group; instance = option_copied instance.entry }))) }
    ensures err { OnErr result (out.new.items ≡ out.old.items) }
{
    let fields = RouteFields {
        payload: n.field(FieldName::Ipv4EntryKeyEntry),
        group: n.field(FieldName::Ipv4LeavesNextHopGroup),
        instance: n.field(FieldName::Ipv4LeavesNextHopGroupNetworkInstance),
    };
    let key = n.field(FieldName::Ipv4EntryKeyPrefix);
    write_prefix_route(key, prefix, fields, group, instance, out)
}

/// Appends the message of an IPv6 entry.
pub fn write_ipv6(
    n: &Numbering,
    prefix: &[u8],
    group: Option<u64>,
    instance: Option<&[u8]>,
    out: &mut Vec<u8>,
) -> Result<(), AllocError>
    ensures ok { OnOk result (out.new.items ≡ out.old.items
        ++ raw_bytes n.now (raw_entry.V6 prefix.now (record { group = group; instance = option_copied instance.entry }))) }
    ensures err { OnErr result (out.new.items ≡ out.old.items) }
{
    let fields = RouteFields {
        payload: n.field(FieldName::Ipv6EntryKeyEntry),
        group: n.field(FieldName::Ipv6LeavesNextHopGroup),
        instance: n.field(FieldName::Ipv6LeavesNextHopGroupNetworkInstance),
    };
    let key = n.field(FieldName::Ipv6EntryKeyPrefix);
    write_prefix_route(key, prefix, fields, group, instance, out)
}

/// Appends the message of an MPLS entry.
pub fn write_mpls(
    n: &Numbering,
    label: Option<u64>,
    group: Option<u64>,
    instance: Option<&[u8]>,
    out: &mut Vec<u8>,
) -> Result<(), AllocError>
    ensures ok { OnOk result (out.new.items ≡ out.old.items
        ++ raw_bytes n.now (raw_entry.Label label (record { group = group; instance = option_copied instance.entry }))) }
    ensures err { OnErr result (out.new.items ≡ out.old.items) }
{
    let before = out.len();
    let fields = RouteFields {
        payload: n.field(FieldName::LabelEntryKeyLabelEntry),
        group: n.field(FieldName::LabelLeavesNextHopGroup),
        instance: n.field(FieldName::LabelLeavesNextHopGroupNetworkInstance),
    };
    write_label(n.field(FieldName::LabelEntryKeyLabelUint64), label, out)?;
    if write_route(fields, group, instance, out).is_err() {
        return Err(roll_back(out, before));
    }
    Ok(())
}

fn write_raw_hop(
    n: &Numbering,
    index: u64,
    hop: &RawHop,
    out: &mut Vec<u8>,
) -> Result<(), AllocError>
    ensures ok { OnOk result (out.new.items ≡ out.old.items ++ raw_bytes n.now (raw_entry.Hop index hop.now)) }
    ensures err { OnErr result (out.new.items ≡ out.old.items) }
{
    let before = out.len();
    write_nonzero_uint(n.field(FieldName::NextHopKeyIndex), index, out)?;
    if write_hop(n, hop, out).is_err() {
        return Err(roll_back(out, before));
    }
    Ok(())
}

fn write_raw_group(
    n: &Numbering,
    id: u64,
    group: &RawGroup,
    out: &mut Vec<u8>,
) -> Result<(), AllocError>
    ensures ok { OnOk result (out.new.items ≡ out.old.items ++ raw_bytes n.now (raw_entry.Group id group.now)) }
    ensures err { OnErr result (out.new.items ≡ out.old.items) }
{
    let before = out.len();
    write_nonzero_uint(n.field(FieldName::NextHopGroupKeyId), id, out)?;
    if write_group(n, group, out).is_err() {
        return Err(roll_back(out, before));
    }
    Ok(())
}

/// Appends the message of an entry as it was sent: the fields in the order of their table, no number that is 0 and no
/// text that is empty but for members of a oneof, and the payload always. Of a MAC or policy entry, whose message is
/// not kept, it appends nothing. Without memory `out` is unchanged.
pub fn encode_raw_entry(n: &Numbering, raw: &RawEntry, out: &mut Vec<u8>) -> Result<(), AllocError>
    ensures ok { OnOk result (out.new.items ≡ out.old.items ++ raw_bytes n.now raw.now) }
    ensures err { OnErr result (out.new.items ≡ out.old.items) }
{
    match raw {
        RawEntry::Hop(index, hop) => write_raw_hop(n, *index, hop, out),
        RawEntry::Group(id, group) => write_raw_group(n, *id, group, out),
        RawEntry::V4(prefix, route) => {
            let instance = text_of(&route.instance);
            write_ipv4(n, prefix.as_str().as_bytes(), route.group, instance, out)
        }
        RawEntry::V6(prefix, route) => {
            let instance = text_of(&route.instance);
            write_ipv6(n, prefix.as_str().as_bytes(), route.group, instance, out)
        }
        RawEntry::Label(label, route) => {
            let instance = text_of(&route.instance);
            write_mpls(n, *label, route.group, instance, out)
        }
        RawEntry::Mac => Ok(()),
        RawEntry::Policy => Ok(()),
    }
}
