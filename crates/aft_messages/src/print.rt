ghost use Rattle.std.specs.Prelude.{◌≡◌, ◌<◌, ◌++◌, [], Some, All, IfSome, IfOk, OnOk, OnErr, map, length, slice_index_or};
ghost use Rattle.std.specs.List.{flat_map};
ghost use Rattle.std.specs.Option.{option_map};
ghost use Rattle.proto_wire.specs.Written.{bytes_field};
ghost use Rattle.schema_numbers.specs.Numbers.{field_of};
ghost use Rattle.schema_numbers.specs.declared.names.FieldName.TheVariants as field;
ghost use Rattle.addr_text.specs.Printed.{address_text, mac_text, v4_prefix_text, v6_prefix_text};
ghost use Rattle.aft_entries.specs.declared.operation.RawEntry.TheVariants as raw_entry;
ghost use Rattle.aft_messages.specs.Writing.{pushed_label_field, hop_bytes, member_field, group_bytes, raw_bytes};
ghost use Rattle.aft_messages.specs.Printing.{raw_hop, raw_group, raw_member, raw_route, raw_of, HasKnownInstance};
ghost use Rattle.aft_messages.specs.Encodable.{IsNumber, IsMember, IsGroup, IsHop, IsEncodable, IsReadAgain, raw_kind};

use crate::fields::{write_length_delimited, write_nonzero_uint, write_uint_value};
use crate::write::{
    text_of, write_hop_texts, write_ipv4, write_ipv6, write_member, write_mpls, write_pushed_label,
};
use addr_text::{
    Address, Prefix4, Prefix6, print_addr, print_mac, print_v4_prefix, print_v6_prefix,
};
use aft_entries::{
    Entry, GroupPayload, HopPayload, Instances, KeyName, Member, Name, Payload, RoutePayload,
};
use proto_wire::roll_back;
use schema_numbers::{FieldName, Numbering};
use std::alloc::{AllocError, Global};

// A number has 64 bits by its type: to call this is to cite it.
fn has_64_bits(number: Option<u64>)
    ensures { IsNumber number }
{
    match number {
        None => (),
        Some(_number) => (),
    }
}

fn printed(alloc: Global, address: Option<Address>) -> Result<Option<Name>, AllocError>
    ensures { IfOk result (λ text. text ≡ option_map address_text address) }
{
    match address {
        None => Ok(None),
        Some(address) => {
            let mut text = String::new(alloc);
            print_addr(address, &mut text)?;
            Ok(Some(Name::from_string(text)))
        }
    }
}

fn printed_mac(alloc: Global, mac: Option<[u8; 6]>) -> Result<Option<Name>, AllocError>
    ensures { IfOk result (λ text. text ≡ option_map mac_text mac) }
{
    match mac {
        None => Ok(None),
        Some(mac) => {
            let mut text = String::new(alloc);
            print_mac(mac, &mut text)?;
            Ok(Some(Name::from_string(text)))
        }
    }
}

fn write_labels(n: &Numbering, labels: &[u32], out: &mut Vec<u8>) -> Result<(), AllocError>
    ensures ok { OnOk result (out.new.items ≡ out.old.items ++ flat_map (pushed_label_field n.now) (map Some labels.now)) }
    ensures err { OnErr result (out.new.items ≡ out.old.items) }
    ensures sent { OnOk result (All IsNumber (map Some labels.now)) }
{
    let before = out.len();
    for label in labels {
        if write_pushed_label(n, Some(u64::from(*label)), out).is_err() {
            return Err(roll_back(out, before));
        }
    }
    Ok(())
}

#[tactic(auto, unfolding(crate::specs::Writing::hop_bytes, crate::specs::Printing::raw_hop))]
fn write_hop(
    alloc: Global,
    n: &Numbering,
    hop: &HopPayload,
    out: &mut Vec<u8>,
) -> Result<(), AllocError>
    ensures ok { OnOk result (out.new.items ≡ out.old.items ++ bytes_field (field_of n.now field.NextHopKeyNextHop) (hop_bytes n.now (raw_hop hop.now))) }
    ensures err { OnErr result (out.new.items ≡ out.old.items) }
    ensures sent { OnOk result (IsHop (raw_hop hop.now)) }
{
    let before = out.len();
    has_64_bits(hop.subinterface);
    let ip = printed(alloc, hop.ip)?;
    let mac = printed_mac(alloc, hop.mac)?;
    let source = printed(alloc, hop.source)?;
    let target = printed(alloc, hop.target)?;
    let addresses = (text_of(&ip), text_of(&mac));
    let interface = (text_of(&hop.interface), hop.subinterface);
    let tunnel = (text_of(&source), text_of(&target));
    write_hop_texts(n, addresses, interface, tunnel, out)?;
    if write_labels(n, hop.push.as_slice(), out).is_err()
        || write_length_delimited(n.field(FieldName::NextHopKeyNextHop), before, out).is_err()
    {
        return Err(roll_back(out, before));
    }
    Ok(())
}

fn write_hop_entry(
    alloc: Global,
    n: &Numbering,
    index: u64,
    hop: &HopPayload,
    out: &mut Vec<u8>,
) -> Result<(), AllocError>
    ensures ok { OnOk result (out.new.items ≡ out.old.items ++ raw_bytes n.now (raw_entry.Hop index (raw_hop hop.now))) }
    ensures err { OnErr result (out.new.items ≡ out.old.items) }
    ensures sent { OnOk result (IsEncodable (raw_entry.Hop index (raw_hop hop.now))) }
{
    let before = out.len();
    write_nonzero_uint(n.field(FieldName::NextHopKeyIndex), index, out)?;
    if write_hop(alloc, n, hop, out).is_err() {
        return Err(roll_back(out, before));
    }
    Ok(())
}

fn write_members(n: &Numbering, members: &[Member], out: &mut Vec<u8>) -> Result<(), AllocError>
    ensures ok { OnOk result (out.new.items ≡ out.old.items ++ flat_map (member_field n.now) (map raw_member members.now)) }
    ensures err { OnErr result (out.new.items ≡ out.old.items) }
    ensures sent { OnOk result (All IsMember (map raw_member members.now)) }
{
    let before = out.len();
    for member in members {
        let weight = Some(u64::from(member.weight));
        has_64_bits(Some(member.hop));
        has_64_bits(weight);
        if write_member(n, member.hop, weight, out).is_err() {
            return Err(roll_back(out, before));
        }
    }
    Ok(())
}

#[tactic(auto, unfolding(crate::specs::Writing::group_bytes, crate::specs::Printing::raw_group))]
fn write_group(n: &Numbering, group: &GroupPayload, out: &mut Vec<u8>) -> Result<(), AllocError>
    ensures ok { OnOk result (out.new.items ≡ out.old.items
        ++ bytes_field (field_of n.now field.NextHopGroupKeyNextHopGroup) (group_bytes n.now (raw_group group.now))) }
    ensures err { OnErr result (out.new.items ≡ out.old.items) }
    ensures sent { OnOk result (IsGroup (raw_group group.now)) }
{
    let before = out.len();
    has_64_bits(group.backup);
    let backup = n.field(FieldName::NextHopGroupBackupNextHopGroup);
    let outer = n.field(FieldName::NextHopGroupKeyNextHopGroup);
    write_members(n, group.members.as_slice(), out)?;
    if write_uint_value(backup, group.backup, out).is_err()
        || write_length_delimited(outer, before, out).is_err()
    {
        return Err(roll_back(out, before));
    }
    Ok(())
}

fn write_group_entry(
    n: &Numbering,
    id: u64,
    group: &GroupPayload,
    out: &mut Vec<u8>,
) -> Result<(), AllocError>
    ensures ok { OnOk result (out.new.items ≡ out.old.items ++ raw_bytes n.now (raw_entry.Group id (raw_group group.now))) }
    ensures err { OnErr result (out.new.items ≡ out.old.items) }
    ensures sent { OnOk result (IsEncodable (raw_entry.Group id (raw_group group.now))) }
{
    let before = out.len();
    write_nonzero_uint(n.field(FieldName::NextHopGroupKeyId), id, out)?;
    if write_group(n, group, out).is_err() {
        return Err(roll_back(out, before));
    }
    Ok(())
}

fn write_ipv4_entry(
    alloc: Global,
    n: &Numbering,
    i: &Instances,
    prefix: Prefix4,
    route: &RoutePayload,
    out: &mut Vec<u8>,
) -> Result<(), AllocError>
    requires { route.now.instance < length i.now }
    ensures ok { OnOk result (out.new.items ≡ out.old.items ++ raw_bytes n.now (raw_entry.V4 (v4_prefix_text prefix) (raw_route i.now route.now))) }
    ensures err { OnErr result (out.new.items ≡ out.old.items) }
    ensures sent { OnOk result (IsEncodable (raw_entry.V4 (v4_prefix_text prefix) (raw_route i.now route.now))) }
{
    let mut text = String::new(alloc);
    print_v4_prefix(prefix, &mut text)?;
    has_64_bits(Some(route.group));
    let instance = Some(i.name(route.instance).as_bytes());
    let written = text.as_str().as_bytes();
    write_ipv4(n, written, Some(route.group), instance, out)
}

fn write_ipv6_entry(
    alloc: Global,
    n: &Numbering,
    i: &Instances,
    prefix: Prefix6,
    route: &RoutePayload,
    out: &mut Vec<u8>,
) -> Result<(), AllocError>
    requires { route.now.instance < length i.now }
    ensures ok { OnOk result (out.new.items ≡ out.old.items ++ raw_bytes n.now (raw_entry.V6 (v6_prefix_text prefix) (raw_route i.now route.now))) }
    ensures err { OnErr result (out.new.items ≡ out.old.items) }
    ensures sent { OnOk result (IsEncodable (raw_entry.V6 (v6_prefix_text prefix) (raw_route i.now route.now))) }
{
    let mut text = String::new(alloc);
    print_v6_prefix(prefix, &mut text)?;
    has_64_bits(Some(route.group));
    let instance = Some(i.name(route.instance).as_bytes());
    let written = text.as_str().as_bytes();
    write_ipv6(n, written, Some(route.group), instance, out)
}

fn write_label_entry(
    n: &Numbering,
    i: &Instances,
    label: u32,
    route: &RoutePayload,
    out: &mut Vec<u8>,
) -> Result<(), AllocError>
    requires { route.now.instance < length i.now }
    ensures ok { OnOk result (out.new.items ≡ out.old.items ++ raw_bytes n.now (raw_entry.Label (Some label) (raw_route i.now route.now))) }
    ensures err { OnErr result (out.new.items ≡ out.old.items) }
    ensures sent { OnOk result (IsEncodable (raw_entry.Label (Some label) (raw_route i.now route.now))) }
{
    has_64_bits(Some(route.group));
    let instance = Some(i.name(route.instance).as_bytes());
    write_mpls(n, Some(u64::from(label)), Some(route.group), instance, out)
}

fn write_entry(
    alloc: Global,
    n: &Numbering,
    i: &Instances,
    entry: &Entry,
    out: &mut Vec<u8>,
) -> Result<(), AllocError>
    requires { HasKnownInstance (length i.now) entry.now.payload }
    ensures ok { OnOk result (out.new.items ≡ out.old.items ++ raw_bytes n.now (raw_of i.now entry.now)) }
    ensures err { OnErr result (out.new.items ≡ out.old.items) }
    ensures sent { OnOk result (IsEncodable (raw_of i.now entry.now)) }
{
    match &entry.payload {
        Payload::Hop(hop) => match &entry.key.name {
            KeyName::Hop(index) => write_hop_entry(alloc, n, *index, hop, out),
            _ => Ok(()),
        },
        Payload::Group(group) => match &entry.key.name {
            KeyName::Group(id) => write_group_entry(n, *id, group, out),
            _ => Ok(()),
        },
        Payload::Route(route) => match &entry.key.name {
            KeyName::V4(prefix) => write_ipv4_entry(alloc, n, i, *prefix, route, out),
            KeyName::V6(prefix) => write_ipv6_entry(alloc, n, i, *prefix, route, out),
            KeyName::Label(label) => write_label_entry(n, i, *label, route, out),
            _ => Ok(()),
        },
    }
}

/// Appends the message of an entry: its texts in their printed forms, each weight, and the name of the instance of a
/// route's group, which is one of `i`. What is appended has no fault, and is read as that entry again. Without memory
/// `out` is unchanged.
pub fn encode_entry(
    alloc: Global,
    n: &Numbering,
    i: &Instances,
    entry: &Entry,
    out: &mut Vec<u8>,
) -> Result<(), AllocError>
    requires { HasKnownInstance (length i.now) entry.now.payload }
    ensures ok { OnOk result (out.new.items ≡ out.old.items ++ raw_bytes n.now (raw_of i.now entry.now)) }
    ensures err { OnErr result (out.new.items ≡ out.old.items) }
    ensures sent { OnOk result (IsEncodable (raw_of i.now entry.now)) }
    ensures again { OnOk result (IfSome (raw_kind (raw_of i.now entry.now)) (λ kind. IsReadAgain n.now kind (raw_of i.now entry.now))) }
{
    write_entry(alloc, n, i, entry, out)?;
    n.all_are_valid();
    Ok(())
}
