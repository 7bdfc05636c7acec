ghost use Rattle.std.specs.Prelude.{◌≡◌, [], IfOk, map};
ghost use Rattle.schema_numbers.specs.Numbers.{field_of};
ghost use Rattle.schema_numbers.specs.declared.names.FieldName.TheVariants as field;
ghost use Rattle.aft_entries.specs.declared.key.Kind.TheVariants as kind;
ghost use Rattle.proto_schema.specs.FieldValues.{repeated_at};
ghost use Rattle.proto_schema.specs.Legal.{first_fault as fault_of};
ghost use Rattle.aft_messages.specs.Decodes.{Decodes};
ghost use Rattle.aft_messages.specs.Reading.{label_of as label_said, member_of as member_said, hop_of as hop_said, group_of as group_said, route_of as route_said, entry_of, key_message as message_of};

use crate::field_values::{embedded_at, read_text, string_value_at, uint_value_at};
use aft_entries::{Kind, RawEntry, RawGroup, RawHop, RawLabels, RawMembers, RawRoute};
use proto_schema::{
    MessageFault, MessageKind, first_fault, last_number_at, number_at, piece_of, text_at,
};
use proto_wire::{FieldReader, Next};
use schema_numbers::{FieldName, Numbering};
use std::alloc::{AllocError, Global};

fn read_labels(alloc: Global, n: &Numbering, bytes: &[u8]) -> Result<RawLabels, AllocError>
    ensures { IfOk result (λ labels. labels ≡ map (label_said n.now) (repeated_at (field_of n.now field.NextHopPushedMplsLabelStack) bytes.now)) }
{
    let wanted = n.field(FieldName::NextHopPushedMplsLabelStack);
    let label = n.field(FieldName::PushedLabelLabelUint64);
    let mut labels = Vec::new(alloc);
    let mut reader = FieldReader::new(bytes);
    loop {
        match reader.next() {
            Next::Field(field) => {
                if let Some(piece) = piece_of(wanted, &field) {
                    labels.push(last_number_at(label, piece))?;
                }
            }
            _ => return Ok(RawLabels::from_vec(labels)),
        }
    }
}

fn read_member(alloc: Global, n: &Numbering, bytes: &[u8]) -> Result<(u64, Option<u64>), AllocError>
    ensures { IfOk result (λ member. member ≡ member_said n.now bytes.now) }
{
    let index = number_at(n.field(FieldName::MemberKeyIndex), bytes);
    let leaves = embedded_at(alloc, n.field(FieldName::MemberKeyNextHop), bytes)?;
    let weight = uint_value_at(
        alloc,
        n.field(FieldName::MemberLeavesWeight),
        leaves.as_bytes(),
    )?;
    Ok((index, weight))
}

fn read_members(alloc: Global, n: &Numbering, bytes: &[u8]) -> Result<RawMembers, AllocError>
    ensures { IfOk result (λ members. members ≡ map (member_said n.now) (repeated_at (field_of n.now field.NextHopGroupNextHop) bytes.now)) }
{
    let wanted = n.field(FieldName::NextHopGroupNextHop);
    let mut members = Vec::new(alloc);
    let mut reader = FieldReader::new(bytes);
    loop {
        match reader.next() {
            Next::Field(field) => {
                if let Some(piece) = piece_of(wanted, &field) {
                    members.push(read_member(alloc, n, piece)?)?;
                }
            }
            _ => return Ok(RawMembers::from_vec(members)),
        }
    }
}

fn no_labels(alloc: Global) -> RawLabels
    ensures { result ≡ [] }
{
    RawLabels::from_vec(Vec::new(alloc))
}

#[tactic(auto, using(crate::proofs::IndexAlone::no_hop, crate::proofs::IndexAlone::no_bytes))]
#[inline(always)]
fn read_hop(alloc: Global, n: &Numbering, bytes: &[u8]) -> Result<RawHop, AllocError>
    ensures { IfOk result (λ hop. hop ≡ hop_said n.now bytes.now) }
{
    // A next hop that is known by its index alone says nothing of these.
    if bytes.is_empty() {
        return Ok(RawHop {
            ip: None,
            mac: None,
            interface: None,
            subinterface: None,
            source: None,
            target: None,
            push: no_labels(alloc),
        });
    }
    read_hop_fields(alloc, n, bytes)
}

// The same of any bytes, field by field.
#[tactic(auto, unfolding(crate::specs::Reading::hop_of))]
fn read_hop_fields(alloc: Global, n: &Numbering, bytes: &[u8]) -> Result<RawHop, AllocError>
    ensures { IfOk result (λ hop. hop ≡ hop_said n.now bytes.now) }
{
    let merged_bytes = embedded_at(alloc, n.field(FieldName::NextHopInterfaceRef), bytes)?;
    let device = merged_bytes.as_bytes();
    let merged_bytes = embedded_at(alloc, n.field(FieldName::NextHopIpInIp), bytes)?;
    let tunnel = merged_bytes.as_bytes();
    let ip = string_value_at(alloc, n.field(FieldName::NextHopIpAddress), bytes)?;
    let mac = string_value_at(alloc, n.field(FieldName::NextHopMacAddress), bytes)?;
    let interface = string_value_at(alloc, n.field(FieldName::InterfaceRefInterface), device)?;
    let subinterface = uint_value_at(alloc, n.field(FieldName::InterfaceRefSubinterface), device)?;
    let source = string_value_at(alloc, n.field(FieldName::IpInIpSrcIp), tunnel)?;
    let target = string_value_at(alloc, n.field(FieldName::IpInIpDstIp), tunnel)?;
    let push = read_labels(alloc, n, bytes)?;
    Ok(RawHop {
        ip,
        mac,
        interface,
        subinterface,
        source,
        target,
        push,
    })
}

#[tactic(auto, unfolding(crate::specs::Reading::group_of))]
fn read_group(alloc: Global, n: &Numbering, bytes: &[u8]) -> Result<RawGroup, AllocError>
    ensures { IfOk result (λ group. group ≡ group_said n.now bytes.now) }
{
    let members = read_members(alloc, n, bytes)?;
    let backup = uint_value_at(
        alloc,
        n.field(FieldName::NextHopGroupBackupNextHopGroup),
        bytes,
    )?;
    Ok(RawGroup { members, backup })
}

// The payload of a route, whose fields have these numbers.
#[tactic(auto, unfolding(crate::specs::Reading::route_of))]
fn read_route(
    alloc: Global,
    group: u32,
    instance: u32,
    bytes: &[u8],
) -> Result<RawRoute, AllocError>
    ensures { IfOk result (λ route. route ≡ route_said group instance bytes.now) }
{
    let group = uint_value_at(alloc, group, bytes)?;
    let instance = string_value_at(alloc, instance, bytes)?;
    Ok(RawRoute { group, instance })
}

fn read_hop_entry(alloc: Global, n: &Numbering, bytes: &[u8]) -> Result<RawEntry, AllocError>
    ensures { IfOk result (λ entry. entry ≡ entry_of n.now kind.Hop bytes.now) }
{
    let index = number_at(n.field(FieldName::NextHopKeyIndex), bytes);
    let payload = embedded_at(alloc, n.field(FieldName::NextHopKeyNextHop), bytes)?;
    Ok(RawEntry::Hop(index, read_hop(alloc, n, payload.as_bytes())?))
}

fn read_group_entry(alloc: Global, n: &Numbering, bytes: &[u8]) -> Result<RawEntry, AllocError>
    ensures { IfOk result (λ entry. entry ≡ entry_of n.now kind.Group bytes.now) }
{
    let id = number_at(n.field(FieldName::NextHopGroupKeyId), bytes);
    let payload = embedded_at(
        alloc,
        n.field(FieldName::NextHopGroupKeyNextHopGroup),
        bytes,
    )?;
    Ok(RawEntry::Group(id, read_group(alloc, n, payload.as_bytes())?))
}

fn read_ipv4_entry(alloc: Global, n: &Numbering, bytes: &[u8]) -> Result<RawEntry, AllocError>
    ensures { IfOk result (λ entry. entry ≡ entry_of n.now kind.V4 bytes.now) }
{
    let prefix = read_text(
        alloc,
        text_at(n.field(FieldName::Ipv4EntryKeyPrefix), bytes),
    )?;
    let payload = embedded_at(alloc, n.field(FieldName::Ipv4EntryKeyEntry), bytes)?;
    let group = n.field(FieldName::Ipv4LeavesNextHopGroup);
    let instance = n.field(FieldName::Ipv4LeavesNextHopGroupNetworkInstance);
    let route = read_route(alloc, group, instance, payload.as_bytes())?;
    Ok(RawEntry::V4(prefix, route))
}

fn read_ipv6_entry(alloc: Global, n: &Numbering, bytes: &[u8]) -> Result<RawEntry, AllocError>
    ensures { IfOk result (λ entry. entry ≡ entry_of n.now kind.V6 bytes.now) }
{
    let prefix = read_text(
        alloc,
        text_at(n.field(FieldName::Ipv6EntryKeyPrefix), bytes),
    )?;
    let payload = embedded_at(alloc, n.field(FieldName::Ipv6EntryKeyEntry), bytes)?;
    let group = n.field(FieldName::Ipv6LeavesNextHopGroup);
    let instance = n.field(FieldName::Ipv6LeavesNextHopGroupNetworkInstance);
    let route = read_route(alloc, group, instance, payload.as_bytes())?;
    Ok(RawEntry::V6(prefix, route))
}

fn read_label_entry(alloc: Global, n: &Numbering, bytes: &[u8]) -> Result<RawEntry, AllocError>
    ensures { IfOk result (λ entry. entry ≡ entry_of n.now kind.Label bytes.now) }
{
    let label = last_number_at(n.field(FieldName::LabelEntryKeyLabelUint64), bytes);
    let payload = embedded_at(alloc, n.field(FieldName::LabelEntryKeyLabelEntry), bytes)?;
    let group = n.field(FieldName::LabelLeavesNextHopGroup);
    let instance = n.field(FieldName::LabelLeavesNextHopGroupNetworkInstance);
    let route = read_route(alloc, group, instance, payload.as_bytes())?;
    Ok(RawEntry::Label(label, route))
}

/// The message of an entry of this kind.
pub fn key_message(kind: Kind) -> MessageKind
    ensures { result ≡ message_of kind }
{
    match kind {
        Kind::Hop => MessageKind::NextHopKey,
        Kind::Group => MessageKind::NextHopGroupKey,
        Kind::V4 => MessageKind::Ipv4EntryKey,
        Kind::V6 => MessageKind::Ipv6EntryKey,
        Kind::Label => MessageKind::LabelEntryKey,
    }
}

/// What the message of an entry of this kind says, or want of memory. It looks for no fault: for bytes whose outermost
/// message has been found to have none.
pub fn read_entry(
    alloc: Global,
    n: &Numbering,
    bytes: &[u8],
    kind: Kind,
) -> Result<RawEntry, AllocError>
    ensures { IfOk result (λ entry. entry ≡ entry_of n.now kind bytes.now) }
{
    match kind {
        Kind::Hop => read_hop_entry(alloc, n, bytes),
        Kind::Group => read_group_entry(alloc, n, bytes),
        Kind::V4 => read_ipv4_entry(alloc, n, bytes),
        Kind::V6 => read_ipv6_entry(alloc, n, bytes),
        Kind::Label => read_label_entry(alloc, n, bytes),
    }
}

/// What the message of an entry of this kind says, or the first fault of the bytes with its place.
pub fn decode_entry(
    alloc: Global,
    n: &Numbering,
    bytes: &[u8],
    kind: Kind,
) -> Result<RawEntry, MessageFault>
    ensures { Decodes result (fault_of n.now (message_of kind) bytes.now) (entry_of n.now kind bytes.now) }
{
    if let Some(fault) = first_fault(n, key_message(kind), bytes) {
        return Err(fault);
    }
    match read_entry(alloc, n, bytes, kind) {
        Ok(entry) => Ok(entry),
        Err(_) => Err(MessageFault::NoMemory),
    }
}
