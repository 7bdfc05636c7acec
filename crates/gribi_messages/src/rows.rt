ghost use Rattle.std.specs.Prelude.{◌≡◌, ◌<◌, ◌++◌, ◌∷◌, [], All, None, IfOk, OnOk, OnErr, length, map};
ghost use Rattle.std.specs.List.{flat_map};
ghost use Rattle.std.specs.Option.{option_map};
ghost use Rattle.proto_schema.specs.declared.schema.MessageKind.TheVariants as message;
ghost use Rattle.proto_schema.specs.Legal.{first_fault as fault_of};
ghost use Rattle.proto_schema.specs.FieldValues.{oneof_at as oneof_member};
ghost use Rattle.proto_schema.specs.OneofMember.{oneof_member_view};
ghost use Rattle.aft_messages.specs.Decodes.{Decodes};
ghost use Rattle.aft_messages.specs.Printing.{raw_of};
ghost use Rattle.aft_messages.specs.Encodable.{IsEncodable};
ghost use Rattle.gribi_messages.specs.Rows.{row_members, row_entry as entry_said, row_of as row_said, rows_of as rows_said, get_response, row_member, row_entry_field, row_bytes, row_field, rows_bytes, row_as_read, RowHasKnownInstances};
ghost use Rattle.gribi_messages.specs.EncodableMessages.{IsEncodableRow};

use aft_entries::{Instances, KeyName, Kind, Name, RawEntry, Row};
use aft_messages::{
    encode_entry, read_entry, read_text, write_length_delimited, write_nonempty_text,
    write_nonzero_uint, write_two_uints,
};
use proto_schema::{
    MessageFault, MessageKind, OneofMember, first_fault, number_at, oneof_at, piece_of, text_at,
};
use proto_wire::{FieldReader, Next};
use schema_numbers::{FieldName, Numbering, ValueName};
use std::alloc::{AllocError, Global};
use std::marker::Model;
use vec_list::VecList;

/// An entry of an answer to a Get, as it is read. The statuses are their numbers on the wire.
#[derive(Drop)]
pub struct RawRow {
    pub instance: Name,
    pub entry: Option<RawEntry>,
    pub rib_status: u64,
    pub fib_status: u64,
}

/// Entries of an answer to a Get, in their order. Contracts see the list.
pub type RawRows = VecList<RawRow>;

/// A message of an answer to a Get.
#[derive(Drop)]
pub struct GetResponse {
    pub rows: RawRows,
}

// What a member of the oneof of an entry says.
fn entry_of(alloc: Global, n: &Numbering, member: &OneofMember<'_>) -> Result<RawEntry, AllocError>
    ensures { IfOk result (λ entry. entry ≡ entry_said n.now (oneof_member_view member.now)) }
{
    let bytes = member.bytes.as_bytes();
    let number = member.number;
    if number == n.field(FieldName::AftEntryIpv4) {
        read_entry(alloc, n, bytes, Kind::V4)
    } else if number == n.field(FieldName::AftEntryIpv6) {
        read_entry(alloc, n, bytes, Kind::V6)
    } else if number == n.field(FieldName::AftEntryMpls) {
        read_entry(alloc, n, bytes, Kind::Label)
    } else if number == n.field(FieldName::AftEntryNextHopGroup) {
        read_entry(alloc, n, bytes, Kind::Group)
    } else {
        read_entry(alloc, n, bytes, Kind::Hop)
    }
}

fn entry_in(alloc: Global, n: &Numbering, bytes: &[u8]) -> Result<Option<RawEntry>, AllocError>
    ensures { IfOk result (λ entry. entry ≡ option_map (entry_said n.now) (oneof_member (row_members n.now) bytes.now)) }
{
    let members = [
        n.field(FieldName::AftEntryIpv4),
        n.field(FieldName::AftEntryIpv6),
        n.field(FieldName::AftEntryMpls),
        n.field(FieldName::AftEntryNextHopGroup),
        n.field(FieldName::AftEntryNextHop),
    ];
    match oneof_at(alloc, &members, bytes)? {
        None => Ok(None),
        Some(member) => Ok(Some(entry_of(alloc, n, &member)?)),
    }
}

#[tactic(auto, unfolding(crate::specs::Rows::row_of))]
fn row_of(alloc: Global, n: &Numbering, bytes: &[u8]) -> Result<RawRow, AllocError>
    ensures { IfOk result (λ row. row ≡ row_said n.now bytes.now) }
{
    let text = text_at(n.field(FieldName::AftEntryNetworkInstance), bytes);
    let instance = read_text(alloc, text)?;
    let entry = entry_in(alloc, n, bytes)?;
    Ok(RawRow {
        instance,
        entry,
        rib_status: number_at(n.field(FieldName::AftEntryRibStatus), bytes),
        fib_status: number_at(n.field(FieldName::AftEntryFibStatus), bytes),
    })
}

fn rows_of(alloc: Global, n: &Numbering, bytes: &[u8]) -> Result<RawRows, AllocError>
    ensures { IfOk result (λ all. all ≡ rows_said n.now bytes.now) }
{
    let wanted = n.field(FieldName::GetResponseEntry);
    let mut all = RawRows::new(alloc);
    let mut reader = FieldReader::new(bytes);
    loop {
        match reader.next() {
            Next::Field(field) => {
                if let Some(piece) = piece_of(wanted, &field) {
                    all.push(row_of(alloc, n, piece)?)?;
                }
            }
            _ => return Ok(all),
        }
    }
}

/// The message of an answer to a Get that the bytes spell, or the first fault of the bytes with its place.
#[tactic(auto, unfolding(crate::specs::Rows::get_response))]
pub fn decode_get_response(
    alloc: Global,
    n: &Numbering,
    bytes: &[u8],
) -> Result<GetResponse, MessageFault>
    ensures { Decodes result (fault_of n.now message.GetResponse bytes.now) (get_response n.now bytes.now) }
{
    if let Some(fault) = first_fault(n, MessageKind::GetResponse, bytes) {
        return Err(fault);
    }
    match rows_of(alloc, n, bytes) {
        Ok(rows) => Ok(GetResponse { rows }),
        Err(_) => Err(MessageFault::NoMemory),
    }
}

// The number of the member of the oneof that an entry of this name is.
fn member_number(n: &Numbering, name: &KeyName) -> u32
    ensures { result ≡ row_member n.now name.now }
{
    match name {
        KeyName::Hop(_) => n.field(FieldName::AftEntryNextHop),
        KeyName::Group(_) => n.field(FieldName::AftEntryNextHopGroup),
        KeyName::V4(_) => n.field(FieldName::AftEntryIpv4),
        KeyName::V6(_) => n.field(FieldName::AftEntryIpv6),
        KeyName::Label(_) => n.field(FieldName::AftEntryMpls),
    }
}

// The helpers below leave `out` as it may be after want of memory: their caller drops it.
#[tactic(auto, unfolding(crate::specs::Rows::row_entry_field))]
fn write_entry(
    alloc: Global,
    n: &Numbering,
    i: &Instances,
    row: &Row,
    out: &mut Vec<u8>,
) -> Result<(), AllocError>
    requires { RowHasKnownInstances (length i.now) row.now }
    ensures bytes { OnOk result (out.new.items ≡ out.old.items ++ row_entry_field n.now i.now row.now) }
    ensures sent { OnOk result (IsEncodable (raw_of i.now row.now.entry)) }
{
    let before = out.len();
    encode_entry(alloc, n, i, &row.entry, out)?;
    write_length_delimited(member_number(n, &row.entry.key.name), before, out)
}

#[tactic(auto, unfolding(crate::specs::Rows::row_bytes))]
fn write_row_fields(
    alloc: Global,
    n: &Numbering,
    i: &Instances,
    row: &Row,
    out: &mut Vec<u8>,
) -> Result<(), AllocError>
    requires { RowHasKnownInstances (length i.now) row.now }
    ensures bytes { OnOk result (out.new.items ≡ out.old.items ++ row_bytes n.now i.now row.now) }
    ensures row { OnOk result (IsEncodableRow i.now row.now) }
{
    let name = i.name(row.entry.key.instance).as_bytes();
    write_nonempty_text(n.field(FieldName::AftEntryNetworkInstance), name, out)?;
    write_entry(alloc, n, i, row, out)?;
    let programmed = n.value(ValueName::EntryStatusProgrammed);
    let status = if row.installed {
        programmed
    } else {
        n.value(ValueName::EntryStatusNotProgrammed)
    };
    let rib_number = n.field(FieldName::AftEntryRibStatus);
    write_nonzero_uint(rib_number, programmed, out)?;
    write_nonzero_uint(n.field(FieldName::AftEntryFibStatus), status, out)
}

#[tactic(auto, unfolding(crate::specs::Rows::row_field))]
fn write_row(
    alloc: Global,
    n: &Numbering,
    i: &Instances,
    row: &Row,
    out: &mut Vec<u8>,
) -> Result<(), AllocError>
    requires { RowHasKnownInstances (length i.now) row.now }
    ensures bytes { OnOk result (out.new.items ≡ out.old.items ++ row_field n.now i.now row.now) }
    ensures row { OnOk result (IsEncodableRow i.now row.now) }
{
    let before = out.len();
    write_row_fields(alloc, n, i, row, out)?;
    write_length_delimited(n.field(FieldName::GetResponseEntry), before, out)
}

fn write_rows(
    alloc: Global,
    n: &Numbering,
    i: &Instances,
    rows: &[Row],
    out: &mut Vec<u8>,
) -> Result<(), AllocError>
    requires { All (RowHasKnownInstances (length i.now)) rows.now }
    ensures bytes { OnOk result (out.new.items ≡ out.old.items ++ flat_map (row_field n.now i.now) rows.now) }
    ensures rows { OnOk result (All (IsEncodableRow i.now) rows.now) }
{
    for row in rows {
        write_row(alloc, n, i, row, out)?;
    }
    Ok(())
}

/// The one spelling of a message of an answer to a Get that has these entries, or want of memory. Each instance number in
/// them is one of `i`. What is written has no fault, and is read as these entries again: each with its instance's name,
/// its texts in the printed forms, and its statuses.
#[tactic(auto, unfolding(crate::specs::Rows::rows_bytes))]
pub fn encode_get_response(
    alloc: Global,
    n: &Numbering,
    i: &Instances,
    rows: &[Row],
) -> Result<Vec<u8>, AllocError>
    requires { All (RowHasKnownInstances (length i.now)) rows.now }
    ensures bytes { IfOk result (λ bytes. bytes.items ≡ rows_bytes n.now i.now rows.now) }
    ensures again { IfOk result (λ bytes. (fault_of n.now message.GetResponse bytes.items ≡ None)
        × (get_response n.now bytes.items ≡ record { rows = map (row_as_read n.now i.now) rows.now })) }
{
    let mut out = Vec::new(alloc);
    write_rows(alloc, n, i, rows, &mut out)?;
    n.all_are_valid();
    Ok(out)
}
