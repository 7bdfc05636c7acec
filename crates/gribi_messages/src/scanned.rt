ghost use Rattle.std.specs.Prelude.{◌≡◌, [], IfOk, OnOk, unwrap_or};
ghost use Rattle.std.specs.Option.{option_map, option_copied};
ghost use Rattle.proto_wire.specs.Wire.{value_of};
ghost use Rattle.proto_schema.specs.FieldValues.{piece_in, member_in, number_at, text_at, message_at, oneof_at};
ghost use Rattle.proto_schema.specs.OneofMember.{oneof_member_view};
ghost use Rattle.schema_numbers.specs.Numbers.{field_of};
ghost use Rattle.schema_numbers.specs.declared.names.FieldName.TheVariants as field_name;
ghost use Rattle.gribi_messages.specs.Request.{entry_members};
ghost use Rattle.gribi_messages.specs.ScannedFields.{merged_with, oneof_with};

use proto_schema::{
    MergedBytes, OneofMember, member_of, merge_bytes, merge_oneof, number_of, piece_of,
};
use proto_wire::{Field, FieldReader, Next};
use schema_numbers::{FieldName, Numbering};
use std::alloc::{AllocError, Global};

// Adds an occurrence behind others.
#[inline(never)]
fn merge_occurrence<'a>(
    alloc: Global,
    merged_bytes: &mut Option<MergedBytes<'a>>,
    piece: &'a [u8],
) -> Result<(), AllocError>
    ensures { OnOk result (merged_bytes.new ≡ merged_with merged_bytes.old (Some piece.now)) }
{
    *merged_bytes = Some(merge_bytes(alloc, merged_bytes.take(), piece)?);
    Ok(())
}

// Adds the occurrence in this field, where it is one. Most stand alone.
#[inline(always)]
fn scan_occurrence<'a>(
    alloc: Global,
    wanted: u32,
    merged_bytes: &mut Option<MergedBytes<'a>>,
    field: &Field<'a>,
) -> Result<(), AllocError>
    ensures { OnOk result (merged_bytes.new ≡ merged_with merged_bytes.old (piece_in wanted field.now.number (value_of field.now.value))) }
{
    if let Some(piece) = piece_of(wanted, field) {
        if merged_bytes.is_some() {
            return merge_occurrence(alloc, merged_bytes, piece);
        }
        *merged_bytes = Some(MergedBytes::new(piece));
    }
    Ok(())
}

// Adds a member behind others.
#[inline(never)]
fn merge_member<'a>(
    alloc: Global,
    chosen: &mut Option<OneofMember<'a>>,
    number: u32,
    piece: &'a [u8],
) -> Result<(), AllocError>
    ensures { OnOk result (option_map oneof_member_view chosen.new ≡ oneof_with (option_map oneof_member_view chosen.old) (Some (number, piece.now))) }
{
    *chosen = Some(merge_oneof(alloc, chosen.take(), number, piece)?);
    Ok(())
}

// Adds the member in this field, where it is one. Most stand alone.
#[inline(always)]
fn scan_member<'a>(
    alloc: Global,
    among: &[u32],
    chosen: &mut Option<OneofMember<'a>>,
    field: &Field<'a>,
) -> Result<(), AllocError>
    ensures { OnOk result (option_map oneof_member_view chosen.new ≡ oneof_with (option_map oneof_member_view chosen.old)
        (member_in among.now field.now.number (value_of field.now.value))) }
{
    if let Some(piece) = member_of(among, field) {
        if chosen.is_some() {
            return merge_member(alloc, chosen, field.number, piece);
        }
        *chosen = Some(OneofMember {
            number: field.number,
            bytes: MergedBytes::new(piece),
        });
    }
    Ok(())
}

/// The last numbers of two fields, heard in one pass.
#[tactic(auto, using(crate::proofs::TwoNumbers::both))]
pub fn numbers_at(one: u32, other: u32, bytes: &[u8]) -> (Option<u64>, Option<u64>)
    ensures one { unwrap_or result.0 0 ≡ number_at one bytes.now }
    ensures other { unwrap_or result.1 0 ≡ number_at other bytes.now }
{
    let mut first = None;
    let mut second = None;
    let mut reader = FieldReader::new(bytes);
    loop {
        match reader.next() {
            Next::Field(field) => {
                first = number_of(one, &field).or(first);
                second = number_of(other, &field).or(second);
            }
            _ => return (first, second),
        }
    }
}

/// What the fields of an operation say, heard in one pass.
#[derive(Drop)]
pub struct ScannedFields<'a> {
    pub id: Option<u64>,
    pub instance: Option<&'a [u8]>,
    pub op: Option<u64>,
    pub entry: Option<OneofMember<'a>>,
    pub election: Option<MergedBytes<'a>>,
}

// The numbers of the oneof's members.
fn entry_numbers(n: &Numbering) -> [u32; 7]
    ensures { result ≡ entry_members n.now }
{
    [
        n.field(FieldName::AftOperationIpv4),
        n.field(FieldName::AftOperationIpv6),
        n.field(FieldName::AftOperationMpls),
        n.field(FieldName::AftOperationNextHopGroup),
        n.field(FieldName::AftOperationNextHop),
        n.field(FieldName::AftOperationMacAddress),
        n.field(FieldName::AftOperationPolicyForwardingEntry),
    ]
}

/// Hears the fields of an operation.
#[tactic(auto, using(crate::proofs::Scanning::scanned))]
pub fn scan_fields<'a>(
    alloc: Global,
    n: &Numbering,
    bytes: &'a [u8],
) -> Result<ScannedFields<'a>, AllocError>
    ensures id { IfOk result (λ h. unwrap_or h.id 0 ≡ number_at (field_of n.now field_name.AftOperationId) bytes.now) }
    ensures instance { IfOk result (λ h. unwrap_or (option_copied h.instance) [] ≡ text_at (field_of n.now field_name.AftOperationNetworkInstance) bytes.now) }
    ensures op { IfOk result (λ h. unwrap_or h.op 0 ≡ number_at (field_of n.now field_name.AftOperationOp) bytes.now) }
    ensures entry { IfOk result (λ h. option_map oneof_member_view h.entry ≡ oneof_at (entry_members n.now) bytes.now) }
    ensures election { IfOk result (λ h. h.election ≡ message_at (field_of n.now field_name.AftOperationElectionId) bytes.now) }
{
    let id_number = n.field(FieldName::AftOperationId);
    let instance_number = n.field(FieldName::AftOperationNetworkInstance);
    let op_number = n.field(FieldName::AftOperationOp);
    let election_number = n.field(FieldName::AftOperationElectionId);
    let members = entry_numbers(n);
    let mut id = None;
    let mut instance = None;
    let mut op = None;
    let mut entry = None;
    let mut election = None;
    let mut reader = FieldReader::new(bytes);
    loop {
        match reader.next() {
            Next::Field(field) => {
                id = number_of(id_number, &field).or(id);
                instance = piece_of(instance_number, &field).or(instance);
                op = number_of(op_number, &field).or(op);
                scan_member(alloc, &members, &mut entry, &field)?;
                scan_occurrence(alloc, election_number, &mut election, &field)?;
            }
            _ => {
                return Ok(ScannedFields {
                    id,
                    instance,
                    op,
                    entry,
                    election,
                });
            }
        }
    }
}

/// What a request asks for beside its operations, heard in one pass.
#[derive(Drop)]
pub struct ScannedHeader<'a> {
    pub params: Option<MergedBytes<'a>>,
    pub election: Option<MergedBytes<'a>>,
}

/// Hears the session parameters and the election id of a request.
#[tactic(auto, using(crate::proofs::Scanning::header_scanned))]
pub fn scan_header<'a>(
    alloc: Global,
    n: &Numbering,
    bytes: &'a [u8],
) -> Result<ScannedHeader<'a>, AllocError>
    ensures params { IfOk result (λ h. h.params ≡ message_at (field_of n.now field_name.ModifyRequestParams) bytes.now) }
    ensures election { IfOk result (λ h. h.election ≡ message_at (field_of n.now field_name.ModifyRequestElectionId) bytes.now) }
{
    let params_number = n.field(FieldName::ModifyRequestParams);
    let election_number = n.field(FieldName::ModifyRequestElectionId);
    let mut params = None;
    let mut election = None;
    let mut reader = FieldReader::new(bytes);
    loop {
        match reader.next() {
            Next::Field(field) => {
                scan_occurrence(alloc, params_number, &mut params, &field)?;
                scan_occurrence(alloc, election_number, &mut election, &field)?;
            }
            _ => return Ok(ScannedHeader { params, election }),
        }
    }
}
