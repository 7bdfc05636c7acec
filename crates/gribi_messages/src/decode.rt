ghost use Rattle.std.specs.Prelude.{◌≡◌, ℕ, List, IfOk, IfSome, MatchOption, map, unwrap_or};
ghost use Rattle.std.specs.Option.{option_map};
ghost use Rattle.proto_schema.specs.declared.schema.MessageKind.TheVariants as message;
ghost use Rattle.proto_schema.specs.Legal.{first_fault as fault_of};
ghost use Rattle.proto_schema.specs.FieldValues.{message_at as merged_at, repeated_at};
ghost use Rattle.proto_schema.specs.OneofMember.{oneof_member_view};
ghost use Rattle.schema_numbers.specs.Numbers.{field_of};
ghost use Rattle.aft_messages.specs.Decodes.{Decodes};
ghost use Rattle.aft_messages.specs.Reading.{entry_of as entry_said};
ghost use Rattle.aft_entries.specs.IndexOnly.{index_only_raw, index_only_operation};
ghost use Rattle.aft_entries.specs.declared.operation.RawEntry.TheVariants as entry;
ghost use Rattle.gribi_messages.specs.ScannedFields.{operation_of_scanned};
ghost use Rattle.gribi_messages.specs.Request.{params_of as params_said, uint128_of as uint128_said, op_of as op_said, operation_of as operation_said, member_entry, unread_member as unread_said, entry_members, modify_request, operations_of as operations_said, parameters_of as parameters_said};

use crate::lists::RawOperations;
use crate::pieces::OperationReader;
use crate::request::{ModifyRequest, RawParams};
use crate::scanned::{ScannedFields, numbers_at, scan_fields, scan_header};
use aft_entries::{Kind, Op, RawEntry, RawOperation};
use aft_messages::{index_only_hop_index, read_entry, read_text, text_in};
use proto_schema::{
    MergedBytes, MessageFault, MessageKind, OneofMember, first_fault, message_at, number_at,
};
use schema_numbers::{FieldName, Numbering, ValueName};
use std::alloc::{AllocError, Global};

fn params_of(n: &Numbering, bytes: &[u8]) -> RawParams
    ensures { result ≡ params_said n.now bytes.now }
{
    RawParams {
        redundancy: number_at(n.field(FieldName::SessionParametersRedundancy), bytes),
        persistence: number_at(n.field(FieldName::SessionParametersPersistence), bytes),
        ack: number_at(n.field(FieldName::SessionParametersAckType), bytes),
    }
}

/// A number of 128 bits.
pub fn uint128_of(n: &Numbering, bytes: &[u8]) -> u128
    ensures { result ≡ uint128_said n.now bytes.now }
{
    let high_number = n.field(FieldName::Uint128High);
    let (high, low) = numbers_at(high_number, n.field(FieldName::Uint128Low), bytes);
    let high = u128::from(high.unwrap_or(0));
    high * 0x1_0000_0000_0000_0000 + u128::from(low.unwrap_or(0))
}

/// The operation of a number, where it is in the table.
pub fn op_of(n: &Numbering, number: u64) -> Option<Op>
    ensures { result ≡ op_said n.now number }
{
    if number == n.value(ValueName::OpAdd) {
        Some(Op::Add)
    } else if number == n.value(ValueName::OpReplace) {
        Some(Op::Replace)
    } else if number == n.value(ValueName::OpDelete) {
        Some(Op::Delete)
    } else {
        None
    }
}

/// An election id in an embedded message.
pub fn election_of(
    alloc: Global,
    n: &Numbering,
    wanted: u32,
    bytes: &[u8],
) -> Result<Option<u128>, AllocError>
    ensures { IfOk result (λ id. id ≡ option_map (uint128_said n.now) (merged_at wanted bytes.now)) }
{
    match message_at(alloc, wanted, bytes)? {
        None => Ok(None),
        Some(id) => Ok(Some(uint128_of(n, id.as_bytes()))),
    }
}

// The kind of the entry that a member is, where its bytes are read.
fn kind_of(n: &Numbering, number: u32) -> Option<Kind>
    ensures { (bytes : List ℕ) → MatchOption result (member_entry n.now (number, bytes) ≡ unread_said n.now number)
        (λ kind. member_entry n.now (number, bytes) ≡ entry_said n.now kind bytes) }
{
    if number == n.field(FieldName::AftOperationIpv4) {
        Some(Kind::V4)
    } else if number == n.field(FieldName::AftOperationIpv6) {
        Some(Kind::V6)
    } else if number == n.field(FieldName::AftOperationMpls) {
        Some(Kind::Label)
    } else if number == n.field(FieldName::AftOperationNextHopGroup) {
        Some(Kind::Group)
    } else if number == n.field(FieldName::AftOperationNextHop) {
        Some(Kind::Hop)
    } else {
        None
    }
}

// A member whose bytes are not read.
fn unread_entry(n: &Numbering, number: u32) -> RawEntry
    ensures { result ≡ unread_said n.now number }
{
    if number == n.field(FieldName::AftOperationMacAddress) {
        RawEntry::Mac
    } else {
        RawEntry::Policy
    }
}

// What a member of the oneof of an entry says.
fn entry_of(alloc: Global, n: &Numbering, member: &OneofMember<'_>) -> Result<RawEntry, AllocError>
    ensures { IfOk result (λ entry. entry ≡ member_entry n.now (oneof_member_view member.now)) }
{
    match kind_of(n, member.number) {
        Some(kind) => read_entry(alloc, n, member.bytes.as_bytes(), kind),
        None => Ok(unread_entry(n, member.number)),
    }
}

/// Hears the fields of an operation, which together are what it says.
#[tactic(auto, unfolding(crate::specs::Request::operation_of))]
#[inline(always)]
pub fn scan_operation<'a>(
    alloc: Global,
    n: &Numbering,
    bytes: &'a [u8],
) -> Result<ScannedFields<'a>, AllocError>
    ensures { IfOk result (λ scanned. operation_of_scanned n.now scanned ≡ operation_said n.now bytes.now) }
{
    scan_fields(alloc, n, bytes)
}

// The election id in the message that was heard.
#[inline(always)]
fn scanned_election(n: &Numbering, election: &Option<MergedBytes<'_>>) -> Option<u128>
    ensures { result ≡ option_map (uint128_said n.now) election.now }
{
    match election {
        None => None,
        Some(id) => Some(uint128_of(n, id.as_bytes())),
    }
}

/// What was heard of an operation, put together.
pub fn scanned_operation(
    alloc: Global,
    n: &Numbering,
    scanned: &ScannedFields<'_>,
) -> Result<RawOperation, AllocError>
    ensures { IfOk result (λ operation. operation ≡ operation_of_scanned n.now scanned.now) }
{
    let instance = read_text(alloc, scanned.instance.unwrap_or(&[]))?;
    let election = scanned_election(n, &scanned.election);
    let id = scanned.id.unwrap_or(0);
    let op = op_of(n, scanned.op.unwrap_or(0));
    match &scanned.entry {
        None => Ok(RawOperation {
            id,
            instance,
            op,
            entry: None,
            election,
        }),
        Some(member) => match entry_of(alloc, n, member) {
            Ok(entry) => Ok(RawOperation {
                id,
                instance,
                op,
                entry: Some(entry),
                election,
            }),
            Err(lack) => Err(lack),
        },
    }
}

/// What the bytes of an operation say.
pub fn operation_of(alloc: Global, n: &Numbering, bytes: &[u8]) -> Result<RawOperation, AllocError>
    ensures { IfOk result (λ operation. operation ≡ operation_said n.now bytes.now) }
{
    match scan_operation(alloc, n, bytes) {
        Ok(scanned) => scanned_operation(alloc, n, &scanned),
        Err(lack) => Err(lack),
    }
}

/// An operation on a next hop of which nothing is said but its index.
#[derive(Clone, Copy, Drop)]
pub struct IndexOnlyHop<'a> {
    pub id: u64,
    pub instance: &'a str,
    pub op: Option<Op>,
    pub index: u64,
    pub election: Option<u128>,
}

// The index of the next hop that the member is, where the member says nothing else.
#[inline(always)]
fn index_alone(n: &Numbering, member: &OneofMember<'_>) -> Option<u64>
    ensures { IfSome result (λ index. member_entry n.now (oneof_member_view member.now) ≡ entry.Hop index index_only_raw) }
{
    match kind_of(n, member.number) {
        Some(Kind::Hop) => index_only_hop_index(n, member.bytes.as_bytes()),
        _ => None,
    }
}

/// The operation that was heard, where it is on a next hop of which nothing is said but its index.
#[inline(always)]
pub fn index_only_hop<'a>(n: &Numbering, scanned: &ScannedFields<'a>) -> Option<IndexOnlyHop<'a>>
    ensures { IfSome result (λ bare. operation_of_scanned n.now scanned.now ≡ index_only_operation bare.id bare.instance.now bare.op bare.index bare.election) }
{
    let member = match &scanned.entry {
        None => return None,
        Some(member) => member,
    };
    match index_alone(n, member) {
        None => None,
        Some(index) => Some(IndexOnlyHop {
            id: scanned.id.unwrap_or(0),
            instance: text_in(scanned.instance.unwrap_or(&[])),
            op: op_of(n, scanned.op.unwrap_or(0)),
            index,
            election: scanned_election(n, &scanned.election),
        }),
    }
}

/// The session parameters that a request asks for, and its election id, heard in one pass.
#[tactic(auto, unfolding(crate::specs::Request::modify_request))]
pub fn header_of(
    alloc: Global,
    n: &Numbering,
    bytes: &[u8],
) -> Result<(Option<RawParams>, Option<u128>), AllocError>
    ensures params { IfOk result (λ asks. asks.0 ≡ (modify_request n.now bytes.now).params) }
    ensures election { IfOk result (λ asks. asks.1 ≡ (modify_request n.now bytes.now).election) }
{
    let scanned = scan_header(alloc, n, bytes)?;
    let params = match &scanned.params {
        None => None,
        Some(params) => Some(params_of(n, params.as_bytes())),
    };
    let election = match &scanned.election {
        None => None,
        Some(id) => Some(uint128_of(n, id.as_bytes())),
    };
    Ok((params, election))
}

fn operations_of(alloc: Global, n: &Numbering, bytes: &[u8]) -> Result<RawOperations, AllocError>
    ensures { IfOk result (λ all. all ≡ operations_said n.now bytes.now) }
{
    let mut all = RawOperations::new(alloc);
    let mut pieces = OperationReader::new(n, bytes);
    while let Some(piece) = pieces.next() {
        all.push(operation_of(alloc, n, piece)?)?;
    }
    Ok(all)
}

#[tactic(auto, unfolding(crate::specs::Request::modify_request))]
fn request_of(alloc: Global, n: &Numbering, bytes: &[u8]) -> Result<ModifyRequest, AllocError>
    ensures { IfOk result (λ request. request ≡ modify_request n.now bytes.now) }
{
    let (params, election) = header_of(alloc, n, bytes)?;
    let operations = operations_of(alloc, n, bytes)?;
    Ok(ModifyRequest {
        operations,
        params,
        election,
    })
}

/// The request that the bytes spell, or the first fault of the bytes with its place.
pub fn decode_modify(
    alloc: Global,
    n: &Numbering,
    bytes: &[u8],
) -> Result<ModifyRequest, MessageFault>
    ensures { Decodes result (fault_of n.now message.ModifyRequest bytes.now) (modify_request n.now bytes.now) }
{
    if let Some(fault) = first_fault(n, MessageKind::ModifyRequest, bytes) {
        return Err(fault);
    }
    match request_of(alloc, n, bytes) {
        Ok(request) => Ok(request),
        Err(_) => Err(MessageFault::NoMemory),
    }
}
