ghost use Rattle.std.specs.Prelude.{◌≡◌, ◌++◌, [], IfOk, OnOk};
ghost use Rattle.std.specs.List.{flat_map};
ghost use Rattle.std.specs.Option.{option_map_or};
ghost use Rattle.gribi_messages.specs.RequestEncoding.{op_number as op_number_said, member_number as member_number_said, entry_field, id_field, operation_bytes, operation_field, params_bytes, request_params_field, request_bytes};

use crate::request::{ModifyRequest, RawParams};
use crate::writers::write_uint128;
use aft_entries::{Op, RawEntry, RawOperation};
use aft_messages::{
    encode_raw_entry, write_length_delimited, write_nonempty_text, write_nonzero_uint,
    write_two_uints,
};
use schema_numbers::{FieldName, Numbering, ValueName};
use std::alloc::{AllocError, Global};

// The number of an operation on the wire, 0 where it has none.
fn op_number(n: &Numbering, op: Option<Op>) -> u64
    ensures { result ≡ op_number_said n.now op }
{
    match op {
        None => 0,
        Some(Op::Add) => n.value(ValueName::OpAdd),
        Some(Op::Replace) => n.value(ValueName::OpReplace),
        Some(Op::Delete) => n.value(ValueName::OpDelete),
    }
}

// The number of the member of the oneof that an entry is.
fn member_number(n: &Numbering, entry: &RawEntry) -> u32
    ensures { result ≡ member_number_said n.now entry.now }
{
    match entry {
        RawEntry::Hop(_, _) => n.field(FieldName::AftOperationNextHop),
        RawEntry::Group(_, _) => n.field(FieldName::AftOperationNextHopGroup),
        RawEntry::V4(_, _) => n.field(FieldName::AftOperationIpv4),
        RawEntry::V6(_, _) => n.field(FieldName::AftOperationIpv6),
        RawEntry::Label(_, _) => n.field(FieldName::AftOperationMpls),
        RawEntry::Mac => n.field(FieldName::AftOperationMacAddress),
        RawEntry::Policy => n.field(FieldName::AftOperationPolicyForwardingEntry),
    }
}

// The helpers below leave `out` as it may be after want of memory: their caller drops it.
#[tactic(auto, unfolding(crate::specs::RequestEncoding::entry_field))]
fn write_entry(n: &Numbering, entry: &RawEntry, out: &mut Vec<u8>) -> Result<(), AllocError>
    ensures { OnOk result (out.new.items ≡ out.old.items ++ entry_field n.now entry.now) }
{
    let before = out.len();
    encode_raw_entry(n, entry, out)?;
    write_length_delimited(member_number(n, entry), before, out)
}

fn write_entry_if(
    n: &Numbering,
    entry: &Option<RawEntry>,
    out: &mut Vec<u8>,
) -> Result<(), AllocError>
    ensures { OnOk result (out.new.items ≡ out.old.items ++ option_map_or (entry_field n.now) entry.now []) }
{
    match entry {
        None => Ok(()),
        Some(entry) => write_entry(n, entry, out),
    }
}

fn write_id_if(
    n: &Numbering,
    number: u32,
    id: Option<u128>,
    out: &mut Vec<u8>,
) -> Result<(), AllocError>
    ensures { OnOk result (out.new.items ≡ out.old.items ++ option_map_or (id_field n.now number) id []) }
{
    match id {
        None => Ok(()),
        Some(id) => write_uint128(n, number, id, out),
    }
}

#[tactic(auto, unfolding(crate::specs::RequestEncoding::operation_bytes))]
fn write_operation_fields(
    n: &Numbering,
    o: &RawOperation,
    out: &mut Vec<u8>,
) -> Result<(), AllocError>
    ensures { OnOk result (out.new.items ≡ out.old.items ++ operation_bytes n.now o.now) }
{
    write_nonzero_uint(n.field(FieldName::AftOperationId), o.id, out)?;
    let name = o.instance.as_str().as_bytes();
    write_nonempty_text(n.field(FieldName::AftOperationNetworkInstance), name, out)?;
    write_nonzero_uint(n.field(FieldName::AftOperationOp), op_number(n, o.op), out)?;
    write_entry_if(n, &o.entry, out)?;
    write_id_if(
        n,
        n.field(FieldName::AftOperationElectionId),
        o.election,
        out,
    )
}

#[tactic(auto, unfolding(crate::specs::RequestEncoding::operation_field))]
fn write_operation(n: &Numbering, o: &RawOperation, out: &mut Vec<u8>) -> Result<(), AllocError>
    ensures { OnOk result (out.new.items ≡ out.old.items ++ operation_field n.now o.now) }
{
    let before = out.len();
    write_operation_fields(n, o, out)?;
    write_length_delimited(n.field(FieldName::ModifyRequestOperation), before, out)
}

fn write_operations(
    n: &Numbering,
    operations: &[RawOperation],
    out: &mut Vec<u8>,
) -> Result<(), AllocError>
    ensures { OnOk result (out.new.items ≡ out.old.items ++ flat_map (operation_field n.now) operations.now) }
{
    for o in operations {
        write_operation(n, o, out)?;
    }
    Ok(())
}

#[tactic(auto, unfolding(crate::specs::RequestEncoding::params_bytes))]
fn write_param_numbers(n: &Numbering, p: RawParams, out: &mut Vec<u8>) -> Result<(), AllocError>
    ensures { OnOk result (out.new.items ≡ out.old.items ++ params_bytes n.now p) }
{
    let redundancy = n.field(FieldName::SessionParametersRedundancy);
    let persistence = n.field(FieldName::SessionParametersPersistence);
    write_two_uints(redundancy, p.redundancy, persistence, p.persistence, out)?;
    write_nonzero_uint(n.field(FieldName::SessionParametersAckType), p.ack, out)
}

#[tactic(auto, unfolding(crate::specs::RequestEncoding::request_params_field))]
fn write_params(n: &Numbering, p: RawParams, out: &mut Vec<u8>) -> Result<(), AllocError>
    ensures { OnOk result (out.new.items ≡ out.old.items ++ request_params_field n.now p) }
{
    let before = out.len();
    write_param_numbers(n, p, out)?;
    write_length_delimited(n.field(FieldName::ModifyRequestParams), before, out)
}

fn write_params_if(
    n: &Numbering,
    params: Option<RawParams>,
    out: &mut Vec<u8>,
) -> Result<(), AllocError>
    ensures { OnOk result (out.new.items ≡ out.old.items ++ option_map_or (request_params_field n.now) params []) }
{
    match params {
        None => Ok(()),
        Some(params) => write_params(n, params, out),
    }
}

/// The one spelling of a request of a Modify call, or want of memory. An operation without `op` is written without its
/// number, and of a MAC or policy entry no bytes are kept.
#[tactic(auto, unfolding(crate::specs::RequestEncoding::request_bytes))]
pub fn encode_modify_request(
    alloc: Global,
    n: &Numbering,
    r: &ModifyRequest,
) -> Result<Vec<u8>, AllocError>
    ensures { IfOk result (λ bytes. bytes.items ≡ request_bytes n.now r.now) }
{
    let mut out = Vec::new(alloc);
    write_operations(n, r.operations.as_slice(), &mut out)?;
    write_params_if(n, r.params, &mut out)?;
    let number = n.field(FieldName::ModifyRequestElectionId);
    write_id_if(n, number, r.election, &mut out)?;
    Ok(out)
}
