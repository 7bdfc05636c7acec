ghost use Rattle.std.specs.Prelude.{◌≡◌, ◌++◌, ◌∷◌, ◌≤◌, [], None, IfOk, OnOk, OnErr, length};
ghost use Rattle.std.specs.Option.{option_map_or};
ghost use Rattle.std.specs.List.{flat_map};
ghost use Rattle.gribi_messages.specs.Response.{result_bytes, result_field, params_field, election_field, response_bytes};

use crate::lists::AftResults;
use crate::writers::write_uint128;
use aft_messages::{nonzero_uint_size, write_length_prefix, write_nonzero_uint, write_two_uints};
use proto_wire::roll_back;
use schema_numbers::{FieldName, Numbering};
use std::alloc::{AllocError, Global};

/// What became of an operation: its id, its status as the number on the wire, the moment in nanoseconds, and the
/// reason of a failure.
#[derive(Clone, Copy, Debug, PartialEq, Eq)]
pub struct AftResult {
    pub id: u64,
    pub status: u64,
    pub timestamp: i64,
    /// 0 where there is none.
    pub reason: u64,
}

/// An answer of a Modify call. `params` is the status of the session parameters, as its number on the wire.
#[derive(Debug, Drop)]
pub struct ModifyResponse {
    pub results: AftResults,
    pub params: Option<u64>,
    pub election: Option<u128>,
}

#[tactic(auto, unfolding(crate::specs::Response::result_bytes))]
fn result_size(n: &Numbering, r: &AftResult) -> usize
    ensures { result ≡ length (result_bytes n.now r.now) }
{
    let id = nonzero_uint_size(n.field(FieldName::AftResultId), r.id);
    let status = nonzero_uint_size(n.field(FieldName::AftResultStatus), r.status);
    let timestamp = nonzero_uint_size(
        n.field(FieldName::AftResultTimestamp),
        r.timestamp.cast_unsigned(),
    );
    let reason = nonzero_uint_size(n.field(FieldName::AftResultReason), r.reason);
    id + status + timestamp + reason
}

#[tactic(auto, unfolding(crate::specs::Response::result_bytes))]
fn write_result_numbers(n: &Numbering, r: &AftResult, out: &mut Vec<u8>) -> Result<(), AllocError>
    ensures ok { OnOk result (out.new.items ≡ out.old.items ++ result_bytes n.now r.now) }
    ensures err { OnErr result (out.new.items ≡ out.old.items) }
{
    let before = out.len();
    let timestamp = r.timestamp.cast_unsigned();
    write_two_uints(
        n.field(FieldName::AftResultId),
        r.id,
        n.field(FieldName::AftResultStatus),
        r.status,
        out,
    )?;
    let rest = write_two_uints(
        n.field(FieldName::AftResultTimestamp),
        timestamp,
        n.field(FieldName::AftResultReason),
        r.reason,
        out,
    );
    if rest.is_err() {
        return Err(roll_back(out, before));
    }
    Ok(())
}

#[tactic(auto, unfolding(crate::specs::Response::result_field))]
fn write_result(n: &Numbering, r: &AftResult, out: &mut Vec<u8>) -> Result<(), AllocError>
    ensures ok { OnOk result (out.new.items ≡ out.old.items ++ result_field n.now r.now) }
    ensures err { OnErr result (out.new.items ≡ out.old.items) }
{
    let before = out.len();
    write_length_prefix(
        n.field(FieldName::ModifyResponseResult),
        result_size(n, r),
        out,
    )?;
    if write_result_numbers(n, r, out).is_err() {
        return Err(roll_back(out, before));
    }
    Ok(())
}

fn write_results(n: &Numbering, results: &[AftResult], out: &mut Vec<u8>) -> Result<(), AllocError>
    ensures ok { OnOk result (out.new.items ≡ out.old.items ++ flat_map (result_field n.now) results.now) }
    ensures err { OnErr result (out.new.items ≡ out.old.items) }
{
    let before = out.len();
    for r in results {
        if write_result(n, r, out).is_err() {
            return Err(roll_back(out, before));
        }
    }
    Ok(())
}

#[tactic(auto, unfolding(crate::specs::Response::params_field))]
fn write_params(n: &Numbering, status: u64, out: &mut Vec<u8>) -> Result<(), AllocError>
    ensures ok { OnOk result (out.new.items ≡ out.old.items ++ params_field n.now status) }
    ensures err { OnErr result (out.new.items ≡ out.old.items) }
{
    let before = out.len();
    let inner = n.field(FieldName::SessionParametersResultStatus);
    let outer = n.field(FieldName::ModifyResponseSessionParamsResult);
    write_length_prefix(outer, nonzero_uint_size(inner, status), out)?;
    if write_nonzero_uint(inner, status, out).is_err() {
        return Err(roll_back(out, before));
    }
    Ok(())
}

#[tactic(auto, unfolding(crate::specs::Response::election_field))]
fn write_election(n: &Numbering, id: u128, out: &mut Vec<u8>) -> Result<(), AllocError>
    ensures ok { OnOk result (out.new.items ≡ out.old.items ++ election_field n.now id) }
    ensures err { OnErr result (out.new.items ≡ out.old.items) }
{
    write_uint128(n, n.field(FieldName::ModifyResponseElectionId), id, out)
}

fn write_params_if(n: &Numbering, params: Option<u64>, out: &mut Vec<u8>) -> Result<(), AllocError>
    ensures ok { OnOk result (out.new.items ≡ out.old.items ++ option_map_or (params_field n.now) params []) }
    ensures err { OnErr result (out.new.items ≡ out.old.items) }
{
    match params {
        None => Ok(()),
        Some(status) => write_params(n, status, out),
    }
}

fn write_election_if(
    n: &Numbering,
    election: Option<u128>,
    out: &mut Vec<u8>,
) -> Result<(), AllocError>
    ensures ok { OnOk result (out.new.items ≡ out.old.items ++ option_map_or (election_field n.now) election []) }
    ensures err { OnErr result (out.new.items ≡ out.old.items) }
{
    match election {
        None => Ok(()),
        Some(id) => write_election(n, id, out),
    }
}

/// Appends the one spelling of a response. After want of memory `out` is as before.
#[tactic(auto, unfolding(crate::specs::Response::response_bytes))]
pub fn append_modify_response(
    n: &Numbering,
    r: &ModifyResponse,
    out: &mut Vec<u8>,
) -> Result<(), AllocError>
    ensures ok { OnOk result (out.new.items ≡ out.old.items ++ response_bytes n.now r.now) }
    ensures err { OnErr result (out.new.items ≡ out.old.items) }
{
    let before = out.len();
    write_results(n, r.results.as_slice(), out)?;
    if write_params_if(n, r.params, out).is_err()
        || write_election_if(n, r.election, out).is_err()
    {
        return Err(roll_back(out, before));
    }
    Ok(())
}

/// Appends the one spelling of a response that has this result alone. After want of memory `out` is as before.
#[tactic(auto, unfolding(crate::specs::Response::response_bytes))]
pub fn append_result_response(
    n: &Numbering,
    r: &AftResult,
    out: &mut Vec<u8>,
) -> Result<(), AllocError>
    ensures ok { OnOk result (out.new.items ≡ out.old.items ++ response_bytes n.now (record { results = r.now ∷ []; params = None; election = None })) }
    ensures err { OnErr result (out.new.items ≡ out.old.items) }
{
    write_result(n, r, out)
}

/// The one spelling of a response, or want of memory.
pub fn encode_modify_response(
    alloc: Global,
    n: &Numbering,
    r: &ModifyResponse,
) -> Result<Vec<u8>, AllocError>
    ensures { IfOk result (λ bytes. bytes.items ≡ response_bytes n.now r.now) }
{
    let mut out = Vec::new(alloc);
    append_modify_response(n, r, &mut out)?;
    Ok(out)
}
