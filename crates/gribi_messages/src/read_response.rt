ghost use Rattle.std.specs.Prelude.{◌≡◌, IfOk};
ghost use Rattle.proto_schema.specs.declared.schema.MessageKind.TheVariants as message;
ghost use Rattle.proto_schema.specs.Legal.{first_fault as fault_of};
ghost use Rattle.aft_messages.specs.Decodes.{Decodes};
ghost use Rattle.gribi_messages.specs.Response.{result_of as result_said, results_of as results_said, statuses_of, modify_response};

use crate::decode::election_of;
use crate::lists::AftResults;
use crate::response::{AftResult, ModifyResponse};
use proto_schema::{MessageFault, MessageKind, first_fault, message_at, number_at, piece_of};
use proto_wire::{FieldReader, Next};
use schema_numbers::{FieldName, Numbering};
use std::alloc::{AllocError, Global};

#[tactic(auto, unfolding(crate::specs::Response::result_of))]
fn result_of(n: &Numbering, bytes: &[u8]) -> AftResult
    ensures { result ≡ result_said n.now bytes.now }
{
    let timestamp = number_at(n.field(FieldName::AftResultTimestamp), bytes);
    AftResult {
        id: number_at(n.field(FieldName::AftResultId), bytes),
        status: number_at(n.field(FieldName::AftResultStatus), bytes),
        timestamp: timestamp.cast_signed(),
        reason: number_at(n.field(FieldName::AftResultReason), bytes),
    }
}

fn results_of(alloc: Global, n: &Numbering, bytes: &[u8]) -> Result<AftResults, AllocError>
    ensures { IfOk result (λ all. all ≡ results_said n.now bytes.now) }
{
    let wanted = n.field(FieldName::ModifyResponseResult);
    let mut all = AftResults::new(alloc);
    let mut reader = FieldReader::new(bytes);
    loop {
        match reader.next() {
            Next::Field(field) => {
                if let Some(piece) = piece_of(wanted, &field) {
                    all.push(result_of(n, piece))?;
                }
            }
            _ => return Ok(all),
        }
    }
}

fn status_of(alloc: Global, n: &Numbering, bytes: &[u8]) -> Result<Option<u64>, AllocError>
    ensures { IfOk result (λ status. status ≡ statuses_of n.now bytes.now) }
{
    let wanted = n.field(FieldName::ModifyResponseSessionParamsResult);
    let status = n.field(FieldName::SessionParametersResultStatus);
    match message_at(alloc, wanted, bytes)? {
        None => Ok(None),
        Some(params) => Ok(Some(number_at(status, params.as_bytes()))),
    }
}

#[tactic(auto, unfolding(crate::specs::Response::modify_response))]
fn response_of(alloc: Global, n: &Numbering, bytes: &[u8]) -> Result<ModifyResponse, AllocError>
    ensures { IfOk result (λ response. response ≡ modify_response n.now bytes.now) }
{
    let results = results_of(alloc, n, bytes)?;
    let params = status_of(alloc, n, bytes)?;
    let election = election_of(
        alloc,
        n,
        n.field(FieldName::ModifyResponseElectionId),
        bytes,
    )?;
    Ok(ModifyResponse {
        results,
        params,
        election,
    })
}

/// The answer of a Modify call that the bytes spell, or the first fault of the bytes with its place.
pub fn decode_modify_response(
    alloc: Global,
    n: &Numbering,
    bytes: &[u8],
) -> Result<ModifyResponse, MessageFault>
    ensures { Decodes result (fault_of n.now message.ModifyResponse bytes.now) (modify_response n.now bytes.now) }
{
    if let Some(fault) = first_fault(n, MessageKind::ModifyResponse, bytes) {
        return Err(fault);
    }
    match response_of(alloc, n, bytes) {
        Ok(response) => Ok(response),
        Err(_) => Err(MessageFault::NoMemory),
    }
}
