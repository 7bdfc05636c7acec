ghost use Rattle.std.specs.Prelude.{◌≡◌, ◌++◌, [], IfOk, OnOk, OnErr, None};
ghost use Rattle.std.specs.Option.{option_map, option_map_or};
ghost use Rattle.proto_schema.specs.declared.schema.MessageKind.TheVariants as message;
ghost use Rattle.proto_schema.specs.Legal.{first_fault as fault_of};
ghost use Rattle.proto_schema.specs.FieldValues.{oneof_at as oneof_member};
ghost use Rattle.aft_messages.specs.Decodes.{Decodes};
ghost use Rattle.gribi_messages.specs.GetAndFlush.{flush_ask as ask_said, flush_election_members, flush_ask_field, flush_request, flush_bytes, flush_response, flush_response_bytes};

use crate::asks::{FlushAsk, FlushRequest, FlushResponse};
use crate::decode::uint128_of;
use crate::instance::{instance_of, write_instance};
use crate::writers::write_uint128;
use aft_messages::write_two_uints;
use proto_schema::{MessageFault, MessageKind, first_fault, number_at, oneof_at};
use proto_wire::write_bytes;
use schema_numbers::{FieldName, Numbering};
use std::alloc::{AllocError, Global};

fn ask_of(alloc: Global, n: &Numbering, bytes: &[u8]) -> Result<Option<FlushAsk>, AllocError>
    ensures { IfOk result (λ ask. ask ≡ option_map (ask_said n.now) (oneof_member (flush_election_members n.now) bytes.now)) }
{
    let id = n.field(FieldName::FlushRequestId);
    let members = [id, n.field(FieldName::FlushRequestOverride)];
    match oneof_at(alloc, &members, bytes)? {
        None => Ok(None),
        Some(chosen) => {
            if chosen.number == id {
                Ok(Some(FlushAsk::Id(uint128_of(n, chosen.bytes.as_bytes()))))
            } else {
                Ok(Some(FlushAsk::Override))
            }
        }
    }
}

#[tactic(auto, unfolding(crate::specs::GetAndFlush::flush_request))]
fn request_of(alloc: Global, n: &Numbering, bytes: &[u8]) -> Result<FlushRequest, AllocError>
    requires { fault_of n.now message.FlushRequest bytes.now ≡ None }
    ensures { IfOk result (λ request. request ≡ flush_request n.now bytes.now) }
{
    n.all_are_valid();
    let name = n.field(FieldName::FlushRequestName);
    let members = [name, n.field(FieldName::FlushRequestAll)];
    let election = ask_of(alloc, n, bytes)?;
    let instance = instance_of(alloc, name, &members, bytes)?;
    Ok(FlushRequest { election, instance })
}

/// The request of a Flush call that the bytes spell, or the first fault of the bytes with its place.
pub fn decode_flush(
    alloc: Global,
    n: &Numbering,
    bytes: &[u8],
) -> Result<FlushRequest, MessageFault>
    ensures { Decodes result (fault_of n.now message.FlushRequest bytes.now) (flush_request n.now bytes.now) }
{
    if let Some(fault) = first_fault(n, MessageKind::FlushRequest, bytes) {
        return Err(fault);
    }
    match request_of(alloc, n, bytes) {
        Ok(request) => Ok(request),
        Err(_) => Err(MessageFault::NoMemory),
    }
}

fn write_ask(n: &Numbering, ask: Option<FlushAsk>, out: &mut Vec<u8>) -> Result<(), AllocError>
    ensures ok { OnOk result (out.new.items ≡ out.old.items ++ option_map_or (flush_ask_field n.now) ask []) }
    ensures err { OnErr result (out.new.items ≡ out.old.items) }
{
    match ask {
        None => Ok(()),
        Some(FlushAsk::Id(id)) => write_uint128(n, n.field(FieldName::FlushRequestId), id, out),
        Some(FlushAsk::Override) => write_bytes(n.field(FieldName::FlushRequestOverride), b"", out),
    }
}

/// The one spelling of a request of a Flush call, or want of memory.
#[tactic(auto, unfolding(crate::specs::GetAndFlush::flush_bytes))]
pub fn encode_flush_request(
    alloc: Global,
    n: &Numbering,
    r: &FlushRequest,
) -> Result<Vec<u8>, AllocError>
    ensures { IfOk result (λ bytes. bytes.items ≡ flush_bytes n.now r.now) }
{
    let mut out = Vec::new(alloc);
    let name = n.field(FieldName::FlushRequestName);
    let all = n.field(FieldName::FlushRequestAll);
    write_ask(n, r.election, &mut out)?;
    write_instance(name, all, &r.instance, &mut out)?;
    Ok(out)
}

/// The answer of a Flush call that the bytes spell, or the first fault of the bytes with its place. It takes no memory.
#[tactic(auto, unfolding(crate::specs::GetAndFlush::flush_response))]
pub fn decode_flush_response(n: &Numbering, bytes: &[u8]) -> Result<FlushResponse, MessageFault>
    ensures { Decodes result (fault_of n.now message.FlushResponse bytes.now) (flush_response n.now bytes.now) }
{
    if let Some(fault) = first_fault(n, MessageKind::FlushResponse, bytes) {
        return Err(fault);
    }
    let timestamp = number_at(n.field(FieldName::FlushResponseTimestamp), bytes);
    Ok(FlushResponse {
        timestamp: timestamp.cast_signed(),
        result: number_at(n.field(FieldName::FlushResponseResult), bytes),
    })
}

/// The one spelling of an answer of a Flush call, or want of memory.
#[tactic(auto, unfolding(crate::specs::GetAndFlush::flush_response_bytes))]
pub fn encode_flush_response(
    alloc: Global,
    n: &Numbering,
    r: FlushResponse,
) -> Result<Vec<u8>, AllocError>
    ensures { IfOk result (λ bytes. bytes.items ≡ flush_response_bytes n.now r) }
{
    let mut out = Vec::new(alloc);
    write_two_uints(
        n.field(FieldName::FlushResponseTimestamp),
        r.timestamp.cast_unsigned(),
        n.field(FieldName::FlushResponseResult),
        r.result,
        &mut out,
    )?;
    Ok(out)
}
