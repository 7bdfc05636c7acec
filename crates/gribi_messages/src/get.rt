ghost use Rattle.std.specs.Prelude.{◌≡◌, IfOk, None};
ghost use Rattle.proto_schema.specs.declared.schema.MessageKind.TheVariants as message;
ghost use Rattle.proto_schema.specs.Legal.{first_fault as fault_of};
ghost use Rattle.aft_messages.specs.Decodes.{Decodes};
ghost use Rattle.gribi_messages.specs.GetAndFlush.{get_request, get_bytes};

use crate::asks::GetRequest;
use crate::instance::{instance_of, write_instance};
use aft_messages::write_nonzero_uint;
use proto_schema::{MessageFault, MessageKind, first_fault, number_at};
use schema_numbers::{FieldName, Numbering};
use std::alloc::{AllocError, Global};

#[tactic(auto, unfolding(crate::specs::GetAndFlush::get_request))]
fn request_of(alloc: Global, n: &Numbering, bytes: &[u8]) -> Result<GetRequest, AllocError>
    requires { fault_of n.now message.GetRequest bytes.now ≡ None }
    ensures { IfOk result (λ request. request ≡ get_request n.now bytes.now) }
{
    n.all_are_valid();
    let name = n.field(FieldName::GetRequestName);
    let members = [name, n.field(FieldName::GetRequestAll)];
    Ok(GetRequest {
        instance: instance_of(alloc, name, &members, bytes)?,
        aft: number_at(n.field(FieldName::GetRequestAft), bytes),
    })
}

/// The request of a Get call that the bytes spell, or the first fault of the bytes with its place.
pub fn decode_get(alloc: Global, n: &Numbering, bytes: &[u8]) -> Result<GetRequest, MessageFault>
    ensures { Decodes result (fault_of n.now message.GetRequest bytes.now) (get_request n.now bytes.now) }
{
    if let Some(fault) = first_fault(n, MessageKind::GetRequest, bytes) {
        return Err(fault);
    }
    match request_of(alloc, n, bytes) {
        Ok(request) => Ok(request),
        Err(_) => Err(MessageFault::NoMemory),
    }
}

/// The one spelling of a request of a Get call, or want of memory.
#[tactic(auto, unfolding(crate::specs::GetAndFlush::get_bytes))]
pub fn encode_get_request(
    alloc: Global,
    n: &Numbering,
    r: &GetRequest,
) -> Result<Vec<u8>, AllocError>
    ensures { IfOk result (λ bytes. bytes.items ≡ get_bytes n.now r.now) }
{
    let mut out = Vec::new(alloc);
    let name = n.field(FieldName::GetRequestName);
    let all = n.field(FieldName::GetRequestAll);
    write_instance(name, all, &r.instance, &mut out)?;
    write_nonzero_uint(n.field(FieldName::GetRequestAft), r.aft, &mut out)?;
    Ok(out)
}
