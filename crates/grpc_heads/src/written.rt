//! Heads and trailers that are written.
ghost use Rattle.std.specs.Prelude.{◌≡◌, ◌++◌, ◌≤◌, IfOk, OnOk};
ghost use Rattle.base64.specs.Engines.{standard_no_pad_indifferent};
ghost use Rattle.base64.specs.GeneralPurpose.{encode_of};
ghost use Rattle.grpc_heads.specs.Written as spec;

use crate::head::Method;
use crate::status::{ModifyReason, Status};
use base64::engine::general_purpose::STANDARD_NO_PAD_INDIFFERENT;
use bytes::Bytes;
use hpack_tables::{Field, Fields};
use percent_encoding::{AsciiSet, CONTROLS, percent_encode};
use proto_wire::{write_bytes, write_uint};
use schema_numbers::{FieldName, Numbering, ValueName};
use std::alloc::{AllocError, Global};

const ESCAPED: AsciiSet = percent_encoding::ascii_set!(CONTROLS.add(b'%'));

/// The head with which a client begins a call.
pub fn request_head(alloc: Global, method: Method) -> Result<Fields, AllocError>
    ensures { IfOk result (λ fields. fields ≡ spec.request_fields method) }
{
    let mut fields = Fields::new(alloc);
    fields.push(Field::from_static(b":method", b"POST"))?;
    fields.push(Field::from_static(b":scheme", b"http"))?;
    fields.push(Field::from_static(b":path", path_of(method)))?;
    fields.push(Field::from_static(b":authority", b"localhost"))?;
    fields.push(Field::from_static(b"content-type", b"application/grpc"))?;
    fields.push(Field::from_static(b"te", b"trailers"))?;
    Ok(fields)
}

fn path_of(method: Method) -> &'static [u8]
    ensures { result.now ≡ spec.path_of method }
{
    match method {
        Method::Modify => b"/gribi.gRIBI/Modify",
        Method::Get => b"/gribi.gRIBI/Get",
        Method::Flush => b"/gribi.gRIBI/Flush",
    }
}

/// The head with which a server answers a call, right before the first message.
pub fn response_head(alloc: Global) -> Result<Fields, AllocError>
    ensures { IfOk result (λ fields. fields ≡ spec.response_fields) }
{
    let mut fields = Fields::new(alloc);
    fields.push(Field::from_static(b":status", b"200"))?;
    fields.push(Field::from_static(b"content-type", b"application/grpc"))?;
    Ok(fields)
}

/// The trailers that end a call with this status.
#[tactic(auto, unfolding(crate::specs::Written::trailer_fields))]
pub fn trailers(alloc: Global, n: &Numbering, status: &Status) -> Result<Fields, AllocError>
    ensures { IfOk result (λ fields. fields ≡ spec.trailer_fields n.now status.now) }
{
    let mut fields = Fields::new(alloc);
    fields.push(Field {
        name: Bytes::from_static(b"grpc-status"),
        value: digits(alloc, status.code)?,
    })?;
    push_message(alloc, status.message.as_slice(), &mut fields)?;
    push_reason(alloc, n, status, &mut fields)?;
    Ok(fields)
}

fn digits(alloc: Global, code: u8) -> Result<Bytes, AllocError>
    requires { code ≤ 16 }
    ensures { IfOk result (λ text. text ≡ spec.digits code) }
{
    if code < 10 {
        Bytes::copy_from_slice(alloc, [48 + code].as_slice())
    } else {
        Bytes::copy_from_slice(alloc, [48 + code / 10, 48 + code % 10].as_slice())
    }
}

fn push_message(alloc: Global, message: &[u8], fields: &mut Fields) -> Result<(), AllocError>
    ensures { OnOk result (fields.new ≡ fields.old ++ spec.message_fields message.now) }
{
    if message.is_empty() {
        return Ok(());
    }
    fields.push(Field {
        name: Bytes::from_static(b"grpc-message"),
        value: escaped(alloc, message)?,
    })
}

fn escaped(alloc: Global, message: &[u8]) -> Result<Bytes, AllocError>
    ensures { IfOk result (λ text. text ≡ spec.escaped message.now) }
{
    let mut text = String::new(alloc);
    percent_encode(message, ESCAPED).append_to(&mut text)?;
    Bytes::from_string(text)
}

fn push_reason(
    alloc: Global,
    n: &Numbering,
    status: &Status,
    fields: &mut Fields,
) -> Result<(), AllocError>
    ensures { OnOk result (fields.new ≡ fields.old ++ spec.reason_fields n.now status.now.code status.now.message status.now.reason) }
{
    match status.reason {
        None => Ok(()),
        Some(reason) => fields.push(Field {
            name: Bytes::from_static(b"grpc-status-details-bin"),
            value: details_text(alloc, n, status.code, status.message.as_slice(), reason)?,
        }),
    }
}

fn details_text(
    alloc: Global,
    n: &Numbering,
    code: u8,
    message: &[u8],
    reason: ModifyReason,
) -> Result<Bytes, AllocError>
    ensures { IfOk result (λ text. text ≡ encode_of standard_no_pad_indifferent (spec.details n.now code message.now reason)) }
{
    let details = details(alloc, n, code, message, reason)?;
    let text = STANDARD_NO_PAD_INDIFFERENT.encode(alloc, details.as_slice())?;
    Bytes::from_string(text)
}

// A google.rpc.Status.
#[tactic(auto, unfolding(crate::specs::Written::details))]
fn details(
    alloc: Global,
    n: &Numbering,
    code: u8,
    message: &[u8],
    reason: ModifyReason,
) -> Result<Vec<u8>, AllocError>
    ensures { IfOk result (λ bytes. bytes.items ≡ spec.details n.now code message.now reason) }
{
    let any = any_bytes(alloc, n, reason)?;
    let mut bytes = Vec::new(alloc);
    uint_or_none(1, code as u64, &mut bytes)?;
    bytes_or_none(2, message, &mut bytes)?;
    write_bytes(3, any.as_slice(), &mut bytes)?;
    Ok(bytes)
}

// A google.protobuf.Any of a ModifyRPCErrorDetails.
#[tactic(auto, unfolding(crate::specs::Written::any_bytes))]
fn any_bytes(alloc: Global, n: &Numbering, reason: ModifyReason) -> Result<Vec<u8>, AllocError>
    ensures { IfOk result (λ bytes. bytes.items ≡ spec.any_bytes n.now reason) }
{
    let mut value = Vec::new(alloc);
    let number = n.value(reason_name(reason));
    uint_or_none(
        n.field(FieldName::ModifyRpcErrorDetailsReason),
        number,
        &mut value,
    )?;
    let mut bytes = Vec::new(alloc);
    write_bytes(
        1,
        b"type.googleapis.com/gribi.ModifyRPCErrorDetails",
        &mut bytes,
    )?;
    bytes_or_none(2, value.as_slice(), &mut bytes)?;
    Ok(bytes)
}

/// The name of a reason's value.
pub fn reason_name(reason: ModifyReason) -> ValueName
    ensures { result ≡ spec.reason_name reason }
{
    match reason {
        ModifyReason::UnsupportedParams => ValueName::ModifyReasonUnsupportedParams,
        ModifyReason::ModifyNotAllowed => ValueName::ModifyReasonModifyNotAllowed,
        ModifyReason::ParamsDiffer => ValueName::ModifyReasonParamsDifferFromOtherClients,
        ModifyReason::ElectionIdInAllPrimary => ValueName::ModifyReasonElectionIdInAllPrimary,
    }
}

fn uint_or_none(number: u32, value: u64, out: &mut Vec<u8>) -> Result<(), AllocError>
    ensures { OnOk result (out.new.items ≡ out.old.items ++ spec.uint_or_none number value) }
{
    if value == 0 {
        return Ok(());
    }
    write_uint(number, value, out)
}

fn bytes_or_none(number: u32, value: &[u8], out: &mut Vec<u8>) -> Result<(), AllocError>
    ensures { OnOk result (out.new.items ≡ out.old.items ++ spec.bytes_or_none number value.now) }
{
    if value.is_empty() {
        return Ok(());
    }
    write_bytes(number, value, out)
}
