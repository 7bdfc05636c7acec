//! Trailers that are read.
ghost use Rattle.std.specs.Prelude.{◌≡◌, ◌≤◌, ◌⊎◌, ◌==◌, IfOk, IfSome, Err, is_none, option_copied, option_and_then};
ghost use Rattle.std.specs.List.{find};
ghost use Rattle.std.specs.Str.{bytes_eq};
ghost use Rattle.proto_wire.specs.Fields as wire;
ghost use Rattle.proto_schema.specs.FieldValues.{pieces};
ghost use Rattle.grpc_heads.specs.Trailers as spec;
ghost use Rattle.percent_encoding.specs.Percent.{percent_decode};
ghost use Rattle.schema_numbers.specs.Numbers.{value_of};
ghost use Rattle.grpc_heads.specs.Written as written;
ghost use Rattle.grpc_heads.specs.Written.{digits};

use crate::head::{equal, value};
use crate::status::{ModifyReason, Status};
use crate::text::Text;
use crate::written::reason_name;
use base64::DecodeAllocError;
use base64::engine::general_purpose::STANDARD_NO_PAD_INDIFFERENT;
use bytes::Bytes;
use hpack_tables::{Field, Fields};
use percent_encoding::percent_decode;
use proto_schema::{number_at, piece_of, text_at};
use proto_wire::{FieldReader, Next};
use schema_numbers::{FieldName, Numbering};
use std::alloc::{AllocError, Global};

/// Why trailers give no status.
#[derive(Clone, Copy, Debug, PartialEq, Eq)]
pub enum TrailerFault {
    /// There is no `grpc-status`.
    NoStatus,
    /// `grpc-status` isn't a number from 0 to 16 in digits without needless zero.
    BadStatus,
    /// There is no memory.
    NoMemory,
}

static STATUS_CODES: [u8; 17] = [0, 1, 2, 3, 4, 5, 6, 7, 8, 9, 10, 11, 12, 13, 14, 15, 16];

/// The status that trailers give, or their fault.
#[tactic(auto, unfolding(crate::specs::Trailers::status_in_trailers))]
pub fn read_trailers(alloc: Global, n: &Numbering, fields: &Fields) -> Result<Status, TrailerFault>
    ensures { (result ≡ Err TrailerFault.NoMemory) ⊎ (result ≡ spec.status_in_trailers n.now fields.now) }
{
    let fields = fields.as_slice();
    let Some(text) = value(fields, b"grpc-status") else {
        return Err(TrailerFault::NoStatus);
    };
    let Some(code) = code_of(text) else {
        return Err(TrailerFault::BadStatus);
    };
    match status_with(alloc, n, code, fields) {
        Err(_) => Err(TrailerFault::NoMemory),
        Ok(status) => Ok(status),
    }
}

#[tactic(auto, unfolding(crate::specs::Trailers::code_of), using(crate::proofs::Codes::code_within))]
fn code_of(text: &[u8]) -> Option<u8>
    ensures code { result ≡ spec.code_of text.now }
    ensures within { IfSome result (λ code. code ≤ 16) }
{
    code_among(STATUS_CODES.as_slice(), text)
}

#[tactic(auto, using(crate::proofs::Codes::find_here, crate::proofs::Codes::find_next, crate::proofs::Codes::find_end))]
fn code_among(codes: &[u8], text: &[u8]) -> Option<u8>
    ensures { result ≡ find (λ code. bytes_eq (digits code) text.now) codes.now }
{
    'codes: for place in 0..codes.len() {
        let code = codes[place];
        if is_spelled(code, text) {
            return Some(code);
        }
    }
    None
}

fn is_spelled(code: u8, text: &[u8]) -> bool
    ensures { result ≡ bytes_eq (digits code) text.now }
{
    if code < 10 {
        equal([48 + code].as_slice(), text)
    } else {
        equal([48 + code / 10, 48 + code % 10].as_slice(), text)
    }
}

fn status_with(
    alloc: Global,
    n: &Numbering,
    code: u8,
    fields: &[Field],
) -> Result<Status, AllocError>
    requires { code ≤ 16 }
    ensures { IfOk result (λ status. status ≡ spec.status_from_fields n.now code fields.now) }
{
    let message = message_of(alloc, value(fields, b"grpc-message"))?;
    let reason = reason_of(alloc, n, value(fields, b"grpc-status-details-bin"))?;
    Ok(Status {
        code,
        message,
        reason,
    })
}

fn message_of(alloc: Global, text: Option<&[u8]>) -> Result<Text, AllocError>
    ensures { IfOk result (λ message. message ≡ spec.message_of (option_copied text.entry)) }
{
    match text {
        None => Ok(Text::fixed(b"")),
        Some(text) => decoded(alloc, text),
    }
}

fn decoded(alloc: Global, text: &[u8]) -> Result<Text, AllocError>
    ensures { IfOk result (λ message. message ≡ percent_decode text.now) }
{
    let mut bytes = Vec::new(alloc);
    percent_decode(text).append_to(&mut bytes)?;
    Ok(Text::from_bytes(Bytes::from_vec(bytes)?))
}

fn reason_of(
    alloc: Global,
    n: &Numbering,
    text: Option<&[u8]>,
) -> Result<Option<ModifyReason>, AllocError>
    ensures { IfOk result (λ reason. reason ≡ option_and_then (spec.reason_in_text n.now) (option_copied text.entry)) }
{
    match text {
        None => Ok(None),
        Some(text) => reason_in_text(alloc, n, text),
    }
}

fn reason_in_text(
    alloc: Global,
    n: &Numbering,
    text: &[u8],
) -> Result<Option<ModifyReason>, AllocError>
    ensures { IfOk result (λ reason. reason ≡ spec.reason_in_text n.now text.now) }
{
    match STANDARD_NO_PAD_INDIFFERENT.decode(alloc, text) {
        Ok(bytes) => Ok(reason_in_status(n, bytes.as_slice())),
        Err(DecodeAllocError::DecodeError(_)) => Ok(None),
        Err(DecodeAllocError::OutOfMemory) => Err(AllocError),
    }
}

fn reason_in_status(n: &Numbering, bytes: &[u8]) -> Option<ModifyReason>
    ensures { result ≡ spec.reason_in_status n.now bytes.now }
{
    if !is_message(bytes) {
        return None;
    }
    match only_detail(bytes) {
        None => None,
        Some(any) => reason_in_any(n, any),
    }
}

fn reason_in_any(n: &Numbering, bytes: &[u8]) -> Option<ModifyReason>
    ensures { result ≡ spec.reason_in_any n.now bytes.now }
{
    if is_message(bytes)
        && equal(
            text_at(1, bytes),
            b"type.googleapis.com/gribi.ModifyRPCErrorDetails",
        )
    {
        reason_in(n, text_at(2, bytes))
    } else {
        None
    }
}

fn reason_in(n: &Numbering, bytes: &[u8]) -> Option<ModifyReason>
    ensures { result ≡ spec.reason_in n.now bytes.now }
{
    if is_message(bytes) {
        let number = number_at(n.field(FieldName::ModifyRpcErrorDetailsReason), bytes);
        reason_numbered(n, number)
    } else {
        None
    }
}

#[tactic(auto, unfolding(crate::specs::Trailers::reason_numbered))]
fn reason_numbered(n: &Numbering, number: u64) -> Option<ModifyReason>
    ensures { result ≡ spec.reason_numbered n.now number }
{
    if has_number(n, ModifyReason::UnsupportedParams, number) {
        Some(ModifyReason::UnsupportedParams)
    } else if has_number(n, ModifyReason::ModifyNotAllowed, number) {
        Some(ModifyReason::ModifyNotAllowed)
    } else if has_number(n, ModifyReason::ParamsDiffer, number) {
        Some(ModifyReason::ParamsDiffer)
    } else if has_number(n, ModifyReason::ElectionIdInAllPrimary, number) {
        Some(ModifyReason::ElectionIdInAllPrimary)
    } else {
        None
    }
}

fn has_number(n: &Numbering, reason: ModifyReason, number: u64) -> bool
    ensures { result ≡ (value_of n.now (written.reason_name reason) == number) }
{
    n.value(reason_name(reason)) == number
}

fn is_message(bytes: &[u8]) -> bool
    ensures { result ≡ spec.is_message bytes.now }
{
    let mut reader = FieldReader::new(bytes);
    'fields: loop {
        match reader.next() {
            Next::Field(_) => {}
            Next::End => return true,
            Next::Refused(_, _) => return false,
        }
    }
}

// The bytes of the one detail of a google.rpc.Status.
#[tactic(auto, using(crate::proofs::Codes::begins))]
fn only_detail(bytes: &[u8]) -> Option<&[u8]>
    ensures { option_copied result ≡ spec.only (pieces 3 (wire.fields bytes.now).fields) }
{
    let mut found: Option<&[u8]> = None;
    let mut reader = FieldReader::new(bytes);
    'fields: loop {
        match reader.next() {
            Next::Field(field) => {
                if let Some(piece) = piece_of(3, &field) {
                    if found.is_some() {
                        return None;
                    }
                    found = Some(piece);
                }
            }
            _ => return found,
        }
    }
}
