//! The head of a request.
ghost use Rattle.std.specs.Prelude.{◌≡◌, ◌≤◌, option_copied, codes};
ghost use Rattle.std.specs.List.{list_all};
ghost use Rattle.std.specs.Str.{bytes_eq};
ghost use Rattle.grpc_heads.specs.Heads as spec;
ghost use Rattle.grpc_heads.specs.Heads.{head_of, first_value};

use crate::status::Status;
use crate::text::Text;
use hpack_tables::{Field, Fields, is_malformed_request};

/// A method of the service `gribi.gRIBI`.
#[derive(Clone, Copy, Debug, PartialEq, Eq)]
pub enum Method {
    /// `/gribi.gRIBI/Modify`: a stream of requests, a stream of responses.
    Modify,
    /// `/gribi.gRIBI/Get`: one request, a stream of responses.
    Get,
    /// `/gribi.gRIBI/Flush`: one request, one response.
    Flush,
}

/// What a request's head asks for.
#[derive(Debug, Drop)]
pub enum HeadRead {
    /// A call of a method that is served.
    Method(Method),
    /// The call ends with this status.
    Status(Status),
    /// The stream ends with this HTTP status alone.
    Http(u16),
    /// The head is malformed (RFC 9113, section 8.1.1).
    Malformed,
    /// There is no memory.
    NoMemory,
}

/// What the head asks for, or the first refusal that it decides. Takes no memory.
#[tactic(auto, unfolding(crate::specs::Heads::head_of))]
pub fn read_request_head(fields: &Fields) -> HeadRead
    ensures { result ≡ head_of fields.now }
{
    let fields = fields.as_slice();
    if is_malformed_request(fields) {
        return HeadRead::Malformed;
    }
    if !is_post(value(fields, b":method")) {
        return HeadRead::Http(405);
    }
    if !is_grpc(value(fields, b"content-type")) {
        return HeadRead::Http(415);
    }
    call_of(fields)
}

fn call_of(fields: &[Field]) -> HeadRead
    ensures { result ≡ spec.call_of fields.now }
{
    let Some(method) = method_of(value(fields, b":path")) else {
        return refusal(12, b"unknown method");
    };
    if is_compressed(value(fields, b"grpc-encoding")) {
        return refusal(12, b"compression is not served");
    }
    if has_bad_timeout(value(fields, b"grpc-timeout")) {
        return refusal(3, b"bad timeout");
    }
    HeadRead::Method(method)
}

fn refusal(code: u8, message: &'static [u8]) -> HeadRead
    requires { code ≤ 16 }
    ensures { result ≡ spec.ends code message.now }
{
    HeadRead::Status(Status {
        code,
        message: Text::fixed(message),
        reason: None,
    })
}

/// The value of the first field of a name.
pub fn value<'a>(fields: &'a [Field], name: &[u8]) -> Option<&'a [u8]>
    ensures { option_copied result ≡ first_value name.now fields.now }
{
    match fields
        .iter()
        .find(|field| equal(field.name.as_slice(), name))
    {
        None => None,
        Some(field) => Some(field.value.as_slice()),
    }
}

fn is_post(value: Option<&[u8]>) -> bool
    ensures { result ≡ spec.is_text (codes "POST") (option_copied value.entry) }
{
    match value {
        None => false,
        Some(value) => equal(value, b"POST"),
    }
}

fn is_grpc(value: Option<&[u8]>) -> bool
    ensures { result ≡ spec.is_grpc (option_copied value.entry) }
{
    match value {
        None => false,
        Some(value) => {
            equal(value, b"application/grpc")
                || value.starts_with(b"application/grpc+")
                || value.starts_with(b"application/grpc;")
        }
    }
}

fn method_of(path: Option<&[u8]>) -> Option<Method>
    ensures { result ≡ spec.method_of (option_copied path.entry) }
{
    let path = path?;
    if equal(path, b"/gribi.gRIBI/Modify") {
        Some(Method::Modify)
    } else if equal(path, b"/gribi.gRIBI/Get") {
        Some(Method::Get)
    } else if equal(path, b"/gribi.gRIBI/Flush") {
        Some(Method::Flush)
    } else {
        None
    }
}

fn is_compressed(encoding: Option<&[u8]>) -> bool
    ensures { result ≡ spec.is_present_but_not (λ value. bytes_eq value (codes "identity")) (option_copied encoding.entry) }
{
    match encoding {
        None => false,
        Some(encoding) => !equal(encoding, b"identity"),
    }
}

fn has_bad_timeout(timeout: Option<&[u8]>) -> bool
    ensures { result ≡ spec.is_present_but_not spec.is_timeout (option_copied timeout.entry) }
{
    match timeout {
        None => false,
        Some(timeout) => !is_timeout(timeout),
    }
}

fn is_timeout(text: &[u8]) -> bool
    ensures { result ≡ spec.is_timeout text.now }
{
    let n = text.len();
    if n < 2 || n > 9 {
        return false;
    }
    let (digits, unit) = text.split_at(n - 1);
    are_digits(digits) && is_unit(unit)
}

fn are_digits(text: &[u8]) -> bool
    ensures { result ≡ list_all spec.is_digit text.now }
{
    text.iter().all(|c| *c >= 48 && *c <= 57)
}

fn is_unit(unit: &[u8]) -> bool
    ensures { result ≡ spec.is_unit unit.now }
{
    equal(unit, b"H")
        || equal(unit, b"M")
        || equal(unit, b"S")
        || equal(unit, b"m")
        || equal(unit, b"u")
        || equal(unit, b"n")
}

/// Whether two texts are the same.
pub fn equal(text: &[u8], other: &[u8]) -> bool
    ensures { result ≡ bytes_eq text.now other.now }
{
    text == other
}
