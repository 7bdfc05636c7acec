//! Malformed heads and trailers (RFC 9113, sections 8.1 to 8.3).
ghost use Rattle.std.specs.Prelude.{◌≡◌, ◌==◌, ◌&&◌, ◌||◌, [], ◌∷◌, not, nat_lt, codes};
ghost use Rattle.std.specs.List.{list_all, list_any};
ghost use Rattle.std.specs.Str.{bytes_eq};
ghost use Rattle.http_header.specs.FieldName.{is_header_name};
ghost use Rattle.http_header.specs.Token.{is_value_byte};
ghost use Rattle.hpack_tables.specs.Malformed as spec;

use super::Field;

/// Whether a request's head is malformed.
pub fn is_malformed_request(fields: &[Field]) -> bool
    ensures { result ≡ spec.is_malformed_request fields.now }
{
    has_bad_in_request(fields)
        || has_late_pseudo(fields)
        || has_doubled_in_request(fields)
        || lacks_in_request(fields)
}

/// Whether a response's head is malformed.
pub fn is_malformed_response(fields: &[Field]) -> bool
    ensures { result ≡ spec.is_malformed_response fields.now }
{
    has_bad_in_response(fields)
        || has_late_pseudo(fields)
        || times(fields, b":status") > 1
        || times(fields, b":status") == 0
}

/// Whether trailers are malformed: a pseudo field stands in them.
pub fn is_malformed_trailers(fields: &[Field]) -> bool
    ensures { result ≡ spec.is_malformed_trailers fields.now }
{
    fields.iter().any(|f| is_pseudo(f))
}

fn has_bad_in_request(fields: &[Field]) -> bool
    ensures { result ≡ list_any (spec.is_bad_field spec.request_may_have) fields.now }
{
    fields.iter().any(|f| is_bad_in_request(f))
}

fn has_bad_in_response(fields: &[Field]) -> bool
    ensures { result ≡ list_any (spec.is_bad_field (codes ":status" ∷ [])) fields.now }
{
    fields.iter().any(|f| is_bad_in_response(f))
}

fn is_bad_in_request(field: &Field) -> bool
    ensures { result ≡ spec.is_bad_field spec.request_may_have field.now }
{
    is_bad(field, is_of_request(field.name.as_slice()))
}

fn is_bad_in_response(field: &Field) -> bool
    ensures { result ≡ spec.is_bad_field (codes ":status" ∷ []) field.now }
{
    is_bad(field, equal(b":status", field.name.as_slice()))
}

/// Whether a field of a head is bad, where a pseudo field of its name is known or not.
fn is_bad(field: &Field, is_known: bool) -> bool
    ensures { result ≡ (not (list_all is_value_byte field.now.value) || spec.is_pseudo field.now && not is_known
        || not (spec.is_pseudo field.now) && spec.is_bad_regular field.now) }
{
    !has_value(field) || is_pseudo(field) && !is_known || !is_pseudo(field) && is_bad_regular(field)
}

fn is_bad_regular(field: &Field) -> bool
    ensures { result ≡ spec.is_bad_regular field.now }
{
    !has_name(field) || is_barred(field.name.as_slice()) || is_other_te(field)
}

fn is_other_te(field: &Field) -> bool
    ensures { result ≡ (spec.is_named (codes "te") field.now && not (bytes_eq field.now.value (codes "trailers"))) }
{
    equal(field.name.as_slice(), b"te") && !equal(field.value.as_slice(), b"trailers")
}

fn has_late_pseudo(fields: &[Field]) -> bool
    ensures { result ≡ spec.has_late_pseudo fields.now }
{
    fields
        .iter()
        .skip_while(|f| is_pseudo(*f))
        .any(|f| is_pseudo(f))
}

fn has_doubled_in_request(fields: &[Field]) -> bool
    ensures { result ≡ list_any (λ name. nat_lt 1 (spec.times fields.now name)) spec.request_may_have }
{
    times(fields, b":method") > 1
        || times(fields, b":scheme") > 1
        || times(fields, b":path") > 1
        || times(fields, b":authority") > 1
}

fn lacks_in_request(fields: &[Field]) -> bool
    ensures { result ≡ list_any (λ name. spec.times fields.now name == 0) spec.request_needs }
{
    times(fields, b":method") == 0 || times(fields, b":scheme") == 0 || times(fields, b":path") == 0
}

fn times(fields: &[Field], name: &[u8]) -> usize
    ensures { result ≡ spec.times fields.now name.now }
{
    fields
        .iter()
        .filter(|f| equal(f.name.as_slice(), name))
        .count()
}

fn is_pseudo(field: &Field) -> bool
    ensures { result ≡ spec.is_pseudo field.now }
{
    let name = field.name.as_slice();
    !name.is_empty() && name[0] == b':'
}

fn is_of_request(name: &[u8]) -> bool
    ensures { result ≡ spec.is_among spec.request_may_have name.now }
{
    equal(b":method", name)
        || equal(b":scheme", name)
        || equal(b":path", name)
        || equal(b":authority", name)
}

fn is_barred(name: &[u8]) -> bool
    ensures { result ≡ spec.is_among spec.barred name.now }
{
    equal(b"connection", name)
        || equal(b"proxy-connection", name)
        || equal(b"keep-alive", name)
        || equal(b"transfer-encoding", name)
        || equal(b"upgrade", name)
}

fn has_name(field: &Field) -> bool
    ensures { result ≡ is_header_name field.now.name }
{
    field.has_header_name()
}

fn has_value(field: &Field) -> bool
    ensures { result ≡ list_all is_value_byte field.now.value }
{
    field.has_header_value()
}

fn equal(text: &[u8], other: &[u8]) -> bool
    ensures { result ≡ bytes_eq text.now other.now }
{
    text == other
}
