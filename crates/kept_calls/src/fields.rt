//! The last header blocks of a server's side.
ghost use Rattle.std.specs.Prelude.{◌≡◌, ◌++◌, ◌≤◌, [], ◌∷◌, codes, IfOk, if◌then◌else◌};
ghost use Rattle.grpc_heads.specs.Written.{field, response_fields, trailer_fields};
ghost use Rattle.kept_calls.specs.Endings.{http_code};

use grpc_heads::{Status, trailers};
use hpack_tables::{Field, Fields};
use schema_numbers::Numbering;
use std::alloc::{AllocError, Global};

/// The last header block of a server's side: trailers, behind the fields of each response where they stand alone.
pub fn last_fields(
    alloc: Global,
    n: &Numbering,
    status: &Status,
    is_alone: bool,
) -> Result<Fields, AllocError>
    ensures { IfOk result (λ fields. fields ≡
        (if is_alone then response_fields ++ trailer_fields n.now status.now else trailer_fields n.now status.now)) }
{
    let fields = trailers(alloc, n, status)?;
    if is_alone {
        behind_response(fields)
    } else {
        Ok(fields)
    }
}

fn behind_response(fields: Fields) -> Result<Fields, AllocError>
    ensures { IfOk result (λ all. all ≡ response_fields ++ fields) }
{
    let mut items = fields.into_vec();
    items.insert(0, Field::from_static(b"content-type", b"application/grpc"))?;
    items.insert(0, Field::from_static(b":status", b"200"))?;
    Ok(Fields::from_vec(items))
}

/// A status of HTTP, which stands alone.
pub fn http_fields(alloc: Global, status: u16) -> Result<Fields, AllocError>
    ensures { IfOk result (λ fields. fields ≡ field (codes ":status") (http_code status) ∷ []) }
{
    let mut fields = Fields::new(alloc);
    fields.push(Field::from_static(b":status", http_text(status)))?;
    Ok(fields)
}

fn http_text(status: u16) -> &'static [u8]
    ensures { result.now ≡ http_code status }
{
    if status == 405 {
        b"405"
    } else if status == 415 {
        b"415"
    } else if status == 400 {
        b"400"
    } else {
        b"500"
    }
}
