//! What is known of the fields that say a status.
ghost use Rattle.std.specs.Prelude.{◌≡◌, ◌<◌, ◌^◌, ◌++◌, All, Ok, false, length};
ghost use Rattle.grpc_heads.specs.Trailers.{status_in_trailers};
ghost use Rattle.grpc_heads.specs.Written.{response_fields, trailer_fields};
ghost use Rattle.h2_exchange.specs.declared.role.Role.TheVariants.{Client};
ghost use Rattle.h2_exchange.specs.Malformed.{is_malformed_head};

use grpc_heads::{Status, trailers_are_read_again};
use schema_numbers::Numbering;

fn are_bytes(text: &[u8])
    ensures small { All (λ byte. byte < 256) text.now }
    ensures length { length text.now < 2 ^ 64 }
{
    let _length = text.len();
}

/// The trailers of a status are read again as it, and behind the fields of a response they are a well-formed head.
pub fn statuses_are_written(n: &Numbering, status: &Status)
    ensures read { status_in_trailers n.now (trailer_fields n.now status.now) ≡ Ok status.now }
    ensures sound { is_malformed_head Client (response_fields ++ trailer_fields n.now status.now) ≡ false }
{
    n.all_are_valid();
    let _code = status.code;
    are_bytes(status.message.as_slice());
    trailers_are_read_again();
}
