//! Laws of heads and trailers. Each is the contract of a function that does nothing: to call it is to cite the law.
ghost use Rattle.std.specs.Prelude.{◌≡◌, ◌<◌, ◌≤◌, ◌^◌, ◌++◌, All, Ok, length, sum_by};
ghost use Rattle.hpack_tables.specs.EntrySizes.{size_of};
ghost use Rattle.schema_numbers.specs.Numbers.{Numbers};
ghost use Rattle.schema_numbers.specs.Valid.{IsValid};
ghost use Rattle.grpc_heads.specs.GrpcStatus.{GrpcStatus};
ghost use Rattle.grpc_heads.specs.Heads.{head_of};
ghost use Rattle.grpc_heads.specs.Trailers.{status_in_trailers};
ghost use Rattle.grpc_heads.specs.Written.{request_fields, response_fields, trailer_fields};
ghost use Rattle.grpc_heads.specs.declared.head.Method.{Method};
ghost use Rattle.grpc_heads.specs.declared.head.HeadRead.TheVariants as head;

/// The head of a request that was written is read again as the same method.
pub fn request_heads_are_read_again()
    ensures { (method : Method) → head_of (request_fields method) ≡ head.Method method }
{}

/// Trailers that were written are read again as the same status.
pub fn trailers_are_read_again()
    ensures { (n : Numbers) (ending : GrpcStatus) → IsValid n → ending.code ≤ 16 →
        All (λ byte. byte < 256) ending.message → length ending.message < 2 ^ 64 →
        status_in_trailers n (trailer_fields n ending) ≡ Ok ending }
{}

/// A response head and the trailers of a status whose message has at most 64 bytes are at most 65,536
/// bytes of fields, so that they may be sent.
pub fn short_trailers_fit()
    ensures { (n : Numbers) (status : GrpcStatus) → length status.message ≤ 64 →
        sum_by size_of (response_fields ++ trailer_fields n status) ≤ 65536 }
{}
