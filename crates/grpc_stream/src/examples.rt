//! Worked cases of the definitions.
ghost use Rattle.schema_numbers.specs.Numbers.{Numbers};
ghost use Rattle.grpc_stream.specs.Examples.{EndsAreRead, ResetsAreNeeded};

/// An HTTP status stands alone, and a status of gRPC stands in trailers or behind a response's head fields.
pub fn ends_are_read()
    ensures { (n : Numbers) → EndsAreRead n }
{}

/// A call is dropped once only where the stream of its error is reset.
pub fn resets_are_needed()
    ensures { ResetsAreNeeded }
{}
