//! What the frames of a client spell. A law is the contract of a function that does nothing: to call it is to cite the law.
ghost use Rattle.compliance_client.specs.Laws.{AllLinesAreAsked, LinesAreAsked};

use grpc_stream::laws::{all_is_asked, clients_ask};

/// What a client sent, with what waits to be written, spells on each stream a first part of what the lines of its call ask.
pub fn lines_are_asked()
    ensures { LinesAreAsked }
{
    clients_ask()
}

/// It spells all of it, where nothing of the call waits and its end is sent if it was taken.
pub fn all_lines_are_asked()
    ensures { AllLinesAreAsked }
{
    all_is_asked()
}
