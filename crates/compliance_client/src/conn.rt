ghost use Rattle.std.specs.Prelude.{◌≡◌, [], List};
ghost use Rattle.std.specs.List.{position};
ghost use Rattle.compliance_client.specs.Deeds.{call_name, is_named, is_on};
ghost use Rattle.schema_numbers.specs.Numbers.{Numbers};
ghost use Rattle.grpc_stream.specs.CallTrace.{fresh};
ghost use Rattle.h2_exchange.specs.declared.limits.H2Limits.{H2Limits};
ghost use Rattle.h2_exchange.specs.declared.role.Role.TheVariants.{Client};
ghost use Rattle.h2_frames.specs.declared.frame.Frame.{Frame};
ghost use Rattle.http_connection.specs.ConnectionTrace.{begun};
ghost use Rattle.compliance_client.specs.Standing.{StandsAs};

use crate::kept::{KeptCall, call_name as name_of, place_named, place_on as find_stream};
use crate::over::ClientOver;
use grpc_stream::CallConnection;
use line_verdicts::Tally;
use script_lang::Line;
use std::alloc::Global;

/// A client's end of a connection, over its calls: what the lines of a script sent, and what the server answered.
#[derive(Drop)]
pub struct ClientConn<K: CallConnection> {
    pub(crate) alloc: Global,
    pub(crate) calls: K,
    // The calls that lines began, in their order.
    pub(crate) kept: Vec<KeptCall>,
    pub(crate) tally: Tally,
    // How it is over.
    pub(crate) over: Option<ClientOver>,
}

/// A turn reads at most so many bytes.
pub(crate) const PIECE: usize = 16_384;

impl<K: CallConnection> ClientConn<K> {
    /// A client over calls that nothing was used for yet. Takes no memory.
    pub fn new(alloc: Global, calls: K) -> ClientConn<K>
        ensures stands { (n : Numbers) (limits : H2Limits) (first : List Frame) → K.stands calls (fresh (begun Client limits first) n) →
            StandsAs K.stands n result.over result.calls result.kept.items result.tally
            (record { trace = fresh (begun Client limits first) n; deeds = []; pieces = [] }) }
    {
        ClientConn {
            alloc,
            calls,
            kept: Vec::new(alloc),
            tally: Tally::new(),
            over: None,
        }
    }

    /// The counts of the results of all answers to Modify calls. Takes no memory.
    pub fn tally(&self) -> Tally
        ensures { result ≡ self.now.tally }
    {
        self.tally
    }

    // Where the call that a line is about stands.
    pub(crate) fn place_of(&self, line: &Line) -> Option<usize>
        ensures { result ≡ position (is_named (call_name line.now)) self.now.kept.items }
    {
        place_named(self.kept.as_slice(), name_of(line).as_bytes())
    }

    // Where the call on a stream stands.
    pub(crate) fn place_on(&self, stream: u32) -> Option<usize>
        ensures { result ≡ position (is_on stream) self.now.kept.items }
    {
        find_stream(self.kept.as_slice(), stream)
    }
}
