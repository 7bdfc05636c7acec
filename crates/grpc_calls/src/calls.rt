//! The calls of a connection.
use call_hearing::Pending;
use call_standing::Fate;
use h2_exchange::Role;
use http_connection::HttpConnection;
use kept_calls::Call;
use std::alloc::Global;

/// The calls of gRPC on a connection.
#[derive(Drop)]
pub struct Calls<C> {
    alloc: Global,
    conn: C,
    role: Role,
    calls: Vec<Call>,
    pending: Pending,
    fate: Fate,
    // a call may be over
    has_stale: bool,
}

impl<C: HttpConnection> Calls<C> {
    ghost use Rattle.std.specs.Prelude.{◌≡◌, List, []};
    ghost use Rattle.h2_exchange.specs.declared.limits.H2Limits.{H2Limits};
    ghost use Rattle.h2_frames.specs.declared.frame.Frame.{Frame};
    ghost use Rattle.h2_frames.specs.Layout.{frame_text};
    ghost use Rattle.h2_exchange.specs.Sending.{first_text};
    ghost use Rattle.std.specs.List.{flat_map};
    ghost use Rattle.http_connection.specs.ConnectionTrace.{begun};
    ghost use Rattle.schema_numbers.specs.Numbers.{Numbers};
    ghost use Rattle.grpc_stream.specs.CallTrace.{fresh};
    ghost use Rattle.grpc_calls.specs.Object.{StandAs};

    /// No calls, on a connection that nothing was used for yet. Takes no memory.
    pub fn new(alloc: Global, role: Role, conn: C) -> Calls<C>
        ensures { (limits : H2Limits) (first : List Frame) (n : Numbers) → flat_map frame_text first ≡ first_text role limits →
            C.stands conn (begun role limits first) → StandAs C.stands C.output result (fresh (begun role limits first) n) }
    {
        Calls {
            alloc,
            conn,
            role,
            calls: Vec::new(alloc),
            pending: Pending::Nothing,
            fate: Fate::Going,
            has_stale: false,
        }
    }
}

mod call_connection_impl;
mod receiving;
mod sending;
