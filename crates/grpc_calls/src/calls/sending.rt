//! What is taken to be sent, and sent.
ghost use Rattle.std.specs.Prelude.{◌≡◌, ◌≤◌, ◌==◌, ◌++◌, [], ◌∷◌, List, IfOk, OnErr, OnOk, Some, false, true, sum_by};
ghost use Rattle.std.specs.List.{position};
ghost use Rattle.h2_exchange.specs.declared.role.Role.TheVariants.{Client};
ghost use Rattle.grpc_heads.specs.CallEnd as call_end;
ghost use Rattle.grpc_heads.specs.Written.{request_fields, response_fields, trailer_fields};
ghost use Rattle.hpack_tables.specs.EntrySizes.{size_of};
ghost use Rattle.h2_frames.specs.declared.frame.Frame.{Frame};
ghost use Rattle.h2_exchange.specs.StreamParts.{Finish};
ghost use Rattle.http_connection.specs.ConnectionTrace.{wrote};
ghost use Rattle.grpc_stream.specs.CallTrace.{CallTrace, Keeps, changed, is_taking, took};
ghost use Rattle.grpc_stream.specs.Sends.{Pumps};
ghost use Rattle.http_connection.specs.Sends.{BeginsWhere, CarryBlock, SendsWhere};
ghost use Rattle.call_standing.specs.declared.fate.Fate.TheVariants.{Going};
ghost use Rattle.call_standing.specs.Ends as ends;
ghost use Rattle.grpc_calls.specs.Object.{StandAs, ahead_in};

use super::Calls;
use call_sending::{pump_calls, waiting_bytes};
use call_standing::{Fate, statuses_are_written};
use grpc_heads::{Method, Status, request_head};
use h2_exchange::SendFault;
use http_connection::HttpConnection;
use kept_calls::{Call, Ending, Receiving, find_call, last_fields};
use schema_numbers::Numbering;
use std::alloc::AllocError;

// How a server's side ends: where no message was taken, head and trailers are one block.
pub(super) fn last_ending(is_alone: bool) -> Ending
    ensures { result ≡ ends.last_ending is_alone }
{
    if is_alone {
        Ending::Block
    } else {
        Ending::Trailers
    }
}

impl<C: HttpConnection> Calls<C> {
    // Where the call stands on which more may be taken to be sent.
    pub(super) fn taking(&self, stream: u32) -> Result<usize, SendFault>
        ensures at { IfOk result (λ at. position (λ c. c.stream == stream) self.now.calls.items ≡ Some at) }
        ensures going { OnOk result (self.now.fate ≡ Going) }
        ensures sends { (t : CallTrace) → StandAs C.stands C.output self.now t → SendsWhere (is_taking t stream) result }
    {
        match self.fate {
            Fate::Going => {}
            Fate::Starved(_, _) => return Err(SendFault::NoMemory),
            Fate::Refused => return Err(SendFault::NotOpen),
            Fate::Dead(_) => return Err(SendFault::NotOpen),
        }
        if !self.conn.is_open(stream) {
            return Err(SendFault::NotOpen);
        }
        match find_call(self.calls.as_slice(), stream) {
            Some(at) => {
                if self.calls[at].is_ended() {
                    Err(SendFault::NotOpen)
                } else {
                    Ok(at)
                }
            }
            // its head was not given
            None => Err(SendFault::NotOpen),
        }
    }

    // Takes the status that ends the call that stands here.
    pub(super) fn end_at(
        &mut self,
        n: &Numbering,
        stream: u32,
        at: usize,
        status: &Status,
    ) -> Result<(), SendFault>
        requires at { position (λ c. c.stream == stream) self.old.calls.items ≡ Some at }
        requires size { sum_by size_of (response_fields ++ trailer_fields n.now status.now) ≤ 65536 }
        ensures ok { (t : CallTrace) → StandAs C.stands C.output self.old t → t.numbers ≡ n.now → self.old.fate ≡ Going → is_taking t stream ≡ true →
            OnOk result (StandAs C.stands C.output self.new (took stream (Finish (call_end.Status status.now)) t)) }
        ensures err { OnErr result (Keeps (StandAs C.stands C.output self.old) (StandAs C.stands C.output self.new)) }
        ensures sends { SendsWhere true result }
        ensures ahead { ahead_in C.ahead self.new ≡ ahead_in C.ahead self.old }
    {
        let is_alone = !self.calls[at].has_message;
        match last_fields(self.alloc, n, status, is_alone) {
            Ok(fields) => {
                statuses_are_written(n, status);
                self.calls[at].close(last_ending(is_alone), fields);
                Ok(())
            }
            Err(_) => Err(SendFault::NoMemory),
        }
    }

    // Begins a client's call.
    pub(super) fn begin(&mut self, method: Method) -> Result<u32, SendFault>
        requires { (t : CallTrace) × StandAs C.stands C.output self.old t × (t.connection_trace.role ≡ Client) × (self.old.fate ≡ Going) }
        ensures ok { (t : CallTrace) → StandAs C.stands C.output self.old t → IfOk result (λ id. (fs : List Frame) × CarryBlock id false fs
            × StandAs C.stands C.output self.new (record (changed (wrote fs (request_fields method ∷ [])) t) { begun = t.begun ++ (id, method) ∷ [] })) }
        ensures err { OnErr result (Keeps (StandAs C.stands C.output self.old) (StandAs C.stands C.output self.new)) }
        ensures begins { (t : CallTrace) → StandAs C.stands C.output self.old t → BeginsWhere t.connection_trace result }
        ensures ahead { ahead_in C.ahead self.new ≡ ahead_in C.ahead self.old }
    {
        let Ok(fields) = request_head(self.alloc, method) else {
            return Err(SendFault::NoMemory);
        };
        if self.calls.reserve(1).is_err() {
            return Err(SendFault::NoMemory);
        }
        match self.conn.begin(&fields) {
            Ok(stream) => {
                self.calls
                    .push_reserved(Call::new(self.alloc, stream, Receiving::Open, true));
                Ok(stream)
            }
            Err(fault) => Err(fault),
        }
    }

    // Sends what the windows allow. Without memory it hides what it sent, and nothing else comes.
    pub(super) fn pump_going(&mut self) -> Result<(), AllocError>
        ensures ok { (t : CallTrace) → StandAs C.stands C.output self.old t → self.old.fate ≡ Going →
            OnOk result ((u : CallTrace) × StandAs C.stands C.output self.new u × Pumps t u) }
        ensures err { self.old.fate ≡ Going → OnErr result (Keeps (StandAs C.stands C.output self.old) (StandAs C.stands C.output self.new)) }
        ensures ahead { ahead_in C.ahead self.new ≡ ahead_in C.ahead self.old }
    {
        let waiting = waiting_bytes(&self.conn, self.calls.as_slice());
        let shown = self.conn.out().len();
        match pump_calls(self.alloc, &mut self.conn, &mut self.calls) {
            Ok(()) => {
                self.has_stale = true;
                Ok(())
            }
            Err(error) => {
                self.fate = Fate::Starved(shown, waiting);
                Err(error)
            }
        }
    }
}
