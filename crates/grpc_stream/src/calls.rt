//! What the layers above use of calls.
ghost use Rattle.std.specs.Prelude.{◌≡◌, ◌≤◌, ◌<◌, ◌-◌, ◌^◌, ◌↔◌, ◌+◌, ◌++◌, ◌&&◌, ℕ, List, [], ◌∷◌, true, false, None, length, take, min, sum_by, IsTrue, IfOk, OnOk, OnErr, drop};

use crate::event::CallEvent;
use bytes::Bytes;
use grpc_heads::{Method, Status};
use h2_exchange::SendFault;
use schema_numbers::Numbering;
use std::alloc::AllocError;

/// The calls of gRPC on a connection, of either role: it takes bytes in any pieces, tells what the peer
/// asks or answers, and keeps what it sends until it is dropped. After a refusal it sends nothing, and
/// takes nothing that is to be sent: each of those calls answers `NotOpen`. One that answers `NoMemory`
/// has sent and taken nothing.
pub trait CallConnection: Drop {
    ghost use Rattle.grpc_heads.specs.Written.{request_fields, response_fields, trailer_fields};
    ghost use Rattle.h2_frames.specs.declared.code.TheConstants.ErrorCode as code;
    ghost use Rattle.h2_frames.specs.declared.frame.Frame.{Frame};
    ghost use Rattle.hpack_tables.specs.EntrySizes.{size_of};
    ghost use Rattle.h2_exchange.specs.declared.role.Role.TheVariants.{Client, Server};
    ghost use Rattle.h2_exchange.specs.StreamParts.{Message, Finish};
    ghost use Rattle.h2_exchange.specs.Streams.{is_live};
    ghost use Rattle.http_connection.specs.Answers.{IsBetween};
    ghost use Rattle.http_connection.specs.ConnectionTrace.{dropped_more, fed_more, held, is_alive, wrote};
    ghost use Rattle.http_connection.specs.Sends.{CarryBlock, CarryCredit, CarryReset, BeginsWhere, SendsWhere};
    ghost use Rattle.grpc_stream.specs.NextEvent.{NextEvent, is_event};
    ghost use Rattle.grpc_stream.specs.Sends.{Pumps};
    ghost use Rattle.grpc_heads.specs.CallEnd as call_end;
    ghost use Rattle.grpc_stream.specs.CallTrace.{CallTrace, Keeps, Carries, IsSoundCallTrace, changed, is_taking, took, waiting_in};

    // The calls were used so.
    ghost stands: { Self → CallTrace → Type 0 };

    /// The bytes that wait to be sent, in frames.
    ghost output: { Self → List ℕ };

    // No more is told before more is fed.
    ghost ahead: { Self → ℕ };

    /// Takes the next piece. Calls that have refused take it too, and tell nothing of it. Without memory nothing changes.
    fn feed(&mut self, piece: Bytes) -> Result<(), AllocError>
        ensures ok { OnOk result (Carries (stands self.old) (stands self.new) (changed (fed_more piece))) }
        ensures err { OnErr result (Keeps (stands self.old) (stands self.new)) };

    /// What comes next, or why nothing does. The refusal of a call is taken to be sent by it, and what the
    /// connection sends as it gives its events is sent by it: acknowledgements, credit, the resets of
    /// stream errors, and before a refusal GOAWAY.
    fn next(&mut self, n: &Numbering) -> CallEvent
        ensures says { (t : CallTrace) → stands self.old t → t.numbers ≡ n.now → (u : CallTrace) × stands self.new u × NextEvent t result u }
        ensures ahead { is_event result ≡ true → ahead self.new < ahead self.old };

    /// Begins a client's call, and gives its stream.
    fn call(&mut self, method: Method) -> Result<u32, SendFault>
        requires { (t : CallTrace) × stands self.old t × (t.connection_trace.role ≡ Client) }
        ensures ok { (t : CallTrace) → stands self.old t → IfOk result (λ id. (fs : List Frame) × CarryBlock id false fs
            × stands self.new (record (changed (wrote fs (request_fields method ∷ [])) t) { begun = t.begun ++ (id, method) ∷ [] })) }
        ensures err { OnErr result (Keeps (stands self.old) (stands self.new)) }
        ensures begins { (t : CallTrace) → stands self.old t → BeginsWhere t.connection_trace result }
        ensures ahead { ahead self.new ≡ ahead self.old };

    /// Takes a message that is to be sent on a call.
    fn answer(&mut self, stream: u32, message: Vec<u8>) -> Result<(), SendFault>
        requires size { length message.items < 2 ^ 32 }
        requires limit { (t : CallTrace) → stands self.old t → t.connection_trace.role ≡ Server → length message.items ≤ 4194304 }
        ensures ok { OnOk result (Carries (stands self.old) (stands self.new) (took stream (Message message.items))) }
        ensures err { OnErr result (Keeps (stands self.old) (stands self.new)) }
        ensures sends { (t : CallTrace) → stands self.old t → SendsWhere (is_taking t stream) result }
        ensures ahead { ahead self.new ≡ ahead self.old };

    /// Takes the status that ends a call.
    fn end(&mut self, n: &Numbering, stream: u32, status: Status) -> Result<(), SendFault>
        requires { sum_by size_of (response_fields ++ trailer_fields n.now status) ≤ 65536 }
        ensures ok { (t : CallTrace) → stands self.old t → t.numbers ≡ n.now →
            OnOk result (stands self.new (took stream (Finish (call_end.Status status)) t)) }
        ensures err { OnErr result (Keeps (stands self.old) (stands self.new)) }
        ensures sends { (t : CallTrace) → stands self.old t → SendsWhere (is_taking t stream) result }
        ensures ahead { ahead self.new ≡ ahead self.old };

    /// Takes the end of a client's side of a call.
    fn finish(&mut self, stream: u32) -> Result<(), SendFault>
        ensures ok { OnOk result (Carries (stands self.old) (stands self.new) (took stream (Finish call_end.HalfClose))) }
        ensures err { OnErr result (Keeps (stands self.old) (stands self.new)) }
        ensures sends { (t : CallTrace) → stands self.old t → SendsWhere (is_taking t stream) result }
        ensures ahead { ahead self.new ≡ ahead self.old };

    /// Resets a call with CANCEL.
    fn reset(&mut self, stream: u32) -> Result<(), SendFault>
        ensures ok { (t : CallTrace) → stands self.old t → OnOk result ((fs : List Frame) × CarryReset stream code.CANCEL fs
            × stands self.new (record (changed (wrote fs []) t) { resets = t.resets ++ stream ∷ [] })) }
        ensures err { OnErr result (Keeps (stands self.old) (stands self.new)) }
        ensures sends { (t : CallTrace) → stands self.old t →
            SendsWhere (is_alive t.connection_trace && is_live t.connection_trace.role t.connection_trace.frames stream) result }
        ensures ahead { ahead self.new ≡ ahead self.old };

    /// Holds credit back, or ends that and sends what is owed.
    fn hold_credit(&mut self, hold: bool) -> Result<(), AllocError>
        ensures ok { (t : CallTrace) → stands self.old t → OnOk result ((fs : List Frame) × CarryCredit hold t.connection_trace fs
            × stands self.new (changed (λ c. held hold (wrote fs [] c)) t)) }
        ensures err { OnErr result (Keeps (stands self.old) (stands self.new)) }
        ensures ahead { ahead self.new ≡ ahead self.old };

    /// How many bytes of messages no frame holds yet, at most 2^64 - 1. After a refusal none will.
    fn waiting(&self) -> u64
        ensures { (t : CallTrace) → stands self.now t → t.connection_trace.refusal ≡ None → result ≡ min (waiting_in t) (2 ^ 64 - 1) };

    /// Sends what the windows allow.
    fn pump(&mut self) -> Result<(), AllocError>
        ensures ok { (t : CallTrace) → stands self.old t → OnOk result ((u : CallTrace) × stands self.new u × Pumps t u) }
        ensures err { OnErr result (Keeps (stands self.old) (stands self.new)) }
        ensures ahead { ahead self.new ≡ ahead self.old };

    /// Whether what was fed ends behind the preface or a whole frame, and outside a header block. While
    /// a whole frame waits to be taken it is false.
    fn is_between(&self) -> bool
        ensures between { (t : CallTrace) → stands self.now t → t.connection_trace.refusal ≡ None → IsTrue result ↔ IsBetween t.connection_trace };

    /// The bytes that wait to be sent.
    fn out(&self) -> &[u8]
        ensures { result.now ≡ output self.now };

    /// Drops the first bytes of the output, which were sent.
    fn drop_out(&mut self, n: usize)
        requires { n ≤ length (output self.old) }
        ensures dropped { Carries (stands self.old) (stands self.new) (changed (dropped_more (take n (output self.old)))) }
        ensures output { output self.new ≡ drop n (output self.old) }
        ensures ahead { ahead self.new ≡ ahead self.old };

    ghost sound: { (calls : Self) (t : CallTrace) → stands calls t → IsSoundCallTrace t (output calls) };
}
