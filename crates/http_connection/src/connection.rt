//! What the layers above use of a connection.
ghost use Rattle.std.specs.Prelude.{Err, ◌+◌, ◌≡◌, ◌≤◌, ◌<◌, ◌↔◌, ◌&&◌, ℕ, List, [], ◌∷◌, true, false, None, length, take, sum_by, IsTrue, IfOk, OnOk, OnErr, drop};

use crate::event::H2Event;
use bytes::Bytes;
use h2_exchange::SendFault;
use h2_frames::ErrorCode;
use hpack_tables::Fields;
use std::alloc::AllocError;

/// A connection of HTTP/2: it takes bytes in any pieces, gives the events that they spell, and keeps
/// what it sends until it is dropped. After a refusal it sends nothing: each sending call answers
/// `NotOpen`. A sending call that answers `NoMemory` has sent nothing.
pub trait HttpConnection: Drop {
    ghost use Rattle.h2_frames.specs.declared.frame.Frame.{Frame};
    ghost use Rattle.h2_exchange.specs.declared.role.Role.TheVariants.{Client, Server};
    ghost use Rattle.h2_exchange.specs.declared.fault.SendFault.TheVariants.{NoMemory};
    ghost use Rattle.h2_exchange.specs.Streams.{is_live, is_open};
    ghost use Rattle.h2_exchange.specs.Windows.{placed_of};
    ghost use Rattle.hpack_tables.specs.EntrySizes.{size_of};
    ghost use Rattle.http_connection.specs.Answers.{Answers, IsBetween, is_event, size_in};
    ghost use Rattle.http_connection.specs.ConnectionTrace.{ConnectionTrace, Carries, Keeps, IsSound, is_alive, fed_more, dropped_more, held, wrote};
    ghost use Rattle.http_connection.specs.Sends.{CarryBlock, CarryPiece, CarryReset, CarryCredit, BeginsWhere, SendsWhere, block_room};

    // The connection was used so.
    ghost stands: { Self → ConnectionTrace → Type 0 };

    /// The bytes that wait to be sent.
    ghost output: { Self → List ℕ };

    // How many events can come before more is fed, at most.
    ghost ahead: { Self → ℕ };

    // So many bytes can be sent without memory.
    ghost room: { Self → ℕ };

    /// Makes room to send so many bytes without memory. Without memory nothing changes.
    fn reserve(&mut self, more: usize) -> Result<(), AllocError>
        ensures room { OnOk result (more ≤ room self.new) }
        ensures kept { Keeps (stands self.old) (stands self.new) }
        ensures output { output self.new ≡ output self.old }
        ensures ahead { ahead self.new ≡ ahead self.old };

    /// Whether the stream is live, unless the connection has refused: behind that nothing is said of streams.
    fn is_live(&self, stream: u32) -> bool
        ensures { (c : ConnectionTrace) → stands self.now c → c.refusal ≡ None → result ≡ is_live c.role c.frames stream };

    /// Whether the stream is live and this side has not ended it, unless the connection has refused.
    fn is_open(&self, stream: u32) -> bool
        ensures { (c : ConnectionTrace) → stands self.now c → c.refusal ≡ None → result ≡ is_open c.role c.frames stream };

    /// Takes the next piece. A connection that has refused takes it too, and gives nothing of it. Without memory nothing changes.
    fn feed(&mut self, piece: Bytes) -> Result<(), AllocError>
        ensures ok { OnOk result (Carries (stands self.old) (stands self.new) (fed_more piece)) }
        ensures err { OnErr result (Keeps (stands self.old) (stands self.new)) };

    /// The next event, or why there is none. Acknowledgements, credit, and the reset of a stream error are
    /// sent by it, and before a refusal GOAWAY.
    fn next_event(&mut self) -> H2Event
        ensures answers { (c : ConnectionTrace) → stands self.old c → (d : ConnectionTrace) × stands self.new d × Answers c result d }
        ensures size { size_in result ≤ 16384 }
        ensures ahead { is_event result ≡ true → ahead self.new < ahead self.old };

    /// Whether what was fed ends behind the preface or a whole frame, and outside a header block. While
    /// a whole frame waits to be taken it is false.
    fn is_between(&self) -> bool
        ensures between { (c : ConnectionTrace) → stands self.now c → c.refusal ≡ None → IsTrue result ↔ IsBetween c };

    /// Begins the next stream of a client with this head, and gives its id. Behind id 2,147,483,647 it
    /// answers `IdsSpent`.
    fn begin(&mut self, fields: &Fields) -> Result<u32, SendFault>
        requires client { (c : ConnectionTrace) × stands self.old c × (c.role ≡ Client) }
        requires size { sum_by size_of fields.now ≤ 65536 }
        ensures ok { (c : ConnectionTrace) → stands self.old c →
            IfOk result (λ id. (fs : List Frame) × CarryBlock id false fs × stands self.new (wrote fs (fields.now ∷ []) c)) }
        ensures err { OnErr result (Keeps (stands self.old) (stands self.new)) }
        ensures begins { (c : ConnectionTrace) → stands self.old c → BeginsWhere c result }
        ensures ahead { ahead self.new ≡ ahead self.old };

    /// Sends a head on an open stream, and ends this side of it or not. Any other stream is `NotOpen`.
    fn send_head(&mut self, stream: u32, fields: &Fields, last: bool) -> Result<(), SendFault>
        requires { sum_by size_of fields.now ≤ 65536 }
        ensures room { (c : ConnectionTrace) → stands self.old c → c.role ≡ Server → block_room fields.now ≤ room self.old →
            result ≡ Err NoMemory → ⊥ }
        ensures left { OnOk result (room self.old ≤ room self.new + block_room fields.now) }
        ensures ok { (c : ConnectionTrace) → stands self.old c →
            OnOk result ((fs : List Frame) × CarryBlock stream last fs × stands self.new (wrote fs (fields.now ∷ []) c)) }
        ensures err { OnErr result (Keeps (stands self.old) (stands self.new)) }
        ensures sends { (c : ConnectionTrace) → stands self.old c → SendsWhere (is_alive c && is_open c.role c.frames stream) result }
        ensures ahead { ahead self.new ≡ ahead self.old };

    /// Sends as much of a piece on an open stream as the windows and one frame allow, and tells how much.
    /// This side of the stream ends where the piece is the last one and is sent whole.
    fn send_piece(&mut self, stream: u32, piece: &[u8], last: bool) -> Result<usize, SendFault>
        ensures room { (c : ConnectionTrace) → stands self.old c → c.role ≡ Server → 9 + length piece.now ≤ room self.old →
            result ≡ Err NoMemory → ⊥ }
        ensures left { IfOk result (λ n. room self.old ≤ room self.new + (9 + n)) }
        ensures ok { (c : ConnectionTrace) → stands self.old c →
            IfOk result (λ n. (n ≡ placed_of c.frames stream piece.now)
            × (fs : List Frame) × CarryPiece stream piece.now last n fs × stands self.new (wrote fs [] c)) }
        ensures err { OnErr result (Keeps (stands self.old) (stands self.new)) }
        ensures sends { (c : ConnectionTrace) → stands self.old c → SendsWhere (is_alive c && is_open c.role c.frames stream) result }
        ensures ahead { ahead self.new ≡ ahead self.old };

    /// Sends trailers on an open stream, which end this side of it.
    fn send_trailers(&mut self, stream: u32, fields: &Fields) -> Result<(), SendFault>
        requires { sum_by size_of fields.now ≤ 65536 }
        ensures room { (c : ConnectionTrace) → stands self.old c → c.role ≡ Server → block_room fields.now ≤ room self.old →
            result ≡ Err NoMemory → ⊥ }
        ensures left { OnOk result (room self.old ≤ room self.new + block_room fields.now) }
        ensures ok { (c : ConnectionTrace) → stands self.old c →
            OnOk result ((fs : List Frame) × CarryBlock stream true fs × stands self.new (wrote fs (fields.now ∷ []) c)) }
        ensures err { OnErr result (Keeps (stands self.old) (stands self.new)) }
        ensures sends { (c : ConnectionTrace) → stands self.old c → SendsWhere (is_alive c && is_open c.role c.frames stream) result }
        ensures ahead { ahead self.new ≡ ahead self.old };

    /// Resets a live stream. Any other stream is `NotOpen`.
    fn reset(&mut self, stream: u32, code: ErrorCode) -> Result<(), SendFault>
        ensures ok { (c : ConnectionTrace) → stands self.old c → OnOk result ((fs : List Frame) × CarryReset stream code fs × stands self.new (wrote fs [] c)) }
        ensures err { OnErr result (Keeps (stands self.old) (stands self.new)) }
        ensures sends { (c : ConnectionTrace) → stands self.old c → SendsWhere (is_alive c && is_live c.role c.frames stream) result }
        ensures ahead { ahead self.new ≡ ahead self.old };

    /// Holds credit back, or ends that and sends what is owed. Without memory nothing changes.
    fn hold_credit(&mut self, hold: bool) -> Result<(), AllocError>
        ensures ok { (c : ConnectionTrace) → stands self.old c →
            OnOk result ((fs : List Frame) × CarryCredit hold c fs × stands self.new (held hold (wrote fs [] c))) }
        ensures err { OnErr result (Keeps (stands self.old) (stands self.new)) }
        ensures ahead { ahead self.new ≡ ahead self.old };

    /// The bytes that wait to be sent.
    fn out(&self) -> &[u8]
        ensures { result.now ≡ output self.now };

    /// Drops the first bytes of the output, which were sent.
    fn drop_out(&mut self, n: usize)
        requires { n ≤ length (output self.old) }
        ensures dropped { Carries (stands self.old) (stands self.new) (dropped_more (take n (output self.old))) }
        ensures output { output self.new ≡ drop n (output self.old) }
        ensures ahead { ahead self.new ≡ ahead self.old };

    ghost sound: { (conn : Self) (c : ConnectionTrace) → stands conn c → IsSound c (output conn) };
}
