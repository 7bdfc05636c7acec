//! Lines that are sent.
ghost use Rattle.std.specs.Prelude.{◌≡◌, ◌⊎◌, ◌++◌, ◌∷◌, ◌<◌, ◌≤◌, ◌^◌, ◌&&◌, [], ℕ, Err, Some, None, IfOk, OnOk, OnErr, Bool, length, true, false};
ghost use Rattle.std.specs.List.{find, position};
ghost use Rattle.gribi_messages.specs.RequestEncoding.{request_bytes};
ghost use Rattle.grpc_heads.specs.CallEnd.{HalfClose};
ghost use Rattle.grpc_stream.specs.CallTrace.{CallTrace, Carries, Keeps, is_taking, took};
ghost use Rattle.h2_exchange.specs.declared.role.Role.TheVariants.{Client};
ghost use Rattle.h2_exchange.specs.StreamParts.{Message, Finish};
ghost use Rattle.h2_exchange.specs.Streams.{is_live};
ghost use Rattle.http_connection.specs.ConnectionTrace.{is_alive};
ghost use Rattle.http_connection.specs.Sends.{BeginsWhere, SendsWhere};
ghost use Rattle.compliance_client.specs.Deeds.{CallView, ask_of, call_of, cancelled, change_first, elected_by, elects, ends, new_call};
ghost use Rattle.compliance_client.specs.Sends.{AnswersLine, Begins, BeginsLine, BeginsPart, BeginsWhole, SendsLine, took_all};
ghost use Rattle.compliance_client.specs.Standing.{Past, StandsAs, Works};
ghost use Rattle.compliance_client.specs.Turns.{MayReset, is_starved as starved_by};

use crate::conn::ClientConn;
use crate::kept::{KeptCall, keep};
use crate::message::CANCELLED;
use crate::over::ClientOver;
use gribi_messages::{
    ModifyRequest, encode_flush_request, encode_get_request, encode_modify_request,
};
use grpc_heads::Method;
use grpc_stream::CallConnection;
use h2_exchange::SendFault;
use line_requests::{LineAsk, read_ask};
use schema_numbers::Numbering;
use script_lang::Line;

// A longer message isn't sent.
const LIMIT: usize = 4_194_304;

/// Whether a connection is over for want of memory.
pub(crate) fn is_starved(over: Option<ClientOver>) -> bool
    ensures { result ≡ starved_by over }
{
    match over {
        Some(ClientOver::NoMemory) => true,
        _ => false,
    }
}

impl<K: CallConnection> ClientConn<K> {
    /// Asks what a line asks on its call: begins it, takes its message or the end of the client's side, or resets it. After a refusal
    /// nothing has changed; but after `NoMemory` the connection may be over with it, where a whole call had begun. A message of more than
    /// 4,194,304 bytes is answered with `NoMemory`.
    pub fn send(&mut self, n: &Numbering, line: &Line) -> Result<(), SendFault>
        requires stands { (past : Past) × StandsAs K.stands n.now self.old.over self.old.calls self.old.kept.items self.old.tally past }
        ensures goes { starved_by self.old.over ≡ false → (past : Past) → Works K.stands n.now self.old.calls self.old.kept.items self.old.tally past →
            SendsLine K.stands n.now line.now self.new.calls self.new.kept.items self.new.tally (starved_by self.new.over) past result
            × AnswersLine (ask_of n.now self.old.kept.items line.now) (call_of line.now self.old.kept.items) past.trace result }
        ensures starved { starved_by self.old.over ≡ true → (result ≡ Err SendFault.NoMemory) × (self.new ≡ self.old) }
        ensures over { (self.new.over ≡ self.old.over) ⊎ ((result ≡ Err SendFault.NoMemory) × (self.new.over ≡ Some ClientOver.NoMemory)) }
    {
        if is_starved(self.over) {
            return Err(SendFault::NoMemory);
        }
        let elected = self.elected_of(line);
        match read_ask(self.alloc, n, elected, line) {
            Err(_) => Err(SendFault::NoMemory),
            Ok(ask) => self.carry_out(n, line, &ask),
        }
    }

    // The election id that the call of a line sent last.
    fn elected_of(&self, line: &Line) -> Option<u128>
        ensures { result ≡ elected_by (call_of line.now self.now.kept.items) }
    {
        match self.place_of(line) {
            None => None,
            Some(at) => self.kept[at].elected(),
        }
    }

    // Does what a line asks.
    fn carry_out(&mut self, n: &Numbering, line: &Line, ask: &LineAsk) -> Result<(), SendFault>
        requires client { (t : CallTrace) × K.stands self.old.calls t × (t.connection_trace.role ≡ Client) }
        ensures goes { (past : Past) → Works K.stands n.now self.old.calls self.old.kept.items self.old.tally past →
            ask.now ≡ ask_of n.now self.old.kept.items line.now →
            SendsLine K.stands n.now line.now self.new.calls self.new.kept.items self.new.tally (starved_by self.new.over) past result
            × AnswersLine ask.now (call_of line.now self.old.kept.items) past.trace result }
        ensures over { (self.new.over ≡ self.old.over) ⊎ ((result ≡ Err SendFault.NoMemory) × (self.new.over ≡ Some ClientOver.NoMemory)) }
    {
        match ask {
            LineAsk::Nothing => Ok(()),
            LineAsk::Modify => match self.begin(line, Method::Modify) {
                Ok(_) => Ok(()),
                Err(fault) => Err(fault),
            },
            LineAsk::Get(request) => match encode_get_request(self.alloc, n, request) {
                Ok(message) => self.call_whole(line, Method::Get, message),
                Err(_) => Err(SendFault::NoMemory),
            },
            LineAsk::Flush(request) => match encode_flush_request(self.alloc, n, request) {
                Ok(message) => self.call_whole(line, Method::Flush, message),
                Err(_) => Err(SendFault::NoMemory),
            },
            LineAsk::Send(request) => match self.place_of(line) {
                None => Err(SendFault::NotOpen),
                Some(at) => self.give(n, at, request),
            },
            LineAsk::Finish => match self.place_of(line) {
                None => Err(SendFault::NotOpen),
                Some(at) => self.finish_at(at),
            },
            LineAsk::Reset => match self.place_of(line) {
                None => Err(SendFault::NotOpen),
                Some(at) => self.cancel(at),
            },
        }
    }

    // Begins the call of a line, and gives its stream.
    fn begin(&mut self, line: &Line, method: Method) -> Result<u32, SendFault>
        requires client { (t : CallTrace) × K.stands self.old.calls t × (t.connection_trace.role ≡ Client) }
        ensures ok { IfOk result (λ id. (self.new.kept.items ≡ self.old.kept.items ++ new_call line.now id method ∷ [])
            × Begins K.stands id method self.old.calls self.new.calls) }
        ensures err { OnErr result ((self.new.kept.items ≡ self.old.kept.items) × Keeps (K.stands self.old.calls) (K.stands self.new.calls)) }
        ensures begins { (t : CallTrace) → K.stands self.old.calls t → BeginsWhere t.connection_trace result }
        ensures same { self.new ≡ record self.old { calls = self.new.calls; kept = self.new.kept } }
    {
        let Ok(call) = KeptCall::new(self.alloc, line, method) else {
            return Err(SendFault::NoMemory);
        };
        if self.kept.reserve(1).is_err() {
            return Err(SendFault::NoMemory);
        }
        match self.calls.call(method) {
            Err(fault) => Err(fault),
            Ok(stream) => {
                keep(&mut self.kept, call, stream);
                Ok(stream)
            }
        }
    }

    // A whole call: its beginning, its message, and the end of the client's side. Where memory is short in its midst the connection is over.
    fn call_whole(&mut self, line: &Line, method: Method, message: Vec<u8>) -> Result<(), SendFault>
        requires client { (t : CallTrace) × K.stands self.old.calls t × (t.connection_trace.role ≡ Client) }
        ensures ok { OnOk result ((self.new.over ≡ self.old.over) × (id : ℕ) × (self.new.kept.items ≡ self.old.kept.items ++ new_call line.now id method ∷ [])
            × BeginsWhole K.stands id method message.items self.old.calls self.new.calls) }
        ensures err { OnErr result (((self.new.over ≡ self.old.over) × (self.new.kept.items ≡ self.old.kept.items)
            × Keeps (K.stands self.old.calls) (K.stands self.new.calls))
            ⊎ ((result ≡ Err SendFault.NoMemory) × (self.new.over ≡ Some ClientOver.NoMemory) × (id : ℕ)
            × BeginsPart K.stands id method message.items self.old.calls self.new.calls)) }
        ensures begins { (t : CallTrace) → K.stands self.old.calls t → BeginsLine t.connection_trace result }
        ensures same { self.new ≡ record self.old { calls = self.new.calls; kept = self.new.kept; over = self.new.over } }
    {
        if message.len() > LIMIT {
            return Err(SendFault::NoMemory);
        }
        match self.begin(line, method) {
            Err(fault) => Err(fault),
            Ok(stream) => match self.ask_all(stream, message) {
                Ok(()) => Ok(()),
                Err(_) => {
                    self.over = Some(ClientOver::NoMemory);
                    Err(SendFault::NoMemory)
                }
            },
        }
    }

    // The one message of a call, and the end of the client's side.
    fn ask_all(&mut self, stream: u32, message: Vec<u8>) -> Result<(), SendFault>
        requires limit { length message.items ≤ 4194304 }
        ensures ok { OnOk result (Carries (K.stands self.old.calls) (K.stands self.new.calls) (took_all stream message.items)) }
        ensures err { OnErr result ((t : CallTrace) → K.stands self.old.calls t →
            K.stands self.new.calls t ⊎ K.stands self.new.calls (took stream (Message message.items) t)) }
        ensures same { self.new ≡ record self.old { calls = self.new.calls } }
    {
        match self.calls.answer(stream, message) {
            Err(fault) => Err(fault),
            Ok(()) => self.calls.finish(stream),
        }
    }

    // A message of the call that stands there.
    fn give(&mut self, n: &Numbering, at: usize, request: &ModifyRequest) -> Result<(), SendFault>
        requires at { at < length self.old.kept.items }
        ensures goes { (p : CallView → Bool) → position p self.old.kept.items ≡ Some at → (c : CallView) × (find p self.old.kept.items ≡ Some c)
            × OnOk result ((self.new.kept.items ≡ change_first p (elects request.now.election) self.old.kept.items)
            × Carries (K.stands self.old.calls) (K.stands self.new.calls) (took c.stream (Message (request_bytes n.now request.now))))
            × OnErr result ((self.new.kept.items ≡ self.old.kept.items) × Keeps (K.stands self.old.calls) (K.stands self.new.calls))
            × ((t : CallTrace) → K.stands self.old.calls t → SendsWhere (is_taking t c.stream) result) }
        ensures same { self.new ≡ record self.old { calls = self.new.calls; kept = self.new.kept } }
    {
        let stream = self.kept[at].stream();
        let Ok(message) = encode_modify_request(self.alloc, n, request) else {
            return Err(SendFault::NoMemory);
        };
        if message.len() > LIMIT {
            return Err(SendFault::NoMemory);
        }
        match self.calls.answer(stream, message) {
            Err(fault) => Err(fault),
            Ok(()) => {
                self.kept[at].elect(request.election);
                Ok(())
            }
        }
    }

    // The end of the client's side of the call that stands there.
    fn finish_at(&mut self, at: usize) -> Result<(), SendFault>
        requires at { at < length self.old.kept.items }
        ensures goes { (p : CallView → Bool) → position p self.old.kept.items ≡ Some at → (c : CallView) × (find p self.old.kept.items ≡ Some c)
            × OnOk result (Carries (K.stands self.old.calls) (K.stands self.new.calls) (took c.stream (Finish HalfClose)))
            × OnErr result (Keeps (K.stands self.old.calls) (K.stands self.new.calls))
            × ((t : CallTrace) → K.stands self.old.calls t → SendsWhere (is_taking t c.stream) result) }
        ensures same { self.new ≡ record self.old { calls = self.new.calls } }
    {
        let stream = self.kept[at].stream();
        self.calls.finish(stream)
    }

    // Drops the call that stands there.
    fn cancel(&mut self, at: usize) -> Result<(), SendFault>
        requires at { at < length self.old.kept.items }
        ensures goes { (p : CallView → Bool) → position p self.old.kept.items ≡ Some at → (c : CallView) × (find p self.old.kept.items ≡ Some c)
            × OnOk result ((self.new.kept.items ≡ change_first p (ends cancelled) self.old.kept.items)
            × MayReset K.stands true c.stream self.old.calls self.new.calls)
            × OnErr result ((self.new.kept.items ≡ self.old.kept.items) × Keeps (K.stands self.old.calls) (K.stands self.new.calls))
            × ((t : CallTrace) → K.stands self.old.calls t →
            SendsWhere (is_alive t.connection_trace && is_live t.connection_trace.role t.connection_trace.frames c.stream) result) }
        ensures same { self.new ≡ record self.old { calls = self.new.calls; kept = self.new.kept } }
    {
        let stream = self.kept[at].stream();
        match self.calls.reset(stream) {
            Err(fault) => Err(fault),
            Ok(()) => {
                self.kept[at].end(CANCELLED);
                Ok(())
            }
        }
    }
}
