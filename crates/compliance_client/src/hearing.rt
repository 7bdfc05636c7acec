//! What the server did is heard, event by event.
ghost use Rattle.std.specs.Prelude.{◌≡◌, ◌<◌, [], false, Err, Ok, Some, IfOk, IfErr, OnOk, OnErr, true};
ghost use Rattle.std.specs.List.{find};
ghost use Rattle.h2_exchange.specs.Calls as answer;
ghost use Rattle.grpc_stream.specs.CallTrace.{Keeps};
ghost use Rattle.compliance_client.specs.declared.hearing.NextHeard.{NextHeard};
ghost use Rattle.compliance_client.specs.Deeds.{change_first, end_of as end_in, ends, hears_message, is_on, is_refused_by, tally_by, unknown};
ghost use Rattle.compliance_client.specs.Standing.{Past, Works};
ghost use Rattle.compliance_client.specs.Turns.{HearsAll, IsHeardAs, MayReset, Turned, is_fault};

use crate::conn::ClientConn;
use crate::message::UNKNOWN;
use crate::over::ClientOver;
use bytes::Bytes;
use grpc_heads::Status;
use grpc_stream::{CallConnection, CallEvent};
use h2_exchange::SendFault;
use line_verdicts::SeenEnd;
use schema_numbers::Numbering;

/// What became of the next event.
#[derive(Clone, Copy, Debug, PartialEq, Eq)]
pub(crate) enum NextHeard {
    /// It was heard.
    Event,
    /// There was none: every whole frame was received.
    All,
}

impl<K: CallConnection> ClientConn<K> {
    // Resets the call of an answer that is refused, where its stream is live. Says whether it did.
    fn reset(&mut self, stream: u32) -> Result<bool, ClientOver>
        ensures ok { IfOk result (λ is_reset. MayReset K.stands is_reset stream self.old.calls self.new.calls) }
        ensures err { OnErr result (Keeps (K.stands self.old.calls) (K.stands self.new.calls)) }
        ensures memory { IfErr result (λ why. why ≡ ClientOver.NoMemory) }
        ensures same { self.new ≡ record self.old { calls = self.new.calls } }
        ensures ahead { K.ahead self.new.calls ≡ K.ahead self.old.calls }
    {
        match self.calls.reset(stream) {
            Ok(()) => Ok(true),
            Err(SendFault::NoMemory) => Err(ClientOver::NoMemory),
            Err(_) => Ok(false),
        }
    }

    // A message came on a stream. Says whether its call was reset, since it can't be read.
    fn hear_message(
        &mut self,
        n: &Numbering,
        stream: u32,
        message: Bytes,
    ) -> Result<bool, ClientOver>
        ensures heard { OnOk result (self.new.kept.items ≡ change_first (is_on stream) (hears_message n.now message) self.old.kept.items) }
        ensures counted { OnOk result
            (self.new.tally ≡ tally_by n.now (answer.Answered stream message) (find (is_on stream) self.old.kept.items) self.old.tally) }
        ensures refused { IfOk result (λ is_reset.
            is_reset ≡ true → is_refused_by n.now (answer.Answered stream message) (find (is_on stream) self.old.kept.items) ≡ true) }
        ensures ok { IfOk result (λ is_reset. MayReset K.stands is_reset stream self.old.calls self.new.calls) }
        ensures err { OnErr result (Keeps (K.stands self.old.calls) (K.stands self.new.calls)) }
        ensures memory { IfErr result (λ why. why ≡ ClientOver.NoMemory) }
        ensures same { self.new ≡ record self.old { calls = self.new.calls; kept = self.new.kept; tally = self.new.tally } }
        ensures ahead { K.ahead self.new.calls ≡ K.ahead self.old.calls }
    {
        let Some(at) = self.place_on(stream) else {
            return Ok(false);
        };
        match self.kept[at].hear(self.alloc, n, message.as_slice(), &mut self.tally) {
            Err(_) => Err(ClientOver::NoMemory),
            Ok(is_refused) => self.reset_if(is_refused, stream),
        }
    }

    fn reset_if(&mut self, is_refused: bool, stream: u32) -> Result<bool, ClientOver>
        ensures refused { IfOk result (λ is_reset. is_reset ≡ true → is_refused ≡ true) }
        ensures ok { IfOk result (λ is_reset. MayReset K.stands is_reset stream self.old.calls self.new.calls) }
        ensures err { OnErr result (Keeps (K.stands self.old.calls) (K.stands self.new.calls)) }
        ensures memory { IfErr result (λ why. why ≡ ClientOver.NoMemory) }
        ensures same { self.new ≡ record self.old { calls = self.new.calls } }
        ensures ahead { K.ahead self.new.calls ≡ K.ahead self.old.calls }
    {
        if is_refused {
            self.reset(stream)
        } else {
            Ok(false)
        }
    }

    // The call on a stream has ended.
    fn hear_end(&mut self, stream: u32, ending: SeenEnd)
        ensures heard { self.new.kept.items ≡ change_first (is_on stream) (ends ending) self.old.kept.items }
        ensures same { self.new ≡ record self.old { kept = self.new.kept } }
    {
        if let Some(at) = self.place_on(stream) {
            self.kept[at].end(ending);
        }
    }

    // The message of a call is refused, which ends it.
    fn hear_refusal(&mut self, stream: u32) -> Result<bool, ClientOver>
        ensures heard { self.new.kept.items ≡ change_first (is_on stream) (ends unknown) self.old.kept.items }
        ensures ok { IfOk result (λ is_reset. MayReset K.stands is_reset stream self.old.calls self.new.calls) }
        ensures err { OnErr result (Keeps (K.stands self.old.calls) (K.stands self.new.calls)) }
        ensures memory { IfErr result (λ why. why ≡ ClientOver.NoMemory) }
        ensures same { self.new ≡ record self.old { calls = self.new.calls; kept = self.new.kept } }
        ensures ahead { K.ahead self.new.calls ≡ K.ahead self.old.calls }
    {
        self.hear_end(stream, UNKNOWN);
        self.reset(stream)
    }

    // Takes the next event of the calls.
    pub(crate) fn hear(&mut self, n: &Numbering) -> Result<NextHeard, ClientOver>
        ensures goes { (past : Past) → Works K.stands n.now self.old.calls self.old.kept.items self.old.tally past →
            IfOk result (λ next. IsHeardAs K.stands n.now self.new.calls self.new.kept.items self.new.tally past next)
            × IfErr result (λ why. Turned K.stands n.now (Some why) self.new.calls self.new.kept.items self.new.tally past []) }
        ensures same { self.new ≡ record self.old { calls = self.new.calls; kept = self.new.kept; tally = self.new.tally } }
        ensures ahead { result ≡ Ok NextHeard.Event → K.ahead self.new.calls < K.ahead self.old.calls }
        ensures quiet { IfErr result (λ why. is_fault why ≡ false) }
        ensures unended { result ≡ Err ClientOver.Ended → ⊥ }
    {
        match self.calls.next(n) {
            CallEvent::NeedMore => Ok(NextHeard::All),
            CallEvent::Refused(why, place) => Err(ClientOver::Protocol(why, place)),
            CallEvent::Calm(cause) => Err(ClientOver::Calm(cause)),
            CallEvent::NoMemory => Err(ClientOver::NoMemory),
            CallEvent::Answered(stream, message) => match self.hear_message(n, stream, message) {
                Err(over) => Err(over),
                Ok(_) => Ok(NextHeard::Event),
            },
            CallEvent::Closed(stream, status) => {
                self.hear_end(stream, end_of(&status));
                Ok(NextHeard::Event)
            }
            CallEvent::Dropped(stream) => match self.hear_refusal(stream) {
                Err(over) => Err(over),
                Ok(_) => Ok(NextHeard::Event),
            },
            CallEvent::Begun(_, _) => Ok(NextHeard::Event),
            CallEvent::Request(_, _) => Ok(NextHeard::Event),
            CallEvent::Finished(_) => Ok(NextHeard::Event),
        }
    }

    // Hears every event of the whole frames that were fed.
    pub(crate) fn hear_all(&mut self, n: &Numbering) -> Result<(), ClientOver>
        ensures goes { (past : Past) → Works K.stands n.now self.old.calls self.old.kept.items self.old.tally past →
            IfOk result (λ _. HearsAll K.stands n.now self.new.calls self.new.kept.items self.new.tally past)
            × IfErr result (λ why. Turned K.stands n.now (Some why) self.new.calls self.new.kept.items self.new.tally past []) }
        ensures same { self.new ≡ record self.old { calls = self.new.calls; kept = self.new.kept; tally = self.new.tally } }
        ensures quiet { IfErr result (λ why. is_fault why ≡ false) }
        ensures unended { result ≡ Err ClientOver.Ended → ⊥ }
    {
        'events: loop {
            match self.hear(n) {
                Err(over) => return Err(over),
                Ok(NextHeard::All) => return Ok(()),
                Ok(NextHeard::Event) => {}
            }
        }
    }
}

fn end_of(status: &Status) -> SeenEnd
    ensures { result ≡ end_in status.now }
{
    SeenEnd {
        code: status.code,
        reason: status.reason,
    }
}
