//! What the peer asks or answers.
ghost use Rattle.std.specs.Prelude.{◌≡◌, ◌⊎◌, ◌++◌, is_some, List, Bool, Ok, Err, OnOk, IfOk, if◌then◌else◌, ◌<◌, ◌≤◌, ◌==◌, ◌+◌, ℕ, true, false, Some, None, filter, length, sum_by, vec_len};
ghost use Rattle.std.specs.List.{position};
ghost use Rattle.hpack_tables.specs.EntrySizes.{size_of};
ghost use Rattle.h2_frames.specs.declared.code.ErrorCode.{ErrorCode};
ghost use Rattle.h2_exchange.specs.Events as event;
ghost use Rattle.h2_exchange.specs.Streams.{is_live};
ghost use Rattle.h2_exchange.specs.declared.role.Role.TheVariants.{Client, Server};
ghost use Rattle.hpack_tables.specs.declared.field.Field.{Field};
ghost use Rattle.grpc_framing.specs.NextMessage.{NextMessage};
ghost use Rattle.grpc_heads.specs.CallEnd.{CallEnd, method_by, status_by};
ghost use Rattle.grpc_heads.specs.Heads.{head_of};
ghost use Rattle.grpc_heads.specs.Trailers.{status_in_trailers};
ghost use Rattle.grpc_heads.specs.Written.{response_fields, trailer_fields};
ghost use Rattle.http_connection.specs.ConnectionTrace.{ConnectionTrace, events_in};
ghost use Rattle.grpc_stream.specs.CallTrace.{CallTrace};
ghost use Rattle.call_hearing.specs.declared.pending.Pending.TheVariants as pending;
ghost use Rattle.grpc_stream.specs.NextEvent.{NextEvent, is_event};
ghost use Rattle.grpc_stream.specs.declared.event.CallEvent.TheVariants as says;
ghost use Rattle.kept_calls.specs.CallState.{call_on, state_of, states};
ghost use Rattle.call_standing.specs.declared.fate.Fate.TheVariants.{Dead, Going, Refused};
ghost use Rattle.grpc_calls.specs.Object.{StandAs, ahead_in, state_in};
ghost use Rattle.grpc_calls.specs.Refusing.{DropsCall, GivesUp, IsWritten, SaysEnd, refused_as};
ghost use Rattle.call_standing.specs.Steps.{Steps, goes_down};
ghost use Rattle.call_telling.specs.Giving.{HasGiven, listens};

use super::Calls;
use super::sending::last_ending;
use bytes::Bytes;
use call_hearing::Pending;
use call_standing::{Fate, statuses_are_written};
use grpc_framing::Cut;
use grpc_heads::{HeadRead, Method, Status, Text, TrailerFault, read_request_head, read_trailers};
use grpc_stream::CallEvent;
use h2_exchange::Role;
use hpack_tables::Fields;
use http_connection::{H2Event, HttpConnection};
use kept_calls::{Call, Ending, Receiving, add_call, find_call, http_fields, last_fields};
use schema_numbers::Numbering;
use std::alloc::{AllocError, Global};

// A refusal that framing decides.
fn refusal(code: u8, text: &'static [u8]) -> Status
    requires { code ≤ 16 }
    ensures { result ≡ record { code = code; message = text.now; reason = None } }
{
    Status {
        code,
        message: Text::fixed(text),
        reason: None,
    }
}

// What a head still tells behind the call that it begins.
fn behind_head(stream: u32, last: bool) -> Pending
    ensures { result ≡ (if last then pending.End stream else pending.Nothing) }
{
    if last {
        Pending::End(stream)
    } else {
        Pending::Nothing
    }
}

// The status that trailers give, or that of a call without one.
fn closing_status(alloc: Global, n: &Numbering, fields: &Fields) -> Result<Status, AllocError>
    ensures { IfOk result (λ status. status ≡ status_by (status_in_trailers n.now fields.now)) }
{
    match read_trailers(alloc, n, fields) {
        Ok(status) => Ok(status),
        Err(TrailerFault::NoMemory) => Err(AllocError),
        Err(TrailerFault::NoStatus) => Ok(refusal(2, b"")),
        Err(TrailerFault::BadStatus) => Ok(refusal(2, b"")),
    }
}

// The one block of a call whose head is refused with a status.
fn status_block(alloc: Global, n: &Numbering, status: &Status) -> Result<Fields, AllocError>
    ensures fields { IfOk result (λ fields. fields ≡
        (if true then response_fields ++ trailer_fields n.now status.now else trailer_fields n.now status.now)) }
    ensures written { IsWritten n.now status.now }
{
    statuses_are_written(n, status);
    last_fields(alloc, n, status, true)
}

// The next that a call's bytes give.
fn cut_call(call: &mut Call) -> Cut
    ensures exact { NextMessage call.old.cutter result call.new.cutter }
    ensures kept { state_of call.new ≡ record (state_of call.old) { cutter = call.new.cutter } }
{
    call.cutter.next()
}

// What is left of a call whose bytes are refused: a server ends it with a status, unless it has an end.
fn refuse_as(
    role: Role,
    alloc: Global,
    n: &Numbering,
    call: &mut Call,
    status: &Status,
) -> Result<(), AllocError>
    requires { length status.now.message ≤ 64 }
    ensures ok { OnOk result (state_of call.new ≡ refused_as role n.now status.now (state_of call.old)) }
    ensures written { IsWritten n.now status.now }
{
    statuses_are_written(n, status);
    match role {
        Role::Client => {
            call.stop();
            Ok(())
        }
        Role::Server => end_as(alloc, n, call, status),
    }
}

// A server's end of a call whose bytes are refused.
fn end_as(alloc: Global, n: &Numbering, call: &mut Call, status: &Status) -> Result<(), AllocError>
    requires { length status.now.message ≤ 64 }
    ensures { OnOk result (state_of call.new ≡ refused_as Server n.now status.now (state_of call.old)) }
{
    let is_alone = !call.has_message;
    match last_fields(alloc, n, status, is_alone) {
        Ok(fields) => {
            call.refuse(last_ending(is_alone), fields);
            Ok(())
        }
        Err(_) => Err(AllocError),
    }
}

impl<C: HttpConnection> Calls<C> {
    // One step: what is still to be told of the last event, or the connection's next one.
    pub(super) fn step(&mut self, n: &Numbering) -> Option<CallEvent>
        ensures says { (t : CallTrace) → StandAs C.stands C.output self.old t → t.numbers ≡ n.now → self.old.fate ≡ Going →
            (u : CallTrace) × StandAs C.stands C.output self.new u × Steps t result u }
        ensures going { result ≡ None → self.old.fate ≡ Going → self.new.fate ≡ Going }
        ensures ahead { goes_down result ≡ true → ahead_in C.ahead self.new < ahead_in C.ahead self.old }
    {
        match self.pending {
            Pending::Nothing => self.hear(n),
            Pending::Cut(stream) => self.cut_next(n, stream),
            Pending::End(stream) => {
                self.pending = Pending::Nothing;
                Some(CallEvent::Finished(stream))
            }
        }
    }

    // The next of what the calls come to.
    pub(super) fn next_going(&mut self, n: &Numbering) -> CallEvent
        ensures says { (t : CallTrace) → StandAs C.stands C.output self.old t → t.numbers ≡ n.now → self.old.fate ≡ Going →
            (u : CallTrace) × StandAs C.stands C.output self.new u × NextEvent t result u }
        ensures ahead { is_event result ≡ true → ahead_in C.ahead self.new < ahead_in C.ahead self.old }
    {
        'steps: loop {
            match self.step(n) {
                Some(event) => return event,
                None => {}
            }
        }
    }

    // A connection that has refused says the same again.
    pub(super) fn repeat_refusal(&mut self) -> CallEvent
        ensures says { (t : CallTrace) → StandAs C.stands C.output self.old t → self.old.fate ≡ Refused →
            (u : CallTrace) × StandAs C.stands C.output self.new u × NextEvent t result u }
        ensures ahead { is_event result ≡ false }
    {
        match self.conn.next_event() {
            H2Event::Refused(code, place) => CallEvent::Refused(code, place),
            H2Event::Calm(cause) => CallEvent::Calm(cause),
            H2Event::NoMemory => CallEvent::NoMemory,
            H2Event::NeedMore => CallEvent::NeedMore,
            H2Event::Head(_, _, _) => CallEvent::NoMemory,
            H2Event::Piece(_, _) => CallEvent::NoMemory,
            H2Event::Ended(_) => CallEvent::NoMemory,
            H2Event::Reset(_, _) => CallEvent::NoMemory,
            H2Event::GoneAway(_, _) => CallEvent::NoMemory,
        }
    }

    // There is no memory: what was sent stays, and nothing else comes.
    fn die(&mut self) -> CallEvent
        ensures event { result ≡ says.NoMemory }
        ensures fate { self.new.fate ≡ Dead (length (C.output self.old.conn)) }
        ensures conn { self.new.conn ≡ self.old.conn }
    {
        self.fate = Fate::Dead(self.conn.out().len());
        CallEvent::NoMemory
    }

    // The next event of the connection, where all that those before it tell was told.
    fn hear(&mut self, n: &Numbering) -> Option<CallEvent>
        ensures says { (t : CallTrace) → StandAs C.stands C.output self.old t → t.numbers ≡ n.now → self.old.fate ≡ Going → self.old.pending ≡ pending.Nothing →
            (u : CallTrace) × StandAs C.stands C.output self.new u × Steps t result u }
        ensures going { result ≡ None → self.old.fate ≡ Going → self.new.fate ≡ Going }
        ensures ahead { goes_down result ≡ true → self.old.pending ≡ pending.Nothing → ahead_in C.ahead self.new < ahead_in C.ahead self.old }
    {
        match self.conn.next_event() {
            H2Event::Head(stream, fields, last) => self.on_head(n, stream, &fields, last),
            H2Event::Piece(stream, bytes) => self.on_piece(stream, bytes),
            H2Event::Ended(stream) => self.on_end(n, stream),
            H2Event::Reset(stream, _) => self.on_reset(stream),
            H2Event::GoneAway(_, _) => None,
            H2Event::NeedMore => {
                self.forget_stale();
                Some(CallEvent::NeedMore)
            }
            H2Event::Refused(code, place) => {
                self.fate = Fate::Refused;
                Some(CallEvent::Refused(code, place))
            }
            H2Event::Calm(cause) => {
                self.fate = Fate::Refused;
                Some(CallEvent::Calm(cause))
            }
            H2Event::NoMemory => {
                self.fate = Fate::Refused;
                Some(CallEvent::NoMemory)
            }
        }
    }

    fn on_head(
        &mut self,
        n: &Numbering,
        stream: u32,
        fields: &Fields,
        last: bool,
    ) -> Option<CallEvent>
        ensures says { (t : CallTrace) → HasGiven C.stands self.old.conn (state_in self.old) t (event.Head stream fields.now last) →
            t.numbers ≡ n.now → self.old.fate ≡ Going → self.old.pending ≡ pending.Nothing →
            (u : CallTrace) × StandAs C.stands C.output self.new u × Steps t result u }
        ensures going { result ≡ None → self.old.fate ≡ Going → self.new.fate ≡ Going }
        ensures ahead { goes_down result ≡ true → self.old.pending ≡ pending.Nothing → ahead_in C.ahead self.new < ahead_in C.ahead self.old + 16386 }
    {
        match self.role {
            Role::Server => self.on_request(n, stream, fields, last),
            Role::Client => {
                if last {
                    self.on_trailers(n, stream, fields)
                } else {
                    None
                }
            }
        }
    }

    fn on_request(
        &mut self,
        n: &Numbering,
        stream: u32,
        fields: &Fields,
        last: bool,
    ) -> Option<CallEvent>
        requires { self.old.role ≡ Server }
        ensures says { (t : CallTrace) → HasGiven C.stands self.old.conn (state_in self.old) t (event.Head stream fields.now last) →
            t.numbers ≡ n.now → self.old.fate ≡ Going → self.old.pending ≡ pending.Nothing →
            (u : CallTrace) × StandAs C.stands C.output self.new u × Steps t result u }
        ensures going { result ≡ None → self.old.fate ≡ Going → self.new.fate ≡ Going }
        ensures ahead { goes_down result ≡ true → self.old.pending ≡ pending.Nothing → ahead_in C.ahead self.new < ahead_in C.ahead self.old + 16386 }
    {
        match read_request_head(fields) {
            HeadRead::Method(method) => self.begin_call(stream, method, last),
            HeadRead::Status(status) => {
                self.refuse_head(stream, status_block(self.alloc, n, &status))
            }
            HeadRead::Http(status) => self.refuse_head(stream, http_fields(self.alloc, status)),
            HeadRead::Malformed => self.refuse_head(stream, http_fields(self.alloc, 400)),
            HeadRead::NoMemory => self.refuse_head(stream, http_fields(self.alloc, 500)),
        }
    }

    fn begin_call(&mut self, stream: u32, method: Method, last: bool) -> Option<CallEvent>
        requires { self.old.role ≡ Server }
        ensures says { (t : CallTrace) (fields : List Field) → HasGiven C.stands self.old.conn (state_in self.old) t (event.Head stream fields last) →
            method_by (head_of fields) ≡ Ok method → self.old.fate ≡ Going → self.old.pending ≡ pending.Nothing →
            (u : CallTrace) × StandAs C.stands C.output self.new u × Steps t result u }
        ensures going { result ≡ None → self.old.fate ≡ Going → self.new.fate ≡ Going }
        ensures ahead { goes_down result ≡ true → self.old.pending ≡ pending.Nothing → ahead_in C.ahead self.new < ahead_in C.ahead self.old + 16386 }
    {
        match add_call(
            &mut self.calls,
            Call::new(self.alloc, stream, Receiving::Open, false),
        ) {
            Ok(_) => {
                self.pending = behind_head(stream, last);
                Some(CallEvent::Begun(stream, method))
            }
            Err(_) => Some(self.die()),
        }
    }

    // A head that is refused is answered, and not shown.
    fn refuse_head(&mut self, stream: u32, fields: Result<Fields, AllocError>) -> Option<CallEvent>
        requires role { self.old.role ≡ Server }
        requires fits { IfOk fields (λ block. sum_by size_of block ≤ 65536) }
        ensures says { (t : CallTrace) (heads : List Field) (last : Bool) (close : CallEnd) →
            HasGiven C.stands self.old.conn (state_in self.old) t (event.Head stream heads last) →
            method_by (head_of heads) ≡ Err close → IfOk fields (SaysEnd t.numbers close) → self.old.fate ≡ Going → self.old.pending ≡ pending.Nothing →
            (u : CallTrace) × StandAs C.stands C.output self.new u × Steps t result u }
        ensures going { result ≡ None → self.old.fate ≡ Going → self.new.fate ≡ Going }
        ensures ahead { goes_down result ≡ true → self.old.pending ≡ pending.Nothing → ahead_in C.ahead self.new < ahead_in C.ahead self.old + 16386 }
    {
        match fields {
            Ok(fields) => {
                let mut call = Call::new(self.alloc, stream, Receiving::Closed, false);
                call.close(Ending::Block, fields);
                match add_call(&mut self.calls, call) {
                    Ok(_) => None,
                    Err(_) => Some(self.die()),
                }
            }
            Err(_) => Some(self.die()),
        }
    }

    fn on_trailers(&mut self, n: &Numbering, stream: u32, fields: &Fields) -> Option<CallEvent>
        requires { self.old.role ≡ Client }
        ensures says { (t : CallTrace) → HasGiven C.stands self.old.conn (state_in self.old) t (event.Head stream fields.now true) →
            t.numbers ≡ n.now → self.old.fate ≡ Going → self.old.pending ≡ pending.Nothing →
            (u : CallTrace) × StandAs C.stands C.output self.new u × Steps t result u }
        ensures going { result ≡ None → self.old.fate ≡ Going → self.new.fate ≡ Going }
        ensures ahead { goes_down result ≡ true → self.old.pending ≡ pending.Nothing → ahead_in C.ahead self.new < ahead_in C.ahead self.old + 16386 }
    {
        match self.listening(stream) {
            Some(at) => match closing_status(self.alloc, n, fields) {
                Ok(status) => {
                    self.calls[at].stop();
                    self.has_stale = true;
                    Some(CallEvent::Closed(stream, status))
                }
                Err(_) => Some(self.die()),
            },
            None => None,
        }
    }

    // Where the call stands of which more is heard.
    fn listening(&self, stream: u32) -> Option<usize>
        ensures within { (at : ℕ) → result ≡ Some at → at < vec_len self.now.calls }
        ensures at { (at : ℕ) → result ≡ Some at → position (λ c. c.stream == stream) self.now.calls.items ≡ Some at }
        ensures heard { is_some result ≡ listens (call_on stream (states self.now.calls.items)) }
    {
        match find_call(self.calls.as_slice(), stream) {
            Some(at) => match self.calls[at].receiving {
                Receiving::Open => Some(at),
                Receiving::Closed => None,
            },
            None => None,
        }
    }

    fn on_piece(&mut self, stream: u32, bytes: Bytes) -> Option<CallEvent>
        ensures says { (t : CallTrace) → HasGiven C.stands self.old.conn (state_in self.old) t (event.Data stream bytes) →
            self.old.fate ≡ Going → self.old.pending ≡ pending.Nothing →
            (u : CallTrace) × StandAs C.stands C.output self.new u × Steps t result u }
        ensures going { result ≡ None → self.old.fate ≡ Going → self.new.fate ≡ Going }
        ensures ahead { goes_down result ≡ true → length bytes ≤ 16384 → self.old.pending ≡ pending.Nothing →
            ahead_in C.ahead self.new < ahead_in C.ahead self.old + 16386 }
    {
        match self.listening(stream) {
            Some(at) => self.feed_call(at, stream, bytes),
            None => None,
        }
    }

    fn feed_call(&mut self, at: usize, stream: u32, bytes: Bytes) -> Option<CallEvent>
        requires within { at < vec_len self.old.calls }
        requires at { position (λ c. c.stream == stream) self.old.calls.items ≡ Some at }
        requires heard { listens (call_on stream (states self.old.calls.items)) ≡ true }
        ensures says { (t : CallTrace) → HasGiven C.stands self.old.conn (state_in self.old) t (event.Data stream bytes) →
            self.old.fate ≡ Going → self.old.pending ≡ pending.Nothing →
            (u : CallTrace) × StandAs C.stands C.output self.new u × Steps t result u }
        ensures going { result ≡ None → self.old.fate ≡ Going → self.new.fate ≡ Going }
        ensures ahead { goes_down result ≡ true → length bytes ≤ 16384 → self.old.pending ≡ pending.Nothing →
            ahead_in C.ahead self.new < ahead_in C.ahead self.old + 16386 }
    {
        match self.calls[at].feed(bytes) {
            Ok(()) => {
                self.pending = Pending::Cut(stream);
                None
            }
            Err(_) => Some(self.die()),
        }
    }

    // The next message of a call's bytes, or their refusal.
    fn cut_next(&mut self, n: &Numbering, stream: u32) -> Option<CallEvent>
        ensures says { (t : CallTrace) → StandAs C.stands C.output self.old t → t.numbers ≡ n.now → self.old.fate ≡ Going →
            self.old.pending ≡ pending.Cut stream → (u : CallTrace) × StandAs C.stands C.output self.new u × Steps t result u }
        ensures going { result ≡ None → self.old.fate ≡ Going → self.new.fate ≡ Going }
        ensures ahead { goes_down result ≡ true → self.old.pending ≡ pending.Cut stream → ahead_in C.ahead self.new < ahead_in C.ahead self.old }
    {
        match self.listening(stream) {
            Some(at) => self.cut_at(n, stream, at),
            None => {
                self.pending = Pending::Nothing;
                None
            }
        }
    }

    fn cut_at(&mut self, n: &Numbering, stream: u32, at: usize) -> Option<CallEvent>
        requires within { at < vec_len self.old.calls }
        requires at { position (λ c. c.stream == stream) self.old.calls.items ≡ Some at }
        requires heard { listens (call_on stream (states self.old.calls.items)) ≡ true }
        ensures says { (t : CallTrace) → StandAs C.stands C.output self.old t → t.numbers ≡ n.now → self.old.fate ≡ Going →
            self.old.pending ≡ pending.Cut stream → (u : CallTrace) × StandAs C.stands C.output self.new u × Steps t result u }
        ensures going { result ≡ None → self.old.fate ≡ Going → self.new.fate ≡ Going }
        ensures ahead { goes_down result ≡ true → self.old.pending ≡ pending.Cut stream → ahead_in C.ahead self.new < ahead_in C.ahead self.old }
    {
        match cut_call(&mut self.calls[at]) {
            Cut::Message(message) => match self.role {
                Role::Server => Some(CallEvent::Request(stream, message)),
                Role::Client => Some(CallEvent::Answered(stream, message)),
            },
            Cut::NeedMore => {
                self.pending = Pending::Nothing;
                None
            }
            Cut::Compressed => Some(self.refuse(
                n,
                stream,
                at,
                &refusal(12, b"compression is not served"),
            )),
            Cut::TooLong => Some(self.refuse(
                n,
                stream,
                at,
                &refusal(8, b"message longer than 4194304"),
            )),
            Cut::NoMemory => Some(self.die()),
        }
    }

    // A call whose bytes are refused is answered by a server, and shown as a drop.
    fn refuse(&mut self, n: &Numbering, stream: u32, at: usize, status: &Status) -> CallEvent
        requires at { at < vec_len self.old.calls }
        requires short { length status.now.message ≤ 64 }
        ensures turns { GivesUp C.output self.old self.new result ⊎ DropsCall n.now status.now stream at self.old self.new result }
        ensures written { IsWritten n.now status.now }
    {
        match refuse_as(self.role, self.alloc, n, &mut self.calls[at], status) {
            Ok(()) => {
                self.pending = Pending::Nothing;
                CallEvent::Dropped(stream)
            }
            Err(_) => self.die(),
        }
    }

    fn on_end(&mut self, n: &Numbering, stream: u32) -> Option<CallEvent>
        ensures says { (t : CallTrace) → HasGiven C.stands self.old.conn (state_in self.old) t (event.Ended stream) →
            t.numbers ≡ n.now → self.old.fate ≡ Going → self.old.pending ≡ pending.Nothing →
            (u : CallTrace) × StandAs C.stands C.output self.new u × Steps t result u }
        ensures going { result ≡ None → self.old.fate ≡ Going → self.new.fate ≡ Going }
        ensures ahead { goes_down result ≡ true → self.old.pending ≡ pending.Nothing → ahead_in C.ahead self.new < ahead_in C.ahead self.old + 16386 }
    {
        self.has_stale = true;
        match self.listening(stream) {
            Some(at) => match self.role {
                Role::Server => self.end_request(n, stream, at),
                Role::Client => {
                    self.calls[at].stop();
                    Some(CallEvent::Closed(stream, refusal(2, b"")))
                }
            },
            None => None,
        }
    }

    fn end_request(&mut self, n: &Numbering, stream: u32, at: usize) -> Option<CallEvent>
        requires within { at < vec_len self.old.calls }
        requires at { position (λ c. c.stream == stream) self.old.calls.items ≡ Some at }
        requires heard { listens (call_on stream (states self.old.calls.items)) ≡ true }
        requires role { self.old.role ≡ Server }
        ensures says { (t : CallTrace) → HasGiven C.stands self.old.conn (state_in self.old) t (event.Ended stream) →
            t.numbers ≡ n.now → self.old.fate ≡ Going → self.old.pending ≡ pending.Nothing →
            (u : CallTrace) × StandAs C.stands C.output self.new u × Steps t result u }
        ensures going { result ≡ None → self.old.fate ≡ Going → self.new.fate ≡ Going }
        ensures ahead { goes_down result ≡ true → self.old.pending ≡ pending.Nothing → ahead_in C.ahead self.new < ahead_in C.ahead self.old + 16386 }
    {
        if self.calls[at].cutter.is_between() {
            Some(CallEvent::Finished(stream))
        } else {
            Some(self.refuse(n, stream, at, &refusal(3, b"truncated message")))
        }
    }

    fn on_reset(&mut self, stream: u32) -> Option<CallEvent>
        ensures says { (t : CallTrace) (why : ErrorCode) → HasGiven C.stands self.old.conn (state_in self.old) t (event.Reset stream why) →
            self.old.fate ≡ Going → self.old.pending ≡ pending.Nothing →
            (u : CallTrace) × StandAs C.stands C.output self.new u × Steps t result u }
        ensures going { result ≡ None → self.old.fate ≡ Going → self.new.fate ≡ Going }
        ensures ahead { goes_down result ≡ true → self.old.pending ≡ pending.Nothing → ahead_in C.ahead self.new < ahead_in C.ahead self.old + 16386 }
    {
        self.has_stale = true;
        match self.listening(stream) {
            Some(at) => match self.role {
                Role::Server => Some(CallEvent::Dropped(stream)),
                Role::Client => {
                    self.calls[at].stop();
                    Some(CallEvent::Closed(stream, refusal(2, b"")))
                }
            },
            None => None,
        }
    }

    // Calls that are over are forgotten where no event of theirs can come any more.
    fn forget_stale(&mut self)
        ensures { (t : CallTrace) → StandAs C.stands C.output self.old t → self.old.fate ≡ Going → self.old.pending ≡ pending.Nothing →
            t.connection_trace.given ≡ events_in t.connection_trace → StandAs C.stands C.output self.new t }
    {
        if !self.has_stale {
            return;
        }
        self.has_stale = false;
        forget_over(&self.conn, &mut self.calls);
    }
}

fn discard(_call: Call) {}

// Forgets the calls whose streams do not live.
fn forget_over<C: HttpConnection>(conn: &C, calls: &mut Vec<Call>)
    ensures live { (c : ConnectionTrace) → C.stands conn.now c → c.refusal ≡ None →
        calls.new.items ≡ filter (λ call. is_live c.role c.frames call.stream) calls.old.items }
    ensures fewer { sum_by (λ call. length call.cutter.held) calls.new.items ≤ sum_by (λ call. length call.cutter.held) calls.old.items }
{
    let mut at = 0;
    'calls: while at < calls.len() {
        if conn.is_live(calls[at].stream) {
            at += 1;
        } else {
            discard(calls.remove(at));
        }
    }
}
