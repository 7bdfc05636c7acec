//! What a received frame does to the streams.
ghost use Rattle.std.specs.Prelude.{◌≡◌, ℕ, ◌+◌, ◌<◌, ◌^◌, ◌==◌, true, false, List, [], ◌∷◌, ◌++◌, None, option_map, is_some, Err, IfOk, if◌then◌else◌};
ghost use Rattle.h2_frames.specs.declared.code.ErrorCode.{ErrorCode};
ghost use Rattle.h2_frames.specs.declared.frame.Frame.TheVariants.{RstStream};
ghost use Rattle.h2_frames.specs.declared.frame.FrameBody.{FrameBody};
ghost use Rattle.h2_exchange.specs.declared.fault.StreamFault.TheVariants.{Stream as OnStream, Connection};
ghost use Rattle.h2_exchange.specs.Exchange.{Step, Received, Sent};
ghost use Rattle.h2_exchange.specs.Frames as say;
ghost use Rattle.h2_exchange.specs.Rules.{frame_error};
ghost use Rattle.h2_exchange.specs.StreamErrors.{stream_error_of};
ghost use Rattle.h2_exchange.specs.Windows.{setting, settings_in};
ghost use Rattle.h2_streams.specs.ConnectionErrors.{frame_error_in};
ghost use Rattle.h2_streams.specs.Live.{place_of};
ghost use Rattle.h2_streams.specs.Receiving as hear;
ghost use Rattle.h2_streams.specs.Set.{at, has_head_in};
ghost use Rattle.h2_streams.specs.Stands.{StandsFor};

use super::{OpenBlock, StreamSet};
use crate::live::{self, Stream, StreamOutcome};
use crate::set::judge::increment;
use crate::{rules, settings};
use h2_exchange::StreamFault;
use h2_frames::{ErrorCode, Frame};

const END_STREAM: u8 = 1;

const END_HEADERS: u8 = 4;

/// The header block so far that a frame is part of.
fn block_with(opened: Option<OpenBlock>, frame: &Frame) -> Option<OpenBlock>
    ensures { option_map (λ b. (b.stream, b.last)) result ≡ hear.block_with (option_map (λ b. (b.stream, b.last)) opened) frame.now }
{
    match (opened, frame) {
        (None, Frame::Headers(body)) => Some(OpenBlock {
            stream: body.stream,
            last: rules::has_flag(frame, END_STREAM),
        }),
        (Some(block), Frame::Continuation(_)) => Some(block),
        _ => None,
    }
}

/// The header block that a frame completes.
fn completed_by(opened: Option<OpenBlock>, frame: &Frame) -> Option<OpenBlock>
    ensures { option_map (λ b. (b.stream, b.last)) result ≡ hear.completed_by (option_map (λ b. (b.stream, b.last)) opened) frame.now }
{
    if rules::has_flag(frame, END_HEADERS) {
        block_with(opened, frame)
    } else {
        None
    }
}

/// The header block that is open behind a frame.
fn left_open(opened: Option<OpenBlock>, frame: &Frame) -> Option<OpenBlock>
    ensures { option_map (λ b. (b.stream, b.last)) result ≡ hear.left_open (option_map (λ b. (b.stream, b.last)) opened) frame.now }
{
    if rules::has_flag(frame, END_HEADERS) {
        None
    } else {
        block_with(opened, frame)
    }
}

/// How many bytes of DATA a frame counts.
fn counted(frame: &Frame) -> u32
    ensures { result ≡ say.counted frame.now }
{
    match frame {
        Frame::Content(body) => body.payload.len() as u32,
        _ => 0,
    }
}

/// How many bytes a frame grants.
fn granted(frame: &Frame) -> u32
    requires { say.is_window_update frame.now ≡ true → say.payload_length frame.now ≡ 4 }
    ensures { result ≡ hear.granted_by frame.now }
{
    match frame {
        Frame::WindowUpdate(body) => increment(body.payload.as_slice()),
        _ => 0,
    }
}

/// INITIAL_WINDOW_SIZE behind a frame.
fn initial_behind(initial: u32, frame: &Frame) -> u32
    ensures { result ≡ setting 4 initial (settings_in frame.now) }
{
    if rules::is_setting(frame) {
        settings::initial_window(initial, frame.body().payload.as_slice())
    } else {
        initial
    }
}

/// How many bytes may be sent on all streams together, behind a frame.
fn send_behind(send: u32, frame: &Frame) -> u32
    requires four { say.is_window_update frame.now ≡ true → say.payload_length frame.now ≡ 4 }
    requires fits { send + (if say.stream_of frame.now == 0 then hear.granted_by frame.now else 0) < 2 ^ 32 }
    ensures { result ≡ send + (if say.stream_of frame.now == 0 then hear.granted_by frame.now else 0) }
{
    if frame.body().stream == 0 {
        send + granted(frame)
    } else {
        send
    }
}

fn highest_behind(highest: u32, is_new: bool, id: u32) -> u32
    ensures { result ≡ (if is_new then id else highest) }
{
    if is_new { id } else { highest }
}

/// What a received frame meets on its stream, and leaves of it.
#[derive(Clone, Copy, Debug)]
pub struct SeenStream {
    /// How many live streams stood before its own. Where that wasn't live, how many were live: a stream that the frame
    /// begins comes behind them.
    pub place: usize,
    /// Whether its stream was live before the frame.
    pub was_live: bool,
    /// Whether the peer had completed a head on it.
    pub had_head: bool,
    /// Whether its stream is live behind the frame.
    pub is_live: bool,
}

fn has_head(met: Option<Stream>) -> bool
    ensures { result ≡ has_head_in met }
{
    match met {
        Some(stream) => stream.has_head,
        None => false,
    }
}

fn is_alive(outcome: StreamOutcome) -> bool
    ensures { result ≡ hear.is_alive outcome }
{
    match outcome {
        StreamOutcome::NoStream => false,
        StreamOutcome::Over => false,
        StreamOutcome::Alive(_) => true,
    }
}

impl StreamSet {
    /// Takes a frame that was received, as [`StreamSet::on_frame`] does, and says what it met on its stream.
    ///
    /// The content of a header block comes before the error of its stream: where the frame completes one, the caller
    /// decodes it also behind `Stream`, since what it breaks ends the connection.
    pub fn on_frame_seen(&mut self, frame: &Frame) -> (Result<(), StreamFault>, SeenStream)
        ensures exact { result.0 ≡ hear.answer_by (say.stream_of frame.now) (frame_error_in self.old frame.now) (hear.fault_in self.old frame.now) }
        ensures seen { result.1 ≡ hear.stream_seen self.old frame.now }
        ensures live { result.1.is_live ≡ is_some (at (say.stream_of frame.now) self.new) }
        ensures set { self.new ≡ hear.taken_by (frame_error_in self.old frame.now) self.old frame.now }
        ensures kept { (self.new.role ≡ self.old.role) × (self.new.limits ≡ self.old.limits) }
        ensures answer { (x : List Step) → StandsFor self.old x → result.0 ≡ hear.answer_by (say.stream_of frame.now)
            (frame_error self.old.role x frame.now) (stream_error_of self.old.role self.old.limits x frame.now false) }
        ensures taken { IfOk result.0 (λ _. (x : List Step) → StandsFor self.old x → StandsFor self.new (x ++ Received frame.now ∷ [])) }
        ensures failed { (id : ℕ) (why : ErrorCode) → result.0 ≡ Err (OnStream id why) → (x : List Step) (b : FrameBody) → StandsFor self.old x →
            b.stream ≡ id → StandsFor self.new (x ++ Received frame.now ∷ Sent (RstStream b) ∷ []) }
        ensures refused { (why : ErrorCode) → result.0 ≡ Err (Connection why) → self.new ≡ self.old }
    {
        self.hear(frame)
    }

    /// Takes a frame that was received. It takes no memory.
    ///
    /// The fields of a header block are judged by the caller: where they are malformed it resets the stream, with the code
    /// that the law `malformed_blocks` says.
    ///
    /// # Errors
    ///
    /// `Connection` where the frame breaks a rule of the connection: the set is as before. `Stream` where it breaks one
    /// of its stream, which the caller resets: the frame is taken, and its stream is live no more.
    pub fn on_frame(&mut self, frame: &Frame) -> Result<(), StreamFault>
        ensures exact { result ≡ hear.answer_by (say.stream_of frame.now) (frame_error_in self.old frame.now) (hear.fault_in self.old frame.now) }
        ensures set { self.new ≡ hear.taken_by (frame_error_in self.old frame.now) self.old frame.now }
        ensures kept { (self.new.role ≡ self.old.role) × (self.new.limits ≡ self.old.limits) }
        ensures answer { (x : List Step) → StandsFor self.old x → result ≡ hear.answer_by (say.stream_of frame.now)
            (frame_error self.old.role x frame.now) (stream_error_of self.old.role self.old.limits x frame.now false) }
        ensures taken { IfOk result (λ _. (x : List Step) → StandsFor self.old x → StandsFor self.new (x ++ Received frame.now ∷ [])) }
        ensures failed { (id : ℕ) (why : ErrorCode) → result ≡ Err (OnStream id why) → (x : List Step) (b : FrameBody) → StandsFor self.old x →
            b.stream ≡ id → StandsFor self.new (x ++ Received frame.now ∷ Sent (RstStream b) ∷ []) }
        ensures refused { (why : ErrorCode) → result ≡ Err (Connection why) → self.new ≡ self.old }
    {
        let (answer, _) = self.on_frame_seen(frame);
        answer
    }

    fn is_new(&self, frame: &Frame, met: Option<Stream>) -> bool
        requires { met ≡ at (say.stream_of frame.now) self.now }
        ensures { result ≡ hear.is_new_in self.now frame.now }
    {
        let id = frame.body().stream;
        let is_above = rules::is_headers(frame) && id % 2 == 1 && self.highest < id;
        !rules::is_client(self.role) && is_above && !met.is_some()
    }

    /// The live stream of a frame, or the one that it begins.
    fn seen(&self, frame: &Frame, is_new: bool, met: Option<Stream>) -> Option<Stream>
        requires is_new { is_new ≡ hear.is_new_in self.now frame.now }
        requires met { met ≡ at (say.stream_of frame.now) self.now }
        ensures { result ≡ hear.seen_in self.now frame.now }
    {
        if is_new {
            Some(Stream::new(self.limits, frame.body().stream))
        } else {
            met
        }
    }

    /// There is no room for one more stream: only a server refuses any.
    fn is_full(&self, frame: &Frame, is_new: bool) -> bool
        requires { is_new ≡ hear.is_new_in self.now frame.now }
        ensures { result ≡ hear.is_full_in self.now frame.now }
    {
        let live = self.live.len();
        let others = if is_new { live } else { live.saturating_sub(1) };
        !rules::is_client(self.role) && others >= self.limits.streams as usize
    }

    fn block_error(&self, frame: &Frame, is_new: bool, stream: Stream) -> Option<ErrorCode>
        requires { is_new ≡ hear.is_new_in self.now frame.now }
        ensures { result ≡ hear.block_error_in self.now frame.now stream (hear.completed_by self.now.block frame.now) }
    {
        let block = completed_by(self.block, frame)?;
        if stream.is_closed_remote {
            Some(ErrorCode::STREAM_CLOSED)
        } else if stream.has_head && !block.last {
            Some(ErrorCode::PROTOCOL_ERROR)
        } else if !stream.has_head && self.is_full(frame, is_new) {
            Some(ErrorCode::REFUSED_STREAM)
        } else {
            None
        }
    }

    /// The stream error of a frame that is no connection error.
    fn fault(&self, frame: &Frame, is_new: bool, seen: Option<Stream>) -> Option<ErrorCode>
        requires is_new { is_new ≡ hear.is_new_in self.now frame.now }
        requires four { say.is_window_update frame.now ≡ true → say.payload_length frame.now ≡ 4 }
        ensures { result ≡ hear.fault_on self.now frame.now seen }
    {
        let stream = seen?;
        if let Some(code) = self.live_error(frame, stream) {
            return Some(code);
        }
        self.block_error(frame, is_new, stream)
    }

    /// The stream as a frame that breaks no rule leaves it.
    fn changed(&self, frame: &Frame, stream: Stream) -> Stream
        requires four { say.is_window_update frame.now ≡ true → say.payload_length frame.now ≡ 4 }
        requires fits { stream.room + hear.granted_by frame.now < 2 ^ 32 }
        ensures { result ≡ hear.changed_in self.now frame.now stream }
    {
        let block = completed_by(self.block, frame);
        let is_last = match block {
            Some(block) => block.last,
            None => false,
        };
        let ends = rules::is_data(frame) && rules::has_flag(frame, END_STREAM) || is_last;
        Stream {
            id: stream.id,
            is_closed_local: stream.is_closed_local,
            is_closed_remote: stream.is_closed_remote || ends,
            has_head: stream.has_head || block.is_some(),
            room: stream.room + granted(frame),
            receive: stream.receive.saturating_sub(counted(frame)),
        }
    }

    fn left_as(&self, frame: &Frame, stream: Stream) -> StreamOutcome
        requires four { say.is_window_update frame.now ≡ true → say.payload_length frame.now ≡ 4 }
        requires fits { stream.room + hear.granted_by frame.now < 2 ^ 32 }
        ensures { result ≡ hear.left_as frame.now (hear.changed_in self.now frame.now stream) }
    {
        let left = self.changed(frame, stream);
        if rules::is_rst_stream(frame) || left.is_closed_remote && left.is_closed_local {
            StreamOutcome::Over
        } else {
            StreamOutcome::Alive(left)
        }
    }

    /// What becomes of the stream of a frame.
    fn outcome(
        &self,
        frame: &Frame,
        fault: Option<ErrorCode>,
        seen: Option<Stream>,
    ) -> StreamOutcome
        requires four { say.is_window_update frame.now ≡ true → say.payload_length frame.now ≡ 4 }
        requires fault { fault ≡ hear.fault_on self.now frame.now seen }
        ensures { result ≡ hear.outcome_on self.now frame.now fault seen }
    {
        match (seen, fault) {
            (None, _) => StreamOutcome::NoStream,
            (Some(_), Some(_)) => StreamOutcome::Over,
            (Some(stream), None) => self.left_as(frame, stream),
        }
    }

    /// Takes a frame that is no connection error, whose stream stands at this place, and says whether that is live then.
    #[tactic(auto, using(crate::proofs::Judged::four_long))]
    fn take(
        &mut self,
        frame: &Frame,
        is_new: bool,
        place: usize,
        seen: Option<Stream>,
        fault: Option<ErrorCode>,
    ) -> bool
        requires sound { frame_error_in self.old frame.now ≡ None }
        requires place { place ≡ place_of (say.stream_of frame.now) self.old.live }
        requires is_new { is_new ≡ hear.is_new_in self.old frame.now }
        requires seen { seen ≡ hear.seen_in self.old frame.now }
        requires fault { fault ≡ hear.fault_on self.old frame.now seen }
        ensures alive { result ≡ hear.is_alive (hear.outcome_on self.old frame.now fault seen) }
        ensures set { self.new ≡ hear.taken self.old frame.now }
    {
        let id = frame.body().stream;
        let outcome = self.outcome(frame, fault, seen);
        live::apply_outcome(&mut self.live, is_new, place, id, outcome);
        self.highest = highest_behind(self.highest, is_new, id);
        self.is_started = true;
        self.block = left_open(self.block, frame);
        self.initial = initial_behind(self.initial, frame);
        self.send = send_behind(self.send, frame);
        self.receive = self.receive.saturating_sub(counted(frame));
        is_alive(outcome)
    }

    #[tactic(auto, using(crate::proofs::Sound::four))]
    fn hear(&mut self, frame: &Frame) -> (Result<(), StreamFault>, SeenStream)
        ensures answer { result.0 ≡ hear.answer_by (say.stream_of frame.now) (frame_error_in self.old frame.now) (hear.fault_in self.old frame.now) }
        ensures seen { result.1 ≡ hear.stream_seen self.old frame.now }
        ensures set { self.new ≡ hear.taken_by (frame_error_in self.old frame.now) self.old frame.now }
    {
        let id = frame.body().stream;
        let place = self.place_of(id);
        let met = self.met(id, place);
        let mut seen_stream = SeenStream {
            place,
            was_live: met.is_some(),
            had_head: has_head(met),
            is_live: met.is_some(),
        };
        if let Some(code) = self.frame_error(frame) {
            return (Err(StreamFault::Connection(code)), seen_stream);
        }
        let is_new = self.is_new(frame, met);
        let seen = self.seen(frame, is_new, met);
        let fault = self.fault(frame, is_new, seen);
        seen_stream.is_live = self.take(frame, is_new, place, seen, fault);
        match fault {
            Some(code) => (Err(StreamFault::Stream(id, code)), seen_stream),
            None => (Ok(()), seen_stream),
        }
    }
}
