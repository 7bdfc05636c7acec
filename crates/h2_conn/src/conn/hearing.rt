//! What is received.
ghost use Rattle.std.specs.Prelude.{◌≡◌, ℕ, ◌≤◌, ◌<◌, ◌+◌, ◌++◌, ◌⊎◌, ◌||◌, drop, get_or, length, true, false, None, Some};
ghost use Rattle.std.specs.Vec.{vec_capacity, vec_len};
ghost use Rattle.h2_frames.specs.declared.frame.Frame.{Frame};
ghost use Rattle.h2_exchange.specs.Blocks as block;
ghost use Rattle.h2_exchange.specs.Frames as say;
ghost use Rattle.h2_exchange.specs.Frames.{payload_length};
ghost use Rattle.h2_exchange.specs.Sending.{ack_for};
ghost use Rattle.http_connection.specs.Answers as answer;
ghost use Rattle.http_connection.specs.Answers.{Answers, is_event, size_in};
ghost use Rattle.http_connection.specs.ConnectionTrace as course;
ghost use Rattle.http_connection.specs.ConnectionTrace.{ConnectionTrace};
ghost use Rattle.h2_conn.specs.Hears.{HeardSo, TookSo, event_of_refusal, with_last, stop_by, Ends, last_in, IsOpen, IsShorter, Sound, Faulty, FailsSo, SaysSo, is_plain, size_heard};
ghost use Rattle.h2_streams.specs.declared.set.receive.SeenStream.{SeenStream};
ghost use Rattle.h2_conn.specs.Receiving.{passed};
ghost use Rattle.h2_conn.specs.Standing.{StandsFor, ahead_of};
ghost use Rattle.h2_conn.specs.State.{state_of, output_of};
ghost use Rattle.h2_conn.specs.Steps.{Waiting, plain_in, text_or_none, with_goaway};

use super::{H2Conn, Why};
use crate::heard::{End, Heard, Took};
use crate::{sizes, texts};
use bytes::Bytes;
use h2_exchange::{CalmCause, Role, StreamFault};
use h2_frames::{ErrorCode, Frame, FrameNext};
use h2_streams::SeenStream;
use http_connection::H2Event;

/// The data of a frame, without padding.
#[tactic(auto, using(crate::proofs::Parts::small_data))]
fn data_of(frame: Frame) -> Bytes
    ensures exact { result ≡ block.data_of frame }
    ensures size { length result ≤ 16384 }
{
    let padded = frame.body().flags & 8 != 0;
    let mut payload = payload_of(frame);
    if padded && !payload.is_empty() {
        let padding = usize::from(payload.as_slice()[0]);
        payload.advance(1);
        let n = payload.len().saturating_sub(padding);
        payload.truncate(n);
    }
    payload
}

fn payload_of(frame: Frame) -> Bytes
    ensures { result ≡ say.payload_of frame }
{
    match frame {
        Frame::Content(body)
        | Frame::Headers(body)
        | Frame::Priority(body)
        | Frame::RstStream(body)
        | Frame::Settings(body)
        | Frame::PushPromise(body)
        | Frame::Ping(body)
        | Frame::GoAway(body)
        | Frame::WindowUpdate(body)
        | Frame::Continuation(body)
        | Frame::Unknown(_, body) => body.payload,
    }
}

fn is_data(frame: &Frame) -> bool
    ensures { result ≡ say.is_data frame.now }
{
    matches!(frame, Frame::Content(_))
}

fn is_rst_stream(frame: &Frame) -> bool
    ensures { result ≡ say.is_rst_stream frame.now }
{
    matches!(frame, Frame::RstStream(_))
}

fn is_block_part(frame: &Frame) -> bool
    ensures { result ≡ (say.is_headers frame.now || say.is_continuation frame.now) }
{
    matches!(frame, Frame::Headers(_) | Frame::Continuation(_))
}

fn is_plain(frame: &Frame) -> bool
    ensures { result ≡ is_plain frame.now }
{
    match frame {
        Frame::Content(_) | Frame::Headers(_) | Frame::RstStream(_) | Frame::Continuation(_) =>
            false,
        _ => true,
    }
}

/// The byte at this place, or 0.
fn byte_at(payload: &[u8], at: usize) -> u8
    ensures { result ≡ get_or payload.now at 0 }
{
    match payload.get(at) {
        Some(byte) => *byte,
        None => 0,
    }
}

/// The number in the four bytes from this place on.
pub(super) fn word_at(payload: &[u8], at: usize) -> u32
    requires { at ≤ 8 }
    ensures { result ≡ say.word_of (drop at payload.now) }
{
    u32::from_be_bytes([
        byte_at(payload, at),
        byte_at(payload, at + 1),
        byte_at(payload, at + 2),
        byte_at(payload, at + 3),
    ])
}

/// What a frame of control tells.
fn told_by(frame: &Frame) -> Took
    ensures { SaysSo frame.now result }
{
    match frame {
        Frame::GoAway(body) => {
            let payload = body.payload.as_slice();
            Took::GoneAway(
                word_at(payload, 0) % 0x8000_0000,
                ErrorCode(word_at(payload, 4)),
            )
        }
        _ => Took::Quiet,
    }
}

fn told(why: Why) -> H2Event
    ensures exact { result ≡ event_of_refusal why }
    ensures size { size_in result ≤ 16384 }
{
    match why {
        Why::Broken(code, place) => H2Event::Refused(code, place),
        Why::Calm(cause) => H2Event::Calm(cause),
        Why::NoMemory => H2Event::NoMemory,
    }
}

fn why_of(end: End) -> Why
    ensures { result ≡ with_last end }
{
    match end {
        End::Broken(code, place) => Why::Broken(code, place),
        End::Calm(cause) => Why::Calm(cause),
    }
}

fn code_of(end: End) -> ErrorCode
    ensures { result ≡ answer.code_of (stop_by end) }
{
    match end {
        End::Broken(code, _) => code,
        End::Calm(_) => ErrorCode::ENHANCE_YOUR_CALM,
    }
}

/// What a frame gives that has these data.
fn with_bytes(took: Took, bytes: Bytes) -> Heard
    requires { length bytes ≤ 16384 }
    ensures ends { (f : Frame) → bytes ≡ block.data_of f → Ends took f result }
    ensures size { size_heard result ≤ 16384 }
{
    match took {
        Took::Quiet => Heard::Quiet,
        Took::Data(stream) => Heard::Piece(stream, bytes),
        Took::Head(stream, fields, last) => Heard::Head(stream, fields, last),
        Took::Ended(stream) => Heard::Ended(stream),
        Took::Reset(stream, code) => Heard::Reset(stream, code),
        Took::GoneAway(stream, code) => Heard::GoneAway(stream, code),
        Took::Stopped(end, last) => Heard::Stopped(end, last),
        Took::NoMemory => Heard::NoMemory,
    }
}

/// What a frame gives, with its data.
fn with_data(took: Took, frame: Frame) -> Heard
    ensures ends { Ends took frame result }
    ensures size { size_heard result ≤ 16384 }
{
    with_bytes(took, data_of(frame))
}

impl H2Conn {
    #[tactic(auto, using(crate::proofs::Outputs::added))]
    fn put_goaway(&mut self, last: u32, end: End)
        requires { vec_len self.old.out + 17 ≤ vec_capacity self.old.out }
        ensures { state_of self.new ≡ with_goaway last (stop_by end) (state_of self.old) }
    {
        texts::put_goaway(&mut self.out, last, code_of(end));
        self.refusal = Some(why_of(end));
    }

    /// Ends the connection with GOAWAY, which names the peer's last stream.
    fn stop(&mut self, end: End, last: u32) -> H2Event
        ensures stops { ((result ≡ event_of_refusal (with_last end)) × (state_of self.new ≡ with_goaway last (stop_by end) (state_of self.old)))
            ⊎ ((result ≡ H2Event.NoMemory) × (state_of self.new ≡ record (state_of self.old) { refusal = Some course.NoMemory })) }
        ensures size { size_in result ≤ 16384 }
    {
        if self.out.reserve(17).is_err() {
            self.refusal = Some(Why::NoMemory);
            return H2Event::NoMemory;
        }
        self.put_goaway(last, end);
        told(why_of(end))
    }

    /// Gives no event any more, for want of memory.
    fn run_out(&mut self) -> H2Event
        ensures answer { result ≡ H2Event.NoMemory }
        ensures state { state_of self.new ≡ record (state_of self.old) { refusal = Some course.NoMemory } }
    {
        self.refusal = Some(Why::NoMemory);
        H2Event::NoMemory
    }

    /// The peer's last stream.
    fn last_begun(&self) -> u32
        ensures { result ≡ last_in (state_of self.now) }
    {
        match self.role {
            Role::Client => 0,
            Role::Server => self.set.highest(),
        }
    }

    /// The next event.
    pub(super) fn next(&mut self) -> H2Event
        ensures answers { (c : ConnectionTrace) → StandsFor self.old c → (d : ConnectionTrace) × StandsFor self.new d × Answers c result d }
        ensures size { size_in result ≤ 16384 }
        ensures ahead { is_event result ≡ true → ahead_of self.new < ahead_of self.old }
    {
        match self.refusal {
            Some(why) => return told(why),
            None => {}
        }
        match self.ended {
            Some(stream) => {
                self.ended = None;
                H2Event::Ended(stream)
            }
            None => self.listen(),
        }
    }

    /// Reads on to the next event.
    fn listen(&mut self) -> H2Event
        requires alive { self.old.refusal ≡ None }
        requires none { self.old.ended ≡ None }
        ensures answers { (c : ConnectionTrace) → StandsFor self.old c → (d : ConnectionTrace) × StandsFor self.new d × Answers c result d }
        ensures size { size_in result ≤ 16384 }
        ensures ahead { is_event result ≡ true → ahead_of self.new < ahead_of self.old }
    {
        'frames: loop {
            if self.watch.is_passed() {
                let last = self.last_begun();
                return self.stop(End::Calm(CalmCause::Resets), last);
            }
            match self.hear() {
                Heard::Quiet => {}
                Heard::NeedMore => return H2Event::NeedMore,
                Heard::Piece(stream, bytes) => return H2Event::Piece(stream, bytes),
                Heard::Head(stream, fields, last) => return H2Event::Head(stream, fields, last),
                Heard::Ended(stream) => return H2Event::Ended(stream),
                Heard::Reset(stream, code) => return H2Event::Reset(stream, code),
                Heard::GoneAway(stream, code) => return H2Event::GoneAway(stream, code),
                Heard::Stopped(end, last) => return self.stop(end, last),
                Heard::NoMemory => return self.run_out(),
            }
        }
    }

    /// Reads one frame, and takes it.
    fn hear(&mut self) -> Heard
        ensures heard { (c : ConnectionTrace) → StandsFor self.old c → IsOpen self.old c → HeardSo c result (state_of self.new) }
        ensures size { size_heard result ≤ 16384 }
        ensures shorter { IsShorter result self.old.reader self.new.reader }
    {
        match self.reader.next() {
            FrameNext::NeedMore => Heard::NeedMore,
            FrameNext::Refused(code, place) => Heard::Stopped(
                End::Broken(code, place),
                self.last_begun(),
            ),
            FrameNext::NoMemory => Heard::NoMemory,
            FrameNext::Frame(frame) => self.hear_frame(frame),
        }
    }

    fn hear_frame(&mut self, frame: Frame) -> Heard
        ensures heard { (c : ConnectionTrace) → Waiting (state_of self.old) c frame → HeardSo c result (state_of self.new) }
        ensures size { size_heard result ≤ 16384 }
        ensures reader { self.new.reader ≡ self.old.reader }
    {
        let took = self.take(&frame);
        with_data(took, frame)
    }

    /// Takes a frame, and answers it.
    fn take(&mut self, frame: &Frame) -> Took
        ensures took { (c : ConnectionTrace) → Waiting (state_of self.old) c frame.now → TookSo c frame.now result (state_of self.new) }
        ensures reader { self.new.reader ≡ self.old.reader }
    {
        if self.out.reserve(64 + frame.body().payload.len()).is_err() {
            return Took::NoMemory;
        }
        let last = self.last_begun();
        let (answer, seen) = self.set.on_frame_seen(frame);
        match answer {
            Ok(()) => self.sound(frame, seen, last),
            Err(fault) => self.on_fault(frame, fault, seen, last),
        }
    }

    /// Takes a frame that breaks a rule, its header block apart.
    fn on_fault(&mut self, frame: &Frame, fault: StreamFault, seen: SeenStream, last: u32) -> Took
        requires { vec_len self.old.out + 64 + payload_length frame.now ≤ vec_capacity self.old.out }
        ensures took { (c : ConnectionTrace) → FailsSo (state_of self.old) c frame.now fault seen last → TookSo c frame.now result (state_of self.new) }
        ensures reader { self.new.reader ≡ self.old.reader }
    {
        match fault {
            StreamFault::Stream(_, code) => self.faulty(frame, code, seen, last),
            StreamFault::Connection(code) => Took::Stopped(End::Broken(code, self.place), last),
        }
    }

    /// Takes a frame that is a stream error, its header block apart.
    fn faulty(&mut self, frame: &Frame, code: ErrorCode, seen: SeenStream, last: u32) -> Took
        requires { vec_len self.old.out + 64 + payload_length frame.now ≤ vec_capacity self.old.out }
        ensures took { (c : ConnectionTrace) → Faulty (state_of self.old) c frame.now code seen last → TookSo c frame.now result (state_of self.new) }
        ensures reader { self.new.reader ≡ self.old.reader }
    {
        if is_block_part(frame) {
            self.on_faulty_block(frame, code, seen, last)
        } else {
            self.on_error(frame, code)
        }
    }

    /// Takes a frame that breaks no rule, its header block apart.
    fn sound(&mut self, frame: &Frame, seen: SeenStream, last: u32) -> Took
        requires { vec_len self.old.out + 64 + payload_length frame.now ≤ vec_capacity self.old.out }
        ensures took { (c : ConnectionTrace) → Sound (state_of self.old) c frame.now seen last → TookSo c frame.now result (state_of self.new) }
        ensures reader { self.new.reader ≡ self.old.reader }
    {
        if is_block_part(frame) {
            self.on_block(frame, seen, last)
        } else if is_data(frame) {
            self.on_data(frame, seen)
        } else if is_rst_stream(frame) {
            self.on_reset(frame, seen, last)
        } else {
            self.control(frame)
        }
    }

    /// Takes a frame of the connection, PRIORITY or WINDOW_UPDATE.
    fn control(&mut self, frame: &Frame) -> Took
        requires plain { is_plain frame.now ≡ true }
        requires room { vec_len self.old.out + 64 + payload_length frame.now ≤ vec_capacity self.old.out }
        ensures took { (c : ConnectionTrace) (seen : SeenStream) (last : ℕ) → Sound (state_of self.old) c frame.now seen last →
            TookSo c frame.now result (state_of self.new) }
        ensures reader { self.new.reader ≡ self.old.reader }
    {
        self.answer(frame);
        told_by(frame)
    }

    /// Writes the acknowledgement of a frame.
    #[tactic(auto, using(crate::proofs::Outputs::added))]
    fn put_ack(&mut self, frame: &Frame)
        requires { vec_len self.old.out + 64 + payload_length frame.now ≤ vec_capacity self.old.out }
        ensures state { state_of self.new ≡ record (state_of self.old) { output = output_of self.old ++ text_or_none (ack_for frame.now) } }
    {
        match frame {
            Frame::Settings(body) => {
                if body.flags & 1 == 0 {
                    texts::put_frame(&mut self.out, 4, 1, 0, &[]);
                }
            }
            Frame::Ping(body) => {
                if body.flags & 1 == 0 {
                    texts::put_frame(&mut self.out, 6, 1, 0, body.payload.as_slice());
                }
            }
            _ => {}
        }
    }

    /// The frame behind this one is read next.
    pub(super) fn pass(&mut self, frame: &Frame)
        ensures state { state_of self.new ≡ passed frame.now (state_of self.old) }
        ensures reader { self.new.reader ≡ self.old.reader }
        ensures out { self.new.out ≡ self.old.out }
    {
        self.place = self
            .place
            .saturating_add(9 + frame.body().payload.len() as u64);
    }

    /// Takes what a frame of control says beside the streams, and acknowledges it.
    fn answer(&mut self, frame: &Frame)
        requires { vec_len self.old.out + 64 + payload_length frame.now ≤ vec_capacity self.old.out }
        ensures state { state_of self.new ≡ plain_in frame.now (state_of self.old) }
        ensures reader { self.new.reader ≡ self.old.reader }
    {
        self.pass(frame);
        sizes::take_sizes(&mut self.encoder, frame);
        self.put_ack(frame);
    }
}
