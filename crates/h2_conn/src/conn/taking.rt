//! DATA and RST_STREAM that are received, and frames that are stream errors.
ghost use Rattle.std.specs.Prelude.{◌≡◌, ℕ, ◌≤◌, ◌+◌, ◌||◌, true, false, OnOk, OnErr};
ghost use Rattle.std.specs.Vec.{vec_capacity, vec_len};
ghost use Rattle.h2_exchange.specs.Blocks as block;
ghost use Rattle.h2_exchange.specs.Frames as say;
ghost use Rattle.h2_exchange.specs.Frames.{payload_length};
ghost use Rattle.h2_streams.specs.declared.set.receive.SeenStream.{SeenStream};
ghost use Rattle.http_connection.specs.ConnectionTrace.{ConnectionTrace};
ghost use Rattle.h2_conn.specs.Credit.{all_granted, stream_granted, with_credit};
ghost use Rattle.h2_conn.specs.Hears.{Faulty, Sound, TookSo};
ghost use Rattle.h2_conn.specs.Receiving.{with_cut, with_heard, with_reset_of, with_told};
ghost use Rattle.h2_conn.specs.State.{state_of};
ghost use Rattle.h2_conn.specs.Watching.{cut_on};

use super::H2Conn;
use super::hearing::word_at;
use crate::heard::{End, Took};
use crate::texts;
use h2_exchange::{CalmCause, Role};
use h2_frames::{ErrorCode, Frame};
use h2_streams::SeenStream;
use std::alloc::AllocError;

/// A payload without the length byte of its padding and the padding.
fn unpadded(payload: &[u8]) -> &[u8]
    ensures { result.now ≡ block.unpadded true payload.now }
{
    match payload.split_first() {
        Some((padding, rest)) => {
            let (part, _) = rest.split_at(rest.len().saturating_sub(usize::from(*padding)));
            part
        }
        None => payload,
    }
}

/// What DATA or HEADERS bring, without padding.
pub(super) fn data_in(frame: &Frame) -> &[u8]
    ensures { result.now ≡ block.data_of frame.now }
{
    let payload = frame.body().payload.as_slice();
    if frame.body().flags & 8 != 0 {
        unpadded(payload)
    } else {
        payload
    }
}

/// END_STREAM.
pub(super) fn has_end_stream(frame: &Frame) -> bool
    ensures { result ≡ say.has_end_stream frame.now }
{
    frame.body().flags & 1 != 0
}

/// The error code of an RST_STREAM.
fn code_of(frame: &Frame) -> ErrorCode
    ensures { result ≡ say.code_of frame.now }
{
    ErrorCode(word_at(frame.body().payload.as_slice(), 0))
}

impl H2Conn {
    /// Makes the connection's window whole.
    #[tactic(auto, using(crate::proofs::Outputs::added))]
    pub(super) fn grant(&mut self)
        requires { vec_len self.old.out + 13 ≤ vec_capacity self.old.out }
        ensures state { state_of self.new ≡ all_granted (state_of self.old) }
        ensures reader { self.new.reader ≡ self.old.reader }
        ensures len { vec_len self.new.out ≤ vec_len self.old.out + 13 }
        ensures capacity { vec_capacity self.old.out ≤ vec_capacity self.new.out }
    {
        let n = self.set.owed_credit();
        if n != 0 {
            texts::put_update(&mut self.out, 0, n);
            self.set.credited(n);
        }
    }

    /// Makes a stream's window whole, where it is live.
    #[tactic(auto, using(crate::proofs::Outputs::added))]
    pub(super) fn grant_on(&mut self, stream: u32)
        requires { vec_len self.old.out + 13 ≤ vec_capacity self.old.out }
        ensures state { state_of self.new ≡ stream_granted stream (state_of self.old) }
        ensures reader { self.new.reader ≡ self.old.reader }
        ensures len { vec_len self.new.out ≤ vec_len self.old.out + 13 }
        ensures capacity { vec_capacity self.old.out ≤ vec_capacity self.new.out }
    {
        let n = self.set.owed_credit_on(stream);
        if n != 0 {
            texts::put_update(&mut self.out, stream, n);
            self.set.credited_on(stream, n);
        }
    }

    /// Sends what is owed to the connection and to a stream, unless credit is held.
    fn credit(&mut self, stream: u32)
        requires { vec_len self.old.out + 26 ≤ vec_capacity self.old.out }
        ensures state { state_of self.new ≡ with_credit stream (state_of self.old) }
        ensures reader { self.new.reader ≡ self.old.reader }
    {
        if !self.is_holding {
            self.grant();
            self.grant_on(stream);
        }
    }

    /// Takes what DATA are of a request.
    fn watch_data(&mut self, frame: &Frame, was_live: bool) -> Result<(), AllocError>
        ensures ok { OnOk result (state_of self.new ≡ with_heard was_live frame.now (state_of self.old)) }
        ensures err { OnErr result (state_of self.new ≡ state_of self.old) }
        ensures reader { self.new.reader ≡ self.old.reader }
        ensures out { self.new.out ≡ self.old.out }
    {
        let stream = frame.body().stream;
        match self.role {
            Role::Client => Ok(()),
            Role::Server => {
                if !was_live {
                    Ok(())
                } else if has_end_stream(frame) {
                    self.watch.take_last(stream, data_in(frame))
                } else {
                    self.watch.take(stream, data_in(frame))
                }
            }
        }
    }

    /// Takes that the end of a stream is still to be told, or that the stream is over.
    fn tell_end(&mut self, frame: &Frame, is_live: bool)
        ensures state { state_of self.new ≡ with_told is_live frame.now (state_of self.old) }
        ensures reader { self.new.reader ≡ self.old.reader }
    {
        let stream = frame.body().stream;
        if has_end_stream(frame) {
            self.ended = Some(stream);
        }
        if !is_live {
            self.watch.over(stream);
        }
    }

    /// Takes DATA that break no rule.
    pub(super) fn on_data(&mut self, frame: &Frame, seen: SeenStream) -> Took
        requires is_data { say.is_data frame.now ≡ true }
        requires room { vec_len self.old.out + 64 + payload_length frame.now ≤ vec_capacity self.old.out }
        ensures took { (c : ConnectionTrace) (last : ℕ) → Sound (state_of self.old) c frame.now seen last →
            TookSo c frame.now result (state_of self.new) }
        ensures reader { self.new.reader ≡ self.old.reader }
    {
        let stream = frame.body().stream;
        if self.watch_data(frame, seen.was_live).is_err() {
            return Took::NoMemory;
        }
        self.pass(frame);
        self.credit(stream);
        if !seen.was_live {
            return Took::Quiet;
        }
        self.tell_end(frame, seen.is_live);
        Took::Data(stream)
    }

    /// Takes that the peer resets a live stream, and tells whether too many requests were cut off.
    fn take_cut(&mut self, frame: &Frame) -> bool
        ensures state { state_of self.new ≡ with_cut frame.now (state_of self.old) }
        ensures passed { result ≡ (cut_on (say.stream_of frame.now) self.old.watch).is_passed }
        ensures reader { self.new.reader ≡ self.old.reader }
    {
        self.watch.cut(frame.body().stream);
        self.watch.is_passed()
    }

    /// Takes RST_STREAM.
    pub(super) fn on_reset(&mut self, frame: &Frame, seen: SeenStream, last: u32) -> Took
        requires is_reset { say.is_rst_stream frame.now ≡ true }
        ensures took { (c : ConnectionTrace) → Sound (state_of self.old) c frame.now seen last → TookSo c frame.now result (state_of self.new) }
        ensures reader { self.new.reader ≡ self.old.reader }
    {
        let stream = frame.body().stream;
        self.pass(frame);
        if !seen.was_live {
            return Took::Quiet;
        }
        if self.take_cut(frame) {
            return Took::Stopped(End::Calm(CalmCause::Resets), last);
        }
        Took::Reset(stream, code_of(frame))
    }

    /// Resets a stream that the streams have dropped.
    #[tactic(auto, using(crate::proofs::Outputs::added))]
    pub(super) fn put_error(&mut self, stream: u32, code: ErrorCode)
        requires { vec_len self.old.out + 13 ≤ vec_capacity self.old.out }
        ensures state { state_of self.new ≡ with_reset_of stream code (state_of self.old) }
        ensures reader { self.new.reader ≡ self.old.reader }
        ensures len { vec_len self.new.out ≡ vec_len self.old.out + 13 }
        ensures capacity { vec_capacity self.old.out ≤ vec_capacity self.new.out }
    {
        texts::put_reset(&mut self.out, stream, code);
        self.watch.cut(stream);
    }

    /// Takes a frame that is a stream error, and no part of a header block.
    pub(super) fn on_error(&mut self, frame: &Frame, code: ErrorCode) -> Took
        requires part { (say.is_headers frame.now || say.is_continuation frame.now) ≡ false }
        requires room { vec_len self.old.out + 64 + payload_length frame.now ≤ vec_capacity self.old.out }
        ensures took { (c : ConnectionTrace) (seen : SeenStream) (last : ℕ) → Faulty (state_of self.old) c frame.now code seen last →
            TookSo c frame.now result (state_of self.new) }
        ensures reader { self.new.reader ≡ self.old.reader }
    {
        let stream = frame.body().stream;
        self.pass(frame);
        self.put_error(stream, code);
        self.credit(stream);
        Took::Reset(stream, code)
    }
}
