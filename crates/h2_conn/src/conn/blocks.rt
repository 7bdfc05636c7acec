//! Header blocks that are received.
ghost use Rattle.std.specs.Prelude.{◌≡◌, ◌≤◌, ◌+◌, ◌||◌, true, Some, None, if◌then◌else◌, fold, sum_by, IfOk, OnOk, OnErr};
ghost use Rattle.std.specs.Vec.{vec_capacity, vec_len};
ghost use Rattle.hpack_tables.specs.EntrySizes.{size_of};
ghost use Rattle.h2_exchange.specs.Blocks as block;
ghost use Rattle.h2_exchange.specs.Frames as say;
ghost use Rattle.h2_exchange.specs.Frames.{payload_length};
ghost use Rattle.h2_exchange.specs.Malformed.{is_malformed_head};
ghost use Rattle.http_connection.specs.ConnectionTrace.{ConnectionTrace};
ghost use Rattle.h2_streams.specs.Laws.{with_malformed};
ghost use Rattle.h2_conn.specs.HeaderParts.{block_in, block_tells, BlockIsRead, grown, is_long, is_malformed_by, limit_of, took_fault, with_block, with_dropped, with_part_of};
ghost use Rattle.h2_conn.specs.Hears.{Faulty, Sound, TookSo};
ghost use Rattle.h2_conn.specs.BlocksRead.{ReadFaulty, ReadSo};
ghost use Rattle.h2_conn.specs.State.{state_of};

use super::taking::{data_in, has_end_stream};
use super::{H2Conn, Opened};
use crate::heard::{End, Took};
use h2_exchange::{CalmCause, Role};
use h2_frames::{ErrorCode, Frame};
use h2_streams::SeenStream;
use hpack_tables::{
    Field, Fields, HpackFault, is_malformed_request, is_malformed_response, is_malformed_trailers,
};
use std::alloc::AllocError;

fn has_end_headers(frame: &Frame) -> bool
    ensures { result ≡ say.has_end_headers frame.now }
{
    frame.body().flags & 4 != 0
}

/// The part of a header block in HEADERS.
#[tactic(auto, using(crate::proofs::Parts::drop_five))]
fn fragment_in(frame: &Frame) -> &[u8]
    ensures { result.now ≡ block.fragment_of frame.now }
{
    let part = data_in(frame);
    if frame.body().flags & 32 != 0 {
        let (_, rest) = part.split_at(part.len().min(5));
        rest
    } else {
        part
    }
}

/// The size of a header list with one more field, as far as a number goes.
fn grown(size: usize, field: &Field) -> usize
    ensures { result ≡ grown size field.now }
{
    let name = field.name.len();
    let value = field.value.len();
    size.saturating_add(name)
        .saturating_add(value)
        .saturating_add(32)
}

fn list_size(fields: &[Field]) -> usize
    ensures { result ≡ fold grown 0 fields.now }
{
    fields
        .iter()
        .fold(0, |size: usize, field| grown(size, field))
}

/// Whether a header list is longer than this limit.
#[tactic(auto, using(crate::proofs::Parts::grown_list))]
fn is_long(limit: u32, fields: &[Field]) -> bool
    requires { sum_by size_of fields.now ≤ 65536 }
    ensures { result ≡ is_long limit fields.now }
{
    list_size(fields) > limit as usize
}

/// How a fault of a header block ends the connection, whose frame begins at this place.
fn took_fault(place: u64, last: u32, fault: HpackFault) -> Took
    ensures { result ≡ took_fault place last fault }
{
    match fault {
        HpackFault::NoMemory => Took::NoMemory,
        HpackFault::ListTooLong => Took::Stopped(End::Calm(CalmCause::HeaderList), last),
        HpackFault::BadIndex
        | HpackFault::BadInteger
        | HpackFault::BadString
        | HpackFault::LateSizeUpdate
        | HpackFault::SizeTooLarge => {
            Took::Stopped(End::Broken(ErrorCode::COMPRESSION_ERROR, place), last)
        }
    }
}

/// The error of a header block that is malformed or not, and has this error by itself.
fn code_by(is_malformed: bool, code: ErrorCode) -> ErrorCode
    ensures { result ≡ (if is_malformed then with_malformed (Some code) else code) }
{
    if is_malformed && code.0 == ErrorCode::REFUSED_STREAM.0 {
        ErrorCode::PROTOCOL_ERROR
    } else {
        code
    }
}

/// Whether a frame stands on a stream that was live, or begins one.
fn is_on_stream(seen: SeenStream) -> bool
    ensures { result ≡ (seen.was_live || seen.is_live) }
{
    seen.was_live || seen.is_live
}

fn is_malformed_head(role: Role, fields: &[Field]) -> bool
    ensures { result ≡ is_malformed_head role fields.now }
{
    match role {
        Role::Server => is_malformed_request(fields),
        Role::Client => is_malformed_response(fields),
    }
}

fn is_malformed(role: Role, had_head: bool, fields: &[Field]) -> bool
    ensures { result ≡ is_malformed_by role had_head fields.now }
{
    if had_head {
        is_malformed_trailers(fields)
    } else {
        is_malformed_head(role, fields)
    }
}

/// What a header block tells.
fn block_tells(role: Role, had_head: bool, stream: u32, fields: Fields, last: bool) -> Took
    ensures { result ≡ block_tells role had_head stream fields last }
{
    match (role, had_head) {
        (Role::Server, true) => Took::Ended(stream),
        (Role::Client, true) => Took::Head(stream, fields, true),
        (Role::Server, false) | (Role::Client, false) => Took::Head(stream, fields, last),
    }
}

impl H2Conn {
    /// The limit that the header block passes with a frame.
    #[tactic(auto, using(crate::proofs::Parts::longer))]
    fn block_limit(&self, frame: &Frame) -> Option<CalmCause>
        ensures { result ≡ limit_of (block_in (state_of self.now).block frame.now) }
    {
        let (size, frames) = match self.opened {
            None => (fragment_in(frame).len(), 1),
            Some(opened) => (
                self.text.len() + frame.body().payload.len(),
                opened.frames.saturating_add(1),
            ),
        };
        if size > 65_536 {
            Some(CalmCause::HeaderBytes)
        } else if frames > 64 {
            Some(CalmCause::HeaderFrames)
        } else {
            None
        }
    }

    /// Keeps a part that does not complete its header block.
    fn keep_part(&mut self, frame: &Frame) -> Result<(), AllocError>
        ensures ok { OnOk result (state_of self.new ≡ with_part_of frame.now (state_of self.old)) }
        ensures err { OnErr result (state_of self.new ≡ state_of self.old) }
        ensures reader { self.new.reader ≡ self.old.reader }
    {
        match self.opened {
            None => {
                self.text.clear();
                self.text.extend_from_slice(fragment_in(frame))?;
                self.opened = Some(Opened {
                    stream: frame.body().stream,
                    last: has_end_stream(frame),
                    frames: 1,
                });
            }
            Some(opened) => {
                self.text
                    .extend_from_slice(frame.body().payload.as_slice())?;
                self.opened = Some(Opened {
                    frames: opened.frames.saturating_add(1),
                    ..opened
                });
            }
        }
        self.pass(frame);
        Ok(())
    }

    /// Whether the header block that a frame completes ends its side of the stream.
    fn block_ends(&self, frame: &Frame) -> bool
        ensures { result ≡ (block_in (state_of self.now).block frame.now).last }
    {
        match self.opened {
            None => has_end_stream(frame),
            Some(opened) => opened.last,
        }
    }

    /// Reads the header block that a frame completes.
    fn read_block(&mut self, frame: &Frame) -> Result<Fields, HpackFault>
        ensures state { state_of self.new ≡ record (state_of self.old) { decoder = self.new.decoder; block = None } }
        ensures size { IfOk result (λ fields. sum_by size_of fields ≤ 65536) }
        ensures read { BlockIsRead self.old.decoder (block_in (state_of self.old).block frame.now).text result self.new.decoder }
        ensures reader { self.new.reader ≡ self.old.reader }
        ensures out { self.new.out ≡ self.old.out }
    {
        match self.opened {
            None => self.decoder.block(fragment_in(frame)),
            Some(_) => {
                self.opened = None;
                if self
                    .text
                    .extend_from_slice(frame.body().payload.as_slice())
                    .is_err()
                {
                    return Err(HpackFault::NoMemory);
                }
                let read = self.decoder.block(self.text.as_slice());
                self.text.clear();
                read
            }
        }
    }

    /// Takes that a header block stood on a live stream.
    fn end_block(&mut self, frame: &Frame, last: bool, is_live: bool) -> Result<(), AllocError>
        ensures ok { OnOk result (state_of self.new ≡ with_block last is_live frame.now (state_of self.old)) }
        ensures err { OnErr result (state_of self.new ≡ state_of self.old) }
        ensures reader { self.new.reader ≡ self.old.reader }
    {
        match self.role {
            Role::Client => {}
            Role::Server => {
                if last {
                    self.watch.end()?;
                }
            }
        }
        if !is_live {
            self.watch.over(frame.body().stream);
        }
        self.pass(frame);
        Ok(())
    }

    /// Resets the live stream of a malformed header block.
    fn drop_malformed(&mut self, frame: &Frame, code: ErrorCode)
        requires { vec_len self.old.out + 13 ≤ vec_capacity self.old.out }
        ensures state { state_of self.new ≡ with_dropped code frame.now (state_of self.old) }
        ensures reader { self.new.reader ≡ self.old.reader }
    {
        let stream = frame.body().stream;
        self.set.reset(stream);
        self.pass(frame);
        self.put_error(stream, code);
    }

    /// Takes a part of a header block that breaks no rule, its content apart.
    pub(super) fn on_block(&mut self, frame: &Frame, seen: SeenStream, last: u32) -> Took
        requires part { (say.is_headers frame.now || say.is_continuation frame.now) ≡ true }
        requires room { vec_len self.old.out + 64 + payload_length frame.now ≤ vec_capacity self.old.out }
        ensures took { (c : ConnectionTrace) → Sound (state_of self.old) c frame.now seen last → TookSo c frame.now result (state_of self.new) }
        ensures reader { self.new.reader ≡ self.old.reader }
    {
        match self.block_limit(frame) {
            Some(cause) => return Took::Stopped(End::Calm(cause), last),
            None => {}
        }
        if !has_end_headers(frame) {
            return match self.keep_part(frame) {
                Ok(()) => Took::Quiet,
                Err(_) => Took::NoMemory,
            };
        }
        let ends = self.block_ends(frame);
        match self.read_block(frame) {
            Ok(fields) => self.on_fields(frame, fields, ends, seen, last),
            Err(fault) => took_fault(self.place, last, fault),
        }
    }

    /// Takes what a header block says that is no stream error by itself.
    fn on_fields(
        &mut self,
        frame: &Frame,
        fields: Fields,
        ends: bool,
        seen: SeenStream,
        last: u32,
    ) -> Took
        requires size { sum_by size_of fields ≤ 65536 }
        requires room { vec_len self.old.out + 64 + payload_length frame.now ≤ vec_capacity self.old.out }
        ensures took { (c : ConnectionTrace) → ReadSo (state_of self.old) c frame.now fields ends seen last →
            TookSo c frame.now result (state_of self.new) }
        ensures reader { self.new.reader ≡ self.old.reader }
    {
        if is_long(self.limits.list, fields.as_slice()) {
            return Took::Stopped(End::Calm(CalmCause::HeaderList), last);
        }
        let stream = frame.body().stream;
        if !is_on_stream(seen) {
            self.pass(frame);
            return Took::Quiet;
        }
        if is_malformed(self.role, seen.had_head, fields.as_slice()) {
            self.drop_malformed(frame, ErrorCode::PROTOCOL_ERROR);
            return Took::Reset(stream, ErrorCode::PROTOCOL_ERROR);
        }
        if self.end_block(frame, ends, seen.is_live).is_err() {
            return Took::NoMemory;
        }
        block_tells(self.role, seen.had_head, stream, fields, ends)
    }

    /// Takes the end of a header block that is a stream error.
    pub(super) fn on_faulty_block(
        &mut self,
        frame: &Frame,
        code: ErrorCode,
        seen: SeenStream,
        last: u32,
    ) -> Took
        requires part { (say.is_headers frame.now || say.is_continuation frame.now) ≡ true }
        requires room { vec_len self.old.out + 64 + payload_length frame.now ≤ vec_capacity self.old.out }
        ensures took { (c : ConnectionTrace) → Faulty (state_of self.old) c frame.now code seen last →
            TookSo c frame.now result (state_of self.new) }
        ensures reader { self.new.reader ≡ self.old.reader }
    {
        match self.block_limit(frame) {
            Some(cause) => return Took::Stopped(End::Calm(cause), last),
            None => {}
        }
        match self.read_block(frame) {
            Ok(fields) => self.on_faulty_fields(frame, fields.as_slice(), code, seen, last),
            Err(fault) => took_fault(self.place, last, fault),
        }
    }

    /// Takes what a header block says that is a stream error by itself.
    fn on_faulty_fields(
        &mut self,
        frame: &Frame,
        fields: &[Field],
        code: ErrorCode,
        seen: SeenStream,
        last: u32,
    ) -> Took
        requires size { sum_by size_of fields.now ≤ 65536 }
        requires room { vec_len self.old.out + 64 + payload_length frame.now ≤ vec_capacity self.old.out }
        ensures took { (c : ConnectionTrace) → ReadFaulty (state_of self.old) c frame.now fields.now code seen last →
            TookSo c frame.now result (state_of self.new) }
        ensures reader { self.new.reader ≡ self.old.reader }
    {
        if is_long(self.limits.list, fields) {
            return Took::Stopped(End::Calm(CalmCause::HeaderList), last);
        }
        let why = code_by(is_malformed(self.role, seen.had_head, fields), code);
        let stream = frame.body().stream;
        self.pass(frame);
        self.put_error(stream, why);
        Took::Reset(stream, why)
    }
}
