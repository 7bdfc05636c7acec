ghost use Rattle.std.specs.Prelude.{◌≡◌, ◌+◌, ◌≤◌, ◌<◌, ◌==◌, ◌↔◌, [], ◌++◌, length, take, drop, IsTrue, IfOk, OnOk, OnErr};
ghost use Rattle.h2_frames.specs.Layout.{IsBytes, IsHeaderOf, size_of};
ghost use Rattle.h2_frames.specs.Stream.{TakesFrame, preface, preface_if, fed, Answers, CarriesNext, CarriesPiece, EndsBetween, Stands, StaysRefused};

use crate::code::ErrorCode;
use crate::frame::{Frame, FrameBody};
use crate::header::Header;
use crate::held::BufferedBytes;
use bytes::Bytes;
use std::alloc::{AllocError, Global};
use std::marker::Model;

/// What a client writes before its first frame (RFC 9113, section 3.4).
pub const PREFACE: &[u8] = b"PRI * HTTP/2.0\r\n\r\nSM\r\n\r\n";

const MAX_LENGTH: u32 = 16_384;

/// What a reader says next.
#[derive(Debug, Drop)]
pub enum FrameNext {
    /// The next frame.
    Frame(Frame),
    /// What was fed and not yet taken is less than a whole frame.
    NeedMore,
    /// The code, and the place of the frame that was refused. From then on it is the answer.
    Refused(ErrorCode, u64),
    /// There was no memory. From then on it is the answer.
    NoMemory,
}

/// Why a reader says nothing else any more.
#[derive(Clone, Copy, Debug)]
pub enum Refusal {
    Broken(ErrorCode, u64),
    NoMemory,
}

/// Takes bytes in any pieces, and gives the frames that they spell.
#[derive(Debug, Drop)]
pub struct FrameReader {
    held: BufferedBytes,
    preface_due: bool,
    place: u64,
    refusal: Option<Refusal>,
}

impl Model for FrameReader {
    ghost use Rattle.h2_frames.specs.Reader.{Reader};

    ghost Value = { Reader };

    ghost use Rattle.h2_frames.specs.Stream.{preface_if};

    ghost view = { λ r. record {
      awaited = preface_if r.preface_due;
      held = r.held;
      place = r.place;
      refusal = r.refusal;
    } };
}

/// Takes the frame of this header, whose bytes stand between `start` and `end`.
fn take_frame(
    held: &mut BufferedBytes,
    start: usize,
    end: usize,
    header: Header,
) -> Result<Frame, AllocError>
    requires end { end ≡ start + 9 + header.length }
    requires whole { end ≤ length held.old }
    requires header { IsHeaderOf header (drop start held.old) }
    requires bytes { IsBytes (take 9 (drop start held.old)) }
    requires length { header.length ≤ 16384 }
    ensures ok { IfOk result (λ f. TakesFrame (drop start held.old) f held.new) }
    ensures length { IfOk result (λ f. size_of f ≡ 9 + header.length) }
    ensures err { OnErr result (held.new ≡ held.old) }
{
    let payload = held.take(start + 9, end)?;
    Ok(Frame::of_type(
        header.number,
        FrameBody {
            flags: header.flags,
            stream: header.stream,
            payload,
        },
    ))
}

impl FrameReader {
    /// A reader that was fed nothing, with the client's preface due or not.
    pub fn new(alloc: Global, preface: bool) -> Result<FrameReader, AllocError>
        ensures stands { IfOk result (λ r. Stands (preface_if preface) r [] []) }
        ensures fresh { IfOk result (λ r. r ≡ record {
          awaited = preface_if preface;
          held = [];
          place = 0;
          refusal = None;
        }) }
    {
        Ok(FrameReader {
            held: BufferedBytes::new(alloc),
            preface_due: preface,
            place: 0,
            refusal: None,
        })
    }

    /// Takes the next piece, which is shared and not copied. A reader that has refused drops it.
    pub fn feed(&mut self, piece: Bytes) -> Result<(), AllocError>
        ensures ok { OnOk result (self.new ≡ fed self.old piece) }
        ensures err { OnErr result (self.new ≡ self.old) }
        ensures stands { OnOk result (CarriesPiece self.old piece self.new) }
    {
        self.hold(piece)
    }

    fn hold(&mut self, piece: Bytes) -> Result<(), AllocError>
        ensures ok { OnOk result (self.new ≡ fed self.old piece) }
        ensures err { OnErr result (self.new ≡ self.old) }
    {
        if self.refusal.is_some() {
            return Ok(());
        }
        self.held.add(piece)
    }

    /// The next frame, or why there is none. The payload is a part of the piece that it came in,
    /// unless the frame was cut into pieces. After a refusal it is the same refusal forever.
    pub fn next(&mut self) -> FrameNext
        ensures answers { Answers self.old result self.new }
        ensures stands { CarriesNext self.old result self.new }
        ensures dead { StaysRefused self.old result self.new }
    {
        self.step()
    }

    fn step(&mut self) -> FrameNext
        ensures { Answers self.old result self.new }
    {
        match self.refusal {
            Some(Refusal::Broken(code, place)) => return FrameNext::Refused(code, place),
            Some(Refusal::NoMemory) => return FrameNext::NoMemory,
            None => {}
        }
        let start = if self.preface_due { PREFACE.len() } else { 0 };
        if self.preface_due && !self.held.follows(PREFACE) {
            return self.refuse(ErrorCode::PROTOCOL_ERROR, 0);
        }
        if self.held.len() < start + 9 {
            return FrameNext::NeedMore;
        }
        let header = self.held.header_at(start);
        if header.length > MAX_LENGTH {
            let place = self.place.saturating_add(start as u64);
            return self.refuse(ErrorCode::FRAME_SIZE_ERROR, place);
        }
        let end = start + 9 + header.length as usize;
        if self.held.len() < end {
            return FrameNext::NeedMore;
        }
        let Ok(frame) = take_frame(&mut self.held, start, end, header) else {
            self.refusal = Some(Refusal::NoMemory);
            return FrameNext::NoMemory;
        };
        self.preface_due = false;
        self.place = self.place.saturating_add(end as u64);
        FrameNext::Frame(frame)
    }

    fn refuse(&mut self, code: ErrorCode, place: u64) -> FrameNext
        ensures answer { result ≡ FrameNext.Refused code place }
        ensures after { self.new ≡ record self.old { refusal = Some (Refusal.Broken code place) } }
    {
        self.refusal = Some(Refusal::Broken(code, place));
        FrameNext::Refused(code, place)
    }

    /// Whether nothing is held but what a whole preface or frame ends: a preface that is due is held
    /// until a frame follows it.
    pub fn is_between(&self) -> bool
        ensures held { IsTrue result ↔ (self.now.held ≡ self.now.awaited) }
        ensures stands { EndsBetween self.now result }
    {
        self.holds_awaited()
    }

    fn holds_awaited(&self) -> bool
        ensures { IsTrue result ↔ (self.now.held ≡ self.now.awaited) }
    {
        if self.preface_due {
            self.held.is_all(PREFACE)
        } else {
            self.held.len() == 0
        }
    }
}
