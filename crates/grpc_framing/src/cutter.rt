ghost use Rattle.std.specs.Prelude.{◌≡◌, ◌↔◌, ◌≤◌, [], ◌++◌, IsTrue, IfOk, OnOk, OnErr, None, length, take, drop};

use crate::front::{Front, front_of};
use bytes::{Bytes, BytesMut};
use std::alloc::{AllocError, Global};
use std::marker::Model;

/// What a cutter gives next.
#[derive(Drop)]
pub enum Cut {
    /// The bytes of a whole message, without its flag and length.
    Message(Bytes),
    /// The bytes that are held are less than a whole message.
    NeedMore,
    /// The next flag byte isn't 0. From then on it is the answer, whatever is fed.
    Compressed,
    /// The next flag byte is 0, and the length is above the limit. From then on it is the answer.
    TooLong,
    /// There was no memory for a message. From then on it is the answer, whatever is fed.
    NoMemory,
}

/// Why a cutter gives no message any more.
#[derive(Clone, Copy, Debug, PartialEq, Eq)]
pub enum Refusal {
    /// A flag byte isn't 0.
    Compressed,
    /// A length is above the limit.
    TooLong,
    /// There was no memory for a message.
    NoMemory,
}

/// Cuts a stream that comes in pieces into messages.
#[derive(Drop)]
pub struct MessageCutter {
    limit: u32,
    // What is held is one of these: a piece as it came, of which messages are parts, or the bytes of several pieces.
    piece: Bytes,
    gathered: BytesMut,
    refusal: Option<Refusal>,
    ghost held_once: { 1 ≤ length gathered.items → piece ≡ [] },
}

impl Model for MessageCutter {
    ghost use Rattle.std.specs.Prelude.{◌++◌};
    ghost use Rattle.grpc_framing.specs.CutterState.{CutterState};

    ghost Value = { CutterState };

    ghost view = { λ c. record { limit = c.limit; held = c.piece ++ c.gathered.items; refusal = c.refusal } };
}

impl MessageCutter {
    ghost use Rattle.grpc_framing.specs.NextMessage.{NextMessage, LeavesRest, StaysRefused, fed};

    /// A cutter of a stream whose messages have at most `limit` bytes.
    pub fn new(alloc: Global, limit: u32) -> MessageCutter
        ensures { result ≡ record { limit = limit; held = []; refusal = None } }
    {
        MessageCutter {
            limit,
            piece: Bytes::new(),
            gathered: BytesMut::new(alloc),
            refusal: None,
        }
    }

    /// Takes the next piece of the stream. A cutter that has refused drops it. Without memory
    /// nothing changes.
    pub fn feed(&mut self, piece: Bytes) -> Result<(), AllocError>
        ensures ok { OnOk result (self.new ≡ fed self.old piece) }
        ensures err { OnErr result (self.new ≡ self.old) }
    {
        match self.refusal {
            Some(_) => Ok(()),
            None => self.hold(piece),
        }
    }

    // Takes the next piece where none was refused. A piece is kept as it came where nothing is held.
    fn hold(&mut self, piece: Bytes) -> Result<(), AllocError>
        ensures ok { OnOk result (self.new ≡ record self.old { held = self.old.held ++ piece }) }
        ensures err { OnErr result (self.new ≡ self.old) }
    {
        if self.piece.is_empty() && self.gathered.is_empty() {
            self.piece = piece;
            return Ok(());
        }
        if !self.piece.is_empty() {
            self.gathered.extend_from_slice(self.piece.as_slice())?;
            self.piece.clear();
        }
        self.gathered.extend_from_slice(piece.as_slice())
    }

    // The bytes that are held.
    fn held(&self) -> &[u8]
        ensures { result.now ≡ self.now.held }
    {
        if self.gathered.is_empty() {
            self.piece.as_slice()
        } else {
            self.gathered.as_slice()
        }
    }

    // Takes this many bytes from the front of what is held. A part of a piece isn't copied.
    fn split_to(&mut self, size: usize) -> Result<Bytes, AllocError>
        requires { size ≤ length self.old.held }
        ensures ok { OnOk result (self.new ≡ record self.old { held = drop size self.old.held }) }
        ensures front { IfOk result (λ front. front ≡ take size self.old.held) }
        ensures err { OnErr result (self.new ≡ self.old) }
    {
        if self.gathered.is_empty() {
            self.piece.split_to(size)
        } else {
            self.gathered.freeze_to(size)
        }
    }

    fn cut_front(&mut self) -> Cut
        ensures { NextMessage self.old result self.new }
    {
        match self.refusal {
            Some(Refusal::Compressed) => return Cut::Compressed,
            Some(Refusal::TooLong) => return Cut::TooLong,
            Some(Refusal::NoMemory) => return Cut::NoMemory,
            None => {}
        }
        match front_of(self.limit, self.held()) {
            Front::Message(size) => match self.split_to(5 + size) {
                Ok(mut message) => {
                    message.advance(5);
                    Cut::Message(message)
                }
                Err(_) => {
                    self.refusal = Some(Refusal::NoMemory);
                    Cut::NoMemory
                }
            },
            Front::NeedMore => Cut::NeedMore,
            Front::Compressed => {
                self.refusal = Some(Refusal::Compressed);
                Cut::Compressed
            }
            Front::TooLong => {
                self.refusal = Some(Refusal::TooLong);
                Cut::TooLong
            }
        }
    }

    /// Gives the next message. After `NeedMore` more can be fed; after a refusal the same refusal is
    /// the answer forever. Nothing but a message is taken from what is held.
    pub fn next(&mut self) -> Cut
        ensures exact { NextMessage self.old result self.new }
        ensures leads { LeavesRest self.old result self.new }
        ensures dead { StaysRefused self.old result self.new }
    {
        self.cut_front()
    }

    /// Whether no part of a message is held.
    pub fn is_between(&self) -> bool
        ensures { IsTrue result ↔ (self.now.held ≡ []) }
    {
        self.piece.is_empty() && self.gathered.is_empty()
    }
}
