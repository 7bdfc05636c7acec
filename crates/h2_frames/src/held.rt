ghost use Rattle.std.specs.Prelude.{◌≡◌, ◌+◌, ◌<◌, ◌≤◌, ◌↔◌, [], ◌++◌, length, take, drop, slice_index, IsTrue, IfOk, OnOk, OnErr};
ghost use Rattle.h2_frames.specs.Layout.{IsBytes, IsHeaderOf};
ghost use Rattle.h2_frames.specs.Stream.{MatchesPreface};

use crate::header::{Header, header_at};
use bytes::{Bytes, BytesMut};
use std::alloc::{AllocError, Global};
use std::marker::Model;

/// The bytes that no frame was made of yet. The latest piece is shared with who gave it, and only
/// what was left of the pieces before it is joined by copying.
#[derive(Debug, Drop)]
pub struct BufferedBytes {
    joined: BytesMut,
    piece: Bytes,
}

impl Model for BufferedBytes {
    ghost use Rattle.std.specs.Prelude.{ℕ, List, ◌++◌};

    ghost Value = { List ℕ };

    ghost view = { λ h. h.joined.items ++ h.piece };
}

/// Whether the bytes begin with those that are due, or are a first part of them.
fn follows(due: &[u8], bytes: &[u8]) -> bool
    ensures { IsTrue result ↔ MatchesPreface due.now bytes.now }
{
    let n = bytes.len().min(due.len());
    bytes[..n] == due[..n]
}

/// Copies so much of the piece behind the joined bytes that these reach the end.
fn join(joined: &mut BytesMut, piece: &mut Bytes, end: usize) -> Result<(), AllocError>
    requires { end ≤ length joined.old.items + length piece.old }
    ensures same { joined.new.items ++ piece.new ≡ joined.old.items ++ piece.old }
    ensures long { OnOk result (end ≤ length joined.new.items) }
{
    if joined.len() < end {
        let missing = end - joined.len();
        joined.extend_from_slice(&piece.as_slice()[..missing])?;
        piece.advance(missing);
    }
    Ok(())
}

impl BufferedBytes {
    pub fn new(alloc: Global) -> BufferedBytes
        ensures { result ≡ [] }
    {
        BufferedBytes {
            joined: BytesMut::new(alloc),
            piece: Bytes::new(),
        }
    }

    pub fn len(&self) -> usize
        ensures { result ≡ length self.now }
    {
        self.joined.len() + self.piece.len()
    }

    /// Adds a piece behind the others, and copies what was left of the one before it.
    pub fn add(&mut self, piece: Bytes) -> Result<(), AllocError>
        ensures ok { OnOk result (self.new ≡ self.old ++ piece) }
        ensures err { OnErr result (self.new ≡ self.old) }
    {
        if !self.piece.is_empty() {
            self.joined.extend_from_slice(self.piece.as_slice())?;
        }
        self.piece = piece;
        Ok(())
    }

    pub fn byte_at(&self, place: usize) -> u8
        requires { place < length self.now }
        ensures { result ≡ slice_index self.now place }
    {
        let joined = self.joined.as_slice();
        if place < joined.len() {
            joined[place]
        } else {
            self.piece.as_slice()[place - joined.len()]
        }
    }

    /// Whether the bytes begin with those that are due, or are a first part of them.
    pub fn follows(&self, due: &[u8]) -> bool
        ensures { IsTrue result ↔ MatchesPreface due.now self.now }
    {
        let joined = self.joined.as_slice();
        let n = joined.len().min(due.len());
        follows(due, joined) && follows(&due[n..], self.piece.as_slice())
    }

    /// Whether these are the bytes.
    pub fn is_all(&self, due: &[u8]) -> bool
        ensures { IsTrue result ↔ (self.now ≡ due.now) }
    {
        self.len() == due.len() && self.follows(due)
    }

    /// The header that stands at this place.
    pub fn header_at(&self, start: usize) -> Header
        requires front { start ≤ 24 }
        requires whole { start + 9 ≤ length self.now }
        ensures header { IsHeaderOf result (drop start self.now) }
        ensures bytes { IsBytes (take 9 (drop start self.now)) }
    {
        header_at(&[
            self.byte_at(start),
            self.byte_at(start + 1),
            self.byte_at(start + 2),
            self.byte_at(start + 3),
            self.byte_at(start + 4),
            self.byte_at(start + 5),
            self.byte_at(start + 6),
            self.byte_at(start + 7),
            self.byte_at(start + 8),
        ])
    }

    /// Takes the bytes up to `end`, and gives those from `start` on.
    pub fn take(&mut self, start: usize, end: usize) -> Result<Bytes, AllocError>
        requires range { start ≤ end }
        requires whole { end ≤ length self.old }
        ensures taken { IfOk result (λ b. b ≡ drop start (take end self.old)) }
        ensures rest { OnOk result (self.new ≡ drop end self.old) }
        ensures err { OnErr result (self.new ≡ self.old) }
    {
        let mut taken = self.split_to(end)?;
        taken.advance(start);
        Ok(taken)
    }

    /// Takes the bytes up to `end`. They are shared where they stand in one row.
    fn split_to(&mut self, end: usize) -> Result<Bytes, AllocError>
        requires { end ≤ length self.old }
        ensures taken { IfOk result (λ b. b ≡ take end self.old) }
        ensures rest { OnOk result (self.new ≡ drop end self.old) }
        ensures err { OnErr result (self.new ≡ self.old) }
    {
        if self.joined.is_empty() {
            return self.piece.split_to(end);
        }
        join(&mut self.joined, &mut self.piece, end)?;
        self.joined.freeze_to(end)
    }
}
