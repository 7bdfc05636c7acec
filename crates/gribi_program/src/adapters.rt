ghost use Rattle.std.specs.Prelude.{◌≡◌, ◌≤◌, ◌<◌, length, take};
ghost use Rattle.std.specs.Io.KnownBytes.{Appends};
ghost use Rattle.rig_io.specs.Fault.{HasCause, StaysUnless};
ghost use Rattle.rig_io.specs.Stream.{TookInBounds, Takes, TakenGrows, PlacedInBounds, Places};
ghost use Rattle.gribi_program.specs.Adapters.{Reads, Writes};

use rig_io::{Placed, Sink, Source, Took};
use std::io::{Read, Write};

/// A source over any reader. It tells no bytes, and counts each read that fails.
#[derive(Drop)]
pub struct ReaderSource<R> {
    inner: R,
    faults: u64,
}

impl<R: Read + Drop> ReaderSource<R> {
    /// A source over a reader that has not failed.
    pub fn new(inner: R) -> Self
        ensures { (result.inner ≡ inner) × (result.faults ≡ 0) }
    {
        ReaderSource { inner, faults: 0 }
    }
}

impl<R: Read + Drop> Source for ReaderSource<R> {
    ghost use Rattle.std.specs.Prelude.{None};

    ghost taken = { λ _. None };

    ghost left = { λ _. None };

    ghost faults = { λ s. s.faults };

    fn take(&mut self, buffer: &mut [u8]) -> Took
        requires { 0 < length buffer.old }
        ensures bound { TookInBounds result (length buffer.new) }
        ensures bytes { Takes None None result buffer.new }
        ensures grows { TakenGrows None None result buffer.new }
        ensures cause { HasCause self.old.faults self.new.faults (result ≡ Took.Failed) }
        ensures stays { StaysUnless self.old.faults self.new.faults (result ≡ Took.Failed) }
        ensures reader { Reads (R.remaining self.old.inner) (R.remaining self.new.inner) result buffer.new }
    {
        match self.inner.read(buffer) {
            Ok(0) => Took::End,
            Ok(count) => Took::Got(count),
            Err(_) => {
                self.faults = self.faults.saturating_add(1);
                Took::Failed
            }
        }
    }
}

/// A sink over any writer. It tells no bytes, and counts each write that fails or places nothing.
/// What is written is flushed at once, so that no failure comes later.
#[derive(Drop)]
pub struct WriterSink<W> {
    inner: W,
    faults: u64,
}

impl<W: Write + Drop> WriterSink<W> {
    /// A sink over a writer that has not failed.
    pub fn new(inner: W) -> Self
        ensures { (result.inner ≡ inner) × (result.faults ≡ 0) }
    {
        WriterSink { inner, faults: 0 }
    }

    // How many bytes were written and flushed, 0 where that failed.
    fn write_out(&mut self, piece: &[u8]) -> usize
        ensures bound { result ≤ length piece.now }
        ensures same { self.new.faults ≡ self.old.faults }
        ensures writer { 0 < result → Appends (W.contents self.old.inner) (W.contents self.new.inner) (take result piece.now) }
    {
        match self.inner.write(piece) {
            Ok(count) if self.inner.flush().is_ok() => count,
            _ => 0,
        }
    }
}

impl<W: Write + Drop> Sink for WriterSink<W> {
    ghost use Rattle.std.specs.Prelude.{None};

    ghost placed = { λ _. None };

    ghost faults = { λ s. s.faults };

    fn put(&mut self, piece: &[u8]) -> Placed
        requires { 0 < length piece.now }
        ensures bound { PlacedInBounds result (length piece.now) }
        ensures bytes { Places None None result piece.now }
        ensures cause { HasCause self.old.faults self.new.faults (result ≡ Placed.Failed) }
        ensures stays { StaysUnless self.old.faults self.new.faults (result ≡ Placed.Failed) }
        ensures writer { Writes (W.contents self.old.inner) (W.contents self.new.inner) result piece.now }
    {
        let count = self.write_out(piece);
        if count == 0 {
            self.faults = self.faults.saturating_add(1);
            Placed::Failed
        } else {
            Placed::Put(count)
        }
    }
}
