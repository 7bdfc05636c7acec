ghost use Rattle.std.specs.Prelude.{◌≡◌, ◌≤◌, ◌<◌, List, [], ℕ, Option, Some, length};

use std::alloc::Global;
use std::marker::Model;

/// What a call of a sink placed.
#[derive(Clone, Copy, Debug, PartialEq, Eq)]
pub enum Placed {
    /// So many bytes of the piece's front, at least one.
    Put(usize),
    /// Writing failed; nothing was placed.
    Failed,
}

/// A sink of bytes.
pub trait Sink {
    ghost use Rattle.rig_io.specs.Fault.{HasCause, StaysUnless};
    ghost use Rattle.rig_io.specs.Stream.{PlacedInBounds, Places};

    /// The bytes placed so far, where the sink tells them.
    ghost placed: { Self → Option (List ℕ) };

    /// How often the sink has failed.
    ghost faults: { Self → ℕ };

    /// Places at least one byte of the piece, unless the sink fails.
    fn put(&mut self, piece: &[u8]) -> Placed
        requires { 0 < length piece.now }
        ensures bound { PlacedInBounds result (length piece.now) }
        ensures bytes { Places (placed self.old) (placed self.new) result piece.now }
        ensures cause { HasCause (faults self.old) (faults self.new) (result ≡ Placed.Failed) }
        ensures stays { StaysUnless (faults self.old) (faults self.new) (result ≡ Placed.Failed) };
}

/// A sink in memory, which fails exactly at the calls whose numbers are listed and where it finds
/// no memory.
///
/// Its first call is number 0. A number that is listed twice counts once. All calls past number
/// 2^64 - 1 have that number.
#[derive(Drop)]
pub struct MemSink {
    bytes: Vec<u8>,
    failing: Vec<u64>,
    calls: u64,
    faults: u64,
    refused: u64,
}

impl Model for MemSink {
    ghost use Rattle.rig_io.specs.Memory.{MemSinkState};

    ghost Value = { MemSinkState };

    ghost view = { λ s. record {
      bytes = s.bytes.items;
      failing = s.failing.items;
      calls = s.calls;
      faults = s.faults;
      refused = s.refused;
    } };
}

impl MemSink {
    /// An empty sink, which fails at the calls whose numbers `failing` lists.
    pub fn new(alloc: Global, failing: Vec<u64>) -> MemSink
        ensures { result ≡ record {
          bytes = [];
          failing = failing.items;
          calls = 0;
          faults = 0;
          refused = 0;
        } }
    {
        MemSink {
            bytes: Vec::new(alloc),
            failing,
            calls: 0,
            faults: 0,
            refused: 0,
        }
    }

    /// All bytes placed.
    pub fn bytes(&self) -> &[u8]
        ensures { result.now ≡ self.now.bytes }
    {
        &self.bytes
    }

    /// How many calls failed for want of memory, at most 2^64 - 1.
    pub fn refused(&self) -> u64
        ensures { result ≡ self.now.refused }
    {
        self.refused
    }
}

impl Sink for MemSink {
    ghost use Rattle.std.specs.Prelude.{Some};
    ghost use Rattle.rig_io.specs.Fault.{HasCause, StaysUnless};
    ghost use Rattle.rig_io.specs.Stream.{PlacedInBounds, Places};
    ghost use Rattle.rig_io.specs.Memory.{FailsAtOrRefused, PutAll, next_call};

    ghost placed = { λ s. Some s.bytes };

    ghost faults = { λ s. s.faults };

    fn put(&mut self, piece: &[u8]) -> Placed
        requires { 0 < length piece.now }
        ensures bound { PlacedInBounds result (length piece.now) }
        ensures bytes { Places (Some self.old.bytes) (Some self.new.bytes) result piece.now }
        ensures cause { HasCause self.old.faults self.new.faults (result ≡ Placed.Failed) }
        ensures stays { StaysUnless self.old.faults self.new.faults (result ≡ Placed.Failed) }
        ensures exact { FailsAtOrRefused self.old.failing self.old.calls (result ≡ Placed.Failed)
            self.old.refused self.new.refused }
        ensures whole { PutAll result (length piece.now) }
        ensures calls { self.new.calls ≡ next_call self.old.calls }
        ensures failing { self.new.failing ≡ self.old.failing }
    {
        let call = self.calls;
        self.calls = call.saturating_add(1);
        if self.failing.contains(&call) {
            self.faults = self.faults.saturating_add(1);
            return Placed::Failed;
        }
        match self.bytes.extend_from_slice(piece) {
            Ok(()) => Placed::Put(piece.len()),
            Err(_) => {
                self.refused = self.refused.saturating_add(1);
                self.faults = self.faults.saturating_add(1);
                Placed::Failed
            }
        }
    }
}
