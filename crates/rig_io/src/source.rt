ghost use Rattle.std.specs.Prelude.{◌≡◌, ◌≤◌, ◌<◌, ◌+◌, ◌++◌, List, [], ℕ, Option, Some, length, take, drop, vec_len};

use std::marker::Model;

/// What a call of a source took.
#[derive(Clone, Copy, Debug, PartialEq, Eq)]
pub enum Took {
    /// So many bytes, at least one, now at the buffer's front.
    Got(usize),
    /// The input is over.
    End,
    /// Reading failed; nothing was taken.
    Failed,
}

/// A source of bytes.
pub trait Source {
    ghost use Rattle.rig_io.specs.Fault.{HasCause, StaysUnless};
    ghost use Rattle.rig_io.specs.Stream.{TookInBounds, Takes, TakenGrows};

    /// The bytes taken so far, where the source tells them.
    ghost taken: { Self → Option (List ℕ) };

    /// The bytes that are left, where the source tells them.
    ghost left: { Self → Option (List ℕ) };

    /// How often the source has failed.
    ghost faults: { Self → ℕ };

    /// Takes at least one byte, unless the input is over or the source fails.
    fn take(&mut self, buffer: &mut [u8]) -> Took
        requires { 0 < length buffer.old }
        ensures bound { TookInBounds result (length buffer.new) }
        ensures bytes { Takes (left self.old) (left self.new) result buffer.new }
        ensures grows { TakenGrows (taken self.old) (taken self.new) result buffer.new }
        ensures cause { HasCause (faults self.old) (faults self.new) (result ≡ Took.Failed) }
        ensures stays { StaysUnless (faults self.old) (faults self.new) (result ≡ Took.Failed) };
}

/// A source in memory, which fails exactly at the calls whose numbers are listed.
///
/// Its first call is number 0. A number that is listed twice counts once. All calls past number
/// 2^64 - 1 have that number.
#[derive(Drop)]
pub struct MemSource {
    bytes: Vec<u8>,
    at: usize,
    failing: Vec<u64>,
    calls: u64,
    faults: u64,
}

impl Model for MemSource {
    ghost use Rattle.std.specs.Prelude.{◌≤◌, take, drop, vec_len};
    ghost use Rattle.rig_io.specs.Memory.{MemSourceState};

    ghost Value = { MemSourceState };

    ghost view = { λ s. record {
      given = take s.at s.bytes.items;
      rest = drop s.at s.bytes.items;
      failing = s.failing.items;
      calls = s.calls;
      faults = s.faults;
    } };

    ghost invariant = { λ s. s.at ≤ vec_len s.bytes };
}

impl MemSource {
    /// A source of these bytes, which fails at the calls whose numbers `failing` lists.
    pub fn new(bytes: Vec<u8>, failing: Vec<u64>) -> MemSource
        ensures { result ≡ record {
          given = [];
          rest = bytes.items;
          failing = failing.items;
          calls = 0;
          faults = 0;
        } }
    {
        MemSource {
            bytes,
            at: 0,
            failing,
            calls: 0,
            faults: 0,
        }
    }
}

impl Source for MemSource {
    ghost use Rattle.std.specs.Prelude.{Some, min};
    ghost use Rattle.rig_io.specs.Fault.{HasCause, StaysUnless};
    ghost use Rattle.rig_io.specs.Stream.{TookInBounds, Takes, TakenGrows};
    ghost use Rattle.rig_io.specs.Memory.{FailsAt, GotAll, next_call};

    ghost taken = { λ s. Some s.given };

    ghost left = { λ s. Some s.rest };

    ghost faults = { λ s. s.faults };

    fn take(&mut self, buffer: &mut [u8]) -> Took
        requires { 0 < length buffer.old }
        ensures bound { TookInBounds result (length buffer.new) }
        ensures bytes { Takes (Some self.old.rest) (Some self.new.rest) result buffer.new }
        ensures grows { TakenGrows (Some self.old.given) (Some self.new.given) result buffer.new }
        ensures cause { HasCause self.old.faults self.new.faults (result ≡ Took.Failed) }
        ensures stays { StaysUnless self.old.faults self.new.faults (result ≡ Took.Failed) }
        ensures exact { FailsAt self.old.failing self.old.calls (result ≡ Took.Failed) }
        ensures whole { GotAll result (length self.old.rest) (length buffer.new) }
        ensures calls { self.new.calls ≡ next_call self.old.calls }
        ensures failing { self.new.failing ≡ self.old.failing }
    {
        let call = self.calls;
        self.calls = call.saturating_add(1);
        if self.failing.contains(&call) {
            self.faults = self.faults.saturating_add(1);
            return Took::Failed;
        }
        let rest = &self.bytes[self.at..];
        if rest.is_empty() {
            return Took::End;
        }
        let count = rest.len().min(buffer.len());
        buffer[..count].copy_from_slice(&rest[..count]);
        self.at += count;
        Took::Got(count)
    }
}
