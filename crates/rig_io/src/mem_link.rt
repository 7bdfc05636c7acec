ghost use Rattle.std.specs.Prelude.{◌≡◌, ◌<◌, ◌≤◌, ◌++◌, List, [], ◌∷◌, ℕ, Option, Some, length, take, drop, vec_len, false, true, OnOk, OnErr};
ghost use Rattle.rig_io.specs.Link.{Piece, InputLeft};
ghost use Rattle.rig_io.specs.MemLinks.{first_step};

use crate::link::{Link, LinkRead, LinkWrite};
use std::alloc::{AllocError, Global};
use std::marker::Model;

/// What a call of a link in memory is to do.
#[derive(Clone, Copy, Debug, PartialEq, Eq)]
pub enum LinkStep {
    /// It passes so many bytes at most; with 0 it is not ready.
    Upto(usize),
    /// It is not ready.
    NotReady,
    /// It fails.
    Fail,
}

/// A call that passed bytes, and how many.
#[derive(Clone, Copy, Debug, PartialEq, Eq)]
pub enum Transfer {
    /// A poll got so many.
    Received(usize),
    /// A poll placed so many.
    Sent(usize),
}

/// A link in memory, which keeps all that passes.
///
/// The steps of its plan serve successive calls, reads and writes counted together; after the plan's
/// end each call passes what it can. It fails exactly at the steps `Fail`, and where it finds no
/// memory, which `refused` counts.
#[derive(Drop)]
pub struct MemLink {
    plan: Vec<LinkStep>,
    // How many steps were served.
    calls: usize,
    input: Vec<u8>,
    given: usize,
    is_over: bool,
    output: Vec<u8>,
    carried: usize,
    marks: Vec<Transfer>,
    faults: u64,
    read_idles: u64,
    write_idles: u64,
    ends: u64,
    refused: u64,
}

impl Model for MemLink {
    ghost use Rattle.std.specs.Prelude.{◌≡◌, ◌≤◌, take, drop, vec_len};
    ghost use Rattle.rig_io.specs.MemLinks.{MemLinkState, pieces_of, received_count, sent_count};

    ghost Value = { MemLinkState };

    ghost view = { λ l. record {
      pieces = pieces_of l.marks.items (take l.given l.input.items) l.output.items;
      left = drop l.given l.input.items;
      over = l.is_over;
      sent = l.output.items;
      carried = l.carried;
      plan = drop l.calls l.plan.items;
      faults = l.faults;
      read_idles = l.read_idles;
      write_idles = l.write_idles;
      ends = l.ends;
      refused = l.refused;
    } };

    ghost invariant = { λ l. (l.given ≤ vec_len l.input)
        × (l.calls ≤ vec_len l.plan)
        × (l.carried ≤ vec_len l.output)
        × (received_count l.marks.items ≡ l.given)
        × (sent_count l.marks.items ≡ vec_len l.output) };
}

impl MemLink {
    /// A link with nothing to read.
    pub fn new(alloc: Global, plan: Vec<LinkStep>) -> MemLink
        ensures { result ≡ record {
          pieces = [];
          left = [];
          over = false;
          sent = [];
          carried = 0;
          plan = plan.items;
          faults = 0;
          read_idles = 0;
          write_idles = 0;
          ends = 0;
          refused = 0;
        } }
    {
        MemLink {
            plan,
            calls: 0,
            input: Vec::new(alloc),
            given: 0,
            is_over: false,
            output: Vec::new(alloc),
            carried: 0,
            marks: Vec::new(alloc),
            faults: 0,
            read_idles: 0,
            write_idles: 0,
            ends: 0,
            refused: 0,
        }
    }

    /// Bytes to be read, behind those that are there, in an input that isn't ended. An Err leaves the link as it was.
    pub fn feed(&mut self, piece: &[u8]) -> Result<(), AllocError>
        requires { self.old.over ≡ false }
        ensures ok { OnOk result (self.new ≡ record self.old { left = self.old.left ++ piece.now }) }
        ensures err { OnErr result (self.new ≡ self.old) }
    {
        self.input.extend_from_slice(piece)
    }

    /// No more bytes will be fed.
    pub fn end_input(&mut self)
        ensures { self.new ≡ record self.old { over = true } }
    {
        self.is_over = true;
    }

    /// How many fed bytes no poll has got.
    pub fn left(&self) -> usize
        ensures { result ≡ length self.now.left }
    {
        self.input.len() - self.given
    }

    /// All bytes sent.
    pub fn sent(&self) -> &[u8]
        ensures { result.now ≡ self.now.sent }
    {
        &self.output
    }

    /// Appends the bytes sent that no earlier call took. An Err leaves both as they were.
    pub fn take_sent(&mut self, into: &mut Vec<u8>) -> Result<(), AllocError>
        ensures ok { OnOk result (into.new.items ≡ into.old.items ++ drop self.old.carried self.old.sent) }
        ensures carried { OnOk result (self.new ≡ record self.old { carried = length self.old.sent }) }
        ensures err { OnErr result ((self.new ≡ self.old) × (into.new.items ≡ into.old.items)) }
    {
        let rest = &self.output[self.carried..];
        into.extend_from_slice(rest)?;
        self.carried = self.output.len();
        Ok(())
    }

    /// How many calls failed for want of memory, at most 2^64 - 1.
    pub fn refused(&self) -> u64
        ensures { result ≡ self.now.refused }
    {
        self.refused
    }

    // The step of this call.
    fn step(&mut self) -> Option<LinkStep>
        ensures step { result ≡ first_step self.old.plan }
        ensures plan { self.new.plan ≡ drop 1 self.old.plan }
        ensures same { self.new ≡ record self.old { plan = self.new.plan } }
    {
        if self.calls >= self.plan.len() {
            return None;
        }
        let step = self.plan[self.calls];
        self.calls += 1;
        Some(step)
    }
}

impl Link for MemLink {
    ghost use Rattle.std.specs.Prelude.{Some};
    ghost use Rattle.rig_io.specs.Fault.{HasCause, StaysUnless};
    ghost use Rattle.rig_io.specs.Link.{ReadInBounds, WriteInBounds, PollReads, Receives, Sends};
    ghost use Rattle.rig_io.specs.MemLinks.{ReadByStep, WriteByStep, counted, input_left, sent_after, serving};

    ghost pieces = { λ l. Some l.pieces };

    ghost left = { λ l. Some (input_left l) };

    ghost faults = { λ l. l.faults };

    ghost read_idles = { λ l. l.read_idles };

    ghost write_idles = { λ l. l.write_idles };

    ghost ends = { λ l. l.ends };

    fn poll_read(&mut self, buffer: &mut [u8]) -> LinkRead
        requires { 0 < length buffer.old }
        ensures bound { ReadInBounds result (length buffer.new) }
        ensures size { length buffer.new ≡ length buffer.old }
        ensures bytes { PollReads (Some (input_left self.old)) (Some (input_left self.new)) result buffer.new }
        ensures pieces { Receives (Some self.old.pieces) (Some self.new.pieces) result buffer.new }
        ensures cause { HasCause self.old.faults self.new.faults (result ≡ LinkRead.Failed) }
        ensures stays { StaysUnless self.old.faults self.new.faults (result ≡ LinkRead.Failed) }
        ensures idle { HasCause self.old.read_idles self.new.read_idles (result ≡ LinkRead.NotReady) }
        ensures awake { StaysUnless self.old.read_idles self.new.read_idles (result ≡ LinkRead.NotReady) }
        ensures end { HasCause self.old.ends self.new.ends (result ≡ LinkRead.End) }
        ensures goes_on { StaysUnless self.old.ends self.new.ends (result ≡ LinkRead.End) }
        ensures writes { self.new.write_idles ≡ self.old.write_idles }
        ensures plan { self.new.plan ≡ drop 1 self.old.plan }
        ensures exact { ReadByStep (serving (first_step self.old.plan) (length buffer.old)) (length self.old.left) self.old.over
            result self.old.refused self.new.refused }
        ensures count { result ≡ LinkRead.Failed → self.new.faults ≡ counted self.old.faults }
        ensures sent { (self.new.sent ≡ self.old.sent) × (self.new.carried ≡ self.old.carried) }
    {
        let limit = match self.step() {
            None => buffer.len(),
            Some(LinkStep::Fail) => {
                self.faults = self.faults.saturating_add(1);
                return LinkRead::Failed;
            }
            Some(LinkStep::NotReady) => 0,
            Some(LinkStep::Upto(most)) => most.min(buffer.len()),
        };
        if limit == 0 || self.given == self.input.len() && !self.is_over {
            self.read_idles = self.read_idles.saturating_add(1);
            return LinkRead::NotReady;
        }
        let rest = &self.input[self.given..];
        if rest.is_empty() {
            self.ends = self.ends.saturating_add(1);
            return LinkRead::End;
        }
        let count = rest.len().min(limit);
        if !note(&mut self.marks, Transfer::Received(count)) {
            self.refused = self.refused.saturating_add(1);
            self.faults = self.faults.saturating_add(1);
            return LinkRead::Failed;
        }
        buffer[..count].copy_from_slice(&rest[..count]);
        self.given += count;
        LinkRead::Got(count)
    }

    fn poll_write(&mut self, piece: &[u8]) -> LinkWrite
        requires { 0 < length piece.now }
        ensures bound { WriteInBounds result (length piece.now) }
        ensures bytes { input_left self.new ≡ input_left self.old }
        ensures pieces { Sends (Some self.old.pieces) (Some self.new.pieces) result piece.now }
        ensures cause { HasCause self.old.faults self.new.faults (result ≡ LinkWrite.Failed) }
        ensures stays { StaysUnless self.old.faults self.new.faults (result ≡ LinkWrite.Failed) }
        ensures idle { HasCause self.old.write_idles self.new.write_idles (result ≡ LinkWrite.NotReady) }
        ensures awake { StaysUnless self.old.write_idles self.new.write_idles (result ≡ LinkWrite.NotReady) }
        ensures reads { self.new.read_idles ≡ self.old.read_idles }
        ensures ends { self.new.ends ≡ self.old.ends }
        ensures plan { self.new.plan ≡ drop 1 self.old.plan }
        ensures exact { WriteByStep (serving (first_step self.old.plan) (length piece.now))
            result self.old.refused self.new.refused }
        ensures count { result ≡ LinkWrite.Failed → self.new.faults ≡ counted self.old.faults }
        ensures sent { (self.new.sent ≡ sent_after self.old.sent result piece.now) × (self.new.carried ≡ self.old.carried) }
    {
        let limit = match self.step() {
            None => piece.len(),
            Some(LinkStep::Fail) => {
                self.faults = self.faults.saturating_add(1);
                return LinkWrite::Failed;
            }
            Some(LinkStep::NotReady) => 0,
            Some(LinkStep::Upto(most)) => most.min(piece.len()),
        };
        if limit == 0 {
            self.write_idles = self.write_idles.saturating_add(1);
            return LinkWrite::NotReady;
        }
        if !send(&mut self.marks, &mut self.output, &piece[..limit]) {
            self.refused = self.refused.saturating_add(1);
            self.faults = self.faults.saturating_add(1);
            return LinkWrite::Failed;
        }
        LinkWrite::Put(limit)
    }
}

// Notes a call, or nothing for want of memory.
fn note(marks: &mut Vec<Transfer>, transfer: Transfer) -> bool
    ensures ok { result ≡ true → marks.new.items ≡ marks.old.items ++ transfer ∷ [] }
    ensures err { result ≡ false → marks.new.items ≡ marks.old.items }
{
    match marks.push(transfer) {
        Ok(()) => true,
        Err(_) => false,
    }
}

// Keeps a piece that is sent, or nothing for want of memory.
fn send(marks: &mut Vec<Transfer>, output: &mut Vec<u8>, piece: &[u8]) -> bool
    ensures bytes { result ≡ true → output.new.items ≡ output.old.items ++ piece.now }
    ensures ok { result ≡ true → marks.new.items ≡ marks.old.items ++ Transfer.Sent (length piece.now) ∷ [] }
    ensures err { result ≡ false → (output.new.items ≡ output.old.items) × (marks.new.items ≡ marks.old.items) }
{
    match marks.reserve(1) {
        Ok(()) => {}
        Err(_) => return false,
    }
    match output.extend_from_slice(piece) {
        Ok(()) => {
            marks.push_reserved(Transfer::Sent(piece.len()));
            true
        }
        Err(_) => false,
    }
}
