//! A link that waits at a gate.
ghost use Rattle.std.specs.Prelude.{◌≡◌, ◌<◌, ◌≤◌, length};

use crate::gated::{Gate, Holder, raise};
use rig_io::{Gates, Link, LinkRead, LinkWrite};
use std::alloc::Global;

/// A link of a client that sends its bytes, the later ones once it may pass its gate, and raises another gate once these bytes
/// were sent to it.
#[derive(Drop)]
pub(crate) struct GatedLink<'a> {
    gates: &'a Gates,
    holder: Holder<'a>,
    input: Vec<u8>,
    // So many bytes come before the gate.
    free: usize,
    given: usize,
    sent: Vec<u8>,
    // What raises which gate.
    sign: &'static [u8],
    raises: Gate,
    faults: u64,
    read_idles: u64,
    ends: u64,
}

impl<'a> GatedLink<'a> {
    /// A link of a client that sends these bytes, those behind the free ones once `behind` is up. It raises `raises` once `sign`
    /// stands in what was sent to it.
    pub(crate) fn new(
        alloc: Global,
        gates: &'a Gates,
        input: Vec<u8>,
        free: usize,
        behind: Gate,
        sign: &'static [u8],
        raises: Gate,
    ) -> GatedLink<'a> {
        GatedLink {
            gates,
            holder: Holder::new(gates, behind),
            input,
            free,
            given: 0,
            sent: Vec::new(alloc),
            sign,
            raises,
            faults: 0,
            read_idles: 0,
            ends: 0,
        }
    }

    // How many bytes come by now.
    fn coming(&mut self) -> usize
        ensures { self.new ≡ record self.old { holder = self.new.holder } }
    {
        if self.free >= self.input.len() || self.holder.may_pass() {
            self.input.len()
        } else {
            self.free
        }
    }
}

fn is_in(text: &[u8], bytes: &[u8]) -> bool {
    for start in 0..bytes.len() {
        if let Some(rest) = bytes.get(start..) {
            if rest.starts_with(text) {
                return true;
            }
        }
    }
    false
}

// Fills the buffer's front, and answers how many bytes were put there.
fn fill(rest: &[u8], buffer: &mut [u8]) -> usize
    ensures bound { (result ≤ length buffer.old) × (result ≤ length rest.now) }
    ensures size { length buffer.new ≡ length buffer.old }
    ensures some { 0 < length buffer.old → 0 < length rest.now → 1 ≤ result }
{
    let count = rest.len().min(buffer.len());
    buffer[..count].copy_from_slice(&rest[..count]);
    count
}

impl<'a> Link for GatedLink<'a> {
    ghost use Rattle.std.specs.Prelude.{None};

    ghost pieces = { λ _. None };

    ghost left = { λ _. None };

    ghost faults = { λ l. l.faults };

    ghost read_idles = { λ l. l.read_idles };

    ghost write_idles = { λ _. 0 };

    ghost ends = { λ l. l.ends };

    fn poll_read(&mut self, buffer: &mut [u8]) -> LinkRead {
        let coming = self.coming();
        match self.input.get(self.given..coming) {
            Some(rest) if !rest.is_empty() => {
                let count = fill(rest, buffer);
                self.given = self.given.saturating_add(count);
                LinkRead::Got(count)
            }
            _ => {
                if self.given >= self.input.len() {
                    self.ends = self.ends.saturating_add(1);
                    LinkRead::End
                } else {
                    self.read_idles = self.read_idles.saturating_add(1);
                    LinkRead::NotReady
                }
            }
        }
    }

    fn poll_write(&mut self, piece: &[u8]) -> LinkWrite {
        match self.sent.extend_from_slice(piece) {
            Err(_) => {
                self.faults = self.faults.saturating_add(1);
                LinkWrite::Failed
            }
            Ok(()) => {
                if is_in(self.sign, self.sent.as_slice()) {
                    raise(self.gates, self.raises);
                }
                LinkWrite::Put(piece.len())
            }
        }
    }
}
