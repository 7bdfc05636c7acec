use std::alloc::{AllocError, Global};
use std::sync::atomic::{AtomicU64, Ordering};

/// The bit of a link that can be read.
pub(crate) const READS: u64 = 1;

/// The bit of a link that can be written.
pub(crate) const WRITES: u64 = 2;

// Links past so many are always taken to be ready.
const MOST: u64 = 1_000_000;

/// What an acceptor found ready, two bits a link, and counts of what the links moved and of the acceptor's looks.
#[derive(Drop)]
pub(crate) struct Readiness {
    ready: Vec<AtomicU64>,
    moves: AtomicU64,
    looks: AtomicU64,
}

impl Readiness {
    /// Of so many links, none of them ready.
    pub(crate) fn new(alloc: Global, links: u64) -> Result<Readiness, AllocError> {
        let mut ready = Vec::new(alloc);
        for _ in 0..links.min(MOST) / 32 + 1 {
            ready.push(AtomicU64::new(0))?;
        }
        Ok(Readiness {
            ready,
            moves: AtomicU64::new(0),
            looks: AtomicU64::new(0),
        })
    }

    /// Remembers that a link is ready.
    pub(crate) fn set(&self, place: usize, bits: u64) {
        if let Some(word) = self.ready.get(place / 32) {
            word.fetch_or((bits & 3) << (place % 32 * 2), Ordering::SeqCst);
        }
    }

    /// Whether a link is ready, which is then forgotten.
    pub(crate) fn take(&self, place: usize, bit: u64) -> bool {
        let Some(word) = self.ready.get(place / 32) else {
            return true;
        };
        let mask = (bit & 3) << (place % 32 * 2);
        if word.load(Ordering::SeqCst) & mask == 0 {
            return false;
        }
        word.fetch_and(!mask, Ordering::SeqCst);
        true
    }

    /// A link moved bytes.
    pub(crate) fn moved(&self) {
        self.moves.fetch_add(1, Ordering::SeqCst);
    }

    /// How often a link moved bytes.
    pub(crate) fn moves(&self) -> u64 {
        self.moves.load(Ordering::SeqCst)
    }

    /// The acceptor has looked.
    pub(crate) fn looked(&self) {
        self.looks.fetch_add(1, Ordering::SeqCst);
    }

    /// How often the acceptor has looked.
    pub(crate) fn looks(&self) -> u64 {
        self.looks.load(Ordering::SeqCst)
    }
}
