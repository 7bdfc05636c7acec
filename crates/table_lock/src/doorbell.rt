//! What threads sleep on that wait for others to make calls.
use std::sync::Wait;
use std::sync::atomic::{AtomicU64, Ordering};
use std::time::Duration;

// How often it was rung, and how many threads rest.
#[derive(Drop)]
pub(crate) struct Doorbell {
    rung: AtomicU64,
    waiters: AtomicU64,
}

impl Doorbell {
    pub(crate) fn new() -> Doorbell {
        Doorbell {
            rung: AtomicU64::new(0),
            waiters: AtomicU64::new(0),
        }
    }

    pub(crate) fn rung(&self) -> u64 {
        self.rung.load(Ordering::SeqCst)
    }

    // A thread that rests said so before it looked at the count, so who rings either finds it, or was counted.
    pub(crate) fn ring(&self) {
        self.rung.fetch_add(1, Ordering::SeqCst);
        if self.waiters.load(Ordering::SeqCst) > 0 {
            self.rung.wake_all();
        }
    }

    pub(crate) fn rest<R: Wait>(&self, rt: &R, heard: u64, at_most: Duration) {
        self.waiters.fetch_add(1, Ordering::SeqCst);
        if self.rung.load(Ordering::SeqCst) == heard {
            self.rung
                .park_timeout(rt, (heard % (1 << 32)) as u32, at_most);
        }
        self.waiters.fetch_sub(1, Ordering::SeqCst);
    }
}
