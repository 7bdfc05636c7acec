ghost use Rattle.std.specs.Prelude.{◌<◌};

use std::sync::atomic::{AtomicU64, Ordering};

/// Eight flags, which threads of a test share. All are down at first.
#[derive(Drop)]
pub struct Gates {
    flags: AtomicU64,
}

impl Gates {
    /// Eight flags, all down.
    pub fn new() -> Gates {
        Gates {
            flags: AtomicU64::new(0),
        }
    }

    /// Raises the flag, which stays up.
    pub fn raise(&self, n: usize)
        requires { n < 8 }
    {
        self.flags.fetch_or(1u64 << n, Ordering::SeqCst);
    }

    /// Whether the flag was raised.
    pub fn is_up(&self, n: usize) -> bool
        requires { n < 8 }
    {
        self.flags.load(Ordering::SeqCst) >> n & 1 == 1
    }
}
