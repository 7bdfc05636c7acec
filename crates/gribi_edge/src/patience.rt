// How long a look that finds nothing may wait.

// So many looks in a row that find nothing don't wait.
const HASTE: u64 = 300;

/// How long a server's look waits after so many quiet ones, in milliseconds: not at all at first, later 1, 2, .. 32.
pub(crate) fn wait_after(quiet: u64) -> u64 {
    if quiet < HASTE {
        0
    } else {
        1u64 << ((quiet - HASTE) / 4).min(5)
    }
}

/// The same of a client's, which never waits longer than a millisecond: its turns are counted.
pub(crate) fn short_wait_after(quiet: u64) -> u64 {
    if quiet < HASTE { 0 } else { 1 }
}
