ghost use Rattle.std.specs.Prelude.{◌≡◌, take};
ghost use Rattle.call_standing.specs.Standing as standing;

/// Whether more is told.
#[derive(Clone, Copy, Debug)]
pub enum Fate {
    /// It is.
    Going,
    /// The connection has refused.
    Refused,
    /// There was no memory to send what the windows allow: so many bytes of the output are shown, and so many bytes wait.
    Starved(usize, u64),
    /// There was no memory, and it was told. So many bytes of the output are shown.
    Dead(usize),
}

/// The first bytes, or all where there are fewer.
pub fn first(bytes: &[u8], n: usize) -> &[u8]
    ensures { result.now ≡ take n bytes.now }
{
    if n < bytes.len() {
        bytes.split_at(n).0
    } else {
        bytes
    }
}

/// The fate behind so many bytes of the output that were dropped.
pub fn shifted(fate: Fate, n: usize) -> Fate
    ensures { result ≡ standing.shifted n fate }
{
    match fate {
        Fate::Going => Fate::Going,
        Fate::Refused => Fate::Refused,
        Fate::Starved(shown, waiting) => Fate::Starved(shown.saturating_sub(n), waiting),
        Fate::Dead(shown) => Fate::Dead(shown.saturating_sub(n)),
    }
}
