//! Things that stand in the order of their streams' ids, of which one is found by its id.
ghost use Rattle.std.specs.Prelude.{◌≡◌, ℕ, ◌==◌};
ghost use Rattle.std.specs.List.{position_or_len};
ghost use Rattle.h2_streams.specs.Live.{Rises};

/// What has the id of its stream.
pub trait Numbered {
    ghost number: { Self → ℕ };

    fn number(&self) -> u32
        ensures { result ≡ number self.now };
}

/// A guess at where an id stands: a client's ids rise by two.
fn guess<T: Numbered>(items: &[T], id: u32) -> usize {
    match items.first() {
        Some(first) => (id.saturating_sub(first.number()) / 2) as usize,
        None => 0,
    }
}

/// Where an id stands; how many there are where it is nowhere. What is left is halved by each comparison.
fn place_by_halves<T: Numbered>(items: &[T], id: u32) -> usize
    requires { (high : ℕ) × Rises T.number 0 high items.now }
    ensures { result ≡ position_or_len (λ x. T.number x == id) items.now }
{
    let mut low = 0;
    let mut high = items.len();
    'halves: while low < high {
        let at = low + (high - low) / 2;
        let number = items[at].number();
        if number == id {
            return at;
        }
        if number < id {
            low = at + 1;
        } else {
            high = at;
        }
    }
    items.len()
}

/// Where an id stands among those that rise; how many there are where it is nowhere.
pub fn place_of<T: Numbered>(items: &[T], id: u32) -> usize
    requires { (high : ℕ) × Rises T.number 0 high items.now }
    ensures { result ≡ position_or_len (λ x. T.number x == id) items.now }
{
    let at = guess(items, id);
    if at < items.len() {
        let number = items[at].number();
        if number == id {
            return at;
        }
    }
    place_by_halves(items, id)
}
