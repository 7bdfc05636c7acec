ghost use Rattle.std.specs.Prelude.{IsTrue, IfOk, IfErr};
ghost use Rattle.aft_store.specs.Boxes.{unboxed};
ghost use Rattle.aft_store.specs.Places.{IsAt, IsGap};
ghost use Rattle.table_model.specs.Table.{in_order};

use aft_entries::{Entry, Key};
use std::cmp::Ordering;

/// Where the key is, or where it would go. What is left is halved by each comparison.
pub fn place_of(entries: &[Box<Entry>], key: &Key) -> Result<usize, usize>
    requires { IsTrue (in_order (unboxed entries.now)) }
    ensures found { IfOk result (λ at. IsAt (unboxed entries.now) key.now at) }
    ensures absent { IfErr result (λ at. IsGap (unboxed entries.now) key.now at) }
{
    let mut low = 0;
    let mut high = entries.len();
    'halves: while low < high {
        let at = low + (high - low) / 2;
        let entry: &Entry = &entries[at];
        match entry.key.order(key) {
            Ordering::Less => low = at + 1,
            Ordering::Equal => return Ok(at),
            Ordering::Greater => high = at,
        }
    }
    Err(low)
}
