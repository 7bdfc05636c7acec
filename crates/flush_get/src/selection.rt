//! What a Get selects.
ghost use Rattle.std.specs.Prelude.{◌≡◌, ◌∷◌, ◌++◌, [], IfOk};
ghost use Rattle.table_model.specs.Reply as reply;

use crate::asked::is_asked;
use crate::same::same_payload;
use aft_entries::{Entry, Row, Rows};
use aft_store::Store;
use std::alloc::{AllocError, Global};
use table_model::{KindAsk, Which};

// Whether the table has the key with this payload.
fn is_installed(table: &Store, entry: &Entry) -> bool
    ensures { result ≡ reply.is_installed table.now.entries entry.now }
{
    match table.get(&entry.key) {
        None => false,
        Some(installed) => same_payload(installed, &entry.payload),
    }
}

fn row(fib: &Store, entry: &Entry) -> Result<Row, AllocError>
    ensures { IfOk result (λ row. row ≡ record { entry = entry.now; installed = reply.is_installed fib.now.entries entry.now }) }
{
    let installed = is_installed(fib, entry);
    Ok(Row {
        entry: entry.clone()?,
        installed,
    })
}

/// The entries of these instances and kinds in key order, each with whether the second store has its key with its
/// payload.
#[tactic(auto, unfolding(table_model::specs::Reply::selected))]
pub fn select(
    alloc: Global,
    store: &Store,
    fib: &Store,
    which: Which,
    kinds: KindAsk,
) -> Result<Rows, AllocError>
    ensures { IfOk result (λ rows. rows ≡ reply.selected store.now.entries fib.now.entries which kinds) }
{
    let mut rows = Vec::new(alloc);
    for n in 0..store.len() {
        let entry = store.at(n);
        if is_asked(which, kinds, entry) {
            rows.push(row(fib, entry)?)?;
        }
    }
    Ok(Rows::from_vec(rows))
}
