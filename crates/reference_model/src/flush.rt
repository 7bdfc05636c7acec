//! What a Flush leaves.
ghost use Rattle.std.specs.Prelude.{◌≡◌, IfOk, length, filter};
ghost use Rattle.std.specs.List.{list_any};
ghost use Rattle.table_model.specs.Table as history;

use crate::entries::copies;
use aft_entries::{Entry, Key, refers};
use std::alloc::{AllocError, Global};
use table_model::Which;

pub(crate) fn names(which: Which, instance: u16) -> bool
    ensures { result ≡ history.names which instance }
{
    match which {
        Which::All => true,
        Which::One(named) => instance == named,
    }
}

// Whether the flush leaves the key, by a chain of at most so many references.
fn stays(most: usize, table: &[Entry], which: Which, key: &Key) -> bool
    ensures { result ≡ history.stays most table.now which key.now }
{
    if most == 0 {
        return !names(which, key.instance);
    }
    if stays(most - 1, table, which, key) {
        return true;
    }
    for e in table {
        if refers(e, key) && stays(most - 1, table, which, &e.key) {
            return true;
        }
    }
    false
}

/// The entries of instances that the flush doesn't name, and those that they reach.
pub(crate) fn kept(alloc: Global, table: &[Entry], which: Which) -> Result<Vec<Entry>, AllocError>
    ensures { IfOk result (λ left. left.items ≡ history.kept table.now which) }
{
    Ok(staying(copies(alloc, table)?, table, which))
}

#[tactic(auto, unfolding(table_model::specs::Table::kept))]
fn staying(mut left: Vec<Entry>, table: &[Entry], which: Which) -> Vec<Entry>
    requires { left.items ≡ table.now }
    ensures { result.items ≡ history.kept table.now which }
{
    let most = table.len();
    left.retain(|e| stays(most, table, which, &e.key));
    left
}

/// Whether an entry of a named instance stays.
#[tactic(auto, unfolding(table_model::specs::Table::remains))]
pub(crate) fn remains(alloc: Global, table: &[Entry], which: Which) -> Result<bool, AllocError>
    ensures { IfOk result (λ some. some ≡ history.remains table.now which) }
{
    let left = kept(alloc, table, which)?;
    Ok(has_named(which, &left))
}

fn has_named(which: Which, left: &[Entry]) -> bool
    ensures { result ≡ list_any (λ e. history.names which e.key.instance) left.now }
{
    match left {
        [] => false,
        [e, rest @ ..] => names(which, e.key.instance) || has_named(which, rest),
    }
}
