//! Tables of entries, in key order: lists of them, and lookups.
ghost use Rattle.std.specs.Prelude.{◌≡◌, ◌∷◌, ◌++◌, IfOk, filter, option_copied};
ghost use Rattle.std.specs.List.{list_all};
ghost use Rattle.std.specs.Ordering.{is_gt, is_lt};
ghost use Rattle.aft_entries.specs.Order.{key_cmp};
ghost use Rattle.table_model.specs.Table as history;

use aft_entries::{Ask, Entry, Key, KeyName, Payload, refers, refs};
use std::alloc::{AllocError, Global};
use std::cmp::Ordering;

/// The entry of a key.
#[tactic(auto, unfolding(table_model::specs::Table::lookup))]
pub(crate) fn lookup<'a>(key: &Key, table: &'a [Entry]) -> Option<&'a Entry>
    ensures { option_copied result ≡ history.lookup key.now table.now }
{
    match table {
        [] => None,
        [e, rest @ ..] => {
            if key.is(&e.key) {
                Some(e)
            } else {
                lookup(key, rest)
            }
        }
    }
}

pub(crate) fn has(table: &[Entry], key: &Key) -> bool
    ensures { result ≡ history.has table.now key.now }
{
    lookup(key, table).is_some()
}

/// The same entries once more.
pub(crate) fn copies(alloc: Global, table: &[Entry]) -> Result<Vec<Entry>, AllocError>
    ensures { IfOk result (λ copied. copied.items ≡ table.now) }
{
    let mut copied = Vec::new(alloc);
    for e in table {
        copied.push(e.clone()?)?;
    }
    Ok(copied)
}

/// The entry in place of the one with its key.
#[tactic(auto, unfolding(table_model::specs::Table::put))]
pub(crate) fn put(alloc: Global, entry: &Entry, table: &[Entry]) -> Result<Vec<Entry>, AllocError>
    ensures { IfOk result (λ after. after.items ≡ history.put entry.now table.now) }
{
    let before = below(copies(alloc, table)?, &entry.key);
    let behind = above(copies(alloc, table)?, &entry.key);
    joined(before, copy(entry)?, behind)
}

pub(crate) fn copy(entry: &Entry) -> Result<Entry, AllocError>
    ensures { IfOk result (λ copied. copied ≡ entry.now) }
{
    entry.clone()
}

fn joined(
    mut before: Vec<Entry>,
    entry: Entry,
    mut behind: Vec<Entry>,
) -> Result<Vec<Entry>, AllocError>
    ensures { IfOk result (λ all. all.items ≡ before.items ++ entry ∷ behind.items) }
{
    behind.insert(0, entry)?;
    before.append(&mut behind)?;
    Ok(before)
}

// The entries whose keys come first.
fn below(mut table: Vec<Entry>, key: &Key) -> Vec<Entry>
    ensures { result.items ≡ filter (λ e. is_lt (key_cmp e.key key.now)) table.items }
{
    table.retain(|e| e.key.order(key) == Ordering::Less);
    table
}

fn above(mut table: Vec<Entry>, key: &Key) -> Vec<Entry>
    ensures { result.items ≡ filter (λ e. is_gt (key_cmp e.key key.now)) table.items }
{
    table.retain(|e| e.key.order(key) == Ordering::Greater);
    table
}

#[tactic(auto, unfolding(table_model::specs::Table::take_out))]
pub(crate) fn take_out(key: &Key, mut table: Vec<Entry>) -> Vec<Entry>
    ensures { result.items ≡ history.take_out key.now table.items }
{
    table.retain(|e| !key.is(&e.key));
    table
}

/// What an accepted operation leaves.
pub(crate) fn performed(
    alloc: Global,
    ask: &Ask,
    table: Vec<Entry>,
) -> Result<Vec<Entry>, AllocError>
    ensures { IfOk result (λ after. after.items ≡ history.performed ask.now table.items) }
{
    match ask {
        Ask::Put(entry, _) => put(alloc, entry, &table),
        Ask::Remove(key) => Ok(take_out(key, table)),
        Ask::Bad(_) => Ok(table),
    }
}

/// Whether each reference is there.
#[tactic(auto, unfolding(table_model::specs::Table::resolves))]
pub(crate) fn resolves(alloc: Global, table: &[Entry], entry: &Entry) -> Result<bool, AllocError>
    ensures { IfOk result (λ all. all ≡ history.resolves table.now entry.now) }
{
    let keys = refs(alloc, entry)?;
    Ok(has_all(table, keys.as_slice()))
}

fn has_all(table: &[Entry], keys: &[Key]) -> bool
    ensures { result ≡ list_all (history.has table.now) keys.now }
{
    match keys {
        [] => true,
        [key, rest @ ..] => has(table, key) && has_all(table, rest),
    }
}

/// Whether some entry refers to the key.
#[tactic(auto, unfolding(table_model::specs::Table::used))]
pub(crate) fn used(table: &[Entry], key: &Key) -> bool
    ensures { result ≡ history.used table.now key.now }
{
    match table {
        [] => false,
        [e, rest @ ..] => refers(e, key) || used(rest, key),
    }
}

/// The key of a group's backup.
pub(crate) fn backup_of(entry: &Entry) -> Option<Key>
    ensures { result ≡ history.backup_of entry.now }
{
    match &entry.payload {
        Payload::Group(group) => match group.backup {
            None => None,
            Some(id) => Some(Key {
                instance: entry.key.instance,
                name: KeyName::Group(id),
            }),
        },
        Payload::Hop(_) => None,
        Payload::Route(_) => None,
    }
}
