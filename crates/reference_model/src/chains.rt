//! Chains of backup groups.
ghost use Rattle.std.specs.Prelude.{◌≡◌, ◌≤◌, IfOk, option_and_then};
ghost use Rattle.std.specs.List.{list_any};
ghost use Rattle.aft_entries.specs.Order.{key_eq};
ghost use Rattle.table_model.specs.Table as history;

use crate::entries::{backup_of, lookup};
use aft_entries::{Entry, Key};
use std::alloc::{AllocError, Global};
use std::collections::LinkedList;

fn names_key(key: &Key, backup: Option<Key>) -> bool
    ensures { result ≡ history.names_key key.now backup }
{
    match backup {
        None => false,
        Some(other) => other.is(key),
    }
}

// The backup of the key's entry.
fn backup_in(key: &Key, table: &[Entry]) -> Option<Key>
    ensures { result ≡ option_and_then history.backup_of (history.lookup key.now table.now) }
{
    match lookup(key, table) {
        None => None,
        Some(e) => backup_of(e),
    }
}

// The chain of backups from a group on, at most so many groups of it.
#[tactic(auto, using(crate::proofs::Walks::chain_on))]
fn chain(
    alloc: Global,
    most: u32,
    table: &[Entry],
    group: Option<Key>,
) -> Result<LinkedList<Key>, AllocError>
    ensures { IfOk result (λ keys. keys ≡ history.chain most table.now group) }
{
    if most == 0 {
        return Ok(LinkedList::new(alloc));
    }
    match group {
        None => Ok(LinkedList::new(alloc)),
        Some(group) => {
            let mut keys = chain(alloc, most - 1, table, backup_in(&group, table))?;
            keys.push_front(group)?;
            Ok(keys)
        }
    }
}

/// How many groups the chain from this one has, which are at most four.
#[tactic(auto, unfolding(table_model::specs::Table::depth))]
pub(crate) fn depth(alloc: Global, table: &[Entry], group: Key) -> Result<usize, AllocError>
    ensures { IfOk result (λ groups. groups ≡ history.depth table.now group) }
{
    let keys = chain(alloc, 4, table, Some(group))?;
    Ok(keys.len())
}

// The most groups that a chain has whose last names this one, at most so many.
fn above(most: u32, table: &[Entry], group: &Key) -> u32
    ensures is { result ≡ history.above most table.now group.now }
    ensures bound { result ≤ most }
{
    if most == 0 {
        return 0;
    }
    let mut longest = 0;
    for e in table {
        if names_key(group, backup_of(e)) {
            longest = longest.max(1 + above(most - 1, table, &e.key));
        }
    }
    longest
}

fn comes_back(chain: &LinkedList<Key>, group: &Key) -> bool
    ensures { result ≡ list_any (key_eq group.now) chain.now }
{
    chain.iter().any(|key| group.is(key))
}

// The chain from the backup comes to the group, or the chains through the group get more than four groups.
fn is_too_deep_with(
    alloc: Global,
    table: &[Entry],
    group: &Key,
    backup: Option<Key>,
) -> Result<bool, AllocError>
    ensures { IfOk result (λ deep. deep ≡ history.is_too_deep_with table.now group.now backup) }
{
    match backup {
        None => Ok(false),
        Some(backup) => {
            let keys = chain(alloc, 4, table, Some(backup))?;
            let back = comes_back(&keys, group);
            let groups = 1 + depth(alloc, table, backup)? as u128 + above(4, table, group) as u128;
            Ok(back || 4 < groups)
        }
    }
}

#[tactic(auto, unfolding(table_model::specs::Table::is_too_deep))]
pub(crate) fn is_too_deep(alloc: Global, table: &[Entry], entry: &Entry) -> Result<bool, AllocError>
    ensures { IfOk result (λ deep. deep ≡ history.is_too_deep table.now entry.now) }
{
    is_too_deep_with(alloc, table, &entry.key, backup_of(entry))
}
