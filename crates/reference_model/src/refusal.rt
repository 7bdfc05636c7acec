//! Why an operation is refused.
ghost use Rattle.std.specs.Prelude.{◌≡◌, IfOk, not};
ghost use Rattle.table_model.specs.Table as history;

use crate::chains::is_too_deep;
use crate::entries::{has, resolves, used};
use crate::shapes::{is_bad_name, is_bad_payload};
use aft_entries::{Ask, Entry, Key, Reason};
use std::alloc::{AllocError, Global};

/// Why the operation is refused, if it is: the first reason that holds.
#[tactic(auto, unfolding(table_model::specs::Table::refusal))]
pub(crate) fn refusal(
    alloc: Global,
    instances: u16,
    limit: u64,
    table: &[Entry],
    ask: &Ask,
) -> Result<Option<Reason>, AllocError>
    ensures { IfOk result (λ reason. reason ≡ history.refusal instances limit table.now ask.now) }
{
    match ask {
        Ask::Bad(reason) => Ok(Some(*reason)),
        Ask::Put(entry, replace) => put_refusal(alloc, instances, limit, table, entry, *replace),
        Ask::Remove(key) => Ok(remove_refusal(instances, table, key)),
    }
}

fn put_refusal(
    alloc: Global,
    instances: u16,
    limit: u64,
    table: &[Entry],
    entry: &Entry,
    replace: bool,
) -> Result<Option<Reason>, AllocError>
    ensures { IfOk result (λ reason. reason ≡ history.refusal instances limit table.now (Ask.Put entry.now replace)) }
{
    let bare = !resolves(alloc, table, entry)?;
    let deep = is_too_deep(alloc, table, entry)?;
    Ok(put_reason(instances, limit, table, entry, replace, bare, deep))
}

// With whether a reference isn't there, and whether a chain gets too long.
#[tactic(auto, unfolding(table_model::specs::Table::refusal))]
fn put_reason(
    instances: u16,
    limit: u64,
    table: &[Entry],
    entry: &Entry,
    replace: bool,
    bare: bool,
    deep: bool,
) -> Option<Reason>
    requires bare { bare ≡ not (history.resolves table.now entry.now) }
    requires deep { deep ≡ history.is_too_deep table.now entry.now }
    ensures { result ≡ history.refusal instances limit table.now (Ask.Put entry.now replace) }
{
    let there = has(table, &entry.key);
    if entry.key.instance >= instances {
        Some(Reason::UnknownInstance)
    } else if is_bad_name(&entry.key.name) {
        Some(Reason::BadKey)
    } else if is_bad_payload(instances, &entry.payload) {
        Some(Reason::BadPayload)
    } else if replace && !there {
        Some(Reason::NotThere)
    } else if bare {
        Some(Reason::Unresolved)
    } else if deep {
        Some(Reason::BackupDepth)
    } else if !replace && !there && table.len() as u64 >= limit {
        Some(Reason::TableFull)
    } else {
        None
    }
}

#[tactic(auto, unfolding(table_model::specs::Table::refusal))]
fn remove_refusal(instances: u16, table: &[Entry], key: &Key) -> Option<Reason>
    ensures { result ≡ history.refusal instances 0 table.now (Ask.Remove key.now) }
{
    if key.instance >= instances {
        Some(Reason::UnknownInstance)
    } else if is_bad_name(&key.name) {
        Some(Reason::BadKey)
    } else if used(table, key) {
        Some(Reason::InUse)
    } else {
        None
    }
}
