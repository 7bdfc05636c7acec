ghost use Rattle.std.specs.Prelude.{◌≡◌, ◌<◌, ◌+◌, ◌≤◌, ◌⊎◌, IsTrue};
ghost use Rattle.table_model.specs.Table.{refusal, performed, displaced, needs_room, lookup};

use crate::backups::is_too_deep;
use crate::check::{is_bad_name, is_bad_payload};
use aft_entries::{Ask, Entry, Key, Reason};
use aft_store::{Store, has, is_used, resolves};

/// Why the operation is refused, if it is: the first of the reasons from OpUnsupported to TableFull that holds,
/// with so many network instances and so many entries at most. It looks at the operation, at the keys that it
/// names and, for a backup or a removal, through the table.
#[tactic(auto, unfolding(table_model::specs::Table::refusal))]
pub fn judge(store: &Store, instances: u16, limit: u64, ask: &Ask) -> Option<Reason>
    ensures { result ≡ refusal instances limit store.now.entries ask.now }
{
    match ask {
        Ask::Bad(reason) => Some(*reason),
        Ask::Put(entry, replace) => judge_put(store, instances, limit, entry, *replace),
        Ask::Remove(key) => judge_remove(store, instances, limit, key),
    }
}

#[tactic(auto, unfolding(table_model::specs::Table::refusal))]
fn judge_put(
    store: &Store,
    instances: u16,
    limit: u64,
    entry: &Entry,
    replace: bool,
) -> Option<Reason>
    ensures { result ≡ refusal instances limit store.now.entries (Ask.Put entry.now replace) }
{
    let key = entry.key;
    if key.instance >= instances {
        Some(Reason::UnknownInstance)
    } else if is_bad_name(&key.name) {
        Some(Reason::BadKey)
    } else if is_bad_payload(instances, &entry.payload) {
        Some(Reason::BadPayload)
    } else if replace && !has(store, &key) {
        Some(Reason::NotThere)
    } else if !resolves(store, entry) {
        Some(Reason::Unresolved)
    } else if is_too_deep(store, entry) {
        Some(Reason::BackupDepth)
    } else if store.len() >= limit && !has(store, &key) {
        Some(Reason::TableFull)
    } else {
        None
    }
}

#[tactic(auto, unfolding(table_model::specs::Table::refusal))]
fn judge_remove(store: &Store, instances: u16, limit: u64, key: &Key) -> Option<Reason>
    ensures { result ≡ refusal instances limit store.now.entries (Ask.Remove key.now) }
{
    if key.instance >= instances {
        Some(Reason::UnknownInstance)
    } else if is_bad_name(&key.name) {
        Some(Reason::BadKey)
    } else if is_used(store, key) {
        Some(Reason::InUse)
    } else {
        None
    }
}

/// Does what was asked, and answers the entry that went or was written over, if there was one. It takes no
/// memory; a key that isn't there takes a place that was made.
pub fn perform(store: &mut Store, ask: Ask) -> Option<Entry>
    requires room { needs_room ask store.old.entries → 0 < store.old.spare }
    ensures displaced { result ≡ displaced ask store.old.entries }
    ensures table { store.new.entries ≡ performed ask store.old.entries }
    ensures spare { store.old.spare ≤ store.new.spare + 1 }
    ensures in_place { (needs_room ask store.old.entries → ⊥) → store.old.spare ≤ store.new.spare }
{
    match ask {
        Ask::Put(entry, _) => store.put_reserved(entry),
        Ask::Remove(key) => store.remove(&key),
        Ask::Bad(_) => None,
    }
}
