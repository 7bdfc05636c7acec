ghost use Rattle.std.specs.Prelude.{◌≡◌, ◌+◌, ◌≤◌, max, nat_lt, length, option_and_then};
ghost use Rattle.std.specs.List.{list_any};
ghost use Rattle.aft_entries.specs.Order.{key_eq};
ghost use Rattle.table_model.specs.Table.{names_key};
ghost use Rattle.table_model.specs.Table as spec;

use aft_entries::{Entry, Key, KeyName, Payload};
use aft_store::Store;

/// Whether the chain of the group's backups would come back to the group, or would be part of one of more than
/// four groups. An entry without a backup is looked at alone.
#[tactic(auto, unfolding(table_model::specs::Table::is_too_deep))]
pub fn is_too_deep(store: &Store, entry: &Entry) -> bool
    ensures { result ≡ spec.is_too_deep store.now.entries entry.now }
{
    let key = entry.key;
    is_too_deep_with(store, &key, backup_of(entry))
}

/// How many groups the chain of backups has that begins with this group, at most four.
#[tactic(auto, unfolding(table_model::specs::Table::depth))]
pub fn depth(store: &Store, group: &Key) -> u64
    ensures length { result ≡ spec.depth store.now.entries group.now }
    ensures bound { result ≤ 4 }
{
    chain_length(store, Some(*group), 4)
}

#[tactic(auto, unfolding(table_model::specs::Table::depth))]
fn is_too_deep_with(store: &Store, key: &Key, backup: Option<Key>) -> bool
    ensures { result ≡ spec.is_too_deep_with store.now.entries key.now backup }
{
    match backup {
        None => false,
        Some(first) => {
            let comes_back = is_in_chain(store, key, Some(first), 4);
            let below = chain_length(store, Some(first), 4);
            comes_back || is_past_four(store, key, below)
        }
    }
}

// Whether the chains through the group get more than four groups, with so many from its backup on. No more groups
// above it are looked for than are too many.
fn is_past_four(store: &Store, group: &Key, below: u64) -> bool
    requires { below ≤ 4 }
    ensures { result ≡ nat_lt 4 (1 + below + spec.above 4 store.now.entries group.now) }
{
    1 + below + above(store, group, 4 - below) > 4
}

// The key of the entry's backup.
#[tactic(auto, unfolding(table_model::specs::Table::backup_of))]
fn backup_of(entry: &Entry) -> Option<Key>
    ensures { result ≡ spec.backup_of entry.now }
{
    payload_backup(entry.key.instance, &entry.payload)
}

fn payload_backup(instance: u16, payload: &Payload) -> Option<Key>
    ensures { result ≡ spec.payload_backup instance payload.now }
{
    match payload {
        Payload::Hop(_) => None,
        Payload::Group(group) => match group.backup {
            None => None,
            Some(id) => Some(Key {
                instance,
                name: KeyName::Group(id),
            }),
        },
        Payload::Route(_) => None,
    }
}

// The key of the backup of the entry that has this key.
fn next(store: &Store, group: &Key) -> Option<Key>
    ensures { result ≡ option_and_then spec.backup_of (spec.lookup group.now store.now.entries) }
{
    match store.get(group) {
        Some(payload) => payload_backup(group.instance, payload),
        None => None,
    }
}

// Whether the key is in the chain of backups that begins with a group, in so many groups of it.
fn is_in_chain(store: &Store, key: &Key, group: Option<Key>, most: u64) -> bool
    ensures { result ≡ list_any (key_eq key.now) (spec.chain most store.now.entries group) }
{
    match group {
        None => false,
        Some(group) => {
            if most == 0 {
                return false;
            }
            key.is(&group) || is_in_chain(store, key, next(store, &group), most - 1)
        }
    }
}

// How many groups the chain of backups has that begins with a group, at most so many.
fn chain_length(store: &Store, group: Option<Key>, most: u64) -> u64
    ensures length { result ≡ length (spec.chain most store.now.entries group) }
    ensures bound { result ≤ most }
{
    match group {
        None => 0,
        Some(group) => {
            if most == 0 {
                return 0;
            }
            1 + chain_length(store, next(store, &group), most - 1)
        }
    }
}

// The most groups that a chain of backups has whose last names this one, at most so many.
fn above(store: &Store, group: &Key, most: u64) -> u64
    ensures length { result ≡ spec.above most store.now.entries group.now }
    ensures bound { result ≤ most }
{
    if most == 0 {
        return 0;
    }
    let mut longest = 0;
    'entries: for n in 0..store.len() {
        let entry = store.at(n);
        let key = entry.key;
        if names(backup_of(entry), group) {
            let further = 1 + above(store, &key, most - 1);
            longest = longer(longest, further);
        }
    }
    longest
}

fn longer(a: u64, b: u64) -> u64
    ensures { result ≡ max a b }
{
    a.max(b)
}

fn names(backup: Option<Key>, key: &Key) -> bool
    ensures { result ≡ names_key key.now backup }
{
    match backup {
        None => false,
        Some(backup) => backup.is(key),
    }
}
