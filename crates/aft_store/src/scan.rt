ghost use Rattle.std.specs.Prelude.{◌≡◌, option_map, option_to_list};
ghost use Rattle.std.specs.List.{list_all};
ghost use Rattle.aft_entries.specs.References.{payload_refs, hop_key, group_key};
ghost use Rattle.table_model.specs.Table as spec;

use crate::store::Store;
use aft_entries::{Entry, GroupPayload, Key, KeyName, Member, Payload, refers};

/// Whether the key is there.
pub fn has(store: &Store, key: &Key) -> bool
    ensures { result ≡ spec.has store.now.entries key.now }
{
    store.get(key).is_some()
}

/// Whether some entry refers to the key. None refers to a prefix or a label, so these need no scan.
pub fn is_used(store: &Store, key: &Key) -> bool
    ensures { result ≡ spec.used store.now.entries key.now }
{
    match key.name {
        KeyName::Hop(_) => is_referred(store, key),
        KeyName::Group(_) => is_referred(store, key),
        KeyName::V4(_) => false,
        KeyName::V6(_) => false,
        KeyName::Label(_) => false,
    }
}

#[tactic(auto, unfolding(table_model::specs::Table::used))]
fn is_referred(store: &Store, key: &Key) -> bool
    ensures { result ≡ spec.used store.now.entries key.now }
{
    for n in 0..store.len() {
        if refers(store.at(n), key) {
            return true;
        }
    }
    false
}

/// Whether each reference of the entry is there.
pub fn resolves(store: &Store, entry: &Entry) -> bool
    ensures { result ≡ spec.resolves store.now.entries entry.now }
{
    let instance = entry.key.instance;
    match &entry.payload {
        Payload::Hop(_) => true,
        Payload::Group(group) => group_resolves(store, instance, group),
        Payload::Route(route) => has(
            store,
            &Key {
                instance: route.instance,
                name: KeyName::Group(route.group),
            },
        ),
    }
}

fn group_resolves(store: &Store, instance: u16, group: &GroupPayload) -> bool
    ensures { result ≡ list_all (spec.has store.now.entries) (payload_refs instance (Payload.Group group.now)) }
{
    let members = members_resolve(store, instance, group.members.as_slice());
    members && backup_resolves(store, instance, group.backup)
}

fn backup_resolves(store: &Store, instance: u16, backup: Option<u64>) -> bool
    ensures { result ≡ list_all (spec.has store.now.entries) (option_to_list (option_map (group_key instance) backup)) }
{
    match backup {
        None => true,
        Some(id) => has(
            store,
            &Key {
                instance,
                name: KeyName::Group(id),
            },
        ),
    }
}

fn members_resolve(store: &Store, instance: u16, members: &[Member]) -> bool
    ensures { result ≡ list_all (λ member. spec.has store.now.entries (hop_key instance member.hop)) members.now }
{
    members.iter().all(|member| {
        has(
            store,
            &Key {
                instance,
                name: KeyName::Hop(member.hop),
            },
        )
    })
}
