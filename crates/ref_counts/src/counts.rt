ghost use Rattle.std.specs.Prelude.{◌≡◌, ◌+◌, ◌≤◌, [], length, true, false, OnOk};
ghost use Rattle.std.specs.HashMap.{spare};
ghost use Rattle.aft_entries.specs.References.{refs_of, payload_refs, hop_key};
ghost use Rattle.aft_entries.specs.declared.entry.Payload.TheVariants as payload;
ghost use Rattle.ref_counts.specs.CountsState.{CountsState};
ghost use Rattle.ref_counts.specs.Counting.{Adds, Fits, Holds, count_in, group_count_in, group_refs_of, payload_group_refs, hop_keys, backup_keys, named_place};

use crate::places::{Counts, Place, Places, counts_at, lower, raise};
use aft_entries::{Entry, GroupPayload, Key, KeyName, Member, Payload};
use std::alloc::{AllocError, Global};
use std::collections::HashMap;
use std::marker::Model;

/// How often each key stands in the references of the entries that were added and not dropped.
#[derive(Drop)]
pub struct RefCounts {
    places: Places,
}

impl Model for RefCounts {
    ghost Value = { CountsState };

    ghost view = { λ c. record { counted = c.places.entries; spare = spare c.places } };
}

impl RefCounts {
    /// No references. Takes no memory.
    pub fn new(alloc: Global) -> RefCounts
        ensures { result.counted ≡ [] }
    {
        RefCounts {
            places: HashMap::new(alloc),
        }
    }

    /// Makes places for so many more references. This alone takes memory.
    pub fn reserve(&mut self, more: u64) -> Result<(), AllocError>
        ensures same { Adds self.old.counted self.new.counted [] [] }
        ensures ok { OnOk result (more ≤ self.new.spare) }
        ensures kept { self.old.spare ≤ self.new.spare }
    {
        self.places.reserve(more as usize)
    }

    /// Counts the references of an entry. It takes a reserved place for each at most.
    pub fn add(&mut self, entry: &Entry)
        requires room { length (refs_of entry.now) ≤ self.old.spare }
        requires fits { Fits self.old.counted (refs_of entry.now) (group_refs_of entry.now) }
        ensures counts { Adds self.old.counted self.new.counted (refs_of entry.now) (group_refs_of entry.now) }
        ensures spare { self.old.spare ≤ self.new.spare + length (refs_of entry.now) }
    {
        add_payload(&mut self.places, entry.key.instance, &entry.payload);
    }

    /// Counts the references of an entry no longer.
    pub fn drop_refs(&mut self, entry: &Entry)
        requires { Holds self.old.counted (refs_of entry.now) (group_refs_of entry.now) }
        ensures counts { Adds self.new.counted self.old.counted (refs_of entry.now) (group_refs_of entry.now) }
        ensures spare { self.old.spare ≤ self.new.spare }
    {
        drop_payload(&mut self.places, entry.key.instance, &entry.payload);
    }

    /// How often the key is referred to.
    pub fn count(&self, key: &Key) -> u64
        ensures { result ≡ count_in self.now.counted key.now }
    {
        match place_of(key) {
            Some(place) => counts_at(&self.places, place).all,
            None => 0,
        }
    }

    /// How often groups refer to the key.
    pub fn count_by_groups(&self, key: &Key) -> u64
        ensures { result ≡ group_count_in self.now.counted key.now }
    {
        match place_of(key) {
            Some(place) => counts_at(&self.places, place).by_groups,
            None => 0,
        }
    }
}

fn place_of(key: &Key) -> Option<Place>
    ensures { result ≡ named_place key.now.instance key.now.name }
{
    match key.name {
        KeyName::Hop(index) => Some(hop_place(key.instance, index)),
        KeyName::Group(id) => Some(group_place(key.instance, id)),
        KeyName::V4(_) => None,
        KeyName::V6(_) => None,
        KeyName::Label(_) => None,
    }
}

fn hop_place(instance: u16, number: u64) -> Place
    ensures { result ≡ record { instance = instance; is_group = false; number = number } }
{
    Place {
        instance,
        is_group: false,
        number,
    }
}

fn group_place(instance: u16, number: u64) -> Place
    ensures { result ≡ record { instance = instance; is_group = true; number = number } }
{
    Place {
        instance,
        is_group: true,
        number,
    }
}

fn add_payload(places: &mut Places, instance: u16, payload: &Payload)
    requires room { length (payload_refs instance payload.now) ≤ spare places.old }
    requires fits { Fits places.old.entries (payload_refs instance payload.now) (payload_group_refs instance payload.now) }
    ensures counts { Adds places.old.entries places.new.entries (payload_refs instance payload.now) (payload_group_refs instance payload.now) }
    ensures spare { spare places.old ≤ spare places.new + length (payload_refs instance payload.now) }
{
    match payload {
        Payload::Hop(_) => {}
        Payload::Group(group) => {
            add_members(places, instance, group.members.as_slice());
            add_backup(places, instance, group.backup);
        }
        Payload::Route(route) => raise(places, group_place(route.instance, route.group), false),
    }
}

fn add_members(places: &mut Places, instance: u16, members: &[Member])
    requires room { length members.now ≤ spare places.old }
    requires fits { Fits places.old.entries (hop_keys instance members.now) (hop_keys instance members.now) }
    ensures counts { Adds places.old.entries places.new.entries (hop_keys instance members.now) (hop_keys instance members.now) }
    ensures spare { spare places.old ≤ spare places.new + length members.now }
{
    'members: for n in 0..members.len() {
        let member = members[n];
        raise(places, hop_place(instance, member.hop), true);
    }
}

fn add_backup(places: &mut Places, instance: u16, backup: Option<u64>)
    requires room { length (backup_keys instance backup) ≤ spare places.old }
    requires fits { Fits places.old.entries (backup_keys instance backup) (backup_keys instance backup) }
    ensures counts { Adds places.old.entries places.new.entries (backup_keys instance backup) (backup_keys instance backup) }
    ensures spare { spare places.old ≤ spare places.new + length (backup_keys instance backup) }
{
    match backup {
        None => {}
        Some(id) => raise(places, group_place(instance, id), true),
    }
}

fn drop_payload(places: &mut Places, instance: u16, payload: &Payload)
    requires { Holds places.old.entries (payload_refs instance payload.now) (payload_group_refs instance payload.now) }
    ensures counts { Adds places.new.entries places.old.entries (payload_refs instance payload.now) (payload_group_refs instance payload.now) }
    ensures spare { spare places.old ≤ spare places.new }
{
    match payload {
        Payload::Hop(_) => {}
        Payload::Group(group) => {
            drop_members(places, instance, group.members.as_slice());
            drop_backup(places, instance, group.backup);
        }
        Payload::Route(route) => lower(places, group_place(route.instance, route.group), false),
    }
}

fn drop_members(places: &mut Places, instance: u16, members: &[Member])
    requires { Holds places.old.entries (hop_keys instance members.now) (hop_keys instance members.now) }
    ensures counts { Adds places.new.entries places.old.entries (hop_keys instance members.now) (hop_keys instance members.now) }
    ensures spare { spare places.old ≤ spare places.new }
{
    'members: for n in 0..members.len() {
        let member = members[n];
        lower(places, hop_place(instance, member.hop), true);
    }
}

fn drop_backup(places: &mut Places, instance: u16, backup: Option<u64>)
    requires { Holds places.old.entries (backup_keys instance backup) (backup_keys instance backup) }
    ensures counts { Adds places.new.entries places.old.entries (backup_keys instance backup) (backup_keys instance backup) }
    ensures spare { spare places.old ≤ spare places.new }
{
    match backup {
        None => {}
        Some(id) => lower(places, group_place(instance, id), true),
    }
}
