ghost use Rattle.std.specs.Prelude.{◌≡◌, ◌+◌, ◌≤◌, ◌<◌, ◌^◌, false, if◌then◌else◌};
ghost use Rattle.std.specs.HashMap.{spare};
ghost use Rattle.ref_counts.specs.Counting as spec;
ghost use Rattle.ref_counts.specs.declared.places.Place.{Place};

use std::collections::HashMap;

/// A next hop or a group that is referred to.
#[derive(Clone, Copy, PartialEq, Eq, Hash)]
pub struct Place {
    pub instance: u16,
    pub is_group: bool,
    pub number: u64,
}

/// How often, and how often by groups.
#[derive(Clone, Copy)]
pub struct Counts {
    pub all: u64,
    pub by_groups: u64,
}

/// The places that are referred to, each with its counts.
pub type Places = HashMap<Place, Counts>;

/// The counts of a place.
pub fn counts_at(places: &Places, place: Place) -> Counts
    ensures { result ≡ spec.counts_at place places.now.entries }
{
    match places.get(&place) {
        Some(counts) => *counts,
        None => Counts {
            all: 0,
            by_groups: 0,
        },
    }
}

/// Counts one more reference.
pub fn raise(places: &mut Places, place: Place, by_group: bool)
    requires room { 0 < spare places.old }
    requires all { (spec.counts_at place places.old.entries).all + 1 < 2 ^ 64 }
    requires by_groups { (spec.counts_at place places.old.entries).by_groups + (if by_group then 1 else 0) < 2 ^ 64 }
    ensures counts { spec.IsRaised place by_group places.old.entries places.new.entries }
    ensures spare { spare places.old ≤ spare places.new + 1 }
{
    let had = counts_at(places, place);
    let counts = Counts {
        all: had.all + 1,
        by_groups: had.by_groups + by_group as u64,
    };
    if places.insert(place, counts).is_err() {
        unreachable!()
    }
}

/// Counts one reference less. A place that is no longer referred to goes.
pub fn lower(places: &mut Places, place: Place, by_group: bool)
    requires all { 1 ≤ (spec.counts_at place places.old.entries).all }
    requires by_groups { (if by_group then 1 else 0) ≤ (spec.counts_at place places.old.entries).by_groups }
    ensures counts { spec.IsRaised place by_group places.new.entries places.old.entries }
    ensures spare { spare places.old ≤ spare places.new }
{
    let had = counts_at(places, place);
    let counts = Counts {
        all: had.all - 1,
        by_groups: had.by_groups - by_group as u64,
    };
    if counts.all == 0 && counts.by_groups == 0 {
        drop(places.remove(&place));
    } else {
        replace(places, place, counts);
    }
}

// Puts the counts in place of those that the place has.
fn replace(places: &mut Places, place: Place, counts: Counts)
    requires { 1 ≤ (spec.counts_at place places.old.entries).all }
    ensures here { spec.counts_at place places.new.entries ≡ counts }
    ensures others { (q : Place) → spec.same_place place q ≡ false
        → spec.counts_at q places.new.entries ≡ spec.counts_at q places.old.entries }
    ensures spare { spare places.new ≡ spare places.old }
{
    match places.get_mut(&place) {
        Some(had) => *had = counts,
        None => unreachable!(),
    }
}
