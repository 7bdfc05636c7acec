ghost use Rattle.std.specs.Prelude.{◌≡◌, ◌+◌, ◌≤◌, ◌<◌, OnOk, OnErr, vec_len, vec_capacity};
ghost use Rattle.std.specs.List.{insert};

use aft_entries::{Entry, Key, KeyName, Payload, RoutePayload};
use std::alloc::{AllocError, Global};

/// Adds spare boxes until there are so many. Where memory is wanting, those that were added go again.
pub fn add_boxes(alloc: Global, spare: &mut Vec<Box<Entry>>, count: usize) -> Result<(), AllocError>
    requires { vec_len spare.old ≤ count }
    ensures ok { OnOk result (vec_len spare.new ≡ count) }
    ensures err { OnErr result (vec_len spare.new ≡ vec_len spare.old) }
{
    let had = spare.len();
    if let Err(refused) = grow_to(alloc, spare, count) {
        spare.truncate(had);
        return Err(refused);
    }
    Ok(())
}

fn grow_to(alloc: Global, spare: &mut Vec<Box<Entry>>, count: usize) -> Result<(), AllocError>
    requires { vec_len spare.old ≤ count }
    ensures ok { OnOk result (vec_len spare.new ≡ count) }
    ensures kept { vec_len spare.old ≤ vec_len spare.new }
{
    'boxes: while spare.len() < count {
        let place = spare_box(alloc)?;
        spare.push(place)?;
    }
    Ok(())
}

/// A box for an entry to come.
pub fn spare_box(alloc: Global) -> Result<Box<Entry>, AllocError> {
    Ok(Box::new(alloc, blank())?)
}

/// Puts the entry into the box.
pub fn fill_box(mut place: Box<Entry>, entry: Entry) -> Box<Entry>
    ensures { result.value ≡ entry }
{
    drop(Box::replace(&mut place, entry));
    place
}

// What a spare box holds. It has no memory of its own.
fn blank() -> Entry {
    Entry {
        key: Key {
            instance: 0,
            name: KeyName::Label(0),
        },
        payload: Payload::Route(RoutePayload {
            instance: 0,
            group: 0,
        }),
    }
}

/// Puts the entry into one of the spare boxes, and answers that box.
pub fn take_box(spare: &mut Vec<Box<Entry>>, entry: Entry) -> Box<Entry>
    requires { 0 < vec_len spare.old }
    ensures value { result.value ≡ entry }
    ensures len { vec_len spare.new + 1 ≡ vec_len spare.old }
{
    match spare.pop() {
        Some(place) => fill_box(place, entry),
        None => unreachable!(),
    }
}

/// Inserts the box at a place of a list that has room for it.
pub fn insert_box(entries: &mut Vec<Box<Entry>>, at: usize, place: Box<Entry>)
    requires place { at ≤ vec_len entries.old }
    requires room { vec_len entries.old < vec_capacity entries.old }
    ensures items { entries.new.items ≡ insert entries.old.items at place }
    ensures len { vec_len entries.new ≡ vec_len entries.old + 1 }
    ensures capacity { vec_capacity entries.old ≤ vec_capacity entries.new }
{
    if entries.insert(at, place).is_err() {
        unreachable!()
    }
}
