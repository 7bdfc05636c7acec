//! The copies of an entry that its jobs will need, and what its removal costs.
ghost use Rattle.std.specs.Prelude.{◌≡◌, ◌+◌, ◌≤◌, ◌^◌, ℕ, Some, None, is_some, length, IfOk};
ghost use Rattle.aft_entries.specs.References.{payload_refs};
ghost use Rattle.fib_board.specs.BoxedWork.{entry_in};
ghost use Rattle.table_model.specs.declared.job.Work.TheVariants as work;
ghost use Rattle.rib_core.specs.Copies.{IsCopies};
ghost use Rattle.fib_board.specs.Removals as removal;
ghost use Rattle.rib_core.specs.Removals as spec;
ghost use Rattle.rib_core.specs.Tables.{made_with};

use crate::tables::Origin;
use aft_entries::{Entry, GroupPayload, Key, Payload};
use aft_store::{fill_box, spare_box};
use fib_board::{BoxedJob, BoxedWork};
use std::alloc::{AllocError, Global};
use table_model::JobNumber;

/// What an entry that is put needs besides its place in the table: the worker's copy, the forwarding table's, and a box
/// for the entry that it displaces.
#[derive(Drop)]
pub struct Copies {
    pub work: Box<Entry>,
    pub copy: Box<Entry>,
    pub displaced: Option<Box<Entry>>,
}

/// The copies of the entry, with a box for what it displaces, where it does. This alone takes memory.
pub fn copies_of(alloc: Global, entry: &Entry, displaces: bool) -> Result<Copies, AllocError>
    ensures { IfOk result (λ copies. IsCopies entry.now displaces copies) }
{
    let work = boxed_copy(alloc, entry)?;
    let copy = boxed_copy(alloc, entry)?;
    let displaced = box_where(alloc, displaces)?;
    Ok(Copies {
        work,
        copy,
        displaced,
    })
}

fn boxed_copy(alloc: Global, entry: &Entry) -> Result<Box<Entry>, AllocError>
    ensures { IfOk result (λ boxed. boxed.value ≡ entry.now) }
{
    let copy = entry.clone()?;
    Ok(Box::new(alloc, copy)?)
}

fn box_where(alloc: Global, wanted: bool) -> Result<Option<Box<Entry>>, AllocError>
    ensures { IfOk result (λ place. is_some place ≡ wanted) }
{
    if wanted {
        Ok(Some(spare_box(alloc)?))
    } else {
        Ok(None)
    }
}

// The entry in the box, where there is one.
fn filled(place: Option<Box<Entry>>, entry: Option<Entry>) -> Option<Box<Entry>>
    requires { is_some place ≡ is_some entry }
    ensures { entry_in result ≡ entry }
{
    match entry {
        None => None,
        Some(entry) => match place {
            Some(place) => Some(fill_box(place, entry)),
            None => unreachable!(),
        },
    }
}

/// The job that installs an entry.
pub fn job_to_install(
    position: u64,
    origin: Origin,
    copies: Copies,
    displaced: Option<Entry>,
) -> BoxedJob
    requires same { copies.work.value ≡ copies.copy.value }
    requires place { is_some copies.displaced ≡ is_some displaced }
    ensures { result ≡ made_with position origin (work.Install copies.work.value) displaced }
{
    let Copies {
        work,
        copy,
        displaced: place,
    } = copies;
    BoxedJob {
        number: JobNumber { position, index: 0 },
        id: origin.id,
        owner: Some(origin.session),
        wants: origin.wants,
        work: BoxedWork::Install(work),
        displaced: filled(place, displaced),
        copy: Some(copy),
    }
}

/// The job that removes a key.
pub fn job_to_remove(
    position: u64,
    origin: Origin,
    key: Key,
    displaced: Option<Box<Entry>>,
) -> BoxedJob
    ensures { result ≡ made_with position origin (work.Remove key) (entry_in displaced) }
{
    BoxedJob {
        number: JobNumber { position, index: 0 },
        id: origin.id,
        owner: Some(origin.session),
        wants: origin.wants,
        work: BoxedWork::Remove(key),
        displaced,
        copy: None,
    }
}

/// What the removal of the entry costs a board.
pub fn removal_cost(entry: &Entry) -> u64
    ensures cost { result ≡ removal.removal_cost entry.now }
    ensures bound { result ≤ 2 ^ 63 + 1 }
{
    1 + references(&entry.payload)
}

/// The same of an entry that may be there.
pub fn removal_cost_in(entry: &Option<Entry>) -> u64
    ensures { result ≡ spec.removal_cost_in entry.now }
{
    match entry {
        None => 0,
        Some(entry) => removal_cost(entry),
    }
}

/// The same of a box that may be there.
pub fn removal_cost_of_box(entry: &Option<Box<Entry>>) -> u64
    ensures { result ≡ spec.removal_cost_in (entry_in entry.now) }
{
    match entry {
        None => 0,
        Some(entry) => removal_cost(entry),
    }
}

// How many references the payload has.
fn references(payload: &Payload) -> u64
    ensures count { (instance : ℕ) → result ≡ length (payload_refs instance payload.now) }
    ensures bound { result ≤ 2 ^ 63 }
{
    match payload {
        Payload::Hop(_) => 0,
        Payload::Group(group) => group_references(group),
        Payload::Route(_) => 1,
    }
}

fn group_references(group: &GroupPayload) -> u64
    ensures count { (instance : ℕ) → result ≡ length (payload_refs instance (Payload.Group group.now)) }
    ensures bound { result ≤ 2 ^ 63 }
{
    let members = group.members.as_slice().len() as u64;
    match group.backup {
        None => members,
        Some(_) => members + 1,
    }
}

/// Lets an entry go.
pub fn discard_entry(entry: Entry) {
    let _ = entry;
}
