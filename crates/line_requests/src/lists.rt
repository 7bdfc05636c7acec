ghost use Rattle.std.specs.Prelude.{◌≡◌, IfOk, map};
ghost use Rattle.line_requests.specs.Entries as spec;
ghost use Rattle.line_requests.specs.Numbers.{cut};
ghost use Rattle.std.specs.Option.{option_map};

use crate::number::narrow;
use aft_entries::{RawLabels, RawMembers};
use std::alloc::{AllocError, Global};

/// What stands before and behind the first comma.
pub fn comma_halves(word: &str) -> Option<(&str, &str)>
    ensures { option_map (λ halves. (halves.0.now, halves.1.now)) result ≡ cut 44 word.now }
{
    word.split_once(',')
}

// What stands before and behind the first colon.
fn colon_halves(word: &str) -> Option<(&str, &str)>
    ensures { option_map (λ halves. (halves.0.now, halves.1.now)) result ≡ cut 58 word.now }
{
    word.split_once(':')
}

fn member(word: &str) -> (u64, Option<u64>)
    ensures { result ≡ spec.member word.now }
{
    match colon_halves(word) {
        None => (narrow(word), None),
        Some((index, weight)) => (narrow(index), Some(narrow(weight))),
    }
}

/// Numbers, parted by commas.
pub fn labels(alloc: Global, word: &str) -> Result<RawLabels, AllocError>
    ensures { IfOk result (λ labels. labels ≡ map spec.label (spec.pieces word.now)) }
{
    let mut labels = RawLabels::new(alloc);
    for part in word.split(',') {
        labels.push(Some(narrow(part)))?;
    }
    Ok(labels)
}

/// Members, parted by commas.
pub fn members(alloc: Global, word: &str) -> Result<RawMembers, AllocError>
    ensures { IfOk result (λ members. members ≡ map spec.member (spec.pieces word.now)) }
{
    let mut members = RawMembers::new(alloc);
    for part in word.split(',') {
        members.push(member(part))?;
    }
    Ok(members)
}
