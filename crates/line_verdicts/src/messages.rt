ghost use Rattle.std.specs.Prelude.{◌≡◌, ◌++◌, ◌≤◌, [], OnOk, OnErr, length, take};
ghost use Rattle.std.specs.List.{flat_map};
ghost use Rattle.std.specs.Option.{option_map_or};
ghost use Rattle.line_verdicts.specs.Items as spec;

use crate::seen::Seen;
use gribi_messages::{AftResult, ModifyResponse};
use schema_numbers::{Numbering, ValueName};
use std::alloc::AllocError;

fn roll_back(items: &mut Vec<Seen>, before: usize) -> AllocError
    requires { before ≤ length items.old.items }
    ensures { items.new.items ≡ take before items.old.items }
{
    items.truncate(before);
    AllocError
}

#[tactic(auto, unfolding(crate::specs::Items::result_items))]
fn append_result(n: &Numbering, r: &AftResult, items: &mut Vec<Seen>) -> Result<(), AllocError>
    ensures ok { OnOk result (items.new.items ≡ items.old.items ++ spec.result_items n.now r.now) }
    ensures err { OnErr result (items.new.items ≡ items.old.items) }
{
    if r.status == n.value(ValueName::ResultStatusRibProgrammed) {
        items.push(Seen::RibProgrammed(r.id))?;
    } else if r.status == n.value(ValueName::ResultStatusFibProgrammed) {
        items.push(Seen::FibProgrammed(r.id))?;
    } else if r.status == n.value(ValueName::ResultStatusFailed) {
        items.push(Seen::Failed(r.id, r.reason))?;
    } else if r.status == n.value(ValueName::ResultStatusFibFailed) {
        items.push(Seen::FibFailed(r.id, r.reason))?;
    }
    Ok(())
}

fn append_results(
    n: &Numbering,
    results: &[AftResult],
    items: &mut Vec<Seen>,
) -> Result<(), AllocError>
    ensures ok { OnOk result (items.new.items ≡ items.old.items ++ flat_map (spec.result_items n.now) results.now) }
    ensures err { OnErr result (items.new.items ≡ items.old.items) }
{
    let before = items.len();
    for r in results {
        if append_result(n, r, items).is_err() {
            return Err(roll_back(items, before));
        }
    }
    Ok(())
}

fn append_params(
    n: &Numbering,
    params: Option<u64>,
    items: &mut Vec<Seen>,
) -> Result<(), AllocError>
    ensures ok { OnOk result (items.new.items ≡ items.old.items ++ option_map_or (spec.params_items n.now) params []) }
    ensures err { OnErr result (items.new.items ≡ items.old.items) }
{
    if let Some(status) = params {
        if status == n.value(ValueName::ParamsStatusOk) {
            items.push(Seen::ParamsOk)?;
        }
    }
    Ok(())
}

fn append_election(election: Option<u128>, items: &mut Vec<Seen>) -> Result<(), AllocError>
    ensures ok { OnOk result (items.new.items ≡ items.old.items ++ option_map_or spec.election_items election []) }
    ensures err { OnErr result (items.new.items ≡ items.old.items) }
{
    if let Some(id) = election {
        items.push(Seen::Elected(id))?;
    }
    Ok(())
}

/// Appends the items of an answer of a Modify call. After want of memory `items` is as before.
#[tactic(auto, unfolding(crate::specs::Items::modify_items))]
pub fn append_modify(
    n: &Numbering,
    r: &ModifyResponse,
    items: &mut Vec<Seen>,
) -> Result<(), AllocError>
    ensures ok { OnOk result (items.new.items ≡ items.old.items ++ spec.modify_items n.now r.now) }
    ensures err { OnErr result (items.new.items ≡ items.old.items) }
{
    let before = items.len();
    append_results(n, r.results.as_slice(), items)?;
    if append_params(n, r.params, items).is_err() || append_election(r.election, items).is_err() {
        return Err(roll_back(items, before));
    }
    Ok(())
}

/// Appends the item of an answer of a Flush call. After want of memory `items` is as before.
pub fn append_flush(n: &Numbering, answer: u64, items: &mut Vec<Seen>) -> Result<(), AllocError>
    ensures ok { OnOk result (items.new.items ≡ items.old.items ++ spec.flush_items n.now answer) }
    ensures err { OnErr result (items.new.items ≡ items.old.items) }
{
    if answer == n.value(ValueName::FlushResultOk) {
        items.push(Seen::FlushedOk)?;
    } else if answer == n.value(ValueName::FlushResultNonZeroReferenceRemain) {
        items.push(Seen::FlushedRemain)?;
    }
    Ok(())
}
