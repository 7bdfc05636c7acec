//! The table that the commands leave, and what an operation is answered.
ghost use Rattle.std.specs.Prelude.{◌≡◌, ◌∷◌, IfOk};
ghost use Rattle.table_model.specs.Rib as history;

use crate::election::{highest, is_primary};
use crate::entries::performed;
use crate::event::{Event, is_done, is_flushed, is_left};
use crate::flush::kept;
use crate::refusal::refusal;
use crate::sessions::{deletes, params_of};
use aft_entries::{Entry, Reason};
use std::alloc::{AllocError, Global};
use table_model::{Command, Config, Operation};

// Whether the primary leaves, and the whole table goes with it.
fn purges(alloc: Global, past: &[Event], session: u64) -> Result<bool, AllocError>
    ensures { IfOk result (λ go. go ≡ history.purges past.now session) }
{
    let primary = is_primary(alloc, past, session)?;
    Ok(primary && deletes(params_of(past, session)))
}

// What one more event leaves of the table.
fn rib_after(
    alloc: Global,
    past: &[Event],
    e: &Event,
    table: Vec<Entry>,
) -> Result<Vec<Entry>, AllocError>
    ensures { IfOk result (λ after. after.items ≡ history.rib_after past.now e.now table.items) }
{
    match &e.command {
        Command::Operate(_, operation, _) => {
            if is_done(&e.reply) {
                performed(alloc, &operation.ask, table)
            } else {
                Ok(table)
            }
        }
        Command::Flush(_, which, _) => {
            if is_flushed(&e.reply) {
                kept(alloc, &table, *which)
            } else {
                Ok(table)
            }
        }
        Command::Leave(session) => {
            if is_left(&e.reply) && purges(alloc, past, *session)? {
                Ok(Vec::new(alloc))
            } else {
                Ok(table)
            }
        }
        _ => Ok(table),
    }
}

/// The table after a history.
#[tactic(auto, unfolding(table_model::specs::Rib::rib))]
pub(crate) fn rib(alloc: Global, past: &[Event]) -> Result<Vec<Entry>, AllocError>
    ensures { IfOk result (λ table. table.items ≡ history.rib past.now) }
{
    match past {
        [] => Ok(Vec::new(alloc)),
        [e, past @ ..] => rib_after(alloc, past, e, rib(alloc, past)?),
    }
}

/// The table after one more event.
#[tactic(auto, unfolding(table_model::specs::Rib::rib))]
pub(crate) fn rib_with(alloc: Global, e: &Event, past: &[Event]) -> Result<Vec<Entry>, AllocError>
    ensures { IfOk result (λ table. table.items ≡ history.rib (e.now ∷ past.now)) }
{
    rib_after(alloc, past, e, rib(alloc, past)?)
}

fn is_same_id(id: Option<u128>, highest: u128) -> bool
    ensures { result ≡ history.is_same_id id highest }
{
    match id {
        None => false,
        Some(given) => given == highest,
    }
}

/// Why the operation fails, if it does.
#[tactic(auto, unfolding(table_model::specs::Rib::verdict))]
pub(crate) fn verdict(
    alloc: Global,
    config: Config,
    past: &[Event],
    session: u64,
    operation: &Operation,
) -> Result<Option<Reason>, AllocError>
    ensures { IfOk result (λ reason. reason ≡ history.verdict config past.now session operation.now) }
{
    if !is_primary(alloc, past, session)? {
        Ok(Some(Reason::NotPrimary))
    } else if !is_same_id(operation.election, highest(alloc, past)?) {
        Ok(Some(Reason::ElectionIdDiffers))
    } else {
        let table = rib(alloc, past)?;
        refusal(
            alloc,
            config.instances,
            config.limit,
            &table,
            &operation.ask,
        )
    }
}
