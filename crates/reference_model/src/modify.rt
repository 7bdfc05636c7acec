//! Replies to the commands of Modify calls.
ghost use Rattle.std.specs.Prelude.{◌≡◌, IfOk, max};
ghost use Rattle.table_model.specs.Reply as history;

use crate::election::highest;
use crate::event::{Event, is_halt_done};
use crate::rib::verdict;
use crate::sessions::{differing, is_live, params_of, supported};
use aft_entries::Reason;
use std::alloc::{AllocError, Global};
use table_model::{AskedParams, Command, Config, Operation, Params, Reply};

#[tactic(auto, unfolding(table_model::specs::Reply::is_halted))]
pub(crate) fn is_halted(past: &[Event]) -> bool
    ensures { result ≡ history.is_halted past.now }
{
    match past {
        [] => false,
        [e, past @ ..] => is_halt_done(&e.reply) || is_halted(past),
    }
}

/// Whether a Halt stops the command.
pub(crate) fn is_stoppable(command: &Command) -> bool
    ensures { result ≡ history.is_stoppable command.now }
{
    match command {
        Command::Begin => true,
        Command::SetParams(_, _) => true,
        Command::Announce(_, _) => true,
        Command::Operate(_, _, _) => true,
        Command::Collect(_) => true,
        Command::Leave(_) => false,
        Command::Flush(_, _, _) => true,
        Command::Select(_, _) => true,
        Command::Take(_, _) => false,
        Command::Report(_, _, _) => false,
        Command::Halt => false,
    }
}

// The session that must be live.
fn caller(command: &Command) -> Option<u64>
    ensures { result ≡ history.caller command.now }
{
    match command {
        Command::SetParams(session, _) => Some(*session),
        Command::Announce(session, _) => Some(*session),
        Command::Operate(session, _, _) => Some(*session),
        Command::Collect(session) => Some(*session),
        Command::Leave(session) => Some(*session),
        _ => None,
    }
}

fn is_away(alloc: Global, past: &[Event], session: Option<u64>) -> Result<bool, AllocError>
    ensures { IfOk result (λ away. away ≡ history.is_away past.now session) }
{
    match session {
        None => Ok(false),
        Some(session) => Ok(!is_live(alloc, past, session)?),
    }
}

pub(crate) fn is_gone(alloc: Global, past: &[Event], command: &Command) -> Result<bool, AllocError>
    ensures { IfOk result (λ gone. gone ≡ history.is_gone past.now command.now) }
{
    is_away(alloc, past, caller(command))
}

fn params_beside(other: Option<Params>) -> Reply
    ensures { result ≡ history.params_beside other }
{
    match other {
        None => Reply::ParamsSet,
        Some(other) => Reply::ParamsDiffer(other),
    }
}

// To what is asked for, if that is supported.
fn params_reply(
    alloc: Global,
    past: &[Event],
    session: u64,
    params: Option<Params>,
) -> Result<Reply, AllocError>
    ensures { IfOk result (λ reply. reply ≡ history.params_reply past.now session params) }
{
    match params {
        None => Ok(Reply::ParamsUnsupported),
        Some(params) => {
            if params_of(past, session).is_some() {
                Ok(Reply::ParamsNotAllowed)
            } else {
                Ok(params_beside(differing(alloc, past, session, params)?))
            }
        }
    }
}

#[tactic(auto, unfolding(table_model::specs::Reply::reply_params))]
pub(crate) fn reply_params(
    alloc: Global,
    past: &[Event],
    session: u64,
    asked: AskedParams,
) -> Result<Reply, AllocError>
    ensures { IfOk result (λ reply. reply ≡ history.reply_params past.now session asked) }
{
    params_reply(alloc, past, session, supported(asked))
}

#[tactic(auto, unfolding(table_model::specs::Reply::reply_announce))]
pub(crate) fn reply_announce(
    alloc: Global,
    past: &[Event],
    session: u64,
    id: u128,
) -> Result<Reply, AllocError>
    ensures { IfOk result (λ reply. reply ≡ history.reply_announce past.now session id) }
{
    if params_of(past, session).is_none() {
        Ok(Reply::NoParams)
    } else if id == 0 {
        Ok(Reply::ZeroId)
    } else {
        Ok(Reply::Announced(id.max(highest(alloc, past)?)))
    }
}

fn operate_reply(reason: Option<Reason>) -> Reply
    ensures { result ≡ history.operate_reply reason }
{
    match reason {
        None => Reply::RibDone,
        Some(reason) => Reply::RibFailed(reason),
    }
}

#[tactic(auto, unfolding(table_model::specs::Reply::reply_operate))]
pub(crate) fn reply_operate(
    alloc: Global,
    config: Config,
    past: &[Event],
    session: u64,
    operation: &Operation,
) -> Result<Reply, AllocError>
    ensures { IfOk result (λ reply. reply ≡ history.reply_operate config past.now session operation.now) }
{
    if params_of(past, session).is_none() {
        Ok(Reply::NoParams)
    } else {
        Ok(operate_reply(verdict(alloc, config, past, session, operation)?))
    }
}
