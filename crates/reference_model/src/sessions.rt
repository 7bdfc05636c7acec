//! Sessions and their parameters.
ghost use Rattle.std.specs.Prelude.{◌≡◌, ◌==◌, IfOk, filter, not};
ghost use Rattle.std.specs.List.{list_any};
ghost use Rattle.std.specs.Option.{option_or};
ghost use Rattle.table_model.specs.Sessions as history;

use crate::event::{Event, is_began, is_left, is_params_set};
use std::alloc::{AllocError, Global};
use table_model::{AckType, AskedParams, Command, Params, Persistence, Redundancy};

// Whom a Leave ends.
fn leaving_session(command: &Command) -> Option<u64>
    ensures { result ≡ history.leaving_session command.now }
{
    match command {
        Command::Leave(session) => Some(*session),
        _ => None,
    }
}

fn without(session: Option<u64>, sessions: Vec<u64>) -> Vec<u64>
    ensures { result.items ≡ history.without session sessions.items }
{
    match session {
        None => sessions,
        Some(session) => others(session, sessions),
    }
}

fn others(session: u64, mut sessions: Vec<u64>) -> Vec<u64>
    ensures { result.items ≡ filter (λ other. not (other == session)) sessions.items }
{
    sessions.retain(|other| *other != session);
    sessions
}

/// The sessions that were begun and haven't left, the oldest first.
#[tactic(auto, unfolding(table_model::specs::Sessions::live))]
pub(crate) fn live(alloc: Global, past: &[Event]) -> Result<Vec<u64>, AllocError>
    ensures { IfOk result (λ sessions. sessions.items ≡ history.live past.now) }
{
    match past {
        [] => Ok(Vec::new(alloc)),
        [e, past @ ..] => {
            let mut sessions = live(alloc, past)?;
            if is_began(&e.reply) {
                sessions.push(past.len() as u64)?;
                Ok(sessions)
            } else if is_left(&e.reply) {
                Ok(without(leaving_session(&e.command), sessions))
            } else {
                Ok(sessions)
            }
        }
    }
}

pub(crate) fn is_live(alloc: Global, past: &[Event], session: u64) -> Result<bool, AllocError>
    ensures { IfOk result (λ there. there ≡ history.is_live past.now session) }
{
    let sessions = live(alloc, past)?;
    Ok(is_one_of(session, &sessions))
}

fn is_one_of(session: u64, sessions: &[u64]) -> bool
    ensures { result ≡ list_any (λ other. other == session) sessions.now }
{
    match sessions {
        [] => false,
        [first, rest @ ..] => *first == session || is_one_of(session, rest),
    }
}

fn both(persistence: Option<Persistence>, ack: Option<AckType>) -> Option<Params>
    ensures { result ≡ history.both persistence ack }
{
    match persistence {
        Some(persistence) => match ack {
            Some(ack) => Some(Params { persistence, ack }),
            None => None,
        },
        None => None,
    }
}

/// What is asked for, where it is supported.
#[tactic(auto, unfolding(table_model::specs::Sessions::supported))]
pub(crate) fn supported(asked: AskedParams) -> Option<Params>
    ensures { result ≡ history.supported asked }
{
    match asked.redundancy {
        Some(Redundancy::SinglePrimary) => both(asked.persistence, asked.ack),
        Some(Redundancy::AllPrimary) => None,
        None => None,
    }
}

// What a SetParams of the session asks for.
fn asked_by(session: u64, command: &Command) -> Option<Params>
    ensures { result ≡ history.asked_by session command.now }
{
    match command {
        Command::SetParams(asker, asked) => {
            if *asker == session {
                supported(*asked)
            } else {
                None
            }
        }
        _ => None,
    }
}

/// The parameters that were accepted of the session.
#[tactic(auto, unfolding(table_model::specs::Sessions::params_of))]
pub(crate) fn params_of(past: &[Event], session: u64) -> Option<Params>
    ensures { result ≡ history.params_of past.now session }
{
    match past {
        [] => None,
        [e, past @ ..] => {
            let here = if is_params_set(&e.reply) {
                asked_by(session, &e.command)
            } else {
                None
            };
            or_else(here, params_of(past, session))
        }
    }
}

fn or_else(here: Option<Params>, other: Option<Params>) -> Option<Params>
    ensures { result ≡ option_or here other }
{
    match here {
        Some(params) => Some(params),
        None => other,
    }
}

fn same_persistence(a: Persistence, b: Persistence) -> bool
    ensures { result ≡ history.same_persistence a b }
{
    match (a, b) {
        (Persistence::Delete, Persistence::Delete) => true,
        (Persistence::Preserve, Persistence::Preserve) => true,
        (Persistence::Delete, Persistence::Preserve) => false,
        (Persistence::Preserve, Persistence::Delete) => false,
    }
}

fn same_ack(a: AckType, b: AckType) -> bool
    ensures { result ≡ history.same_ack a b }
{
    match (a, b) {
        (AckType::Rib, AckType::Rib) => true,
        (AckType::RibAndFib, AckType::RibAndFib) => true,
        (AckType::Rib, AckType::RibAndFib) => false,
        (AckType::RibAndFib, AckType::Rib) => false,
    }
}

fn same_params(a: Params, b: Params) -> bool
    ensures { result ≡ history.same_params a b }
{
    same_persistence(a.persistence, b.persistence) && same_ack(a.ack, b.ack)
}

/// The parameters of another live session that differ from these.
pub(crate) fn differing(
    alloc: Global,
    past: &[Event],
    session: u64,
    params: Params,
) -> Result<Option<Params>, AllocError>
    ensures { IfOk result (λ other. other ≡ history.differing past.now session params) }
{
    let sessions = live(alloc, past)?;
    Ok(
        sessions
            .iter()
            .copied()
            .filter(|other| *other != session)
            .filter_map(|other| params_of(past, other))
            .find(|other| !same_params(params, *other)),
    )
}

/// Whether the whole table goes when the session ends as primary.
pub(crate) fn deletes(params: Option<Params>) -> bool
    ensures { result ≡ history.deletes params }
{
    match params {
        None => false,
        Some(params) => same_persistence(params.persistence, Persistence::Delete),
    }
}

/// Whether it wants results of the forwarding table.
pub(crate) fn wants_results(params: Option<Params>) -> bool
    ensures { result ≡ history.wants_results params }
{
    match params {
        None => false,
        Some(params) => same_ack(params.ack, AckType::RibAndFib),
    }
}
