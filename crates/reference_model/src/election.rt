//! The election of a single primary.
ghost use Rattle.std.specs.Prelude.{◌≡◌, [], ◌∷◌, IfOk, nat_le, option_map};
ghost use Rattle.std.specs.List.{cons_option, list_all};
ghost use Rattle.table_model.specs.Election as history;

use crate::event::{Event, is_announced};
use crate::sessions::is_live;
use std::alloc::{AllocError, Global};
use std::collections::LinkedList;
use std::marker::Model;
use table_model::Command;

// An announcement that was accepted.
#[derive(Clone, Copy)]
struct Announcement {
    session: u64,
    id: u128,
}

impl Model for Announcement {
    ghost use Rattle.table_model.specs.Election as history;

    ghost Value = { history.Announcement };

    ghost view = { λ a. record { session = a.session; id = a.id } };

    ghost inverse = { λ a. record { session = a.session; id = a.id } };
}

// The last announcement that was at least every earlier one, and those after it.
#[derive(Drop)]
struct Latest {
    top: Announcement,
    later: LinkedList<Announcement>,
}

impl Model for Latest {
    ghost use Rattle.table_model.specs.Election as history;

    ghost Value = { history.Latest };

    ghost view = { λ l. record { top = l.top; later = l.later } };
}

fn announcement_of(command: &Command) -> Option<Announcement>
    ensures { result ≡ history.announcement command.now }
{
    match command {
        Command::Announce(session, id) => Some(Announcement {
            session: *session,
            id: *id,
        }),
        _ => None,
    }
}

fn announced(e: &Event) -> Option<Announcement>
    ensures { result ≡ history.announced e.now }
{
    if is_announced(&e.reply) {
        announcement_of(&e.command)
    } else {
        None
    }
}

// The newest first.
#[tactic(auto, using(crate::proofs::Elections::one_more), unfolding(table_model::specs::Election::announcements))]
fn announcements(alloc: Global, past: &[Event]) -> Result<Vec<Announcement>, AllocError>
    ensures { IfOk result (λ made. made.items ≡ history.announcements past.now) }
{
    match past {
        [] => Ok(Vec::new(alloc)),
        [e, past @ ..] => with_first(announced(e), announcements(alloc, past)?),
    }
}

fn with_first(
    first: Option<Announcement>,
    mut made: Vec<Announcement>,
) -> Result<Vec<Announcement>, AllocError>
    ensures { IfOk result (λ all. all.items ≡ cons_option first made.items) }
{
    if let Some(first) = first {
        made.insert(0, first)?;
    }
    Ok(made)
}

fn top_id(made: &[Announcement]) -> u128
    ensures { result ≡ history.top_id made.now }
{
    match made {
        [] => 0,
        [a, earlier @ ..] => a.id.max(top_id(earlier)),
    }
}

/// The greatest accepted id, or 0.
pub(crate) fn highest(alloc: Global, past: &[Event]) -> Result<u128, AllocError>
    ensures { IfOk result (λ id. id ≡ history.highest past.now) }
{
    let made = announcements(alloc, past)?;
    Ok(top_id(&made))
}

fn latest_top(alloc: Global, made: &[Announcement]) -> Result<Option<Latest>, AllocError>
    ensures { IfOk result (λ latest. latest ≡ history.latest_top made.now) }
{
    match made {
        [] => Ok(None),
        [a, earlier @ ..] => {
            let latest = latest_top(alloc, earlier)?;
            latest_with(alloc, a, earlier, latest)
        }
    }
}

// With one more announcement.
fn latest_with(
    alloc: Global,
    a: &Announcement,
    earlier: &[Announcement],
    latest: Option<Latest>,
) -> Result<Option<Latest>, AllocError>
    requires { latest ≡ history.latest_top earlier.now }
    ensures { IfOk result (λ longer. longer ≡ history.latest_top (a.now ∷ earlier.now)) }
{
    if is_top(a, earlier) {
        Ok(Some(only(alloc, *a)))
    } else {
        before(*a, latest)
    }
}

fn only(alloc: Global, a: Announcement) -> Latest
    ensures { result ≡ record { top = a; later = [] } }
{
    Latest {
        top: a,
        later: LinkedList::new(alloc),
    }
}

fn is_top(a: &Announcement, earlier: &[Announcement]) -> bool
    ensures { result ≡ list_all (λ b. nat_le b.id a.now.id) earlier.now }
{
    match earlier {
        [] => true,
        [b, rest @ ..] => b.id <= a.id && is_top(a, rest),
    }
}

// One more announcement, which isn't the top.
fn before(a: Announcement, latest: Option<Latest>) -> Result<Option<Latest>, AllocError>
    ensures { IfOk result (λ longer. longer ≡ option_map (λ latest. record { top = latest.top; later = a ∷ latest.later }) latest) }
{
    match latest {
        None => Ok(None),
        Some(latest) => {
            let Latest { top, mut later } = latest;
            later.push_front(a)?;
            Ok(Some(Latest { top, later }))
        }
    }
}

fn has_announced(session: u64, made: &LinkedList<Announcement>) -> bool
    ensures { result ≡ history.has_announced session made.now }
{
    made.iter().any(|a| a.session == session)
}

// The session of the top, if it has announced nothing since.
fn winner(alloc: Global, made: &[Announcement]) -> Result<Option<u64>, AllocError>
    ensures { IfOk result (λ session. session ≡ history.winner made.now) }
{
    match latest_top(alloc, made)? {
        None => Ok(None),
        Some(latest) => {
            if has_announced(latest.top.session, &latest.later) {
                Ok(None)
            } else {
                Ok(Some(latest.top.session))
            }
        }
    }
}

/// The winner, if it is live.
#[tactic(auto, unfolding(table_model::specs::Election::primary))]
pub(crate) fn primary(alloc: Global, past: &[Event]) -> Result<Option<u64>, AllocError>
    ensures { IfOk result (λ session. session ≡ history.primary past.now) }
{
    let made = announcements(alloc, past)?;
    match winner(alloc, &made)? {
        None => Ok(None),
        Some(session) => {
            if is_live(alloc, past, session)? {
                Ok(Some(session))
            } else {
                Ok(None)
            }
        }
    }
}

fn is_it(holder: Option<u64>, session: u64) -> bool
    ensures { result ≡ history.is_it holder session }
{
    match holder {
        None => false,
        Some(other) => other == session,
    }
}

pub(crate) fn is_primary(alloc: Global, past: &[Event], session: u64) -> Result<bool, AllocError>
    ensures { IfOk result (λ it. it ≡ history.is_primary past.now session) }
{
    Ok(is_it(primary(alloc, past)?, session))
}
