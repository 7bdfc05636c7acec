//! The sessions that are live, and the parameters of each (gRIBI, SessionParameters).
//!
//! A session sets its parameters once. All live sessions that have set theirs have the same ones. Begin with
//! `ParamBook::new`, and `enter` each session before it sets any. The contract is `specs/Book`: what a book stands for.
//!
//! ```ignore
//! let mut book = ParamBook::new(alloc);
//! book.enter(0)?;
//! let end = book.set(0, asked); // `SetEnd::Set`, where `asked` is supported: no other session differs.
//! ```
#![tactic(auto)]

ghost use Rattle.std.specs.Prelude.{◌≡◌, true, ◌++◌, ◌∷◌, [], List, length, not, filter, find, OnOk, OnErr, IsTrue, Some, None, if◌then◌else◌};
ghost use Rattle.table_model.specs.Event.{Event};
ghost use Rattle.table_model.specs.Reply.{reply_params};
ghost use Rattle.table_model.specs.Sessions as history;
ghost use Rattle.session_params.specs.Book.{StandsFor, session_record_of, set_reply, began, asked_for, left};
ghost use Rattle.session_params.specs.Rows.{is_of, is_entered, params_in, differing_in, session_record_with, with_params};
ghost use Rattle.session_params.specs.Ends.{set_end, session_records_after};

use std::alloc::{AllocError, Global};
use std::marker::Model;
pub use table_model::{AckType, AskedParams, Params, Persistence, Redundancy};

/// How a request for parameters ended. Nothing changed unless they were set.
#[derive(Clone, Copy, Debug, PartialEq, Eq)]
pub enum SetEnd {
    /// They are accepted.
    Set,
    /// They aren't those of a single primary, or have a number that isn't in the numbering.
    Unsupported,
    /// The session has set its parameters before.
    NotAllowed,
    /// The parameters of another session, which are others.
    Differs(Params),
}

/// A session, and the parameters that were accepted of it, if any.
#[derive(Clone, Copy, Debug, PartialEq, Eq)]
pub struct SessionRecord {
    /// The position of its `Begin`.
    pub session: u64,
    /// None until the session has set them.
    pub params: Option<Params>,
}

/// The live sessions, in the order in which they began.
#[derive(Drop)]
pub struct ParamBook {
    session_records: Vec<SessionRecord>,
}

impl Model for ParamBook {
    ghost use Rattle.std.specs.Prelude.{List};
    ghost use Rattle.session_params.specs.declared.SessionRecord.{SessionRecord};

    ghost Value = { List SessionRecord };

    ghost view = { λ b. b.session_records.items };
}

impl ParamBook {
    /// No sessions.
    pub fn new(alloc: Global) -> ParamBook
        ensures empty { result ≡ [] }
        ensures stands { StandsFor result [] }
    {
        ParamBook {
            session_records: Vec::new(alloc),
        }
    }

    /// Adds a session, without parameters. It isn't there yet. This alone takes memory.
    pub fn enter(&mut self, session: u64) -> Result<(), AllocError>
        ensures ok { OnOk result (self.new ≡ self.old ++ record { session = session; params = None } ∷ []) }
        ensures err { OnErr result (self.new ≡ self.old) }
        ensures stands { OnOk result ((past : List Event) → StandsFor self.old past → session ≡ length past
            → history.params_of past session ≡ None → StandsFor self.new (began session ∷ past)) }
    {
        self.session_records.push(SessionRecord {
            session,
            params: None,
        })?;
        Ok(())
    }

    /// Whether the session was entered, and hasn't left since.
    pub fn is_entered(&self, session: u64) -> bool
        ensures found { result ≡ is_entered session self.now }
        ensures stands { (past : List Event) → StandsFor self.now past → result ≡ history.is_live past session }
    {
        is_in(&self.session_records, session)
    }

    /// The parameters that were accepted of the session, if any.
    pub fn params_of(&self, session: u64) -> Option<Params>
        ensures found { result ≡ params_in session self.now }
        ensures stands { (past : List Event) → StandsFor self.now past → history.is_live past session ≡ true → result ≡ history.params_of past session }
    {
        params_among(&self.session_records, session)
    }

    /// The session with its parameters, if it was entered and hasn't left since.
    pub fn session_record(&self, session: u64) -> Option<SessionRecord>
        ensures found { result ≡ find (is_of session) self.now }
        ensures stands { (past : List Event) → StandsFor self.now past
            → result ≡ (if history.is_live past session then Some (session_record_of past session) else None) }
    {
        session_record_of(&self.session_records, session)
    }

    /// A session asks for parameters, which it may do once, and which must be those of the others.
    pub fn set(&mut self, session: u64, asked: AskedParams) -> SetEnd
        requires { IsTrue (is_entered session self.old) }
        ensures end { result ≡ set_end self.old session (history.supported asked) }
        ensures session_records { self.new ≡ session_records_after result self.old session (history.supported asked) }
        ensures stands { (past : List Event) → StandsFor self.old past
            → (set_reply result ≡ reply_params past session asked) × StandsFor self.new (asked_for session asked result ∷ past) }
    {
        set_among(&mut self.session_records, session, asked)
    }

    /// Removes a session, and its parameters with it.
    pub fn leave(&mut self, session: u64)
        ensures rest { self.new ≡ filter (λ session_record. not (is_of session session_record)) self.old }
        ensures stands { (past : List Event) → StandsFor self.old past → StandsFor self.new (left session ∷ past) }
    {
        remove(&mut self.session_records, session);
    }
}

// Sets the parameters of a session that is there, unless they are refused.
fn set_among(session_records: &mut Vec<SessionRecord>, session: u64, asked: AskedParams) -> SetEnd
    ensures end { result ≡ set_end session_records.old.items session (history.supported asked) }
    ensures session_records { session_records.new.items ≡ session_records_after result session_records.old.items session (history.supported asked) }
{
    let Some(params) = supported(asked) else {
        return SetEnd::Unsupported;
    };
    if params_among(session_records, session).is_some() {
        return SetEnd::NotAllowed;
    }
    if let Some(other) = differing(session_records, session, params) {
        return SetEnd::Differs(other);
    }
    write(session_records, session, params);
    SetEnd::Set
}

// What is asked for, where it is supported.
#[tactic(auto, unfolding(table_model::specs::Sessions::supported))]
fn supported(asked: AskedParams) -> Option<Params>
    ensures { result ≡ history.supported asked }
{
    match asked.redundancy {
        Some(Redundancy::SinglePrimary) => both(asked.persistence, asked.ack),
        Some(Redundancy::AllPrimary) => None,
        None => None,
    }
}

fn both(persistence: Option<Persistence>, ack: Option<AckType>) -> Option<Params>
    ensures { result ≡ history.both persistence ack }
{
    match persistence {
        Some(persistence) => match ack {
            Some(ack) => Some(Params { persistence, ack }),
            None => None,
        },
        None => None,
    }
}

fn same(a: Params, b: Params) -> bool
    ensures { result ≡ history.same_params a b }
{
    same_persistence(a.persistence, b.persistence) && same_ack(a.ack, b.ack)
}

fn same_persistence(a: Persistence, b: Persistence) -> bool
    ensures { result ≡ history.same_persistence a b }
{
    match (a, b) {
        (Persistence::Delete, Persistence::Delete) => true,
        (Persistence::Preserve, Persistence::Preserve) => true,
        (Persistence::Delete, Persistence::Preserve) => false,
        (Persistence::Preserve, Persistence::Delete) => false,
    }
}

fn same_ack(a: AckType, b: AckType) -> bool
    ensures { result ≡ history.same_ack a b }
{
    match (a, b) {
        (AckType::Rib, AckType::Rib) => true,
        (AckType::RibAndFib, AckType::RibAndFib) => true,
        (AckType::Rib, AckType::RibAndFib) => false,
        (AckType::RibAndFib, AckType::Rib) => false,
    }
}

fn is_in(session_records: &[SessionRecord], session: u64) -> bool
    ensures { result ≡ is_entered session session_records.now }
{
    session_records
        .iter()
        .any(|session_record| session_record.session == session)
}

fn params_among(session_records: &[SessionRecord], session: u64) -> Option<Params>
    ensures { result ≡ params_in session session_records.now }
{
    match session_record_of(session_records, session) {
        None => None,
        Some(session_record) => session_record.params,
    }
}

fn session_record_of(session_records: &[SessionRecord], session: u64) -> Option<SessionRecord>
    ensures { result ≡ find (is_of session) session_records.now }
{
    session_records
        .iter()
        .copied()
        .find(|session_record| session_record.session == session)
}

// The parameters of another session that differ from these.
fn differing(session_records: &[SessionRecord], session: u64, params: Params) -> Option<Params>
    ensures { result ≡ differing_in session params session_records.now }
{
    session_records
        .iter()
        .filter(|session_record| session_record.session != session)
        .filter_map(|session_record| session_record.params)
        .find(|other| !same(params, *other))
}

fn write(session_records: &mut Vec<SessionRecord>, session: u64, params: Params)
    ensures { session_records.new.items ≡ with_params session (Some params) session_records.old.items }
{
    for i in 0..session_records.len() {
        let session_record = session_records[i];
        session_records[i] = written(session_record, session, params);
    }
}

fn written(session_record: SessionRecord, session: u64, params: Params) -> SessionRecord
    ensures { result ≡ session_record_with session (Some params) session_record }
{
    if session_record.session == session {
        SessionRecord {
            session,
            params: Some(params),
        }
    } else {
        session_record
    }
}

fn remove(session_records: &mut Vec<SessionRecord>, session: u64)
    ensures { session_records.new.items ≡ filter (λ session_record. not (is_of session session_record)) session_records.old.items }
{
    session_records.retain(|session_record| session_record.session != session);
}
