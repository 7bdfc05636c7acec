//! Operations: why one isn't done, or what is done for it.
ghost use Rattle.std.specs.Prelude.{◌≡◌, ◌≢◌, ◌+◌, ◌<◌, ◌≤◌, ◌^◌, true, Some, None, OnOk, OnErr, option_map};
ghost use Rattle.aft_entries.specs.Shapes.{fits};
ghost use Rattle.table_model.specs.Election as election;
ghost use Rattle.table_model.specs.Legal.{is_well_formed, is_well_formed_ask};
ghost use Rattle.table_model.specs.Rib as rib;
ghost use Rattle.table_model.specs.Sessions as session_params;
ghost use Rattle.rib_core.specs.Core.{without_spare};
ghost use Rattle.rib_core.specs.Decisions.{refuse_in, refuse_running_in, verdict_in, Accepts};
ghost use Rattle.rib_core.specs.Decisions as decisions;
ghost use Rattle.rib_core.specs.Ends.{end_reply};
ghost use Rattle.rib_core.specs.Stands.{Acts};

use crate::machine::{OperateEnd, RibCore};
use crate::tables::Origin;
use aft_entries::{Ask, Entry, Reason};
use rib_ops::judge;
use std::alloc::AllocError;
use table_model::{AckType, Command, Operation, Params, Reply};

impl RibCore {
    /// Answers an operation as `act` does, without the room that other replies take.
    pub fn operate(&mut self, session: u64, operation: Operation, now: i64) -> OperateEnd
        requires { self.old.count < 2 ^ 62 }
        ensures stands { Acts self.old (Command.Operate session operation now) (end_reply result) self.new }
        ensures config { self.new.config ≡ self.old.config }
        ensures refused { result ≡ OperateEnd.NoMemory → without_spare self.new ≡ without_spare self.old }
        ensures count { self.new.count ≤ self.old.count + 1 }
    {
        let _ = now;
        well_formed_ask_by_type(&operation.ask);
        match self.refuse(session, &operation) {
            Some(end) => {
                discard(operation);
                self.tables.advance();
                end
            }
            None => match self.accept(session, operation) {
                Ok(()) => OperateEnd::Done,
                Err(_) => OperateEnd::NoMemory,
            },
        }
    }

    // How an operation ends that isn't done.
    fn refuse(&self, session: u64, operation: &Operation) -> Option<OperateEnd>
        ensures reply { option_map end_reply result ≡ refuse_in self.now session operation.now }
        ensures never { result ≢ Some OperateEnd.NoMemory }
    {
        if self.halted {
            Some(OperateEnd::Stopped)
        } else {
            self.refuse_running(session, operation)
        }
    }

    // The same where no Halt stands.
    fn refuse_running(&self, session: u64, operation: &Operation) -> Option<OperateEnd>
        ensures reply { option_map end_reply result ≡ refuse_running_in self.now session operation.now }
        ensures never { result ≢ Some OperateEnd.NoMemory }
    {
        match self.sessions.session_record(session) {
            None => Some(OperateEnd::Gone),
            Some(session_record) => {
                if session_record.params.is_none() {
                    return Some(OperateEnd::NoParams);
                }
                failed(self.verdict(session, operation))
            }
        }
    }

    // Does the operation, where there is memory.
    fn accept(&mut self, session: u64, operation: Operation) -> Result<(), AllocError>
        requires { self.old.count < 2 ^ 62 }
        ensures ok { OnOk result (Accepts self.old session operation self.new) }
        ensures err { OnErr result (without_spare self.new ≡ without_spare self.old) }
        ensures count { self.new.count ≤ self.old.count + 1 }
    {
        let Operation {
            id,
            election: _,
            ask,
        } = operation;
        let wants = wants_results(self.sessions.params_of(session));
        self.tables.perform(Origin { session, id, wants }, ask)
    }

    // Why the operation fails, if it does.
    fn verdict(&self, session: u64, operation: &Operation) -> Option<Reason>
        ensures { result ≡ verdict_in self.now session operation.now }
    {
        if !is_it(self.election.primary(), session) {
            return Some(Reason::NotPrimary);
        }
        if !is_same_id(operation.election, self.election.highest()) {
            return Some(Reason::ElectionIdDiffers);
        }
        judge(
            self.tables.table(),
            self.config.instances,
            self.config.limit,
            &operation.ask,
        )
    }
}

// Whether a session with these parameters wants results of the forwarding table.
fn wants_results(params: Option<Params>) -> bool
    ensures { result ≡ session_params.wants_results params }
{
    match params {
        None => false,
        Some(params) => params.ack == AckType::RibAndFib,
    }
}

/// An entry that is put has a payload of its key's kind. This and the next three read what the entry's type keeps, for
/// the proof.
pub(crate) fn well_formed_by_type(command: &Command)
    ensures { is_well_formed command.now ≡ true }
{
    match command {
        Command::Operate(_, operation, _) => well_formed_operation(operation),
        Command::Begin => {}
        Command::SetParams(_, _) => {}
        Command::Announce(_, _) => {}
        Command::Collect(_) => {}
        Command::Leave(_) => {}
        Command::Flush(_, _, _) => {}
        Command::Select(_, _) => {}
        Command::Take(_, _) => {}
        Command::Report(_, _, _) => {}
        Command::Halt => {}
    }
}

fn well_formed_operation(operation: &Operation)
    ensures { is_well_formed_ask operation.now.ask ≡ true }
{
    well_formed_ask_by_type(&operation.ask);
}

fn well_formed_ask_by_type(ask: &Ask)
    ensures { is_well_formed_ask ask.now ≡ true }
{
    match ask {
        Ask::Put(entry, _) => payload_fits_by_type(entry),
        Ask::Remove(_) => {}
        Ask::Bad(_) => {}
    }
}

fn payload_fits_by_type(entry: &Entry)
    ensures { fits entry.now.key.name entry.now.payload ≡ true }
{
    let _key = entry.key;
}

/// The reply that tells how an operation ended.
pub(crate) fn reply_to_operate(end: OperateEnd) -> Reply
    ensures { result ≡ end_reply end }
{
    match end {
        OperateEnd::Stopped => Reply::Stopped,
        OperateEnd::Gone => Reply::Gone,
        OperateEnd::NoParams => Reply::NoParams,
        OperateEnd::Failed(reason) => Reply::RibFailed(reason),
        OperateEnd::Done => Reply::RibDone,
        OperateEnd::NoMemory => Reply::NoMemory,
    }
}

pub(crate) fn is_it(holder: Option<u64>, session: u64) -> bool
    ensures { result ≡ election.is_it holder session }
{
    match holder {
        None => false,
        Some(other) => other == session,
    }
}

fn is_same_id(given: Option<u128>, highest: u128) -> bool
    ensures { result ≡ rib.is_same_id given highest }
{
    match given {
        None => false,
        Some(id) => id == highest,
    }
}

fn failed(reason: Option<Reason>) -> Option<OperateEnd>
    ensures reply { option_map end_reply result ≡ decisions.failed reason }
    ensures never { result ≢ Some OperateEnd.NoMemory }
{
    match reason {
        Some(reason) => Some(OperateEnd::Failed(reason)),
        None => None,
    }
}

// Lets an operation go.
fn discard(operation: Operation) {
    let _ = operation;
}
