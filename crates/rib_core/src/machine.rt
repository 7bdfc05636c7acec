//! The core: what it keeps, and its one call.
ghost use Rattle.std.specs.Prelude.{◌≡◌, ◌&&◌, ◌+◌, ◌<◌, ◌≤◌, ◌^◌, List, [], true, false, length, IfOk, IsTrue};
ghost use Rattle.table_model.specs.Event.{Event, events};
ghost use Rattle.table_model.specs.Jobs as jobs;
ghost use Rattle.table_model.specs.Legal.{takes_memory};
ghost use Rattle.table_model.specs.Reply as answers;
ghost use Rattle.table_model.specs.Rib as rib;
ghost use Rattle.table_model.specs.Sessions as sessions;
ghost use Rattle.rib_core.specs.Core.{without_spare};
ghost use Rattle.rib_core.specs.Stands.{StandsFor, Acts};
ghost use Rattle.rib_core.specs.Ranges.{is_in_range};
ghost use Rattle.session_params.specs.Rows.{is_entered};

use crate::operations::{reply_to_operate, well_formed_by_type};
use crate::tables::Tables;
use aft_entries::Reason;
use aft_store::Store;
use election::Election;
use session_params::ParamBook;
use std::alloc::{AllocError, Global};
use std::marker::Model;
use table_model::{Command, Config, Reply};

/// How an operation ended.
#[derive(Clone, Copy, Debug, PartialEq, Eq)]
pub enum OperateEnd {
    /// A Halt stands.
    Stopped,
    /// The session isn't live.
    Gone,
    /// The session has no accepted parameters.
    NoParams,
    /// Why the operation isn't done.
    Failed(Reason),
    /// The operation is done in the table.
    Done,
    /// Memory ran out, and nothing changed.
    NoMemory,
}

/// The table of a gRIBI server: its sessions, its election, its entries and the jobs that bring them into the forwarding
/// table, behind one call. It is seen by the histories of commands and replies that it may stand for.
#[derive(Drop)]
pub struct RibCore {
    pub(crate) config: Config,
    pub(crate) tables: Tables,
    pub(crate) election: Election,
    pub(crate) sessions: ParamBook,
    pub(crate) halted: bool,
}

impl Model for RibCore {
    ghost use Rattle.rib_core.specs.Core.{Core};

    ghost Value = { Core };

    ghost view = { λ c. record {
      config = c.config;
      table = c.tables.table;
      election_state = c.election;
      session_records = c.sessions;
      count = c.tables.count;
      board = c.tables.board;
      halted = c.halted;
    } };
}

impl RibCore {
    /// An empty table, before any event, for 1 to 16 workers, 1 to 256 network instances and a limit of 1 to
    /// 1,000,000 entries.
    pub fn new(alloc: Global, config: Config) -> Result<RibCore, AllocError>
        requires ranges { IsTrue (is_in_range config) }
        ensures config { IfOk result (λ core. core.config ≡ config) }
        ensures stands { IfOk result (λ core. StandsFor core []) }
        ensures count { IfOk result (λ core. core.count ≡ 0) }
    {
        let tables = Tables::new(alloc, config.workers)?;
        Ok(RibCore {
            config,
            tables,
            election: Election::new(),
            sessions: ParamBook::new(alloc),
            halted: false,
        })
    }

    /// How many entries the table has.
    pub fn entries(&self) -> u64
        ensures kept { result ≡ length self.now.table.entries }
        ensures stands { (recorded : List Event) → StandsFor self.now recorded → result ≡ length (rib.rib (events recorded)) }
    {
        self.tables.table().len()
    }

    /// How many entries the forwarding table has.
    pub fn installed(&self) -> u64
        ensures kept { result ≡ length self.now.board.fib }
        ensures stands { (recorded : List Event) → StandsFor self.now recorded → result ≡ length (jobs.fib (events recorded)) }
    {
        self.tables.fib().len()
    }

    /// The forwarding table: what the programmed jobs leave.
    pub fn fib(&self) -> &Store
        ensures kept { result.now.entries ≡ self.now.board.fib }
        ensures stands { (recorded : List Event) → StandsFor self.now recorded → result.now.entries ≡ jobs.fib (events recorded) }
    {
        self.tables.fib()
    }

    /// How many events there were: commands whose answer wasn't `NoMemory`.
    pub fn events(&self) -> u64
        ensures kept { result ≡ self.now.count }
        ensures stands { (recorded : List Event) → StandsFor self.now recorded → result ≡ length (events recorded) }
    {
        self.tables.count()
    }

    /// Whether a Halt stands.
    pub fn is_halted(&self) -> bool
        ensures kept { result ≡ self.now.halted }
        ensures stands { (recorded : List Event) → StandsFor self.now recorded → result ≡ answers.is_halted (events recorded) }
    {
        self.halted
    }

    /// Whether the session was begun and hasn't left.
    pub fn is_live(&self, session: u64) -> bool
        ensures kept { result ≡ is_entered session self.now.session_records }
        ensures stands { (recorded : List Event) → StandsFor self.now recorded → result ≡ sessions.is_live (events recorded) session }
    {
        self.sessions.is_entered(session)
    }

    /// Answers a command. Whatever history the core stood for, it then stands for that history with the command and
    /// its reply, so that the reply is the one-thread server's. `Begin`, `Operate` and `Select` alone may be answered
    /// `NoMemory`; then nothing changed, but that more places may be spare.
    pub fn act(&mut self, command: Command) -> Reply
        requires room { self.old.count < 2 ^ 62 }
        ensures stands { Acts self.old command result self.new }
        ensures config { self.new.config ≡ self.old.config }
        ensures refused { result ≡ Reply.NoMemory → without_spare self.new ≡ without_spare self.old }
        ensures alone { result ≡ Reply.NoMemory → takes_memory command ≡ true }
        ensures count { self.new.count ≤ self.old.count + 1 }
    {
        let stops = self.halted && is_stoppable(&command);
        if stops {
            return self.stop(command);
        }
        self.go(command)
    }

    // Answers a command that no Halt stops.
    fn go(&mut self, command: Command) -> Reply
        requires room { self.old.count < 2 ^ 62 }
        requires goes { (self.old.halted && answers.is_stoppable command) ≡ false }
        ensures stands { Acts self.old command result self.new }
        ensures config { self.new.config ≡ self.old.config }
        ensures refused { result ≡ Reply.NoMemory → without_spare self.new ≡ without_spare self.old }
        ensures alone { result ≡ Reply.NoMemory → takes_memory command ≡ true }
        ensures count { self.new.count ≤ self.old.count + 1 }
    {
        match command {
            Command::Begin => self.begin(),
            Command::SetParams(session, asked) => self.set_params(session, asked),
            Command::Announce(session, id) => self.announce(session, id),
            Command::Operate(session, operation, now) => {
                reply_to_operate(self.operate(session, operation, now))
            }
            Command::Collect(session) => self.collect(session),
            Command::Leave(session) => self.leave(session),
            Command::Flush(by, which, now) => self.flush(by, which, now),
            Command::Select(which, kinds) => self.select(which, kinds),
            Command::Take(worker, now) => self.take(worker, now),
            Command::Report(job, verdict, now) => self.report(job, verdict, now),
            Command::Halt => self.halt(),
        }
    }

    // A command that a Halt stops.
    fn stop(&mut self, command: Command) -> Reply
        requires room { self.old.count < 2 ^ 62 }
        requires stops { (self.old.halted && answers.is_stoppable command) ≡ true }
        ensures stands { Acts self.old command result self.new }
        ensures config { self.new.config ≡ self.old.config }
        ensures never { result ≡ Reply.Stopped }
        ensures count { self.new.count ≡ self.old.count + 1 }
    {
        well_formed_by_type(&command);
        discard(command);
        self.tables.advance();
        Reply::Stopped
    }
}

// The commands that a Halt stops.
fn is_stoppable(command: &Command) -> bool
    ensures { result ≡ answers.is_stoppable command.now }
{
    match command {
        Command::Begin => true,
        Command::SetParams(_, _) => true,
        Command::Announce(_, _) => true,
        Command::Operate(_, _, _) => true,
        Command::Collect(_) => true,
        Command::Leave(_) => false,
        Command::Flush(_, _, _) => true,
        Command::Select(_, _) => true,
        Command::Take(_, _) => false,
        Command::Report(_, _, _) => false,
        Command::Halt => false,
    }
}

fn discard(command: Command) {
    let _ = command;
}
