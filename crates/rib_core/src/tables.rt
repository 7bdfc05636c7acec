//! The table of entries, the board of their jobs, and the memory that removals will need.
ghost use Rattle.std.specs.Prelude.{◌≡◌, ◌+◌, ◌<◌, ◌≤◌, ◌^◌, [], length, true, false, IfOk, OnOk, OnErr, MatchOption, ℕ, take, count_by};
ghost use Rattle.std.specs.List.{list_any};
ghost use Rattle.fib_board.specs.Follows.{AfterTake, AfterReport, AfterCollect};
ghost use Rattle.fib_board.specs.Steps.{given_for, is_out_as};
ghost use Rattle.table_model.specs.BoardState.{due_for};
ghost use Rattle.table_model.specs.Jobs as history;
ghost use Rattle.table_model.specs.Reply as answers;
ghost use Rattle.table_model.specs.Results.{is_awaited};
ghost use Rattle.table_model.specs.Table as spec;
ghost use Rattle.table_model.specs.declared.job.Work.TheVariants as work;
ghost use Rattle.rib_core.specs.Copies.{IsCopies};
ghost use Rattle.fib_board.specs.Removals as removal;
ghost use Rattle.rib_core.specs.Removals.{removal_cost_in};
ghost use Rattle.rib_core.specs.Tables.{IsSame, Performs, PerformsAsk, HasRoomFor, Leaves, Flushes};

use crate::copies::{
    Copies, copies_of, discard_entry, job_to_install, job_to_remove, removal_cost, removal_cost_in,
    removal_cost_of_box,
};
use crate::reserve::reserve_entry;
use aft_entries::{Ask, Entry, Key, Rows};
use aft_store::{Store, has};
use fib_board::{Board, Given};
use flush_get::{Marks, mark_flush, select};
use purge::{PurgeRoom, purge};
use std::alloc::{AllocError, Global};
use std::marker::Model;
use table_model::{Batch, JobNumber, KindAsk, Verdict, Which};

/// Whose job an operation makes.
#[derive(Clone, Copy, Debug, PartialEq, Eq)]
pub struct Origin {
    /// The session.
    pub session: u64,
    /// The operation's id.
    pub id: u64,
    /// Whether the session wants the result.
    pub wants: bool,
}

/// The table of entries and the board of their jobs. Memory for the removal of each entry is taken before it is put.
#[derive(Drop)]
pub struct Tables {
    alloc: Global,
    table: Store,
    board: Board,
    marks: Marks,
    room: PurgeRoom,
    // What the removals of all entries cost.
    owed: u64,
    // How many events there were: the position of the next, whose jobs bear it.
    events: u64,
}

impl Model for Tables {
    ghost use Rattle.rib_core.specs.Tables.{TablesState, IsProvided};

    ghost Value = { TablesState };

    ghost view = { λ t. record {
      table = t.table;
      board = t.board;
      count = t.events;
      owed = t.owed;
      marks = t.marks.room;
      room = t.room.room;
    } };

    ghost invariant = { λ t. IsProvided (record {
      table = t.table;
      board = t.board;
      count = t.events;
      owed = t.owed;
      marks = t.marks.room;
      room = t.room.room;
    }) };
}

impl Tables {
    /// No entries and no jobs, for so many workers.
    pub fn new(alloc: Global, workers: u32) -> Result<Tables, AllocError>
        requires { 1 ≤ workers }
        ensures table { IfOk result (λ t. t.table.entries ≡ []) }
        ensures workers { IfOk result (λ t. t.board.workers ≡ workers) }
        ensures undone { IfOk result (λ t. t.board.undone ≡ []) }
        ensures fib { IfOk result (λ t. t.board.fib ≡ []) }
        ensures due { IfOk result (λ t. (session : ℕ) → due_for t.board.due session ≡ []) }
        ensures count { IfOk result (λ t. t.count ≡ 0) }
    {
        let board = Board::new(alloc, workers)?;
        Ok(Tables {
            alloc,
            table: Store::new(alloc),
            board,
            marks: Marks::new(alloc),
            room: PurgeRoom::new(alloc),
            owed: 0,
            events: 0,
        })
    }

    /// The entries.
    pub fn table(&self) -> &Store
        ensures { result.now ≡ self.now.table }
    {
        &self.table
    }

    /// The forwarding table.
    pub fn fib(&self) -> &Store
        ensures { result.now.entries ≡ self.now.board.fib }
    {
        self.board.fib()
    }

    /// How many events there were.
    pub fn count(&self) -> u64
        ensures { result ≡ self.now.count }
    {
        self.events
    }

    /// One more event, which makes no job.
    pub fn advance(&mut self)
        requires { self.old.count < 2 ^ 62 }
        ensures table { self.new.table ≡ self.old.table }
        ensures board { self.new.board ≡ self.old.board }
        ensures count { self.new.count ≡ self.old.count + 1 }
    {
        self.events += 1;
    }

    /// Does an operation that isn't refused, and puts its job on the board. All memory that it needs is taken first.
    pub fn perform(&mut self, origin: Origin, ask: Ask) -> Result<(), AllocError>
        requires { self.old.count < 2 ^ 62 }
        ensures ok { OnOk result (PerformsAsk origin ask self.old self.new) }
        ensures err { OnErr result (IsSame self.old self.new) }
        ensures count { self.new.count ≤ self.old.count + 1 }
    {
        match ask {
            Ask::Put(entry, _) => self.put(origin, entry),
            Ask::Remove(key) => self.remove(origin, key),
            Ask::Bad(_) => Ok(()),
        }
    }

    fn put(&mut self, origin: Origin, entry: Entry) -> Result<(), AllocError>
        requires { self.old.count < 2 ^ 62 }
        ensures ok { OnOk result (Performs origin (work.Install entry) self.old self.new) }
        ensures err { OnErr result (IsSame self.old self.new) }
        ensures count { self.new.count ≤ self.old.count + 1 }
    {
        match self.room_for(&entry) {
            Err(refused) => {
                discard_entry(entry);
                Err(refused)
            }
            Ok(copies) => {
                self.put_reserved(origin, entry, copies);
                Ok(())
            }
        }
    }
    // Takes all memory that the entry will ever need.
    fn room_for(&mut self, entry: &Entry) -> Result<Copies, AllocError>
        ensures copies { IfOk result (λ copies. IsCopies entry.now (spec.has self.old.table.entries entry.now.key) copies) }
        ensures room { IfOk result (λ copies. HasRoomFor (removal.removal_cost entry.now) self.new) }
        ensures same { IsSame self.old self.new }
    {
        self.reserve(removal_cost(entry))?;
        let displaces = has(&self.table, &entry.key);
        copies_of(self.alloc, entry, displaces)
    }

    // Room for one more entry whose removal costs so much, and for the job that puts it.
    fn reserve(&mut self, cost: u64) -> Result<(), AllocError>
        requires { 1 ≤ cost }
        ensures ok { OnOk result (HasRoomFor cost self.new) }
        ensures same { IsSame self.old self.new }
    {
        let places = match with_twice(self.owed, cost) {
            None => return Err(AllocError),
            Some(places) => places,
        };
        reserve_entry(
            &mut self.table,
            &mut self.board,
            &mut self.marks,
            &mut self.room,
            places,
        )
    }

    // Puts the entry, for which there is room.
    fn put_reserved(&mut self, origin: Origin, entry: Entry, copies: Copies)
        requires count { self.old.count < 2 ^ 62 }
        requires copies { IsCopies entry (spec.has self.old.table.entries entry.key) copies }
        requires room { HasRoomFor (removal.removal_cost entry) self.old }
        ensures { Performs origin (work.Install entry) self.old self.new }
    {
        let cost = removal_cost(&entry);
        let displaced = self.table.put_reserved(entry);
        self.owed = self.owed + cost - removal_cost_in(&displaced);
        self.board
            .add_reserved(job_to_install(self.events, origin, copies, displaced));
        self.events += 1;
    }

    fn remove(&mut self, origin: Origin, key: Key) -> Result<(), AllocError>
        requires { self.old.count < 2 ^ 62 }
        ensures ok { OnOk result (Performs origin (work.Remove key) self.old self.new) }
        ensures err { OnErr result (IsSame self.old self.new) }
        ensures count { self.new.count ≤ self.old.count + 1 }
    {
        self.room_to_remove(&key)?;
        self.remove_reserved(origin, key);
        Ok(())
    }

    // The removal of a key that is there was paid for when its entry was put. Where it isn't, its job takes a place.
    fn room_to_remove(&mut self, key: &Key) -> Result<(), AllocError>
        ensures ok { OnOk result (self.new.owed + 1 ≤ self.new.board.spare + removal_cost_in (spec.lookup key.now self.new.table.entries)) }
        ensures same { IsSame self.old self.new }
    {
        if has(&self.table, key) {
            return Ok(());
        }
        match self.owed.checked_add(1) {
            None => Err(AllocError),
            Some(places) => self.board.reserve(places),
        }
    }

    fn remove_reserved(&mut self, origin: Origin, key: Key)
        requires count { self.old.count < 2 ^ 62 }
        requires room { self.old.owed + 1 ≤ self.old.board.spare + removal_cost_in (spec.lookup key self.old.table.entries) }
        ensures { Performs origin (work.Remove key) self.old self.new }
    {
        let displaced = self.table.remove_box(&key);
        self.owed -= removal_cost_of_box(&displaced);
        self.board
            .add_reserved(job_to_remove(self.events, origin, key, displaced));
        self.events += 1;
    }

    /// The worker's next job.
    pub fn take(&mut self, worker: u32, now: i64) -> Given
        requires { self.old.count < 2 ^ 62 }
        ensures given { result ≡ given_for self.old.board.fib (history.next_task self.old.board.workers self.old.board.undone worker) }
        ensures table { self.new.table ≡ self.old.table }
        ensures board { AfterTake worker now self.old.board self.new.board }
        ensures count { self.new.count ≡ self.old.count + 1 }
    {
        let given = self.board.take(worker, now);
        self.events += 1;
        given
    }

    /// A worker's device did the job with this number, or failed to. False where no such job is out.
    pub fn report(&mut self, job: JobNumber, verdict: Verdict, now: i64) -> bool
        requires { self.old.count < 2 ^ 62 }
        ensures was_out { result ≡ list_any (is_out_as job) self.old.board.undone }
        ensures table { self.new.table ≡ self.old.table }
        ensures board { AfterReport job verdict now self.old.board self.new.board }
        ensures count { self.new.count ≡ self.old.count + 1 }
    {
        let was_out = self.board.report(job, verdict, now);
        self.events += 1;
        was_out
    }

    /// The first 256 results that are due to the session.
    pub fn collect(&mut self, session: u64) -> Batch
        requires { self.old.count < 2 ^ 62 }
        ensures batch { result ≡ take 256 (due_for self.old.board.due session) }
        ensures table { self.new.table ≡ self.old.table }
        ensures board { AfterCollect session self.old.board self.new.board }
        ensures count { self.new.count ≡ self.old.count + 1 }
    {
        let batch = self.board.collect(session);
        self.events += 1;
        batch
    }

    /// How many results the session still waits for, or hasn't collected.
    pub fn outstanding(&self, session: u64) -> u64
        ensures { result ≡ count_by (is_awaited session) self.now.board.undone + length (due_for self.now.board.due session) }
    {
        self.board.outstanding(session)
    }

    /// The entries of these instances and kinds, each with whether the forwarding table has it.
    pub fn select(&self, which: Which, kinds: KindAsk) -> Result<Rows, AllocError>
        ensures { IfOk result (λ rows. rows ≡ answers.selected self.now.table.entries self.now.board.fib which kinds) }
    {
        select(self.alloc, &self.table, self.board.fib(), which, kinds)
    }

    /// Whether no job of the worker is undone.
    pub fn is_clear(&self, worker: u32) -> bool
        ensures { result ≡ history.is_clear self.now.board.workers self.now.board.undone worker }
    {
        self.board.is_clear(worker)
    }

    /// A session left. Where the whole table goes with it, jobs wait that remove each entry.
    pub fn leave(&mut self, session: u64, purges: bool)
        requires { self.old.count < 2 ^ 62 }
        ensures left { Leaves purges session self.old self.new }
        ensures count { self.new.count ≡ self.old.count + 1 }
    {
        if purges {
            self.leave_with_all(session);
        } else {
            self.leave_alone(session);
        }
    }

    fn leave_alone(&mut self, session: u64)
        requires { self.old.count < 2 ^ 62 }
        ensures left { Leaves false session self.old self.new }
        ensures count { self.new.count ≡ self.old.count + 1 }
    {
        self.board.forget(session);
        self.events += 1;
    }

    fn leave_with_all(&mut self, session: u64)
        requires { self.old.count < 2 ^ 62 }
        ensures left { Leaves true session self.old self.new }
        ensures count { self.new.count ≡ self.old.count + 1 }
    {
        self.board.forget(session);
        purge(
            &mut self.table,
            &mut self.board,
            &mut self.room,
            &[],
            self.events,
        );
        self.owed = 0;
        self.events += 1;
    }

    /// The entries go that a Flush of these instances takes away, and jobs wait that remove each. It answers whether an
    /// entry of a named instance stays.
    pub fn flush(&mut self, which: Which) -> bool
        requires { self.old.count < 2 ^ 62 }
        ensures remain { result ≡ spec.remains self.old.table.entries which }
        ensures flushed { Flushes which self.old self.new }
    {
        let remain = mark_flush(&self.table, which, &mut self.marks);
        purge(
            &mut self.table,
            &mut self.board,
            &mut self.room,
            self.marks.as_slice(),
            self.events,
        );
        self.owed = removal_costs(&self.table);
        self.events += 1;
        remain
    }
}

// What the removals of all entries cost.
fn removal_costs(table: &Store) -> u64
    requires { removal.removal_costs table.now.entries < 2 ^ 64 }
    ensures { result ≡ removal.removal_costs table.now.entries }
{
    let mut total = 0;
    'entries: for n in 0..table.len() {
        total += removal_cost(table.at(n));
    }
    total
}

// The second number twice more than the first, where that is a number of 64 bits.
fn with_twice(first: u64, second: u64) -> Option<u64>
    ensures { MatchOption result Unit (λ sum. (sum ≡ first + second + second) × (sum < 2 ^ 64)) }
{
    match first.checked_add(second) {
        None => None,
        Some(sum) => sum.checked_add(second),
    }
}
