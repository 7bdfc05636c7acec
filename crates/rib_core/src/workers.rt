//! What workers ask and say, what sessions collect of it, and the end of all.
ghost use Rattle.std.specs.Prelude.{◌≡◌, ◌≢◌, ◌+◌, ◌<◌, ◌≤◌, ◌^◌, false};
ghost use Rattle.rib_core.specs.Decisions.{idle_in, reply_by_given, report_in};
ghost use Rattle.rib_core.specs.Stands.{Acts};

use crate::machine::RibCore;
use fib_board::Given;
use table_laws::board_answers_as_history;
use table_model::{Command, JobNumber, Reply, Verdict};

impl RibCore {
    pub(crate) fn take(&mut self, worker: u32, now: i64) -> Reply
        requires room { self.old.count < 2 ^ 62 }
        ensures stands { Acts self.old (Command.Take worker now) result self.new }
        ensures config { self.new.config ≡ self.old.config }
        ensures never { result ≢ Reply.NoMemory }
        ensures count { self.new.count ≤ self.old.count + 1 }
    {
        board_answers_as_history();
        let given = self.tables.take(worker, now);
        self.reply_to_given(worker, given)
    }

    // The answer to a worker, by what the board gave it.
    fn reply_to_given(&self, worker: u32, given: Given) -> Reply
        ensures reply { result ≡ reply_by_given self.now worker given }
        ensures never { result ≢ Reply.NoMemory }
    {
        match given {
            Given::Work(job) => Reply::Given(job),
            Given::Skipped(number) => Reply::Skipped(number),
            Given::Idle => self.idle(worker),
        }
    }

    // The answer to a worker that has no job that it may do now.
    fn idle(&self, worker: u32) -> Reply
        ensures reply { result ≡ idle_in self.now worker }
        ensures never { result ≢ Reply.NoMemory }
    {
        if self.halted && self.tables.is_clear(worker) {
            Reply::HaltSeen
        } else {
            Reply::Idle
        }
    }

    pub(crate) fn report(&mut self, job: JobNumber, verdict: Verdict, now: i64) -> Reply
        requires room { self.old.count < 2 ^ 62 }
        ensures stands { Acts self.old (Command.Report job verdict now) result self.new }
        ensures config { self.new.config ≡ self.old.config }
        ensures never { result ≢ Reply.NoMemory }
        ensures count { self.new.count ≤ self.old.count + 1 }
    {
        board_answers_as_history();
        reply_to_report(self.tables.report(job, verdict, now))
    }

    pub(crate) fn collect(&mut self, session: u64) -> Reply
        requires room { self.old.count < 2 ^ 62 }
        requires running { self.old.halted ≡ false }
        ensures stands { Acts self.old (Command.Collect session) result self.new }
        ensures config { self.new.config ≡ self.old.config }
        ensures never { result ≢ Reply.NoMemory }
        ensures count { self.new.count ≤ self.old.count + 1 }
    {
        if !self.sessions.is_entered(session) {
            self.tables.advance();
            return Reply::Gone;
        }
        board_answers_as_history();
        let batch = self.tables.collect(session);
        let left = self.tables.outstanding(session);
        Reply::Collected(batch, left)
    }

    pub(crate) fn halt(&mut self) -> Reply
        requires room { self.old.count < 2 ^ 62 }
        ensures stands { Acts self.old Command.Halt result self.new }
        ensures config { self.new.config ≡ self.old.config }
        ensures never { result ≢ Reply.NoMemory }
        ensures count { self.new.count ≤ self.old.count + 1 }
    {
        self.tables.advance();
        self.halted = true;
        Reply::HaltDone
    }
}

fn reply_to_report(was_out: bool) -> Reply
    ensures reply { result ≡ report_in was_out }
    ensures never { result ≢ Reply.NoMemory }
{
    if was_out {
        Reply::Reported
    } else {
        Reply::NotOut
    }
}
