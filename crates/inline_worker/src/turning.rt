//! One turn of the worker.
ghost use Rattle.std.specs.Prelude.{◌≡◌, ◌+◌, ◌≤◌, ◌^◌, ◌∷◌, List, length};
ghost use Rattle.table_model.specs.declared.command.Command.TheVariants.{Take, Report};
ghost use Rattle.table_model.specs.declared.command.Config.{Config};
ghost use Rattle.table_model.specs.declared.job.Verdict.{Verdict};
ghost use Rattle.table_model.specs.declared.reply.Reply.TheVariants.{Given};
ghost use Rattle.table_model.specs.Event.{Event};
ghost use Rattle.table_model.specs.Reply.{reply_to};
ghost use Rattle.inline_worker.specs.CoreAt.{CoreAt};
ghost use Rattle.inline_worker.specs.Turns.{next_event, turn_events, reports, asks_again};
ghost use Rattle.inline_worker.specs.Works.{Asks, WorksOn, asked_of, device_told};

use crate::ask::Asked;
use aft_entries::Device;
use fib_worker::{do_job, job_keeps_shard, takes_keep_shard};
use rib_core::RibCore;
use table_model::{Command, Job, JobNumber, Reply, Verdict};

fn asked(reply: Reply) -> Asked
    ensures { result ≡ asked_of reply }
{
    match reply {
        Reply::Given(job) => Asked::Work(job),
        Reply::Skipped(_) => Asked::Passed,
        _ => Asked::Nothing,
    }
}

// The worker asks for a job.
fn ask(core: &mut RibCore, now: i64) -> Asked
    requires few { core.old.count ≤ 2 ^ 61 }
    ensures asks { (config : Config) (past : List Event) → CoreAt config core.old past → Asks config now past result core.new }
    ensures count { core.new.count ≤ core.old.count + 1 }
{
    asked(core.act(Command::Take(0, now)))
}

// Lets a reply go.
fn discard(reply: Reply) {
    let _ = reply;
}

// The job is reported.
fn report(core: &mut RibCore, number: JobNumber, verdict: Verdict, now: i64)
    requires few { core.old.count ≤ 2 ^ 61 + 1 }
    ensures stood { (config : Config) (past : List Event) → CoreAt config core.old past
        → CoreAt config core.new (next_event config past (Report number verdict now) ∷ past) }
    ensures count { core.new.count ≤ core.old.count + 1 }
{
    discard(core.act(Command::Report(number, verdict, now)));
}

// The device does the job that the worker was given, and it is reported.
fn work<D: Device>(core: &mut RibCore, device: &mut D, job: Job, now: i64)
    requires few { core.old.count ≤ 2 ^ 61 + 1 }
    ensures works { (config : Config) (past : List Event) (said : List Verdict) → config.workers ≡ 1
        → CoreAt config core.old (next_event config past (Take 0 now) ∷ past) → reply_to config past (Take 0 now) ≡ Given job → length said ≡ reports past
        → WorksOn config (λ heard. turn_events config heard now past) past said core.new (device_told D.faults D.contents device.old device.new) }
    ensures count { core.new.count ≤ core.old.count + 1 }
{
    job_keeps_shard();
    let verdict = do_job(device, &job);
    report(core, job.number, verdict, now);
}

/// The worker takes a job, and has the device do it. Answers whether it is to ask again.
pub fn turn<D: Device>(core: &mut RibCore, device: &mut D, now: i64) -> bool
    requires few { core.old.count ≤ 2 ^ 61 }
    ensures works { (config : Config) (past : List Event) (said : List Verdict) → config.workers ≡ 1
        → CoreAt config core.old past → length said ≡ reports past
        → WorksOn config (λ heard. turn_events config heard now past) past said core.new (device_told D.faults D.contents device.old device.new) }
    ensures again { (config : Config) (past : List Event) → CoreAt config core.old past → result ≡ asks_again (reply_to config past (Take 0 now)) }
    ensures count { core.new.count ≤ core.old.count + 2 }
{
    takes_keep_shard();
    match ask(core, now) {
        Asked::Work(job) => {
            work(core, device, job, now);
            true
        }
        Asked::Passed => true,
        Asked::Nothing => false,
    }
}
