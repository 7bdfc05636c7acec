//! What the answers of a core are worth: acknowledgements of the table, and results of the forwarding table.
ghost use Rattle.std.specs.Prelude.{◌≡◌, ◌≢◌, ◌↔◌, ◌∷◌, ◌++◌, ℤ, ℕ, true, false, List, length, count_by, is_some, take, None, Some, map, IsPermutation};
ghost use Rattle.std.specs.List.{list_any};
ghost use Rattle.table_laws.specs.CollectedResults.{WasReported};
ghost use Rattle.table_laws.specs.DoneAnswers.{answer_in, done_answers};
ghost use Rattle.table_model.specs.declared.command.Command.TheVariants.{Collect, Operate, Report};
ghost use Rattle.table_model.specs.declared.command.Operation.{Operation};
ghost use Rattle.table_model.specs.declared.job.JobNumber.{JobNumber};
ghost use Rattle.table_model.specs.declared.job.Verdict.TheVariants.{Programmed};
ghost use Rattle.table_model.specs.declared.job.Work.{Work};
ghost use Rattle.table_model.specs.declared.reply.Reply.{Reply};
ghost use Rattle.table_model.specs.declared.reply.Reply.TheVariants.{Collected, NoMemory, Reported, RibDone};
ghost use Rattle.table_model.specs.declared.results.FibResult.{FibResult};
ghost use Rattle.table_model.specs.Event.{Event, events};
ghost use Rattle.table_model.specs.Jobs.{Task, task_at, tasks, tracked_tasks, work_of, work_key};
ghost use Rattle.table_model.specs.Laws.{collected_results, fib_by_reports, left_by};
ghost use Rattle.table_model.specs.Reply.{is_halted};
ghost use Rattle.table_model.specs.Results.{is_awaited, results, taken, wanted_by};
ghost use Rattle.table_model.specs.Rib.{verdict};
ghost use Rattle.table_model.specs.Sessions.{is_live, params_of};
ghost use Rattle.table_model.specs.Table.{lookup};
ghost use Rattle.rib_core.specs.Core.{Core};
ghost use Rattle.rib_core.specs.Stands.{StandsFor, with};

use table_laws::{
    all_are_answered, collected_was_reported, done_is_there, done_where_due, events_are_lawful,
    programmed_is_there, reports_give_fib, results_are_answered_once, results_are_of_done_jobs,
};

/// Where memory isn't wanting, an operation is acknowledged exactly where it is due: before any Halt, of a live session with
/// parameters, without a reason against it. Right after that the table has its entry, or no longer its key.
pub fn core_acknowledges_where_due()
    ensures due { (new : Core) (session : ℕ) (operation : Operation) (now : ℤ) (answer : Reply) (recorded : List Event)
        → StandsFor new (with (Operate session operation now) answer recorded) → answer ≢ NoMemory
        → (answer ≡ RibDone) ↔ ((is_halted (events recorded) ≡ false) × (is_live (events recorded) session ≡ true)
        × (is_some (params_of (events recorded) session) ≡ true) × (verdict new.config (events recorded) session operation ≡ None)) }
    ensures there { (new : Core) (session : ℕ) (operation : Operation) (now : ℤ) (work : Work) (recorded : List Event)
        → StandsFor new (with (Operate session operation now) RibDone recorded) → work_of operation.ask ≡ Some work
        → lookup (work_key work) new.table.entries ≡ left_by work }
{
    events_are_lawful();
    done_where_due();
    done_is_there();
}

/// The forwarding table is the one that reports leave in the order in which they come. Right after the report that a job is
/// programmed it has the job's entry, or no longer its key.
pub fn core_fib_follows_reports()
    ensures fib { (core : Core) (recorded : List Event) → StandsFor core recorded → core.board.fib ≡ fib_by_reports (events recorded) }
    ensures there { (new : Core) (number : JobNumber) (now : ℤ) (task : Task) (recorded : List Event)
        → StandsFor new (with (Report number Programmed now) Reported recorded) → task_at number (tasks (events recorded)) ≡ Some task
        → lookup (work_key task.job.work) new.board.fib ≡ left_by task.job.work }
{
    events_are_lawful();
    reports_give_fib();
    programmed_is_there();
}

/// Each result without a failure that a session collected was reported as programmed by a worker. A session's results are
/// those of its jobs that are done, each once, and it collects each once. Where a Collect answers that nothing is outstanding,
/// each of its jobs so far was answered.
pub fn core_answers_each_job_once()
    ensures reported { (core : Core) (recorded : List Event) (session : ℕ) (before after : List FibResult) (result : FibResult)
        → StandsFor core recorded → collected_results (events recorded) session ≡ before ++ result ∷ after → result.failed ≡ None
        → WasReported (events recorded) session result }
    ensures once { (core : Core) (recorded : List Event) (session : ℕ) → StandsFor core recorded
        → IsPermutation (done_answers (events recorded) session) (map answer_in (results (events recorded) session))
        × (collected_results (events recorded) session ≡ take (taken (events recorded) session) (results (events recorded) session)) }
    ensures all { (new : Core) (recorded : List Event) (session : ℕ) (given : List FibResult)
        → StandsFor new (with (Collect session) (Collected given 0) recorded)
        → (list_any (is_awaited session) (tracked_tasks (events recorded)) ≡ false)
        × (collected_results (events recorded) session ++ given ≡ results (events recorded) session)
        × (length (results (events recorded) session) ≡ count_by (wanted_by session) (tasks (events recorded))) }
{
    events_are_lawful();
    collected_was_reported();
    results_are_of_done_jobs();
    results_are_answered_once();
    all_are_answered();
}
