ghost use Rattle.std.specs.Prelude.{◌≡◌, true, not, List, fold};
ghost use Rattle.std.specs.List.{list_all};
ghost use Rattle.aft_entries.specs.declared.entry.Entry.{Entry};
ghost use Rattle.aft_entries.specs.Order.{key_eq};
ghost use Rattle.table_model.specs.declared.job.Work.{Work};
ghost use Rattle.table_model.specs.Event.{Event};
ghost use Rattle.table_model.specs.Jobs.{effect, work_key, tracked_tasks, fib, is_programmed};
ghost use Rattle.table_model.specs.Rib.{rib};
ghost use Rattle.table_model.specs.declared.command.Config.{Config};
ghost use Rattle.table_model.specs.Laws.{AllAnswered, AnsweredOnce, JobsAscend, CompletesOnce, ConflictsInOrder, OutAreApart, OutstandingIsOwed, ProgrammedWasReported, ReportsGiveFib, ProgrammedIsThere, FibIsClosed, FibIsRibWithoutFaults};
ghost use Rattle.table_model.specs.Table.{in_order};
ghost use Rattle.table_laws.specs.Boards.{BoardAnswersAsHistory};
ghost use Rattle.table_laws.specs.CollectedResults.{CollectedWasReported};
ghost use Rattle.table_laws.specs.DoneAnswers.{ResultsAreOfDoneJobs};
ghost use Rattle.table_laws.specs.InFlight.{InFlightIsClosed};
ghost use Rattle.table_laws.specs.Succeeds.{SucceedsWithoutFaults, IdleIsDone};

/// Jobs stand in the order of their numbers, and no number names two.
pub fn jobs_ascend()
    ensures { JobsAscend }
{}

/// Jobs in conflict are done in the order of their numbers: where the later one is out or done, the earlier one is done.
pub fn jobs_in_conflict_keep_order()
    ensures { (config : Config) → ConflictsInOrder config }
{}

/// No two jobs in conflict are out.
pub fn jobs_out_are_apart()
    ensures { (config : Config) → OutAreApart config }
{}

/// No job is completed twice.
pub fn jobs_complete_once()
    ensures { (config : Config) → CompletesOnce config }
{}

/// A result without a failure comes of a report that the device programmed the job, which its session wants told.
pub fn programmed_was_reported()
    ensures { ProgrammedWasReported }
{}

/// Each result without a failure that a Collect handed out: a worker reported, at its moment, that the device programmed
/// a job of the session with its id, and right after that report the forwarding table had its entry, or no longer its key.
pub fn collected_was_reported()
    ensures { (config : Config) → CollectedWasReported config }
{}

/// What a session's Collects answer are the first of its results in the order of completion, each once.
pub fn results_are_answered_once()
    ensures { (config : Config) → AnsweredOnce config }
{}

/// A session's results are those of its jobs that are done, by id and failure, each once: no job is answered twice.
pub fn results_are_of_done_jobs()
    ensures { (config : Config) → ResultsAreOfDoneJobs config }
{}

/// What a Collect answers as outstanding is what the session waits for or hasn't collected right after it.
pub fn outstanding_is_owed()
    ensures { (config : Config) → OutstandingIsOwed config }
{}

/// Where a Collect answers that nothing is outstanding, no job is awaited, each result was answered, and each job whose
/// result the session wants has one.
pub fn all_are_answered()
    ensures { (config : Config) → AllAnswered config }
{}

/// The forwarding table as reports change it, in the order in which they come, is the one that the programmed jobs
/// leave in the order of their numbers.
pub fn reports_give_fib()
    ensures { (config : Config) → ReportsGiveFib config }
{}

/// Right after the report that a job is programmed, the forwarding table has its entry, or no longer its key.
pub fn programmed_is_there()
    ensures { (config : Config) → ProgrammedIsThere config }
{}

/// At each event every entry's references are in the forwarding table.
pub fn fib_is_closed()
    ensures { (config : Config) → FibIsClosed config }
{}

/// Whichever of the jobs that are out the devices have done already, and in whatever order, each entry's references
/// are in what they hold.
pub fn in_flight_is_closed()
    ensures { (config : Config) → InFlightIsClosed config }
{}

/// Where each job is programmed, the forwarding table is the table that the commands leave.
pub fn fib_is_rib_where_programmed()
    ensures { (past : List Event) → list_all (λ tracked. is_programmed tracked.outcome) (tracked_tasks past) ≡ true → fib past ≡ rib past }
{}

/// Where no device fails, no job is skipped, and where no job is undone the forwarding table is the table that the
/// commands leave.
pub fn fib_is_rib_without_faults()
    ensures { (config : Config) → FibIsRibWithoutFaults config }
{}

/// The number of workers, the undone jobs and the results that are due tell the next job of a worker, whether it has
/// one left, what a live session collects next, what is outstanding then, and whether a job is out.
pub fn board_answers_as_history()
    ensures { (config : Config) → BoardAnswersAsHistory config }
{}

/// A job that is done late does what it would have done in its place, where no later one has its key.
pub fn late_work_has_same_effect()
    ensures { (table : List Entry) (work : Work) (later : List Work) → in_order table ≡ true
        → list_all (λ other. not (key_eq (work_key work) (work_key other))) later ≡ true
        → fold effect (effect table work) later ≡ effect (fold effect table later) work }
{}

/// Where no device fails, no result has a failure.
pub fn succeeds_without_faults()
    ensures { (config : Config) → SucceedsWithoutFaults config }
{}

/// Where one worker serves all keys and has no next job while none is out, no job is undone.
pub fn idle_is_done()
    ensures { (config : Config) → IdleIsDone config }
{}
