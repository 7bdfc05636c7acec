//! What the parts that a core keeps are worth, whatever history it stands for.
ghost use Rattle.std.specs.Prelude.{◌≡◌, ◌⊎◌, true, false, Bool, List, [], map, fold, IsPermutation};
ghost use Rattle.std.specs.List.{list_any};
ghost use Rattle.table_laws.specs.InFlight.{out_and_done};
ghost use Rattle.table_model.specs.declared.command.Command.{Command};
ghost use Rattle.table_model.specs.declared.reply.Reply.{Reply};
ghost use Rattle.table_model.specs.Event.{Event, events};
ghost use Rattle.table_model.specs.Jobs.{Task, TrackedTask, effect};
ghost use Rattle.table_model.specs.Laws.{MayChange, event, is_closed, is_fault, is_skip};
ghost use Rattle.table_model.specs.Table.{in_order};
ghost use Rattle.rib_core.specs.Core.{Core};
ghost use Rattle.rib_core.specs.Stands.{StandsFor, with};

use table_laws::{
    done_is_there, events_are_lawful, fib_is_closed, fib_is_rib_without_faults,
    in_flight_is_closed, rib_changes_by_these, rib_is_closed, rib_is_in_order,
};

/// Each entry's references are in the table, whose entries stand in the order of their keys, and each installed entry's are in
/// the forwarding table; so they are in what devices hold, whichever of the jobs that are out they have done already, and in
/// whatever order.
pub fn core_tables_are_closed()
    ensures table { (core : Core) (recorded : List Event) → StandsFor core recorded → is_closed core.table.entries ≡ true }
    ensures order { (core : Core) (recorded : List Event) → StandsFor core recorded → in_order core.table.entries ≡ true }
    ensures fib { (core : Core) (recorded : List Event) → StandsFor core recorded → is_closed core.board.fib ≡ true }
    ensures devices { (core : Core) (recorded : List Event) (done : Task → Bool) (order : List TrackedTask) → StandsFor core recorded
        → IsPermutation (out_and_done done (events recorded)) order
        → is_closed (fold effect core.board.fib (map (λ tracked. tracked.task.job.work) order)) ≡ true }
{
    events_are_lawful();
    rib_is_closed();
    rib_is_in_order();
    fib_is_closed();
    in_flight_is_closed();
}

/// Where no device failed, no job was passed over, and where no job is undone the forwarding table is the table.
pub fn core_fib_is_table_without_faults()
    ensures skips { (core : Core) (recorded : List Event) → StandsFor core recorded → list_any (λ e. is_fault e.command) (events recorded) ≡ false
        → list_any (λ e. is_skip e.reply) (events recorded) ≡ false }
    ensures same { (core : Core) (recorded : List Event) → StandsFor core recorded → list_any (λ e. is_fault e.command) (events recorded) ≡ false
        → core.board.undone ≡ [] → core.board.fib ≡ core.table.entries }
{
    events_are_lawful();
    fib_is_rib_without_faults();
}

/// The table changes only by an operation of the then primary under the highest id, a Flush that is allowed, or the end of the
/// then primary's session under DELETE.
pub fn core_table_changes_by_these()
    ensures { (old new : Core) (command : Command) (reply : Reply) (recorded : List Event)
        → StandsFor old recorded → StandsFor new (with command reply recorded)
        → (new.table.entries ≡ old.table.entries) ⊎ MayChange (events recorded) (event command reply) }
{
    events_are_lawful();
    rib_changes_by_these();
}
