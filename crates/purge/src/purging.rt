ghost use Rattle.std.specs.Prelude.{◌≡◌, ◌+◌, ◌≤◌, ◌++◌, ℕ, true, length};
ghost use Rattle.std.specs.List.{list_all};
ghost use Rattle.aft_store.specs.Marked.{chosen, unchosen};
ghost use Rattle.fib_board.specs.Removals.{removal_costs, removal_tasks};
ghost use Rattle.fib_board.specs.Steps.{is_before};
ghost use Rattle.table_model.specs.BoardState.{due_for};
ghost use Rattle.table_model.specs.Jobs.{removed};

use crate::ranks::write_ranks;
use crate::removals::add_removals;
use crate::room::PurgeRoom;
use aft_store::Store;
use fib_board::Board;

/// The entries without a mark leave the table, and a job for each is added to the board: what refers goes before what it
/// refers to. An entry behind the last mark has none, so that no marks let all go. This takes no memory.
pub fn purge(
    table: &mut Store,
    board: &mut Board,
    room: &mut PurgeRoom,
    marks: &[bool],
    position: u64,
)
    requires room { length table.old.entries ≤ room.old.room }
    requires places { removal_costs (unchosen marks.now table.old.entries) ≤ board.old.spare }
    requires last { list_all (is_before (record { position = position; index = 0 })) board.old.undone ≡ true }
    ensures entries { table.new.entries ≡ chosen marks.now table.old.entries }
    ensures kept { table.old.spare ≤ table.new.spare }
    ensures room { room.new.room ≡ room.old.room }
    ensures workers { board.new.workers ≡ board.old.workers }
    ensures undone { board.new.undone
        ≡ board.old.undone ++ removal_tasks position table.old.entries (removed table.old.entries table.new.entries) }
    ensures fib { board.new.fib ≡ board.old.fib }
    ensures due { (session : ℕ) → due_for board.new.due session ≡ due_for board.old.due session }
    ensures spare { board.old.spare ≤ board.new.spare + removal_costs (unchosen marks.now table.old.entries) }
{
    write_ranks(table, marks, &mut room.ranks);
    table.move_unmarked(marks, &mut room.gone);
    add_removals(board, &mut room.ranks, &mut room.gone, position);
}
