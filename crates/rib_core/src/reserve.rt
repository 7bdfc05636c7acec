//! Memory for one more entry, taken before anything changes.
ghost use Rattle.std.specs.Prelude.{◌≡◌, ◌+◌, ◌≤◌, ◌<◌, length, OnOk};

use aft_store::Store;
use fib_board::Board;
use flush_get::Marks;
use purge::PurgeRoom;
use std::alloc::AllocError;

/// Room for one more entry, and for jobs that together cost so much.
pub fn reserve_entry(
    table: &mut Store,
    board: &mut Board,
    marks: &mut Marks,
    room: &mut PurgeRoom,
    places: u64,
) -> Result<(), AllocError>
    requires { length table.old.entries < 18446744073709551615 }
    ensures table { OnOk result (0 < table.new.spare) }
    ensures board { OnOk result (places ≤ board.new.spare) }
    ensures marks { OnOk result (length table.old.entries + 1 ≤ marks.new.room) }
    ensures room { OnOk result (length table.old.entries + 1 ≤ room.new.room) }
    ensures entries { table.new.entries ≡ table.old.entries }
    ensures workers { board.new.workers ≡ board.old.workers }
    ensures undone { board.new.undone ≡ board.old.undone }
    ensures fib { board.new.fib ≡ board.old.fib }
    ensures due { board.new.due ≡ board.old.due }
    ensures spare { board.old.spare ≤ board.new.spare }
    ensures marked { marks.old.room ≤ marks.new.room }
    ensures purged { room.old.room ≤ room.new.room }
{
    table.reserve(1)?;
    let count = table.len() + 1;
    marks.reserve(count)?;
    room.reserve(count)?;
    board.reserve(places)
}
