ghost use Rattle.table_model.specs.declared.command.Config.{Config};
ghost use Rattle.fib_board.specs.Follows.{EmptyStands, JobsAreOlder, AddsFollow, TakesFollow, ReportsFollow, CollectsFollow, ForgetsFollow, LeavesFollow, FlushesFollow, QuietFollows};

use table_laws::board_answers_as_history;

/// What each call leaves stands for the history with the call's event.
pub fn board_follows_history()
    ensures empty { EmptyStands }
    ensures older { JobsAreOlder }
    ensures add { (config : Config) → AddsFollow config }
    ensures take { (config : Config) → TakesFollow config }
    ensures report { (config : Config) → ReportsFollow config }
    ensures collect { (config : Config) → CollectsFollow config }
    ensures forget { (config : Config) → ForgetsFollow config }
    ensures leave { (config : Config) → LeavesFollow config }
    ensures flush { (config : Config) → FlushesFollow config }
    ensures quiet { (config : Config) → QuietFollows config }
{
    board_answers_as_history();
}
