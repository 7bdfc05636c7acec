//! Small histories, computed by the definitions.
ghost use Rattle.std.specs.Prelude.{◌≡◌, [], reverse};
ghost use Rattle.halt_laws.specs.Histories.{leave_behind_halt, two_workers};
ghost use Rattle.halt_laws.specs.Settled.{HaveSeenHalt, NoLeaveBehindHalt};
ghost use Rattle.table_laws.specs.Samples.{setup};
ghost use Rattle.table_model.specs.BoardState.{undone_tasks};
ghost use Rattle.table_model.specs.Legal.{IsLawful};
ghost use Rattle.table_model.specs.ServerHistory.{HasServerReplies};

/// Of two workers each sees the Halt once its own job is done: there is a history of which the law speaks.
pub fn two_workers_see_the_halt()
    ensures replies { HasServerReplies (setup 1 2 9) two_workers }
    ensures lawful { IsLawful (setup 1 2 9) (reverse two_workers) }
    ensures quiet { NoLeaveBehindHalt (reverse two_workers) }
    ensures seen { HaveSeenHalt (setup 1 2 9) (reverse two_workers) }
{}

/// Where the primary's session ends under DELETE behind the Halt, its entries go, and the worker that saw the Halt has
/// jobs again.
pub fn a_leave_behind_the_halt_makes_jobs()
    ensures replies { HasServerReplies (setup 1 1 9) leave_behind_halt }
    ensures seen { HaveSeenHalt (setup 1 1 9) (reverse leave_behind_halt) }
    ensures undone { undone_tasks (reverse leave_behind_halt) ≡ [] → ⊥ }
{}
