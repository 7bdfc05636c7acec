//! Small histories, computed by the definitions.
ghost use Rattle.table_laws.specs.Examples as example;
ghost use Rattle.table_model.specs.ServerHistory.{HasServerReplies};
ghost use Rattle.table_laws.specs.Samples.{setup};

/// Of two sessions that announce the same highest id, the later one is the primary.
pub fn equal_ids_make_the_latest_primary()
    ensures { HasServerReplies (setup 1 1 9) example.equal_ids }
{}

/// A primary that announces a lower id is none until it announces one that is high enough.
pub fn a_lower_id_loses_the_primary()
    ensures { HasServerReplies (setup 1 1 9) example.lower_id }
{}

/// An entry is refused while what it refers to isn't there, and what is referred to can't be deleted.
pub fn references_come_first()
    ensures { HasServerReplies (setup 1 1 9) example.references_first }
{}

/// Under DELETE the entries go when the primary's session ends, what refers before what it refers to.
pub fn entries_go_with_their_primary()
    ensures { HasServerReplies (setup 1 1 9) example.leave_under_delete }
{}

/// With three workers a group's removal waits until the route that left it is done.
pub fn a_removal_waits_for_the_route_that_left()
    ensures { HasServerReplies (setup 1 3 9) example.removal_waits }
{}

/// Where the device fails, what refers to the missing entry is skipped, and both may be added again.
pub fn a_device_fault_skips_what_refers()
    ensures { HasServerReplies (setup 1 1 9) example.device_fault }
{}

/// A Flush of one instance leaves what an entry of another reaches; one of all leaves nothing.
pub fn a_flush_leaves_what_others_reach()
    ensures { HasServerReplies (setup 2 1 9) example.flush_of_one }
{}

/// Sessions whose parameters are refused, or that have none.
pub fn parameters_are_refused()
    ensures { HasServerReplies (setup 1 1 9) example.parameters }
{}

/// At the limit a new key is refused, and one that is there may be written again.
pub fn a_full_table_takes_no_new_key()
    ensures { HasServerReplies (setup 1 1 4) example.full_table }
{}

/// A DELETE of an absent key and a REPLACE by the same payload make a job each.
pub fn what_changes_nothing_makes_a_job()
    ensures { HasServerReplies (setup 1 1 9) example.idle_changes }
{}

/// Refusals for a backup, for a key that isn't there, and for what the operation brought with it.
pub fn refusals_of_the_table()
    ensures { HasServerReplies (setup 1 1 9) example.refusals }
{}

/// A session leaves once.
pub fn a_session_leaves_once()
    ensures { HasServerReplies (setup 1 1 9) example.leave_twice }
{}

/// A job is reported once, and after a Halt a worker with nothing left sees it.
pub fn a_halt_is_seen()
    ensures { HasServerReplies (setup 1 1 9) example.halt }
{}

/// A Flush needs an id that is at least the highest, or an override.
pub fn a_flush_needs_its_id()
    ensures { HasServerReplies (setup 1 1 9) example.flush_refused }
{}

/// A chain of four groups takes none more at either end, until one goes.
pub fn a_chain_has_four_groups()
    ensures { HasServerReplies (setup 1 1 9) example.chain_of_four }
{}

/// A purge removes groups from the head of their chain on, and next hops last.
pub fn a_purge_begins_at_the_head()
    ensures { HasServerReplies (setup 1 1 9) example.purge_of_a_chain }
{}
