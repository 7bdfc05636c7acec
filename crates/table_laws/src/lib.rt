//! Laws of every lawful history of the table. Each is the contract of a function that does nothing: to call it is
//! to cite the law. Each statement in `specs/Laws` of `table_model` is the contract of a function here; `specs/` has the
//! further ones. Begin with `rib_is_closed`, `fib_is_closed` and `all_are_answered`.
//!
//! ```ignore
//! rib_is_closed(); // from here on: after every lawful history each entry's references are in the table
//! ```
#![tactic(auto)]

mod election;
mod examples;
mod jobs;
mod rib;

pub use election::{highest_never_falls, latest_announcer_is_primary, lower_id_is_not_primary};
pub use examples::{
    a_chain_has_four_groups, a_device_fault_skips_what_refers, a_flush_leaves_what_others_reach,
    a_flush_needs_its_id, a_full_table_takes_no_new_key, a_halt_is_seen,
    a_lower_id_loses_the_primary, a_purge_begins_at_the_head,
    a_removal_waits_for_the_route_that_left, a_session_leaves_once, entries_go_with_their_primary,
    equal_ids_make_the_latest_primary, parameters_are_refused, references_come_first,
    refusals_of_the_table, what_changes_nothing_makes_a_job,
};
pub use jobs::{
    all_are_answered, board_answers_as_history, collected_was_reported, fib_is_closed,
    fib_is_rib_where_programmed, fib_is_rib_without_faults, idle_is_done, in_flight_is_closed,
    jobs_ascend, jobs_complete_once, jobs_in_conflict_keep_order, jobs_out_are_apart,
    late_work_has_same_effect, outstanding_is_owed, programmed_is_there, programmed_was_reported,
    reports_give_fib, results_are_answered_once, results_are_of_done_jobs, succeeds_without_faults,
};
pub use rib::{
    chains_are_short, done_is_there, done_where_due, entries_have_known_instances, equal_lookups,
    events_are_lawful, rib_changes_by_these, rib_is_closed, rib_is_in_order,
    selected_rows_are_known, too_deep_is_not_shallow,
};
