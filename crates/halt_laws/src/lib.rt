//! Where the tables stand once a Halt is through: the contract of a function that does nothing, for every lawful
//! history. To call it is to cite the law.
//!
//! ```ignore
//! halted_tables_settle(); // from here on: once each worker has seen the Halt, no job is undone
//! ```
#![tactic(auto)]

ghost use Rattle.table_model.specs.declared.command.Config.{Config};
ghost use Rattle.halt_laws.specs.Settled.{HaltedTablesSettle, HaltedTablesAgree};

mod examples;

pub use examples::{a_leave_behind_the_halt_makes_jobs, two_workers_see_the_halt};
use table_laws::fib_is_rib_without_faults;

/// Once a Take of each worker was answered that the Halt is through, no job is undone, whatever comes next but the end of
/// a session. Where no device failed either, the forwarding table is then the table that the commands leave.
pub fn halted_tables_settle()
    ensures settled { (config : Config) → HaltedTablesSettle config }
    ensures same { (config : Config) → HaltedTablesAgree config }
{
    fib_is_rib_without_faults();
}
