ghost use Rattle.table_model.specs.declared.command.Config.{Config};
ghost use Rattle.inline_worker.specs.Complete.{WorkIsComplete, CollectsAreComplete};

use table_laws::{idle_is_done, outstanding_is_owed};

/// Where a table has one worker, all jobs are done behind its turns, whatever its device says.
pub fn work_is_complete()
    ensures { (config : Config) → WorkIsComplete config }
{
    idle_is_done();
}

/// Where all jobs are done, nothing is owed to the session behind its Collects.
pub fn collects_are_complete()
    ensures { (config : Config) → CollectsAreComplete config }
{
    outstanding_is_owed();
}
