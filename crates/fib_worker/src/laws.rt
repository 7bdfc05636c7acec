ghost use Rattle.table_model.specs.declared.command.Config.{Config};
ghost use Rattle.fib_worker.specs.Shards.{EmptyHoldsShard, JobKeepsShard, OnlyWorkerHoldsAll, OthersKeepShard, TakesKeepShard};

/// A device that holds its worker's shard of the forwarding table when the worker is given a job, and then does the job,
/// holds the shard again once that is reported, whether it did the work or failed. Other events in between are no Take or
/// Report for the shard. The report is answered Reported.
pub fn job_keeps_shard()
    ensures { (config : Config) → JobKeepsShard config }
{}

/// Events that are no Take or Report for a worker's shard leave a device that holds the shard of the forwarding table
/// holding it.
pub fn others_keep_shard()
    ensures { (config : Config) → OthersKeepShard config }
{}

/// A Take, whatever its answer, leaves a device that holds a shard of the forwarding table holding it.
pub fn takes_keep_shard()
    ensures { (config : Config) → TakesKeepShard config }
{}

/// Before the first event an empty device holds each shard of the forwarding table.
pub fn empty_holds_shard()
    ensures { EmptyHoldsShard }
{}

/// Where there is one worker, a device that holds its shard has under each key what the forwarding table has there.
pub fn only_worker_holds_all()
    ensures { OnlyWorkerHoldsAll }
{}
