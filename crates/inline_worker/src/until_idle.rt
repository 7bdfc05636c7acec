//! The worker's turns, one after another.
ghost use Rattle.std.specs.Prelude.{◌≡◌, ◌+◌, ◌^◌, ◌≤◌, List, length, true, false};
ghost use Rattle.table_model.specs.declared.command.Config.{Config};
ghost use Rattle.table_model.specs.declared.job.Verdict.{Verdict};
ghost use Rattle.table_model.specs.Event.{Event};
ghost use Rattle.inline_worker.specs.Complete.{IsAtRest};
ghost use Rattle.inline_worker.specs.CoreAt.{CoreAt};
ghost use Rattle.inline_worker.specs.Idle.{WorksUntilIdle};
ghost use Rattle.inline_worker.specs.Turns.{reports};
ghost use Rattle.inline_worker.specs.Works.{device_told};

use crate::turning::turn;
use aft_entries::Device;
use rib_core::RibCore;
use table_laws::idle_is_done;

/// How many events a table has before the worker takes no more of its jobs: far more than one input makes.
const MOST_EVENTS: u64 = 2_305_843_009_213_693_952;

/// The only worker of the table takes its jobs, and has the device do each, until it is given none. False only where the table has
/// had 2^61 events. This takes no memory but what the device takes.
pub fn work_until_idle<D: Device>(core: &mut RibCore, device: &mut D, now: i64) -> bool
    requires stood { (config : Config) × (past : List Event) × (config.workers ≡ 1) × CoreAt config core.old past × IsAtRest config past }
    ensures works { result ≡ true → (config : Config) (past : List Event) (said : List Verdict) → config.workers ≡ 1
        → CoreAt config core.old past → IsAtRest config past → length said ≡ reports past
        → WorksUntilIdle config now past said core.new (device_told D.faults D.contents device.old device.new) }
    ensures few { result ≡ true → core.new.count ≤ 2 ^ 61 + 1 }
    ensures later { D.faults device.old ≤ D.faults device.new }
    ensures full { result ≡ false → 2 ^ 61 ≤ core.new.count }
{
    idle_is_done();
    loop {
        if core.events() >= MOST_EVENTS {
            return false;
        }
        if !turn(core, device, now) {
            return true;
        }
    }
}
