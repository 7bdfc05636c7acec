ghost use Rattle.std.specs.Prelude.{◌≡◌};
ghost use Rattle.aft_entries.specs.Devices.{CountsAnswer, HasKeysOnce};
ghost use Rattle.fib_worker.specs.Doing.{Does, verdict_of};

use aft_entries::{Act, Device};
use table_model::{Job, Verdict, Work};

/// Does the job's work on the device, which is one call of it.
///
/// Programmed, where the device did it: it then has what the work leaves of what it had. DeviceFault only where it
/// failed, which its faults count: it then has what it had.
#[tactic(auto, using(crate::proofs::Works::installed, crate::proofs::Works::removed))]
pub fn do_job<D: Device>(device: &mut D, job: &Job) -> Verdict
    ensures contents { Does result job.now.work (D.contents device.old) (D.contents device.new) }
    ensures once { HasKeysOnce (D.contents device.old) → HasKeysOnce (D.contents device.new) }
    ensures faults { CountsAnswer (D.faults device.old) (D.faults device.new) (result ≡ Verdict.DeviceFault) }
    ensures dones { CountsAnswer (D.dones device.old) (D.dones device.new) (result ≡ Verdict.Programmed) }
{
    match &job.work {
        Work::Install(entry) => verdict(device.install(entry)),
        Work::Remove(key) => verdict(device.remove(key)),
    }
}

// What a worker reports of the device's answer.
fn verdict(answer: Act) -> Verdict
    ensures { result ≡ verdict_of answer }
{
    match answer {
        Act::Done => Verdict::Programmed,
        Act::Failed => Verdict::DeviceFault,
    }
}
