ghost use Rattle.std.specs.Prelude.{◌≡◌};
ghost use Rattle.rig_io.specs.Fault.{HasCause, StaysUnless};
ghost use Rattle.message_run.specs.Runs.{IsStatus, told};
ghost use Rattle.apply_path.specs.Applied.{Applies};
ghost use Rattle.inline_worker.specs.Works.{device_told};

use crate::handler::{Session, SessionState, run_session};
use aft_entries::Device;
use call_answers::Setting;
use rig_io::{Sink, Source};
use std::alloc::Global;
use std::snapshot::Snapshot;

/// Reads a stream of ModifyRequests, and writes their answers. Behind a reply that ends the stream, and where the input can't be
/// read, it writes a last item: byte 0x80 with the reply's status number, or byte 0x81 with the place in the input, each with a
/// four-byte length, the highest byte first, before the digits.
///
/// Answers 0 where the input was read and answered to its end, 3 where it can't be read, 4 and 5 where the input or the output
/// failed, 6 for want of memory, and 7 where a reply ended the stream. An input past 2^40 bytes can't be read at that place.
pub fn apply_stream<S: Source, K: Sink, D: Device>(
    alloc: Global,
    setting: &Setting,
    input: &mut S,
    output: &mut K,
    device: &mut D,
) -> u8
    // What is written is a function of the bytes that were taken, and of the input where the source tells it, and of what the device
    // said: the answers of the one-thread server. A device that began empty holds the forwarding table of that history.
    ensures applies { Applies setting.now result (told S.taken S.left K.placed input.old input.new output.old output.new)
        (device_told D.faults D.contents device.old device.new) }
    ensures status { IsStatus result }
    ensures read { HasCause (S.faults input.old) (S.faults input.new) (result ≡ 4) }
    // No failure is hidden: a status but 4 leaves the input's faults, and one but 5 the output's.
    ensures read_stays { StaysUnless (S.faults input.old) (S.faults input.new) (result ≡ 4) }
    ensures write { HasCause (K.faults output.old) (K.faults output.new) (result ≡ 5) }
    ensures write_stays { StaysUnless (K.faults output.old) (K.faults output.new) (result ≡ 5) }
{
    let Ok(mut state) = SessionState::new(alloc, setting) else {
        return 6;
    };
    let first = Snapshot::of(device);
    let mut session = Session {
        setting,
        state: &mut state,
        device,
        first: &first,
    };
    run_session(alloc, &mut session, input, output)
}
