//! The session of one input, which handles its messages.
ghost use Rattle.std.specs.Prelude.{◌≡◌, ◌+◌, ◌<◌, ◌≤◌, ◌^◌, [], List, length, IfOk};
ghost use Rattle.table_model.specs.Event.{Event};
ghost use Rattle.table_model.specs.declared.job.Verdict.{Verdict};
ghost use Rattle.rig_io.specs.Fault.{HasCause, StaysUnless};
ghost use Rattle.inline_worker.specs.CoreAt.{CoreAt};
ghost use Rattle.inline_worker.specs.Turns.{reports};
ghost use Rattle.inline_worker.specs.Works.{device_told};
ghost use Rattle.message_run.specs.Runs.{IsStatus, told};
ghost use Rattle.apply_path.specs.Applied.{Applies};
ghost use Rattle.apply_path.specs.Responses.{config_of};
ghost use Rattle.apply_path.specs.SessionAt.{Begun, MessageDone, TakesTurns};

use crate::session::{begun, do_message, unreadable};
use crate::step::{AnswerWriter, discard_reply};
use aft_entries::Device;
use call_answers::Setting;
use fib_worker::{empty_holds_shard, others_keep_shard};
use message_run::{Handled, MessageHandler, run};
use proto_schema::{MessageKind, first_fault};
use rib_core::RibCore;
use rig_io::{Sink, Source};
use std::alloc::{AllocError, Global};
use std::mem::swap;
use std::snapshot::Snapshot;
use table_model::Command;

/// What a session keeps: its table, how many messages there were, and room for an answer.
#[derive(Drop)]
pub struct SessionState {
    core: RibCore,
    count: u64,
    writer: AnswerWriter,
}

impl SessionState {
    /// The session has begun, before any message.
    pub fn new(alloc: Global, setting: &Setting) -> Result<SessionState, AllocError>
        ensures begun { IfOk result (λ state. Begun (length setting.now.instances) state.core) }
        ensures count { IfOk result (λ state. state.count ≡ 0) }
    {
        let core = begun(alloc, setting.instances.count())?;
        Ok(SessionState {
            core,
            count: 0,
            writer: AnswerWriter {
                alloc,
                message: Vec::new(alloc),
                out: Vec::new(alloc),
            },
        })
    }
}

/// The session of one input, and the device that is programmed. It holds references alone, so that whoever lent the device knows what
/// became of it.
#[derive(Drop)]
pub struct Session<'a, D: Device> {
    pub setting: &'a Setting,
    pub state: &'a mut SessionState,
    pub device: &'a mut D,
    /// What the device was before the first message.
    pub first: &'a Snapshot<D>,
}

// Does a message that can be read. Its answers go behind those that `out` has.
fn do_readable<D: Device>(
    setting: &Setting,
    state: &mut SessionState,
    device: &mut D,
    message: &[u8],
    out: &mut Vec<u8>,
) -> Handled
    requires stood { (past : List Event) × CoreAt (config_of setting.now) state.old.core past × TakesTurns (config_of setting.now) past }
    requires few { state.old.core.count ≤ 2 ^ 61 }
    requires count { state.old.count < 2 ^ 61 }
    ensures done { (past : List Event) (said : List Verdict) → CoreAt (config_of setting.now) state.old.core past
        → TakesTurns (config_of setting.now) past → length said ≡ reports past
        → MessageDone setting.now (state.old.count + 1) message.now past said state.new.core
        (device_told D.faults D.contents device.old device.new) result out.old.items out.new.items }
    ensures count { state.new.count ≡ state.old.count + 1 }
{
    state.count += 1;
    swap(&mut state.writer.out, out);
    let number = state.count;
    let handled = do_message(
        setting,
        &mut state.core,
        device,
        message,
        number,
        &mut state.writer,
    );
    swap(&mut state.writer.out, out);
    handled
}

impl<'a, D: Device> MessageHandler for Session<'a, D> {
    ghost use Rattle.apply_path.specs.SessionAt.{SessionAt, HasLeft, Shows};

    ghost became = { λ first s. (s.setting.now ≡ first.setting.now) × (s.first.now.value ≡ first.first.now.value)
        × (s.device.ghost_name ≡ first.device.ghost_name) };

    ghost shows = { λ s f. Shows s.setting.now (device_told D.faults D.contents s.first.now.value s.device.now) f };

    ghost stands = { λ s f done. SessionAt s.setting.now s.state.now.core s.state.now.count
        (device_told D.faults D.contents s.first.now.value s.device.now) f done };

    ghost left = { λ s f done. HasLeft s.setting.now s.state.now.core
        (device_told D.faults D.contents s.first.now.value s.device.now) f done };

    fn handle(&mut self, message: &[u8], out: &mut Vec<u8>) -> Handled {
        others_keep_shard();
        match first_fault(&self.setting.numbering, MessageKind::ModifyRequest, message) {
            Some(fault) => unreadable(fault),
            None => do_readable(self.setting, self.state, self.device, message, out),
        }
    }

    fn leave(&mut self) {
        others_keep_shard();
        let reply = self.state.core.act(Command::Leave(0));
        discard_reply(reply);
    }
}

/// Has the session, which has begun, handle the messages of an input.
pub fn run_session<S: Source, K: Sink, D: Device>(
    alloc: Global,
    session: &mut Session<D>,
    input: &mut S,
    output: &mut K,
) -> u8
    requires begun { Begun (length session.old.setting.now.instances) session.old.state.now.core }
    requires count { session.old.state.now.count ≡ 0 }
    requires device { session.old.device.now ≡ session.old.first.now.value }
    ensures same { session.new.device.ghost_name ≡ session.old.device.ghost_name }
    ensures applies { Applies session.old.setting.now result (told S.taken S.left K.placed input.old input.new output.old output.new)
        (device_told D.faults D.contents session.old.device.now session.new.device.now) }
    ensures status { IsStatus result }
    ensures read { HasCause (S.faults input.old) (S.faults input.new) (result ≡ 4) }
    ensures read_stays { StaysUnless (S.faults input.old) (S.faults input.new) (result ≡ 4) }
    ensures write { HasCause (K.faults output.old) (K.faults output.new) (result ≡ 5) }
    ensures write_stays { StaysUnless (K.faults output.old) (K.faults output.new) (result ≡ 5) }
{
    empty_holds_shard();
    run(alloc, session, input, output)
}
