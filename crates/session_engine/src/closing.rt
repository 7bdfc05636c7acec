ghost use Rattle.std.specs.Prelude.{◌≡◌, ◌⊎◌, ℕ, [], ◌∷◌, None, Some, false, IfOk, IfErr};
ghost use Rattle.table_lock.specs.Passes.{IsPassOf, IsSound};
ghost use Rattle.call_answers.specs.Ends.{status_by};
ghost use Rattle.call_orders.specs.Owed.{want_of_memory};
ghost use Rattle.session_engine.specs.Stands.{IsSpentBehind};
ghost use Rattle.session_engine.specs.Steps.{BeginsSession, ClosesCall, EndsUnbegun, SessionLeaves, StopsClosing, session_begun};

use crate::commands::{discard, is_stopped};
use crate::endings::want_of_memory;
use crate::open_calls::OpenCalls;
use crate::step::{EngineFault, Progress, Step};
use call_answers::end_of;
use grpc_heads::Status;
use std::sync::Wait;
use table_lock::{Machine, Pass, TableLock};
use table_model::{Command, Reply};

/// The session leaves.
pub(crate) fn leave<R: Wait, M: Machine<Command = Command, Reply = Reply>>(
    rt: &R,
    lock: &TableLock<M>,
    pass: &mut Pass<M>,
    session: u64,
) -> Result<(), EngineFault>
    requires pass { IsPassOf lock.now pass.old }
    requires sound { IsSound M.lawful lock.now.setup pass.old }
    ensures left { IfOk result (λ _. SessionLeaves M.lawful lock.now.setup pass.old pass.new session) }
    ensures spent { IfErr result (λ _. IsSpentBehind M.lawful lock.now.setup pass.old pass.new []) }
{
    match lock.call(rt, pass, Command::Leave(session)) {
        Err(_) => Err(EngineFault::Spent),
        Ok(reply) => {
            discard(reply);
            Ok(())
        }
    }
}

/// Closes a call behind its commands.
pub(crate) fn close_up<R: Wait, M: Machine<Command = Command, Reply = Reply>>(
    rt: &R,
    lock: &TableLock<M>,
    pass: &mut Pass<M>,
    calls: &mut OpenCalls,
    stream: u32,
    session: u64,
    progress: Progress,
    step: &mut Step,
) -> Result<(), EngineFault>
    requires pass { IsPassOf lock.now pass.old }
    requires sound { IsSound M.lawful lock.now.setup pass.old }
    ensures closed { IfOk result (λ _. ClosesCall M.lawful lock.now.setup progress stream session pass.old pass.new calls.old calls.new step.old step.new) }
    ensures spent { IfErr result (λ _. StopsClosing M.lawful lock.now.setup progress pass.old pass.new) }
{
    match progress {
        Progress::GoesOn => Ok(()),
        Progress::Spent => Err(EngineFault::Spent),
        Progress::Ended => {
            leave(rt, lock, pass, session)?;
            calls.remove(stream);
            Ok(())
        }
        Progress::OutOfMemory => {
            leave(rt, lock, pass, session)?;
            calls.remove(stream);
            step.end = Some(want_of_memory());
            Ok(())
        }
    }
}

// The session that was begun.
fn session_of(reply: &Reply) -> Option<u64>
    ensures { result ≡ session_begun reply.now }
{
    match reply {
        Reply::Began(session) => Some(*session),
        _ => None,
    }
}

fn unbegun_end(reply: &Reply) -> Option<Status>
    ensures { (result ≡ status_by false reply.now) ⊎ (result ≡ Some want_of_memory) }
{
    match end_of(false, reply) {
        Err(_) => Some(want_of_memory()),
        Ok(end) => end,
    }
}

// Takes down the end that a reply brings to a call without a session.
fn end_unbegun(reply: &Reply, step: &mut Step)
    requires { step.old.end ≡ None }
    ensures { EndsUnbegun reply.now step.old step.new }
{
    let has_stopped = is_stopped(reply);
    step.end = unbegun_end(reply);
    step.halted |= has_stopped;
}

/// Begins a session, or takes down why none is begun.
pub(crate) fn begin_session<R: Wait, M: Machine<Command = Command, Reply = Reply>>(
    rt: &R,
    lock: &TableLock<M>,
    pass: &mut Pass<M>,
    step: &mut Step,
) -> Result<Option<u64>, EngineFault>
    requires pass { IsPassOf lock.now pass.old }
    requires sound { IsSound M.lawful lock.now.setup pass.old }
    requires no_end { step.old.end ≡ None }
    ensures begun { IfOk result (λ session. BeginsSession M.lawful lock.now.setup pass.old pass.new session step.old step.new) }
    ensures spent { IfErr result (λ _. IsSpentBehind M.lawful lock.now.setup pass.old pass.new []) }
{
    match lock.call(rt, pass, Command::Begin) {
        Err(_) => Err(EngineFault::Spent),
        Ok(reply) => {
            let session = session_of(&reply);
            if session.is_none() {
                end_unbegun(&reply, step);
            }
            discard(reply);
            Ok(session)
        }
    }
}
