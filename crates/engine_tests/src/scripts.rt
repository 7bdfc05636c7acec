//! What is done for the calls of a connection, one after another, and what each is given.
ghost use Rattle.table_lock.specs.Passes.{IsPassOf};

use crate::connection::{OneConnection, connect_with};
use bytes::Bytes;
use grpc_heads::{Method, ModifyReason};
use session_engine::Step;
use std::alloc::Global;
use std::sync::Wait;
use std::test::Fail;
use table_model::Command;

/// What is done for the call on a stream, or for none.
#[derive(Clone, Copy)]
pub(crate) enum Act {
    Request(&'static [u8]),
    Collect,
    Finish,
    More,
    Drop,
    /// The worker does its next job.
    Work,
    /// A session leaves that isn't this connection's to end.
    Leave(u64),
    Halt,
}

/// What a step gives.
#[derive(Clone, Copy)]
pub(crate) enum Wanted {
    /// Messages, and no end.
    Open(&'static [&'static [u8]]),
    /// Messages, and behind them the end with this code, text and reason.
    Ends(&'static [&'static [u8]], u8, &'static [u8], Option<ModifyReason>),
    /// The end with this code and text alone.
    Refused(u8, &'static [u8]),
    /// The end that a Halt brings.
    Halts,
}

/// A step that gives nothing.
pub(crate) const NOTHING: Wanted = Wanted::Open(&[]);

/// The good end alone.
pub(crate) const GOOD_END: Wanted = Wanted::Ends(&[], 0, b"", None);

/// Calls of these methods on the streams 1, 3 and 5, and what is done for them.
pub(crate) struct Script {
    pub methods: &'static [Method; 3],
    pub turns: &'static [(u32, Act, Wanted)],
}

fn are(answers: &[Vec<u8>], wanted: &[&[u8]]) -> bool {
    let mut is_right = answers.len() == wanted.len();
    for (answer, bytes) in answers.iter().zip(wanted) {
        is_right &= answer.as_slice() == *bytes;
    }
    is_right
}

fn has_end(step: &Step, code: u8, text: &[u8], reason: Option<ModifyReason>) -> bool {
    match &step.end {
        None => false,
        Some(status) => {
            (status.code == code) & (status.message.as_slice() == text) & (status.reason == reason)
        }
    }
}

fn ends(step: &Step, wanted: &Wanted) -> bool {
    match wanted {
        Wanted::Open(_) => step.end.is_none() & !step.halted,
        Wanted::Ends(_, code, text, reason) => {
            has_end(step, *code, text, *reason) & !step.halted
        }
        Wanted::Refused(code, text) => has_end(step, *code, text, None) & !step.halted,
        Wanted::Halts => has_end(step, 14, b"server stopped", None) & step.halted,
    }
}

fn messages(wanted: &Wanted) -> &'static [&'static [u8]] {
    match wanted {
        Wanted::Open(messages) => messages,
        Wanted::Ends(messages, _, _, _) => messages,
        Wanted::Refused(_, _) => &[],
        Wanted::Halts => &[],
    }
}

/// Whether a step gives this.
pub(crate) fn gives(step: Option<Step>, wanted: &Wanted) -> bool {
    match step {
        None => false,
        Some(step) => {
            let is_end = ends(&step, wanted);
            let answers = step.answers.into_vec();
            is_end & are(answers.as_slice(), messages(wanted))
        }
    }
}

// Does this for the call on a stream, and answers whether it is given what is wanted.
fn is_taken<R: Wait>(
    rt: &R,
    one: &mut OneConnection,
    stream: u32,
    act: Act,
    wanted: &Wanted,
) -> bool
    requires { IsPassOf one.old.lock one.old.pass }
    ensures { IsPassOf one.new.lock one.new.pass }
{
    match act {
        Act::Request(message) => {
            gives(one.request(rt, stream, Bytes::from_static(message)), wanted)
        }
        Act::Collect => gives(one.collect(rt, stream), wanted),
        Act::Finish => gives(one.finish(rt, stream), wanted),
        Act::More => gives(Some(one.more(stream)), wanted),
        Act::Drop => one.dropped(rt, stream),
        Act::Work => one.work(rt),
        Act::Leave(session) => one.tell(rt, Command::Leave(session)),
        Act::Halt => one.tell(rt, Command::Halt),
    }
}

fn is_played<R: Wait>(rt: &R, alloc: Global, script: &Script) -> Result<bool, Fail> {
    let mut one = connect_with(rt, alloc, script.methods)?;
    let mut is_right = one.is_begun;
    for (stream, act, wanted) in script.turns {
        is_right &= is_taken(rt, &mut one, *stream, *act, wanted);
    }
    Ok(is_right)
}

/// Whether each step of these scripts, each on a connection of its own, gives what is wanted.
pub(crate) fn are_played<R: Wait>(rt: &R, alloc: Global, scripts: &[Script]) -> Result<bool, Fail> {
    let mut is_right = true;
    for script in scripts {
        is_right &= is_played(rt, alloc, script)?;
    }
    Ok(is_right)
}
