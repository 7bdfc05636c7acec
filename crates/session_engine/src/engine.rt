ghost use Rattle.std.specs.Prelude.{◌≡◌, ℕ, ◌<◌, [], ◌∷◌, List, Option, Bool, Ok, IfOk, OnOk, IfErr, IsSome, None, Some, is_some, length, not, true, false};
ghost use Rattle.h2_exchange.specs.Calls.{Call, Begun, Request, Finished};
ghost use Rattle.grpc_heads.specs.CallEnd.{CallEnd};
ghost use Rattle.table_lock.specs.Passes.{IsPassOf, IsSound};
ghost use Rattle.call_answers.specs.declared.orders.Setting.{Setting as SettingView};
ghost use Rattle.call_orders.specs.Calls.{Collects, Handles, asked_by};
ghost use Rattle.call_orders.specs.Actions.{timeless};
ghost use Rattle.call_orders.specs.Laws.{is_single};
ghost use Rattle.session_engine.specs.Queries.{call_on, is_responding, remaining, session_in};
ghost use Rattle.session_engine.specs.Singles.{IsReceiving, is_single_command};
ghost use Rattle.session_engine.specs.Stands.{CollectsFor, ContinuesCall, DoesAction, DropsCall, HandlesCall, IsDropOf, IsNotBegun, IsSpentIn, Opens, Stands};

use crate::closing::{begin_session, close_up, leave};
use crate::commands::{do_collect, do_message};
use crate::endings::want_of_memory;
use crate::known_rows::Given;
use crate::open_calls::{OpenCall, OpenCalls};
use crate::singles::{Asked, SingleEnd, do_single, read_asked};
use crate::step::{EngineFault, Step};
use bytes::Bytes;
use call_answers::Setting;
use grpc_heads::Method;
use rig_io::Clock;
use std::alloc::Global;
use std::marker::Model;
use std::sync::Wait;
use table_lock::{Machine, Pass, TableLock};
use table_model::{Command, Reply};

/// The calls of one connection over a table under a lock. Contracts see the call on each stream that isn't over.
#[derive(Drop)]
pub struct SessionEngine {
    alloc: Global,
    pub(crate) calls: OpenCalls,
}

impl Model for SessionEngine {
    ghost use Rattle.std.specs.Prelude.{ℕ, List};
    ghost use Rattle.session_engine.specs.declared.open_calls.OpenCall.{OpenCall};

    ghost Value = { List (ℕ × OpenCall) };

    ghost view = { λ e. e.calls };
}

impl SessionEngine {
    /// No call yet.
    pub fn new(alloc: Global) -> SessionEngine
        ensures { (id : ℕ) → call_on result id ≡ None }
    {
        SessionEngine {
            alloc,
            calls: OpenCalls::new(alloc),
        }
    }

    // A message came on a Modify call, which does what it orders.
    fn request_modify<R: Wait, M: Machine<Command = Command, Reply = Reply>>(
        &mut self,
        rt: &R,
        lock: &TableLock<M>,
        pass: &mut Pass<M>,
        setting: &Setting,
        stream: u32,
        session: u64,
        message: &[u8],
        now: i64,
    ) -> Result<Step, EngineFault>
        requires pass { IsPassOf lock.now pass.old }
        requires sound { IsSound M.lawful lock.now.setup pass.old }
        requires call { call_on self.old stream ≡ Some (OpenCall.Modifies session false) }
        ensures done { IfOk result (λ step.
            HandlesCall M.lawful lock.now.setup setting.now self.old self.new pass.old pass.new stream (Request stream message.now) step) }
        ensures spent { IfErr result (λ _.
            IsSpentIn M.lawful lock.now.setup setting.now pass.old pass.new stream (Stands setting.now (call_on self.old stream)) (Request stream
            message.now ∷ [])) }
    {
        let mut step = Step::new(self.alloc);
        let progress = do_message(
            rt, self.alloc, lock, pass, setting, session, message, now, &mut step,
        );
        close_up(
            rt,
            lock,
            pass,
            &mut self.calls,
            stream,
            session,
            progress,
            &mut step,
        )?;
        Ok(step)
    }

    /// Collects results for a Modify call. Where its client has ended its side and nothing is outstanding, the call is over.
    pub fn collect<R: Wait, M: Machine<Command = Command, Reply = Reply>>(
        &mut self,
        rt: &R,
        lock: &TableLock<M>,
        pass: &mut Pass<M>,
        setting: &Setting,
        stream: u32,
    ) -> Result<(Step, bool), EngineFault>
        requires pass { IsPassOf lock.now pass.old }
        requires sound { IsSound M.lawful lock.now.setup pass.old }
        requires call { IsSome (session_in (call_on self.old stream)) }
        ensures done { IfOk result (λ done. CollectsFor M.lawful lock.now.setup setting.now self.old self.new pass.old pass.new stream done.0 done.1) }
        ensures spent { IfErr result (λ _.
            IsSpentIn M.lawful lock.now.setup setting.now pass.old pass.new stream (Stands setting.now (call_on self.old stream)) []) }
    {
        let mut step = Step::new(self.alloc);
        let Some((session, is_finished)) = self.calls.session(stream) else {
            unreachable!()
        };
        let (progress, has_left) = do_collect(
            rt,
            self.alloc,
            lock,
            pass,
            setting,
            session,
            is_finished,
            &mut step,
        );
        close_up(
            rt,
            lock,
            pass,
            &mut self.calls,
            stream,
            session,
            progress,
            &mut step,
        )?;
        Ok((step, has_left))
    }

    // A Modify call began. It begins a session.
    fn begin_modify<R: Wait, M: Machine<Command = Command, Reply = Reply>>(
        &mut self,
        rt: &R,
        lock: &TableLock<M>,
        pass: &mut Pass<M>,
        stream: u32,
    ) -> Result<Step, EngineFault>
        requires pass { IsPassOf lock.now pass.old }
        requires sound { IsSound M.lawful lock.now.setup pass.old }
        requires unbegun { call_on self.old stream ≡ None }
        ensures done { IfOk result (λ step. (s : SettingView)
            → DoesAction M.lawful lock.now.setup s self.old self.new pass.old pass.new stream IsNotBegun (Handles (Begun stream Method.Modify)) step) }
        ensures spent { IfErr result (λ _. (s : SettingView)
            → IsSpentIn M.lawful lock.now.setup s pass.old pass.new stream IsNotBegun (Begun stream Method.Modify ∷ [])) }
    {
        let mut step = Step::new(self.alloc);
        let Ok(()) = self.calls.add(stream, OpenCall::Modifies(0, false)) else {
            step.end = Some(want_of_memory());
            return Ok(step);
        };
        match begin_session(rt, lock, pass, &mut step)? {
            None => {
                self.calls.remove(stream);
                Ok(step)
            }
            Some(session) => {
                self.calls.set(stream, OpenCall::Modifies(session, false));
                Ok(step)
            }
        }
    }

    // A Get or a Flush began, for which nothing is done before its client ends its side.
    fn begin_single(&mut self, stream: u32, method: Method) -> Step
        requires unbegun { call_on self.old stream ≡ None }
        requires single { is_single method ≡ true }
        ensures { (s : SettingView) → Opens s self.old self.new stream method result }
    {
        let mut step = Step::new(self.alloc);
        let call = OpenCall::Receives(method, None, false);
        let Ok(()) = self.calls.add(stream, call) else {
            step.end = Some(want_of_memory());
            return step;
        };
        step
    }

    // A call began on a stream on which none is open. A Modify call begins a session.
    fn begin_unbegun<R: Wait, M: Machine<Command = Command, Reply = Reply>>(
        &mut self,
        rt: &R,
        lock: &TableLock<M>,
        pass: &mut Pass<M>,
        stream: u32,
        method: Method,
    ) -> Result<Step, EngineFault>
        requires pass { IsPassOf lock.now pass.old }
        requires sound { IsSound M.lawful lock.now.setup pass.old }
        requires unbegun { call_on self.old stream ≡ None }
        ensures done { IfOk result (λ step. (s : SettingView)
            → DoesAction M.lawful lock.now.setup s self.old self.new pass.old pass.new stream IsNotBegun (Handles (Begun stream method)) step) }
        ensures spent { IfErr result (λ _. (s : SettingView)
            → IsSpentIn M.lawful lock.now.setup s pass.old pass.new stream IsNotBegun (Begun stream method ∷ [])) }
    {
        match method {
            Method::Modify => self.begin_modify(rt, lock, pass, stream),
            Method::Get => Ok(self.begin_single(stream, Method::Get)),
            Method::Flush => Ok(self.begin_single(stream, Method::Flush)),
        }
    }

    /// A call began on a stream on which none was begun. A Modify call begins a session. Where a call is open on the stream nothing is
    /// done.
    pub fn begin<R: Wait, M: Machine<Command = Command, Reply = Reply>>(
        &mut self,
        rt: &R,
        lock: &TableLock<M>,
        pass: &mut Pass<M>,
        stream: u32,
        method: Method,
    ) -> Result<Step, EngineFault>
        requires pass { IsPassOf lock.now pass.old }
        requires sound { IsSound M.lawful lock.now.setup pass.old }
        ensures done { call_on self.old stream ≡ None → IfOk result (λ step. (s : SettingView)
            → DoesAction M.lawful lock.now.setup s self.old self.new pass.old pass.new stream IsNotBegun (Handles (Begun stream method)) step) }
        ensures spent { call_on self.old stream ≡ None → IfErr result (λ _. (s : SettingView)
            → IsSpentIn M.lawful lock.now.setup s pass.old pass.new stream IsNotBegun (Begun stream method ∷ [])) }
        ensures nothing { IsSome (call_on self.old stream) → (self.new ≡ self.old) × (pass.new ≡ pass.old)
            × (result ≡ Ok (record { answers = []; end = None; halted = false })) }
    {
        if self.calls.is_open(stream) {
            return Ok(Step::new(self.alloc));
        }
        self.begin_unbegun(rt, lock, pass, stream, method)
    }

    /// A message came on a call. A Modify call does what it orders; a Get and a Flush keep it until their client ends its side.
    pub fn request<R: Wait, M: Machine<Command = Command, Reply = Reply>, C: Clock>(
        &mut self,
        rt: &R,
        lock: &TableLock<M>,
        pass: &mut Pass<M>,
        setting: &Setting,
        stream: u32,
        message: Bytes,
        clock: &mut C,
    ) -> Result<Step, EngineFault>
        requires pass { IsPassOf lock.now pass.old }
        requires sound { IsSound M.lawful lock.now.setup pass.old }
        ensures done { IfOk result (λ step.
            HandlesCall M.lawful lock.now.setup setting.now self.old self.new pass.old pass.new stream (Request stream message) step) }
        ensures spent { IfErr result (λ _.
            IsSpentIn M.lawful lock.now.setup setting.now pass.old pass.new stream (Stands setting.now (call_on self.old stream)) (Request stream
            message ∷ [])) }
    {
        match self.calls.open_session(stream) {
            Some(session) => {
                let now = clock.now();
                let bytes = message.as_slice();
                self.request_modify(rt, lock, pass, setting, stream, session, bytes, now)
            }
            None => {
                self.calls.receive(stream, message);
                Ok(Step::new(self.alloc))
            }
        }
    }

    /// A call is over that had begun: its client reset it, it broke a rule, or it is refused with another answer. Its session leaves.
    pub fn dropped<R: Wait, M: Machine<Command = Command, Reply = Reply>>(
        &mut self,
        rt: &R,
        lock: &TableLock<M>,
        pass: &mut Pass<M>,
        stream: u32,
    ) -> Result<(), EngineFault>
        requires pass { IsPassOf lock.now pass.old }
        requires sound { IsSound M.lawful lock.now.setup pass.old }
        ensures done { IfOk result (λ _. (s : SettingView) (call : Call Method CallEnd) → IsDropOf stream call
            → DropsCall M.lawful lock.now.setup s self.old self.new pass.old pass.new stream call) }
        ensures spent { IfErr result (λ _. (s : SettingView) (call : Call Method CallEnd) → IsDropOf stream call
            → IsSpentIn M.lawful lock.now.setup s pass.old pass.new stream (Stands s (call_on self.old stream)) (call ∷ [])) }
        ensures fewer { IsSome (call_on self.old stream) → OnOk result (length self.new < length self.old) }
    {
        if let Some((session, _)) = self.calls.session(stream) {
            leave(rt, lock, pass, session)?;
        }
        self.calls.remove(stream);
        Ok(())
    }

    // Does the command of a Get or a Flush, which was taken out.
    fn do_asked<R: Wait, M: Machine<Command = Command, Reply = Reply>>(
        &mut self,
        rt: &R,
        lock: &TableLock<M>,
        pass: &mut Pass<M>,
        setting: &Setting,
        stream: u32,
        command: Command,
    ) -> Result<Step, EngineFault>
        requires pass { IsPassOf lock.now pass.old }
        requires sound { IsSound M.lawful lock.now.setup pass.old }
        requires taken { call_on self.old stream ≡ None }
        requires single { is_single_command command ≡ true }
        ensures done { IfOk result (λ step. (method : Method) (first : Option (List ℕ)) (is_more : Bool)
            → asked_by setting.now method first is_more ≡ Ok (timeless command)
            → DoesAction M.lawful lock.now.setup setting.now self.old self.new pass.old pass.new stream (IsReceiving method first is_more) (Handles
            (Finished stream)) step) }
        ensures spent { IfErr result (λ _. (method : Method) (first : Option (List ℕ)) (is_more : Bool)
            → asked_by setting.now method first is_more ≡ Ok (timeless command)
            → IsSpentIn M.lawful lock.now.setup setting.now pass.old pass.new stream (IsReceiving method first is_more) (Finished stream ∷ [])) }
    {
        let mut step = Step::new(self.alloc);
        match do_single(rt, self.alloc, lock, pass, setting, command, &mut step) {
            SingleEnd::Spent => Err(EngineFault::Spent),
            SingleEnd::Over => Ok(step),
            SingleEnd::OutOfMemory => {
                step.end = Some(want_of_memory());
                Ok(step)
            }
            SingleEnd::Selects(rows) => {
                let Ok(()) = self.calls.add(stream, OpenCall::Responds(rows)) else {
                    step.end = Some(want_of_memory());
                    return Ok(step);
                };
                Ok(step)
            }
        }
    }

    // Ends the client's side of a Get or a Flush, which was taken out.
    fn finish_single<R: Wait, M: Machine<Command = Command, Reply = Reply>>(
        &mut self,
        rt: &R,
        lock: &TableLock<M>,
        pass: &mut Pass<M>,
        setting: &Setting,
        stream: u32,
        method: Method,
        first: Option<Bytes>,
        is_more: bool,
        now: i64,
    ) -> Result<Step, EngineFault>
        requires pass { IsPassOf lock.now pass.old }
        requires sound { IsSound M.lawful lock.now.setup pass.old }
        requires taken { call_on self.old stream ≡ None }
        ensures done { IfOk result (λ step.
            DoesAction M.lawful lock.now.setup setting.now self.old self.new pass.old pass.new stream (IsReceiving method first is_more) (Handles
            (Finished stream)) step) }
        ensures spent { IfErr result (λ _.
            IsSpentIn M.lawful lock.now.setup setting.now pass.old pass.new stream (IsReceiving method first is_more) (Finished stream ∷ [])) }
    {
        match read_asked(self.alloc, setting, method, &first, is_more, now) {
            Asked::Does(command) => self.do_asked(rt, lock, pass, setting, stream, command),
            Asked::Refused(status) => {
                let mut step = Step::new(self.alloc);
                step.end = Some(status);
                Ok(step)
            }
            Asked::OutOfMemory => {
                let mut step = Step::new(self.alloc);
                step.end = Some(want_of_memory());
                Ok(step)
            }
        }
    }

    /// The client of a call ended its side. A Get and a Flush do what their one message asks for, or are refused; a Modify call is
    /// collected for until nothing is outstanding.
    pub fn finish<R: Wait, M: Machine<Command = Command, Reply = Reply>, C: Clock>(
        &mut self,
        rt: &R,
        lock: &TableLock<M>,
        pass: &mut Pass<M>,
        setting: &Setting,
        stream: u32,
        clock: &mut C,
    ) -> Result<Step, EngineFault>
        requires pass { IsPassOf lock.now pass.old }
        requires sound { IsSound M.lawful lock.now.setup pass.old }
        ensures done { IfOk result (λ step.
            HandlesCall M.lawful lock.now.setup setting.now self.old self.new pass.old pass.new stream (Finished stream) step) }
        ensures spent { IfErr result (λ _.
            IsSpentIn M.lawful lock.now.setup setting.now pass.old pass.new stream (Stands setting.now (call_on self.old stream)) (Finished stream ∷ [])) }
    {
        match self.calls.take_receiving(stream) {
            Some((method, first, is_more)) => {
                let now = clock.now();
                self.finish_single(rt, lock, pass, setting, stream, method, first, is_more, now)
            }
            None => {
                self.calls.finish(stream);
                Ok(Step::new(self.alloc))
            }
        }
    }

    /// Whether a Modify call on the stream has a session, for which results can be collected.
    pub fn has_session(&self, stream: u32) -> bool
        ensures { result ≡ is_some (session_in (call_on self.now stream)) }
    {
        self.calls.session(stream).is_some()
    }

    /// Whether a Get on the stream is still to be given responses.
    pub fn is_selecting(&self, stream: u32) -> bool
        ensures { result ≡ is_responding (call_on self.now stream) }
    {
        self.calls.is_responding(stream)
    }

    /// The next response of a Get whose rows were selected, with its good end beside the last. Where it selected no row it is given
    /// the end alone. A stream on which no such Get waits is given nothing.
    pub fn more(&mut self, setting: &Setting, stream: u32) -> Step
        ensures given { is_responding (call_on self.old stream) ≡ true → ContinuesCall setting.now self.old self.new stream result }
        ensures falls { is_responding (call_on self.old stream) ≡ true
            → remaining (call_on self.new stream) < remaining (call_on self.old stream) }
        ensures over { is_responding (call_on self.old stream) ≡ true → is_some result.end ≡ not (is_responding (call_on self.new stream)) }
        ensures nothing { is_responding (call_on self.old stream) ≡ false
            → (self.new ≡ self.old) × (result ≡ record { answers = []; end = None; halted = false }) }
    {
        let mut step = Step::new(self.alloc);
        if !self.calls.is_responding(stream) {
            return step;
        }
        match self.calls.give(self.alloc, setting, stream, &mut step) {
            Given::Part => step,
            Given::Last => {
                self.calls.remove(stream);
                step
            }
            Given::OutOfMemory => {
                self.calls.remove(stream);
                step.end = Some(want_of_memory());
                step
            }
        }
    }
}
