//! A connection's engine over a table of its own.
ghost use Rattle.std.specs.Prelude.{◌≡◌, ℕ, IfOk, None, true};
ghost use Rattle.rib_core.specs.Recorded.{IsLawful};
ghost use Rattle.session_engine.specs.Queries.{call_on};
ghost use Rattle.session_engine.specs.Stands.{AreSameElsewhere};
ghost use Rattle.table_lock.specs.Passes.{IsPassOf, IsSound};

use aft_entries::Instances;
use bytes::Bytes;
use call_answers::Setting;
use grpc_heads::Method;
use rib_core::RibCore;
use rig_io::StepClock;
use schema_numbers::default_numbering;
use session_engine::{SessionEngine, Step};
use std::alloc::Global;
use std::sync::Wait;
use std::test::Fail;
use table_lock::{Pass, TableLock};
use table_model::{Command, Config, Job, Reply, Verdict};

const ONE: Config = Config {
    instances: 1,
    workers: 1,
    limit: 100,
};

/// A connection alone over a table of one instance, DEFAULT, with one worker.
#[derive(Drop)]
pub(crate) struct OneConnection {
    pub lock: TableLock<RibCore>,
    pub pass: Pass<RibCore>,
    pub engine: SessionEngine,
    pub setting: Setting,
    pub clock: StepClock,
    pub is_begun: bool,
}

// No call yet; the clock answers 3 first.
fn connect(alloc: Global) -> Result<OneConnection, Fail>
    ensures pass { IfOk result (λ c. IsPassOf c.lock c.pass) }
    ensures sound { IfOk result (λ c. IsSound IsLawful c.lock.setup c.pass) }
    ensures none { IfOk result (λ c. (id : ℕ) → call_on c.engine id ≡ None) }
{
    let mut names = Vec::new(alloc);
    names.push(String::from_str(alloc, "DEFAULT")?)?;
    let setting = Setting {
        numbering: default_numbering(alloc)?,
        instances: Instances::new(names)?,
    };
    let (lock, pass) = TableLock::new(alloc, RibCore::new(alloc, ONE)?)?;
    Ok(OneConnection {
        lock,
        pass,
        engine: SessionEngine::new(alloc),
        setting,
        clock: StepClock::new(3),
        is_begun: false,
    })
}

/// A connection on which calls of these methods were begun, on the streams 1, 3 and 5.
pub(crate) fn connect_with<R: Wait>(
    rt: &R,
    alloc: Global,
    methods: &[Method; 3],
) -> Result<OneConnection, Fail>
    ensures { IfOk result (λ c. IsPassOf c.lock c.pass) }
{
    let [first, second, third] = *methods;
    let mut one = connect(alloc)?;
    one.is_begun = one.begin_three(rt, first, second, third);
    Ok(one)
}

fn is_quiet(step: Step) -> bool {
    step.end.is_none() && !step.halted
}

// The job that a worker was given is done.
fn report(job: Job) -> Command {
    Command::Report(job.number, Verdict::Programmed, 9)
}

impl OneConnection {
    // Whether a call begins on this stream, which is given nothing.
    fn begin<R: Wait>(&mut self, rt: &R, stream: u32, method: Method) -> bool
        requires pass { IsPassOf self.old.lock self.old.pass }
        requires sound { IsSound IsLawful self.old.lock.setup self.old.pass }
        requires unbegun { call_on self.old.engine stream ≡ None }
        ensures pass { IsPassOf self.new.lock self.new.pass }
        ensures sound { IsSound IsLawful self.new.lock.setup self.new.pass }
        ensures others { result ≡ true → AreSameElsewhere stream self.old.engine self.new.engine }
    {
        match self
            .engine
            .begin(rt, &self.lock, &mut self.pass, stream, method)
        {
            Err(_) => false,
            Ok(step) => is_quiet(step),
        }
    }

    fn begin_three<R: Wait>(&mut self, rt: &R, first: Method, second: Method, third: Method) -> bool
        requires pass { IsPassOf self.old.lock self.old.pass }
        requires sound { IsSound IsLawful self.old.lock.setup self.old.pass }
        requires none { (id : ℕ) → call_on self.old.engine id ≡ None }
        ensures { IsPassOf self.new.lock self.new.pass }
    {
        if !self.begin(rt, 1, first) {
            return false;
        }
        if !self.begin(rt, 3, second) {
            return false;
        }
        self.begin(rt, 5, third)
    }

    // The pass takes in what it tells itself, by which it knows a lawful history.
    fn settle(&mut self)
        requires { IsPassOf self.old.lock self.old.pass }
        ensures pass { IsPassOf self.new.lock self.new.pass }
        ensures sound { IsSound IsLawful self.new.lock.setup self.new.pass }
        ensures engine { self.new.engine ≡ self.old.engine }
    {
        let note = self.lock.tell(&mut self.pass);
        self.lock.learn(&mut self.pass, note);
    }

    /// A message comes on a call.
    pub(crate) fn request<R: Wait>(&mut self, rt: &R, stream: u32, message: Bytes) -> Option<Step>
        requires { IsPassOf self.old.lock self.old.pass }
        ensures { IsPassOf self.new.lock self.new.pass }
    {
        self.settle();
        match self.engine.request(
            rt,
            &self.lock,
            &mut self.pass,
            &self.setting,
            stream,
            message,
            &mut self.clock,
        ) {
            Err(_) => None,
            Ok(step) => Some(step),
        }
    }

    /// Collects results for a call, if it has a session.
    pub(crate) fn collect<R: Wait>(&mut self, rt: &R, stream: u32) -> Option<Step>
        requires { IsPassOf self.old.lock self.old.pass }
        ensures { IsPassOf self.new.lock self.new.pass }
    {
        self.settle();
        if !self.engine.has_session(stream) {
            return None;
        }
        match self
            .engine
            .collect(rt, &self.lock, &mut self.pass, &self.setting, stream)
        {
            Err(_) => None,
            Ok((step, _)) => Some(step),
        }
    }

    /// The client of a call ends its side.
    pub(crate) fn finish<R: Wait>(&mut self, rt: &R, stream: u32) -> Option<Step>
        requires { IsPassOf self.old.lock self.old.pass }
        ensures { IsPassOf self.new.lock self.new.pass }
    {
        self.settle();
        match self.engine.finish(
            rt,
            &self.lock,
            &mut self.pass,
            &self.setting,
            stream,
            &mut self.clock,
        ) {
            Err(_) => None,
            Ok(step) => Some(step),
        }
    }

    /// The next response of a Get.
    pub(crate) fn more(&mut self, stream: u32) -> Step
        ensures { (self.new.lock ≡ self.old.lock) × (self.new.pass ≡ self.old.pass) }
    {
        self.engine.more(&self.setting, stream)
    }

    /// Whether the call is dropped.
    pub(crate) fn dropped<R: Wait>(&mut self, rt: &R, stream: u32) -> bool
        requires { IsPassOf self.old.lock self.old.pass }
        ensures { IsPassOf self.new.lock self.new.pass }
    {
        self.settle();
        match self.engine.dropped(rt, &self.lock, &mut self.pass, stream) {
            Err(_) => false,
            Ok(_) => true,
        }
    }

    /// Gives a command beside the calls, and lets its reply go.
    pub(crate) fn tell<R: Wait>(&mut self, rt: &R, command: Command) -> bool
        requires { IsPassOf self.old.lock self.old.pass }
        ensures { IsPassOf self.new.lock self.new.pass }
    {
        self.lock.call(rt, &mut self.pass, command).is_ok()
    }

    // The next job of the worker.
    fn next_job<R: Wait>(&mut self, rt: &R) -> Option<Job>
        requires { IsPassOf self.old.lock self.old.pass }
        ensures { IsPassOf self.new.lock self.new.pass }
    {
        match self.lock.call(rt, &mut self.pass, Command::Take(0, 8)) {
            Ok(Reply::Given(job)) => Some(job),
            _ => None,
        }
    }

    /// Whether the worker has a job, which it does.
    pub(crate) fn work<R: Wait>(&mut self, rt: &R) -> bool
        requires { IsPassOf self.old.lock self.old.pass }
        ensures { IsPassOf self.new.lock self.new.pass }
    {
        match self.next_job(rt) {
            None => false,
            Some(job) => self.tell(rt, report(job)),
        }
    }
}
