//! A link in memory, served to its end.
use aft_entries::Instances;
use call_answers::Setting;
use h2_exchange::CalmCause;
use rib_core::RibCore;
use rig_io::{LinkStep, MemLink, StepClock};
use schema_numbers::default_numbering;
use server_conn::serve_link;
use server_turns::{DropCause, Outcome};
use std::alloc::Global;
use std::sync::Wait;
use std::test::Fail;
use table_lock::TableLock;
use table_model::Config;

/// A table of one instance and one worker.
pub(crate) const ONE: Config = Config {
    instances: 1,
    workers: 1,
    limit: 100,
};

/// How a connection is to end.
#[derive(Clone, Copy, Debug, PartialEq, Eq)]
pub(crate) enum End {
    Served,
    ReadFault,
    WriteFault,
    Dropped(DropCause),
    /// The code and the place.
    Protocol(u32, u64),
    Calm(CalmCause),
    Halted,
    Spent,
    NoMemory,
}

pub(crate) fn end_of(outcome: &Outcome) -> End {
    match outcome {
        Outcome::Served => End::Served,
        Outcome::ReadFault => End::ReadFault,
        Outcome::WriteFault => End::WriteFault,
        Outcome::Dropped(cause) => End::Dropped(*cause),
        Outcome::Protocol(why, place) => End::Protocol(why.0, *place),
        Outcome::Calm(cause) => End::Calm(*cause),
        Outcome::Halted => End::Halted,
        Outcome::Spent => End::Spent,
        Outcome::NoMemory => End::NoMemory,
    }
}

/// What requests are read with: one instance, DEFAULT.
pub(crate) fn setting(alloc: Global) -> Result<Setting, Fail> {
    let mut names = Vec::new(alloc);
    names.push(String::from_str(alloc, "DEFAULT")?)?;
    Ok(Setting {
        numbering: default_numbering(alloc)?,
        instances: Instances::new(names)?,
    })
}

/// Serves a client that sends these bytes, over a link of this plan, and answers how that ends and what is written.
pub(crate) fn serve<R: Wait>(
    rt: &R,
    alloc: Global,
    plan: Vec<LinkStep>,
    bytes: &[u8],
) -> Result<(End, MemLink), Fail> {
    let setting = setting(alloc)?;
    let (lock, mut pass) = TableLock::new(alloc, RibCore::new(alloc, ONE)?)?;
    let mut link = MemLink::new(alloc, plan);
    link.feed(bytes)?;
    link.end_input();
    let mut clock = StepClock::new(3);
    let outcome = serve_link(rt, alloc, &lock, &mut pass, &mut link, &setting, &mut clock);
    Ok((end_of(&outcome), link))
}
