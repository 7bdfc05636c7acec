use addr_text::{Prefix4, Prefix6};
use aft_entries::{
    Ask, Entry, GroupPayload, HopPayload, Key, KeyName, Labels, Member, Members, Payload, Reason,
    RoutePayload,
};
use std::alloc::{AllocError, Global};
use table_model::{
    AckType, AskedParams, Command, FlushBy, JobNumber, KindAsk, Operation, Persistence, Redundancy,
    Verdict, Which,
};

/// An entry: a next hop, a group of one next hop and maybe a backup, or a route of an instance to a group of
/// instance 0.
#[derive(Clone, Copy)]
pub enum Item {
    Hop(u64),
    Group(u64, u64, Option<u64>),
    Net(u16, u32, u64),
    Net6(u16, u64),
    Label(u16, u32, u64),
}

/// A command. Operations bear the id that is given, and every moment is 0.
#[derive(Clone, Copy)]
pub enum TestCommand {
    Begin,
    Params(u64, Persistence, AckType),
    AllPrimary(u64),
    Announce(u64, u128),
    Add(u64, u128, Item),
    Replace(u64, u128, Item),
    Delete(u64, u128, Item),
    Bad(u64, u128, Reason),
    Collect(u64),
    Leave(u64),
    Flush(FlushBy, Which),
    Get(Which),
    Take(u32),
    Done(u64, u64),
    Failed(u64, u64),
    Halt,
}

pub fn key(item: Item) -> Key {
    match item {
        Item::Hop(index) => Key {
            instance: 0,
            name: KeyName::Hop(index),
        },
        Item::Group(id, _, _) => Key {
            instance: 0,
            name: KeyName::Group(id),
        },
        Item::Net(instance, bits, _) => Key {
            instance,
            name: KeyName::V4(Prefix4 { bits, len: 24 }),
        },
        Item::Net6(instance, _) => Key {
            instance,
            name: KeyName::V6(documentation()),
        },
        Item::Label(instance, label, _) => Key {
            instance,
            name: KeyName::Label(label),
        },
    }
}

// The prefix that RFC 3849 sets apart.
fn documentation() -> Prefix6 {
    Prefix6 {
        bits: 0x2001_0db8 << 96,
        len: 32,
    }
}

fn hop(alloc: Global, index: u64) -> Entry {
    Entry {
        key: Key {
            instance: 0,
            name: KeyName::Hop(index),
        },
        payload: Payload::Hop(HopPayload {
            ip: None,
            mac: None,
            interface: None,
            subinterface: None,
            source: None,
            target: None,
            push: Labels::from_vec(Vec::new(alloc)),
        }),
    }
}

fn group(alloc: Global, id: u64, hop: u64, backup: Option<u64>) -> Result<Entry, AllocError> {
    let mut members = Vec::new(alloc);
    members.push(Member { hop, weight: 1 })?;
    Ok(Entry {
        key: Key {
            instance: 0,
            name: KeyName::Group(id),
        },
        payload: Payload::Group(GroupPayload {
            members: Members::from_vec(members),
            backup,
        }),
    })
}

fn net(instance: u16, bits: u32, group: u64) -> Entry {
    Entry {
        key: Key {
            instance,
            name: KeyName::V4(Prefix4 { bits, len: 24 }),
        },
        payload: Payload::Route(RoutePayload { instance: 0, group }),
    }
}

fn net6(instance: u16, group: u64) -> Entry {
    Entry {
        key: Key {
            instance,
            name: KeyName::V6(documentation()),
        },
        payload: Payload::Route(RoutePayload { instance: 0, group }),
    }
}

fn label(instance: u16, label: u32, group: u64) -> Entry {
    Entry {
        key: Key {
            instance,
            name: KeyName::Label(label),
        },
        payload: Payload::Route(RoutePayload { instance: 0, group }),
    }
}

pub fn entry(alloc: Global, item: Item) -> Result<Entry, AllocError> {
    match item {
        Item::Hop(index) => Ok(hop(alloc, index)),
        Item::Group(id, member, backup) => group(alloc, id, member, backup),
        Item::Net(instance, bits, group) => Ok(net(instance, bits, group)),
        Item::Net6(instance, group) => Ok(net6(instance, group)),
        Item::Label(instance, name, group) => Ok(label(instance, name, group)),
    }
}

fn operate(session: u64, election: u128, ask: Ask) -> Command {
    Command::Operate(
        session,
        Operation {
            id: 7,
            election: Some(election),
            ask,
        },
        0,
    )
}

fn put(
    alloc: Global,
    session: u64,
    election: u128,
    item: Item,
    replace: bool,
) -> Result<Command, AllocError> {
    let entry = entry(alloc, item)?;
    Ok(operate(session, election, Ask::Put(entry, replace)))
}

fn params(session: u64, redundancy: Redundancy, persistence: Persistence, ack: AckType) -> Command {
    Command::SetParams(
        session,
        AskedParams {
            redundancy: Some(redundancy),
            persistence: Some(persistence),
            ack: Some(ack),
        },
    )
}

fn report(position: u64, index: u64, verdict: Verdict) -> Command {
    Command::Report(JobNumber { position, index }, verdict, 0)
}

pub fn command(alloc: Global, step: TestCommand) -> Result<Command, AllocError> {
    match step {
        TestCommand::Begin => Ok(Command::Begin),
        TestCommand::Params(session, persistence, ack) => {
            Ok(params(session, Redundancy::SinglePrimary, persistence, ack))
        }
        TestCommand::AllPrimary(session) => Ok(params(
            session,
            Redundancy::AllPrimary,
            Persistence::Preserve,
            AckType::Rib,
        )),
        TestCommand::Announce(session, id) => Ok(Command::Announce(session, id)),
        TestCommand::Add(session, id, item) => put(alloc, session, id, item, false),
        TestCommand::Replace(session, id, item) => put(alloc, session, id, item, true),
        TestCommand::Delete(session, id, item) => Ok(operate(session, id, Ask::Remove(key(item)))),
        TestCommand::Bad(session, id, reason) => Ok(operate(session, id, Ask::Bad(reason))),
        TestCommand::Collect(session) => Ok(Command::Collect(session)),
        TestCommand::Leave(session) => Ok(Command::Leave(session)),
        TestCommand::Flush(by, which) => Ok(Command::Flush(by, which, 0)),
        TestCommand::Get(which) => Ok(Command::Select(which, KindAsk::All)),
        TestCommand::Take(worker) => Ok(Command::Take(worker, 0)),
        TestCommand::Done(position, index) => Ok(report(position, index, Verdict::Programmed)),
        TestCommand::Failed(position, index) => Ok(report(position, index, Verdict::DeviceFault)),
        TestCommand::Halt => Ok(Command::Halt),
    }
}
