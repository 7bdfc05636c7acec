use crate::replies::{ReplySummary, summary_of};
use crate::steps::Item::{Group, Hop, Net};
use crate::steps::TestCommand::{
    Add, Announce, Begin, Collect, Delete, Done, Failed, Flush, Get, Halt, Leave, Params, Replace,
    Take,
};
use crate::steps::{TestCommand, command};
use aft_entries::Reason;
use reference_model::{Event, reply_of, run_commands};
use std::alloc::{AllocError, Global};
use std::test::Fail;
use table_model::{AckType, Command, Config, FlushBy, Persistence, Which};

const ONE: Config = Config {
    instances: 1,
    workers: 1,
    limit: 9,
};

fn commands(
    alloc: Global,
    steps: &[(TestCommand, ReplySummary)],
) -> Result<Vec<Command>, AllocError> {
    let mut commands = Vec::new(alloc);
    for (step, _) in steps {
        commands.push(command(alloc, *step)?)?;
    }
    Ok(commands)
}

// How many replies, from the first on, are those that are told. The events come with the newest first.
fn count_expected(events: &[Event], steps: &[(TestCommand, ReplySummary)]) -> usize {
    let mut same = 0;
    for (event, (_, wanted)) in events.iter().rev().zip(steps) {
        if summary_of(&event.reply) != *wanted {
            return same;
        }
        same = same.wrapping_add(1);
    }
    same
}

fn as_expected(alloc: Global, steps: &[(TestCommand, ReplySummary)]) -> Result<usize, AllocError> {
    let history = run_commands(alloc, ONE, commands(alloc, steps)?)?;
    Ok(count_expected(history.as_slice(), steps))
}

fn first_reply(alloc: Global) -> Result<ReplySummary, AllocError> {
    let reply = reply_of(alloc, ONE, &[], &Command::Begin)?;
    Ok(summary_of(&reply))
}

const STEPS: &[(TestCommand, ReplySummary)] = &[
    (Begin, ReplySummary::Began(0)),
    (
        Params(0, Persistence::Delete, AckType::RibAndFib),
        ReplySummary::Set,
    ),
    (Announce(0, 1), ReplySummary::Announced(1)),
    (Add(0, 1, Hop(1)), ReplySummary::Accepted),
    (Add(0, 1, Group(1, 1, None)), ReplySummary::Accepted),
    (Add(0, 1, Net(0, 0xc6336400, 1)), ReplySummary::Accepted),
    (Take(0), ReplySummary::Given(3, 0)),
    (Take(0), ReplySummary::Idle),
    (Done(3, 0), ReplySummary::Reported),
    (Done(3, 0), ReplySummary::NotOut),
    (Take(0), ReplySummary::Given(4, 0)),
    (Failed(4, 0), ReplySummary::Reported),
    (Take(0), ReplySummary::Skipped(5, 0)),
    (Collect(0), ReplySummary::Collected(3, 0)),
    (
        Replace(0, 1, Hop(2)),
        ReplySummary::Failed(Reason::NotThere),
    ),
    (Get(Which::All), ReplySummary::Rows(3, 1)),
    (Delete(0, 1, Net(0, 0xc6336400, 1)), ReplySummary::Accepted),
    (
        Flush(FlushBy::Override, Which::All),
        ReplySummary::Flushed(false),
    ),
    (Leave(0), ReplySummary::Left),
    (Halt, ReplySummary::HaltDone),
    (Take(0), ReplySummary::Given(16, 0)),
    (Done(16, 0), ReplySummary::Reported),
    (Take(0), ReplySummary::Given(17, 0)),
    (Done(17, 0), ReplySummary::Reported),
    (Take(0), ReplySummary::Given(17, 1)),
    (Done(17, 1), ReplySummary::Reported),
    (Take(0), ReplySummary::HaltSeen),
];

// What the replies are in every case is proved, and computed for small histories in `table_laws`: here each command is
// run, with memory.
#[test]
fn each_command_is_answered(rt: HostRuntime) -> Result<(), Fail> {
    assert_eq!(rt; as_expected(rt.alloc(), STEPS)?, STEPS.len());
    assert!(rt; first_reply(rt.alloc())? == ReplySummary::Began(0));
    Ok(())
}
