use crate::replies::{ReplySummary, summary_of};
use crate::steps::Item::{Group, Hop, Net, Net6};
use crate::steps::TestCommand::{
    Add, AllPrimary, Announce, Bad, Begin, Delete, Leave, Params as Ask, Replace,
};
use crate::steps::{TestCommand, command};
use aft_entries::Reason;
use rib_core::RibCore;
use std::alloc::{AllocError, Global};
use std::test::Fail;
use table_model::AckType::{Rib, RibAndFib};
use table_model::Persistence::{Delete as Gone, Preserve};
use table_model::{Command, Config, Params};

fn discard(command: Command) -> ReplySummary {
    let _ = command;
    ReplySummary::NoMemory
}

pub fn answer(core: &mut RibCore, command: Command) -> ReplySummary {
    if core.events() < 1000 {
        summary_of(&core.act(command))
    } else {
        discard(command)
    }
}

// How many replies, from the first on, are those that are told.
fn as_expected(
    alloc: Global,
    core: &mut RibCore,
    steps: &[(TestCommand, ReplySummary)],
) -> Result<usize, AllocError> {
    let mut same = 0;
    for (step, wanted) in steps {
        if answer(core, command(alloc, *step)?) != *wanted {
            return Ok(same);
        }
        same = same.wrapping_add(1);
    }
    Ok(same)
}

// How many replies of a core with a limit are those that are told, and how many entries and installed ones it has then.
pub fn played(
    alloc: Global,
    limit: u64,
    steps: &[(TestCommand, ReplySummary)],
) -> Result<(usize, u64, u64), AllocError> {
    let config = Config {
        instances: 2,
        workers: 1,
        limit: limit.max(1).min(1000),
    };
    let mut core = RibCore::new(alloc, config)?;
    let same = as_expected(alloc, &mut core, steps)?;
    Ok((same, core.entries(), core.installed()))
}

// An equal id wins for the session that came last.
const EQUAL_IDS: &[(TestCommand, ReplySummary)] = &[
    (Begin, ReplySummary::Began(0)),
    (Ask(0, Preserve, Rib), ReplySummary::Set),
    (Begin, ReplySummary::Began(2)),
    (Ask(2, Preserve, Rib), ReplySummary::Set),
    (Announce(0, 0), ReplySummary::ZeroId),
    (Announce(0, 1), ReplySummary::Announced(1)),
    (Announce(0, u128::MAX), ReplySummary::Announced(u128::MAX)),
    (Announce(2, u128::MAX), ReplySummary::Announced(u128::MAX)),
    (
        Add(0, u128::MAX, Hop(1)),
        ReplySummary::Failed(Reason::NotPrimary),
    ),
    (Add(2, u128::MAX, Hop(1)), ReplySummary::Accepted),
    (
        Add(2, 1, Hop(1)),
        ReplySummary::Failed(Reason::ElectionIdDiffers),
    ),
];

// A session that announces a lower id is the primary no longer.
const LOWER_ID: &[(TestCommand, ReplySummary)] = &[
    (Begin, ReplySummary::Began(0)),
    (Ask(0, Preserve, Rib), ReplySummary::Set),
    (Announce(0, 1), ReplySummary::Announced(1)),
    (Announce(0, 5), ReplySummary::Announced(5)),
    (Announce(0, 4), ReplySummary::Announced(5)),
    (Add(0, 5, Hop(1)), ReplySummary::Failed(Reason::NotPrimary)),
    (Announce(0, 5), ReplySummary::Announced(5)),
    (Add(0, 5, Hop(1)), ReplySummary::Accepted),
];

const NET: u32 = 0xc633_6400;

const IN_USE: ReplySummary = ReplySummary::Failed(Reason::InUse);

// Entries before and after what they refer to, in the same instance and in another.
const REFERENCES: &[(TestCommand, ReplySummary)] = &[
    (Begin, ReplySummary::Began(0)),
    (Ask(0, Preserve, Rib), ReplySummary::Set),
    (Announce(0, 1), ReplySummary::Announced(1)),
    (
        Add(0, 1, Net(0, NET, 1)),
        ReplySummary::Failed(Reason::Unresolved),
    ),
    (Add(0, 1, Hop(1)), ReplySummary::Accepted),
    (Add(0, 1, Group(1, 1, None)), ReplySummary::Accepted),
    (
        Add(0, 1, Net(0, NET + 1, 1)),
        ReplySummary::Failed(Reason::BadKey),
    ),
    (
        Add(0, 1, Net(2, NET, 1)),
        ReplySummary::Failed(Reason::UnknownInstance),
    ),
    (Add(0, 1, Net(0, NET, 1)), ReplySummary::Accepted),
    (Delete(0, 1, Group(1, 1, None)), IN_USE),
    (Delete(0, 1, Hop(1)), IN_USE),
    (Add(0, 1, Net6(1, 1)), ReplySummary::Accepted),
    (Delete(0, 1, Net(0, NET, 1)), ReplySummary::Accepted),
    (Delete(0, 1, Group(1, 1, None)), IN_USE),
    (Delete(0, 1, Hop(9)), ReplySummary::Accepted),
    (Replace(0, 1, Hop(1)), ReplySummary::Accepted),
    (Replace(0, 1, Hop(1)), ReplySummary::Accepted),
    (
        Replace(0, 1, Hop(4)),
        ReplySummary::Failed(Reason::NotThere),
    ),
    (
        Bad(0, 1, Reason::KindUnsupported),
        ReplySummary::Failed(Reason::KindUnsupported),
    ),
];

const DEEP: ReplySummary = ReplySummary::Failed(Reason::BackupDepth);

// Chains of up to four groups, by their backups, none of which comes back.
const BACKUPS: &[(TestCommand, ReplySummary)] = &[
    (Begin, ReplySummary::Began(0)),
    (Ask(0, Preserve, Rib), ReplySummary::Set),
    (Announce(0, 1), ReplySummary::Announced(1)),
    (Add(0, 1, Hop(1)), ReplySummary::Accepted),
    (Add(0, 1, Group(3, 1, None)), ReplySummary::Accepted),
    (Add(0, 1, Group(3, 1, Some(3))), DEEP),
    (Add(0, 1, Group(2, 1, Some(3))), ReplySummary::Accepted),
    (Add(0, 1, Group(3, 1, Some(2))), DEEP),
    (Add(0, 1, Group(1, 1, Some(2))), ReplySummary::Accepted),
    (Add(0, 1, Group(4, 1, Some(1))), ReplySummary::Accepted),
    (Add(0, 1, Group(5, 1, Some(4))), DEEP),
    (Add(0, 1, Group(5, 1, None)), ReplySummary::Accepted),
    (Add(0, 1, Group(3, 1, Some(5))), DEEP),
    (Add(0, 1, Group(6, 1, Some(5))), ReplySummary::Accepted),
];

// A full table takes no new key, but what is there again.
const FULL: &[(TestCommand, ReplySummary)] = &[
    (Begin, ReplySummary::Began(0)),
    (Ask(0, Preserve, Rib), ReplySummary::Set),
    (Announce(0, 1), ReplySummary::Announced(1)),
    (Add(0, 1, Hop(1)), ReplySummary::Accepted),
    (Add(0, 1, Hop(2)), ReplySummary::Accepted),
    (Add(0, 1, Hop(3)), ReplySummary::Accepted),
    (Add(0, 1, Hop(4)), ReplySummary::Accepted),
    (Add(0, 1, Hop(5)), ReplySummary::Failed(Reason::TableFull)),
    (Add(0, 1, Hop(4)), ReplySummary::Accepted),
    (Delete(0, 1, Hop(1)), ReplySummary::Accepted),
    (Add(0, 1, Hop(5)), ReplySummary::Accepted),
];

const SET: Params = Params {
    persistence: Preserve,
    ack: RibAndFib,
};

// Parameters and what goes before them.
const PARAMETERS: &[(TestCommand, ReplySummary)] = &[
    (Begin, ReplySummary::Began(0)),
    (AllPrimary(0), ReplySummary::Unsupported),
    (Announce(0, 1), ReplySummary::NoParams),
    (Add(0, 1, Hop(1)), ReplySummary::NoParams),
    (Ask(0, Preserve, RibAndFib), ReplySummary::Set),
    (Ask(0, Preserve, Rib), ReplySummary::NotAllowed),
    (Begin, ReplySummary::Began(6)),
    (Ask(6, Preserve, Rib), ReplySummary::Differ(SET)),
    (Ask(5, Gone, Rib), ReplySummary::Gone),
];

// The primary takes all entries with it under DELETE, whoever put them; another session takes none.
const LEAVING: &[(TestCommand, ReplySummary)] = &[
    (Begin, ReplySummary::Began(0)),
    (Ask(0, Gone, Rib), ReplySummary::Set),
    (Announce(0, 1), ReplySummary::Announced(1)),
    (Add(0, 1, Hop(1)), ReplySummary::Accepted),
    (Begin, ReplySummary::Began(4)),
    (Ask(4, Gone, Rib), ReplySummary::Set),
    (Announce(4, 1), ReplySummary::Announced(1)),
    (Add(4, 1, Group(1, 1, None)), ReplySummary::Accepted),
    (Leave(0), ReplySummary::Left),
    (Leave(0), ReplySummary::Gone),
    (Delete(4, 1, Hop(1)), IN_USE),
    (Leave(4), ReplySummary::Left),
    (Begin, ReplySummary::Began(12)),
];

// The limit, what is asked and told, and how many entries there are then.
const HISTORIES: &[(u64, &[(TestCommand, ReplySummary)], u64)] = &[
    (1000, EQUAL_IDS, 1),
    (1000, LOWER_ID, 1),
    (1000, REFERENCES, 3),
    (1000, BACKUPS, 7),
    (4, FULL, 4),
    (1000, PARAMETERS, 0),
    (1000, LEAVING, 0),
];

#[test]
fn histories_are_answered(rt: HostRuntime) -> Result<(), Fail> {
    for (limit, steps, entries) in HISTORIES {
        assert_eq!(rt;
            played(rt.alloc(), *limit, steps)?,
            (steps.len(), *entries, 0)
        );
    }
    Ok(())
}
