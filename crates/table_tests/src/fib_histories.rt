use crate::histories::played;
use crate::replies::ReplySummary;
use crate::steps::Item::{Group, Hop, Net};
use crate::steps::TestCommand;
use crate::steps::TestCommand::{
    Add, Announce, Begin, Collect, Delete, Done, Failed, Flush, Get, Halt, Leave, Params, Replace,
    Take,
};
use aft_entries::Reason;
use std::test::Fail;
use table_model::AckType::{Rib, RibAndFib};
use table_model::Persistence::{Delete as Gone, Preserve};
use table_model::{FlushBy, Which};

const NET: u32 = 0xc633_6400;

const RED: u32 = 0xcb00_7100;

// A route before what it refers to; each acknowledged entry is programmed; what is in use stays.
const ACKNOWLEDGED: &[(TestCommand, ReplySummary)] = &[
    (Begin, ReplySummary::Began(0)),
    (Params(0, Preserve, RibAndFib), ReplySummary::Set),
    (Announce(0, 1), ReplySummary::Announced(1)),
    (
        Add(0, 1, Net(0, NET, 1)),
        ReplySummary::Failed(Reason::Unresolved),
    ),
    (Add(0, 1, Hop(1)), ReplySummary::Accepted),
    (Collect(0), ReplySummary::Collected(0, 1)),
    (Take(0), ReplySummary::Given(4, 0)),
    (Take(0), ReplySummary::Idle),
    (Done(4, 0), ReplySummary::Reported),
    (Done(4, 0), ReplySummary::NotOut),
    (Collect(0), ReplySummary::Collected(1, 0)),
    (Add(0, 1, Group(1, 1, None)), ReplySummary::Accepted),
    (Take(0), ReplySummary::Given(11, 0)),
    (Done(11, 0), ReplySummary::Reported),
    (Add(0, 1, Net(0, NET, 1)), ReplySummary::Accepted),
    (Take(0), ReplySummary::Given(14, 0)),
    (Done(14, 0), ReplySummary::Reported),
    (Collect(0), ReplySummary::Collected(2, 0)),
    (Collect(0), ReplySummary::Collected(0, 0)),
    (
        Delete(0, 1, Group(1, 1, None)),
        ReplySummary::Failed(Reason::InUse),
    ),
    (Get(Which::All), ReplySummary::Rows(3, 3)),
];

// The primary's entries go with it, and their removals go out in order: the route, the group, the next hop.
const LEAVING: &[(TestCommand, ReplySummary)] = &[
    (Begin, ReplySummary::Began(0)),
    (Params(0, Gone, Rib), ReplySummary::Set),
    (Announce(0, 1), ReplySummary::Announced(1)),
    (Add(0, 1, Hop(1)), ReplySummary::Accepted),
    (Take(0), ReplySummary::Given(3, 0)),
    (Done(3, 0), ReplySummary::Reported),
    (Add(0, 1, Group(1, 1, None)), ReplySummary::Accepted),
    (Take(0), ReplySummary::Given(6, 0)),
    (Done(6, 0), ReplySummary::Reported),
    (Add(0, 1, Net(0, NET, 1)), ReplySummary::Accepted),
    (Take(0), ReplySummary::Given(9, 0)),
    (Done(9, 0), ReplySummary::Reported),
    (Params(0, Gone, Rib), ReplySummary::NotAllowed),
    (Leave(0), ReplySummary::Left),
    (Get(Which::All), ReplySummary::Rows(0, 0)),
    (Take(0), ReplySummary::Given(13, 0)),
    (Take(0), ReplySummary::Idle),
    (Done(13, 0), ReplySummary::Reported),
    (Take(0), ReplySummary::Given(13, 1)),
    (Done(13, 1), ReplySummary::Reported),
    (Take(0), ReplySummary::Given(13, 2)),
    (Done(13, 2), ReplySummary::Reported),
    (Take(0), ReplySummary::Idle),
];

// Where the device fails, what refers to the missing entry is passed over; both may be added again.
const FAULT: &[(TestCommand, ReplySummary)] = &[
    (Begin, ReplySummary::Began(0)),
    (Params(0, Preserve, RibAndFib), ReplySummary::Set),
    (Announce(0, 1), ReplySummary::Announced(1)),
    (Add(0, 1, Hop(1)), ReplySummary::Accepted),
    (Add(0, 1, Group(1, 1, None)), ReplySummary::Accepted),
    (Add(0, 1, Net(0, NET, 1)), ReplySummary::Accepted),
    (Take(0), ReplySummary::Given(3, 0)),
    (Done(3, 0), ReplySummary::Reported),
    (Take(0), ReplySummary::Given(4, 0)),
    (Failed(4, 0), ReplySummary::Reported),
    (Take(0), ReplySummary::Skipped(5, 0)),
    (Take(0), ReplySummary::Idle),
    (Collect(0), ReplySummary::Collected(3, 0)),
    (Get(Which::All), ReplySummary::Rows(3, 1)),
    (Add(0, 1, Group(1, 1, None)), ReplySummary::Accepted),
    (Add(0, 1, Net(0, NET, 1)), ReplySummary::Accepted),
    (Take(0), ReplySummary::Given(14, 0)),
    (Done(14, 0), ReplySummary::Reported),
    (Take(0), ReplySummary::Given(15, 0)),
    (Done(15, 0), ReplySummary::Reported),
    (Collect(0), ReplySummary::Collected(2, 0)),
    (Get(Which::All), ReplySummary::Rows(3, 3)),
];

// A Flush of one instance leaves what an entry of another reaches; one of all leaves nothing. An id below the highest, or
// 0, allows none.
const FLUSHES: &[(TestCommand, ReplySummary)] = &[
    (Begin, ReplySummary::Began(0)),
    (Params(0, Preserve, Rib), ReplySummary::Set),
    (Announce(0, 5), ReplySummary::Announced(5)),
    (Add(0, 5, Hop(1)), ReplySummary::Accepted),
    (Add(0, 5, Group(1, 1, None)), ReplySummary::Accepted),
    (Add(0, 5, Net(0, NET, 1)), ReplySummary::Accepted),
    (Add(0, 5, Net(1, RED, 1)), ReplySummary::Accepted),
    (Flush(FlushBy::Id(4), Which::All), ReplySummary::Refused(5)),
    (Flush(FlushBy::Id(0), Which::All), ReplySummary::Refused(5)),
    (
        Flush(FlushBy::Id(5), Which::One(0)),
        ReplySummary::Flushed(true),
    ),
    (Get(Which::All), ReplySummary::Rows(3, 0)),
    (
        Flush(FlushBy::Override, Which::All),
        ReplySummary::Flushed(false),
    ),
    (Get(Which::All), ReplySummary::Rows(0, 0)),
    (Add(0, 5, Hop(1)), ReplySummary::Accepted),
    (
        Flush(FlushBy::Override, Which::One(0)),
        ReplySummary::Flushed(false),
    ),
];

// A Halt stops what is new; workers go on until nothing is undone.
const HALTS: &[(TestCommand, ReplySummary)] = &[
    (Begin, ReplySummary::Began(0)),
    (Params(0, Preserve, RibAndFib), ReplySummary::Set),
    (Announce(0, 1), ReplySummary::Announced(1)),
    (Add(0, 1, Hop(1)), ReplySummary::Accepted),
    (Halt, ReplySummary::HaltDone),
    (Begin, ReplySummary::Stopped),
    (Params(0, Preserve, Rib), ReplySummary::Stopped),
    (Announce(0, 1), ReplySummary::Stopped),
    (Add(0, 1, Hop(2)), ReplySummary::Stopped),
    (Collect(9), ReplySummary::Stopped),
    (Flush(FlushBy::Override, Which::All), ReplySummary::Stopped),
    (Get(Which::All), ReplySummary::Stopped),
    (Take(0), ReplySummary::Given(3, 0)),
    (Take(0), ReplySummary::Idle),
    (Done(3, 0), ReplySummary::Reported),
    (Take(0), ReplySummary::HaltSeen),
    (Leave(0), ReplySummary::Left),
    (Leave(0), ReplySummary::Gone),
    (Halt, ReplySummary::HaltDone),
];

// A DELETE of a key that isn't there makes a job, and so does each REPLACE by the same payload.
const CHANGES: &[(TestCommand, ReplySummary)] = &[
    (Begin, ReplySummary::Began(0)),
    (Params(0, Preserve, RibAndFib), ReplySummary::Set),
    (Announce(0, 1), ReplySummary::Announced(1)),
    (Add(0, 1, Hop(1)), ReplySummary::Accepted),
    (Take(0), ReplySummary::Given(3, 0)),
    (Done(3, 0), ReplySummary::Reported),
    (Delete(0, 1, Hop(9)), ReplySummary::Accepted),
    (Take(0), ReplySummary::Given(6, 0)),
    (Done(6, 0), ReplySummary::Reported),
    (Replace(0, 1, Hop(1)), ReplySummary::Accepted),
    (Replace(0, 1, Hop(1)), ReplySummary::Accepted),
    (Take(0), ReplySummary::Given(9, 0)),
    (Take(0), ReplySummary::Idle),
    (Done(9, 0), ReplySummary::Reported),
    (Take(0), ReplySummary::Given(10, 0)),
    (Done(10, 0), ReplySummary::Reported),
    (Collect(0), ReplySummary::Collected(4, 0)),
];

// What is asked and told, and how many entries the table and the forwarding table have then.
const HISTORIES: &[(&[(TestCommand, ReplySummary)], u64, u64)] = &[
    (ACKNOWLEDGED, 3, 3),
    (LEAVING, 0, 0),
    (FAULT, 3, 3),
    (FLUSHES, 0, 0),
    (HALTS, 1, 1),
    (CHANGES, 1, 1),
];

#[test]
fn jobs_are_answered(rt: HostRuntime) -> Result<(), Fail> {
    for (steps, entries, installed) in HISTORIES {
        assert_eq!(rt;
            played(rt.alloc(), 1000, steps)?,
            (steps.len(), *entries, *installed)
        );
    }
    Ok(())
}
