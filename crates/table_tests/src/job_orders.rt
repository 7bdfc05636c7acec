use crate::histories::answer;
use crate::replies::ReplySummary;
use crate::steps::Item::{Group, Hop, Net};
use crate::steps::TestCommand::{
    Add, Announce, Begin, Collect, Delete, Done, Params, Replace, Take,
};
use crate::steps::{TestCommand, command};
use rib_core::RibCore;
use std::alloc::{AllocError, Global};
use std::test::Fail;
use table_model::AckType::RibAndFib;
use table_model::Config;
use table_model::Persistence::Preserve;

const NET: u32 = 0x0a00_0000;

// A route moves from one group to another, and the group that it left is deleted.
const STEPS: &[TestCommand] = &[
    Begin,
    Params(0, Preserve, RibAndFib),
    Announce(0, 1),
    Add(0, 1, Hop(1)),
    Add(0, 1, Hop(2)),
    Add(0, 1, Group(1, 1, None)),
    Add(0, 1, Group(2, 2, None)),
    Add(0, 1, Net(0, NET, 1)),
    Replace(0, 1, Net(0, NET, 2)),
    Replace(0, 1, Net(0, NET, 2)),
    Delete(0, 1, Group(1, 1, None)),
];

// The positions of the first REPLACE and of the DELETE.
const LEFT: u64 = 8;

const DELETED: u64 = 10;

fn begun(alloc: Global) -> Result<RibCore, AllocError> {
    let config = Config {
        instances: 1,
        workers: 3,
        limit: 9,
    };
    let mut core = RibCore::new(alloc, config)?;
    for step in STEPS {
        let _ = answer(&mut core, command(alloc, *step)?);
    }
    Ok(core)
}

// What a worker of the search does: it has a job, or it asks for one.
#[derive(Clone, Copy)]
struct Hands {
    jobs: [Option<u64>; 3],
    // Whether the job of the first REPLACE is done, and whether that of the DELETE was given before.
    left: bool,
    early: bool,
    done: u64,
}

// The worker asks, or reports the job that it has.
fn turn(
    alloc: Global,
    core: &mut RibCore,
    hands: Hands,
    worker: usize,
) -> Result<Hands, AllocError> {
    let mut after = hands;
    match hands.jobs[worker % 3] {
        Some(position) => {
            let told = answer(core, command(alloc, Done(position, 0))?);
            after.jobs[worker % 3] = None;
            after.left = hands.left || position == LEFT;
            if told == ReplySummary::Reported {
                after.done = hands.done.wrapping_add(1);
            }
        }
        None => {
            let told = answer(core, command(alloc, Take((worker % 3) as u32))?);
            if let ReplySummary::Given(position, _) = told {
                after.jobs[worker % 3] = Some(position);
                after.early = hands.early || (position == DELETED && !hands.left);
            }
        }
    }
    Ok(after)
}

// One order: at each turn the next digit in base 3 names the worker, and at last each has its turns.
fn is_right(alloc: Global, order: u64) -> Result<bool, AllocError> {
    let mut core = begun(alloc)?;
    let mut hands = Hands {
        jobs: [None; 3],
        left: false,
        early: false,
        done: 0,
    };
    let mut rest = order;
    for _ in 0..8 {
        hands = turn(alloc, &mut core, hands, (rest % 3) as usize)?;
        rest = rest / 3;
    }
    for n in 0..60 {
        hands = turn(alloc, &mut core, hands, n % 3)?;
    }
    let collected = answer(&mut core, command(alloc, Collect(0))?);
    let answered = collected == ReplySummary::Collected(8, 0) && hands.done == 8;
    Ok(answered && !hands.early && core.entries() == 4 && core.installed() == 4)
}

// Every order in which three workers have the first eight turns, each of which is a Take or a Report.
#[test]
fn every_order_programs_all(rt: HostRuntime) -> Result<(), Fail> {
    let mut right: u64 = 0;
    for order in 0..6561 {
        if is_right(rt.alloc(), order)? {
            right = right.wrapping_add(1);
        }
    }
    assert_eq!(rt; right, 6561);
    Ok(())
}
