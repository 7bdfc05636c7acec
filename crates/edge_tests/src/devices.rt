use aft_entries::{Entry, HopPayload, Key, KeyName, Labels, MemDevice, Payload, RoutePayload};
use fib_worker::do_job;
use std::alloc::Global;
use std::test::Fail;
use table_model::{Job, JobNumber, Verdict, Work};

// A next hop, or a label with its group.
#[derive(Clone, Copy)]
enum Item {
    Hop(u64),
    Label(u32, u64),
}

fn key(item: Item) -> Key {
    let name = match item {
        Item::Hop(index) => KeyName::Hop(index),
        Item::Label(label, _) => KeyName::Label(label),
    };
    Key { instance: 0, name }
}

fn hop(alloc: Global, index: u64) -> Entry {
    Entry {
        key: Key {
            instance: 0,
            name: KeyName::Hop(index),
        },
        payload: Payload::Hop(HopPayload {
            ip: None,
            mac: None,
            interface: None,
            subinterface: None,
            source: None,
            target: None,
            push: Labels::new(alloc),
        }),
    }
}

fn label(label: u32, group: u64) -> Entry {
    Entry {
        key: Key {
            instance: 0,
            name: KeyName::Label(label),
        },
        payload: Payload::Route(RoutePayload { instance: 0, group }),
    }
}

fn entry(alloc: Global, item: Item) -> Entry {
    match item {
        Item::Hop(index) => hop(alloc, index),
        Item::Label(name, group) => label(name, group),
    }
}

// A job on an item: whether it is installed, what is reported, and how many entries the device then has.
struct Row {
    item: Item,
    is_install: bool,
    verdict: Verdict,
    held: usize,
}

// The device fails at its third call, which is number 2.
const ROWS: &[Row] = &[
    Row {
        item: Item::Hop(4),
        is_install: true,
        verdict: Verdict::Programmed,
        held: 1,
    },
    Row {
        item: Item::Label(9, 6),
        is_install: true,
        verdict: Verdict::Programmed,
        held: 2,
    },
    Row {
        item: Item::Hop(4),
        is_install: false,
        verdict: Verdict::DeviceFault,
        held: 2,
    },
    Row {
        item: Item::Label(9, 7),
        is_install: true,
        verdict: Verdict::Programmed,
        held: 2,
    },
    Row {
        item: Item::Hop(4),
        is_install: false,
        verdict: Verdict::Programmed,
        held: 1,
    },
    Row {
        item: Item::Hop(4),
        is_install: false,
        verdict: Verdict::Programmed,
        held: 1,
    },
];

fn job(alloc: Global, row: &Row) -> Job {
    let number = JobNumber {
        position: 0,
        index: 0,
    };
    let work = if row.is_install {
        Work::Install(entry(alloc, row.item))
    } else {
        Work::Remove(key(row.item))
    };
    Job { number, work }
}

fn is_right(device: &mut MemDevice, row: &Row, job: &Job) -> bool {
    do_job(device, job) == row.verdict && device.contents().len() == row.held
}

/// Jobs on a device that fails once: what is reported of each, and how many entries the device then has.
#[test]
fn jobs_on_a_device(rt: HostRuntime) -> Result<(), Fail> {
    let alloc = rt.alloc();
    let mut failing = Vec::new(alloc);
    failing.push(2)?;
    let mut device = MemDevice::new(alloc, failing);
    let mut is_all_right = true;
    for row in ROWS {
        let job = job(alloc, row);
        is_all_right &= is_right(&mut device, row, &job);
    }
    assert!(rt; is_all_right && device.refused() == 0);
    Ok(())
}
