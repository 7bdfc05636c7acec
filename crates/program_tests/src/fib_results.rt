//! Results of the forwarding table.
use crate::program_runs::{
    ALL_THREE, ELECTED, ELECTION, FIB_PARAMS, HOP, PARAMS_SET, PROGRAMMED, joined,
};
use crate::session_orders::setting;
use aft_entries::MemDevice;
use apply_path::apply_stream;
use rig_io::{MemSink, MemSource};
use std::alloc::Global;
use std::test::Fail;

const FIB_PROGRAMMED: &[u8] = b"\0\0\0\0\x08\x0a\x06\x08\x01\x10\x04\x18\x03";

// RIB_PROGRAMMED of operations 2, 3 and 4, in a message each.
const THREE_DONE: &[u8] =
    b"\0\0\0\0\x08\x0a\x06\x08\x02\x10\x03\x18\x03\0\0\0\0\x08\x0a\x06\x08\x03\x10\x03\x18\x03\0\0\0\0\x08\x0a\x06\x08\x04\x10\x03\x18\x03";

// FIB_PROGRAMMED of all three, and where the device fails at its first call, at its second, and at its third.
const ALL_PROGRAMMED: &[u8] =
    b"\0\0\0\0\x18\x0a\x06\x08\x02\x10\x04\x18\x03\x0a\x06\x08\x03\x10\x04\x18\x03\x0a\x06\x08\x04\x10\x04\x18\x03";

const NONE_PROGRAMMED: &[u8] =
    b"\0\0\0\0\x1e\x0a\x08\x08\x02\x10\x05\x18\x03\x20\x14\x0a\x08\x08\x03\x10\x05\x18\x03\x20\x15\x0a\x08\x08\x04\x10\x05\x18\x03\x20\x15";

const HOP_PROGRAMMED: &[u8] =
    b"\0\0\0\0\x1c\x0a\x06\x08\x02\x10\x04\x18\x03\x0a\x08\x08\x03\x10\x05\x18\x03\x20\x14\x0a\x08\x08\x04\x10\x05\x18\x03\x20\x15";

const ROUTE_FAILED: &[u8] =
    b"\0\0\0\0\x1a\x0a\x06\x08\x02\x10\x04\x18\x03\x0a\x06\x08\x03\x10\x04\x18\x03\x0a\x08\x08\x04\x10\x05\x18\x03\x20\x14";

// The group and the route again; FIB_PROGRAMMED of both, neither for want of the next hop, and where the device fails at one of them.
const GROUP_AGAIN: &[u8] =
    b"\0\0\0\0#\x0a!\x08\x05\x12\x07DEFAULT\x18\x01:\x0e\x08\x01\x12\x0a\x0a\x08\x08\x01\x12\x04\x0a\x02\x08\x01Z\x02\x10\x01";

const ROUTE_AGAIN: &[u8] =
    b"\0\0\0\0,\x0a*\x08\x06\x12\x07DEFAULT\x18\x01\x22\x17\x0a\x0f198.51.100.0/24\x12\x04\x0a\x02\x08\x01Z\x02\x10\x01";

const AGAIN_DONE: &[u8] =
    b"\0\0\0\0\x08\x0a\x06\x08\x05\x10\x03\x18\x04\0\0\0\0\x08\x0a\x06\x08\x05\x10\x04\x18\x04\0\0\0\0\x08\x0a\x06\x08\x06\x10\x03\x18\x05\0\0\0\0\x08\x0a\x06\x08\x06\x10\x04\x18\x05";

const AGAIN_UNRESOLVED: &[u8] =
    b"\0\0\0\0\x08\x0a\x06\x08\x05\x10\x03\x18\x04\0\0\0\0\x0a\x0a\x08\x08\x05\x10\x05\x18\x04\x20\x15\0\0\0\0\x08\x0a\x06\x08\x06\x10\x03\x18\x05\0\0\0\0\x0a\x0a\x08\x08\x06\x10\x05\x18\x05\x20\x15";

const AGAIN_GROUP_FAILED: &[u8] =
    b"\0\0\0\0\x08\x0a\x06\x08\x05\x10\x03\x18\x04\0\0\0\0\x0a\x0a\x08\x08\x05\x10\x05\x18\x04\x20\x14\0\0\0\0\x08\x0a\x06\x08\x06\x10\x03\x18\x05\0\0\0\0\x08\x0a\x06\x08\x06\x10\x04\x18\x05";

const AGAIN_ROUTE_FAILED: &[u8] =
    b"\0\0\0\0\x08\x0a\x06\x08\x05\x10\x03\x18\x04\0\0\0\0\x08\x0a\x06\x08\x05\x10\x04\x18\x04\0\0\0\0\x08\x0a\x06\x08\x06\x10\x03\x18\x05\0\0\0\0\x0a\x0a\x08\x08\x06\x10\x05\x18\x05\x20\x14";

// An IPv6 route and a label entry of that group, the next hop replaced, the IPv6 route deleted, and next hop 9, which isn't there.
const V6_ROUTE: &[u8] =
    b"\0\0\0\0*\x0a(\x08\x05\x12\x07DEFAULT\x18\x01*\x15\x0a\x0d2001:db8::/32\x12\x04\x0a\x02\x08\x01Z\x02\x10\x01";

const LABEL: &[u8] =
    b"\0\0\0\0\x1d\x0a\x1b\x08\x06\x12\x07DEFAULT\x18\x012\x08\x08d\x12\x04\x0a\x02\x08\x01Z\x02\x10\x01";

const HOP_REPLACED: &[u8] =
    b"\0\0\0\0\x19\x0a\x17\x08\x07\x12\x07DEFAULT\x18\x02B\x04\x08\x01\x12\0Z\x02\x10\x01";

const V6_AWAY: &[u8] =
    b"\0\0\0\0$\x0a\x22\x08\x08\x12\x07DEFAULT\x18\x03*\x0f\x0a\x0d2001:db8::/32Z\x02\x10\x01";

const NO_HOP_AWAY: &[u8] =
    b"\0\0\0\0\x17\x0a\x15\x08\x09\x12\x07DEFAULT\x18\x03B\x02\x08\x09Z\x02\x10\x01";

// RIB_PROGRAMMED and FIB_PROGRAMMED of each of these five.
const FIVE_DONE: &[u8] =
    b"\0\0\0\0\x08\x0a\x06\x08\x05\x10\x03\x18\x04\0\0\0\0\x08\x0a\x06\x08\x05\x10\x04\x18\x04\0\0\0\0\x08\x0a\x06\x08\x06\x10\x03\x18\x05\0\0\0\0\x08\x0a\x06\x08\x06\x10\x04\x18\x05\0\0\0\0\x08\x0a\x06\x08\x07\x10\x03\x18\x06\0\0\0\0\x08\x0a\x06\x08\x07\x10\x04\x18\x06\0\0\0\0\x08\x0a\x06\x08\x08\x10\x03\x18\x07\0\0\0\0\x08\x0a\x06\x08\x08\x10\x04\x18\x07\0\0\0\0\x08\x0a\x06\x08\x09\x10\x03\x18\x08\0\0\0\0\x08\x0a\x06\x08\x09\x10\x04\x18\x08";

// Parameters that ask for a purge at the end.
const DELETE_PARAMS: &[u8] = b"\0\0\0\0\x06\x12\x04\x08\x01\x18\x01";

const ENDED_9: &[u8] = b"\x80\0\0\0\x019";

// Whether `apply` ends with this status, these answers and so many installed entries, where these reads, writes and calls of the
// device fail.
fn comes_to(
    alloc: Global,
    input: &[&[u8]],
    failing: [&[u64]; 3],
    status: u8,
    answers: &[&[u8]],
    installed: usize,
) -> Result<bool, Fail> {
    let [reads, writes, calls] = failing;
    let setting = setting(alloc, &["DEFAULT"])?;
    let mut source = MemSource::new(joined(alloc, input)?, Vec::from_slice(alloc, reads)?);
    let mut sink = MemSink::new(alloc, Vec::from_slice(alloc, writes)?);
    let mut device = MemDevice::new(alloc, Vec::from_slice(alloc, calls)?);
    let found = apply_stream(alloc, &setting, &mut source, &mut sink, &mut device);
    let wanted = joined(alloc, answers)?;
    let told = found == status && sink.bytes() == wanted.as_slice();
    Ok(told && device.contents().len() == installed)
}

#[test]
fn an_entry_is_acknowledged_twice(rt: HostRuntime) -> Result<(), Fail> {
    let input: &[&[u8]] = &[FIB_PARAMS, ELECTION, HOP];
    let answers: &[&[u8]] = &[PARAMS_SET, ELECTED, PROGRAMMED, FIB_PROGRAMMED];
    let cases: [([&[u64]; 3], u8, &[&[u8]], usize); 4] = [
        ([&[], &[], &[]], 0, answers, 1),
        // the first read, the second, and the write fail
        ([&[0], &[], &[]], 4, &[], 0),
        ([&[1], &[], &[]], 4, answers, 1),
        ([&[], &[0], &[]], 5, &[], 1),
    ];
    for (failing, status, answers, installed) in cases {
        assert!(rt; comes_to(rt.alloc(), input, failing, status, answers, installed)?);
    }
    Ok(())
}

#[test]
fn a_device_may_fail_at_any_call(rt: HostRuntime) -> Result<(), Fail> {
    let cases: [(&[u64], &[u8], &[u8], usize); 6] = [
        (&[], ALL_PROGRAMMED, AGAIN_DONE, 3),
        (&[0], NONE_PROGRAMMED, AGAIN_UNRESOLVED, 0),
        (&[1], HOP_PROGRAMMED, AGAIN_DONE, 3),
        (&[2], ROUTE_FAILED, AGAIN_DONE, 3),
        (&[3], ALL_PROGRAMMED, AGAIN_GROUP_FAILED, 3),
        (&[4], ALL_PROGRAMMED, AGAIN_ROUTE_FAILED, 3),
    ];
    for (calls, results, again, installed) in cases {
        assert!(rt;
            comes_to(
                rt.alloc(),
                &[FIB_PARAMS, ELECTION, ALL_THREE, GROUP_AGAIN, ROUTE_AGAIN],
                [&[], &[], calls],
                0,
                &[PARAMS_SET, ELECTED, THREE_DONE, results, again],
                installed
            )?
        );
    }
    Ok(())
}

#[test]
fn each_kind_and_operation_is_acknowledged(rt: HostRuntime) -> Result<(), Fail> {
    let input: &[&[u8]] = &[
        FIB_PARAMS,
        ELECTION,
        ALL_THREE,
        V6_ROUTE,
        LABEL,
        HOP_REPLACED,
        V6_AWAY,
        NO_HOP_AWAY,
    ];
    let answers: &[&[u8]] = &[PARAMS_SET, ELECTED, THREE_DONE, ALL_PROGRAMMED, FIVE_DONE];
    assert!(rt; comes_to(rt.alloc(), input, [&[], &[], &[]], 0, answers, 4)?);
    Ok(())
}

// The session's Leave purges the table, and the worker does no more.
#[test]
fn nothing_is_removed_behind_the_end(rt: HostRuntime) -> Result<(), Fail> {
    let input: &[&[u8]] = &[DELETE_PARAMS, ELECTION, ALL_THREE, DELETE_PARAMS];
    let answers: &[&[u8]] = &[PARAMS_SET, ELECTED, THREE_DONE, ALL_PROGRAMMED, ENDED_9];
    assert!(rt; comes_to(rt.alloc(), input, [&[], &[], &[]], 7, answers, 3)?);
    Ok(())
}
