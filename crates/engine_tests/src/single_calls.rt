//! Get and Flush calls.

use crate::scripts::{Act, GOOD_END, NOTHING, Script, Wanted, are_played};
use grpc_heads::Method;
use std::test::Fail;

// Parameters, the election id 7, and the ADD of next hop 1.
const ADDS: &[u8] =
    b"\x12\x04\x08\x01\x10\x01\x1a\x02\x10\x07\x0a\x17\x08\x01\x12\x07DEFAULT\x18\x01\x42\x04\x08\x01\x12\x00\x5a\x02\x10\x07";

const ADDED: Wanted = Wanted::Open(&[
    b"\x12\x02\x08\x01",
    b"\x1a\x02\x10\x07",
    b"\x0a\x06\x08\x01\x10\x03\x18\x03",
]);

// The same at the second moment of the clock.
const ADDED_NEXT: Wanted = Wanted::Open(&[
    b"\x12\x02\x08\x01",
    b"\x1a\x02\x10\x07",
    b"\x0a\x06\x08\x01\x10\x03\x18\x04",
]);

// All entries of DEFAULT.
const GET: &[u8] = b"\x0a\x07DEFAULT\x18\x01";

// Next hop 1 of DEFAULT, which the forwarding table hasn't got.
const HOP: &[&[u8]] = &[b"\x0a\x13\x0a\x07DEFAULT\x32\x04\x08\x01\x12\x00\x38\x01\x40\x02"];

const GETS: &[Script] = &[
    // A Get keeps its message until its client ends its side, and then selects rows.
    Script {
        methods: &[Method::Modify, Method::Get, Method::Get],
        turns: &[
            (1, Act::Request(ADDS), ADDED),
            (3, Act::Request(GET), NOTHING),
            (3, Act::More, NOTHING),
            (3, Act::Finish, NOTHING),
            (3, Act::More, Wanted::Ends(HOP, 0, b"", None)),
            (3, Act::More, NOTHING),
        ],
    },
    // Where nothing is selected it is given the end alone.
    Script {
        methods: &[Method::Modify, Method::Get, Method::Get],
        turns: &[
            (3, Act::Request(GET), NOTHING),
            (3, Act::Finish, NOTHING),
            (1, Act::Request(ADDS), ADDED_NEXT),
            (3, Act::More, GOOD_END),
            (3, Act::More, NOTHING),
        ],
    },
];

#[test]
fn gets_are_served(rt: HostRuntime) -> Result<(), Fail> {
    let is_right = are_played(&rt, rt.alloc(), GETS)?;
    assert!(rt; is_right);
    Ok(())
}

// By override, in all instances.
const FLUSH: &[u8] = b"\x12\x00\x22\x00";

const FLUSHED: Wanted = Wanted::Ends(&[b"\x08\x04\x10\x01"], 0, b"", None);

const FLUSHES: &[Script] = &[Script {
    methods: &[Method::Modify, Method::Flush, Method::Get],
    turns: &[
        (1, Act::Request(ADDS), ADDED),
        (3, Act::Request(FLUSH), NOTHING),
        (3, Act::Finish, FLUSHED),
        (5, Act::Request(GET), NOTHING),
        (5, Act::Finish, NOTHING),
        (5, Act::More, GOOD_END),
    ],
}];

#[test]
fn a_flush_is_served(rt: HostRuntime) -> Result<(), Fail> {
    let is_right = are_played(&rt, rt.alloc(), FLUSHES)?;
    assert!(rt; is_right);
    Ok(())
}
