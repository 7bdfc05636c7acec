//! Modify calls.

use crate::scripts::{Act, GOOD_END, NOTHING, Script, Wanted, are_played};
use grpc_heads::{Method, ModifyReason};
use std::test::Fail;

const MODIFIES: &[Method; 3] = &[Method::Modify, Method::Modify, Method::Modify];

// Parameters that keep the entries of a session that ends, the election id 7, and the ADD of next hop 1.
const ALL: &[u8] =
    b"\x12\x04\x08\x01\x10\x01\x1a\x02\x10\x07\x0a\x17\x08\x01\x12\x07DEFAULT\x18\x01\x42\x04\x08\x01\x12\x00\x5a\x02\x10\x07";

// The same, the operation first.
const ALL_TURNED: &[u8] =
    b"\x0a\x17\x08\x01\x12\x07DEFAULT\x18\x01\x42\x04\x08\x01\x12\x00\x5a\x02\x10\x07\x1a\x02\x10\x07\x12\x04\x08\x01\x10\x01";

// The same, with results of the forwarding table.
const ALL_HEARD: &[u8] =
    b"\x12\x06\x08\x01\x10\x01\x18\x01\x1a\x02\x10\x07\x0a\x17\x08\x01\x12\x07DEFAULT\x18\x01\x42\x04\x08\x01\x12\x00\x5a\x02\x10\x07";

const ALL_DONE: Wanted = Wanted::Open(&[
    b"\x12\x02\x08\x01",
    b"\x1a\x02\x10\x07",
    b"\x0a\x06\x08\x01\x10\x03\x18\x03",
]);

// The same, done at the second moment of the clock.
const ALL_DONE_NEXT: Wanted = Wanted::Open(&[
    b"\x12\x02\x08\x01",
    b"\x1a\x02\x10\x07",
    b"\x0a\x06\x08\x01\x10\x03\x18\x04",
]);

// Next hop 1 was programmed at 9.
const PROGRAMMED: &[&[u8]] = &[b"\x0a\x06\x08\x01\x10\x04\x18\x09"];

const KEEPS: &[u8] = b"\x12\x04\x08\x01\x10\x01";

const DELETES: &[u8] = b"\x12\x02\x08\x01";

const SET: Wanted = Wanted::Open(&[b"\x12\x02\x08\x01"]);

const DIFFER: Wanted = Wanted::Ends(
    &[],
    9,
    b"session parameters differ",
    Some(ModifyReason::ParamsDiffer),
);

const SERVED: &[Script] = &[
    // Parameters come before the election id and that before the operations, whatever their order in the message.
    Script {
        methods: MODIFIES,
        turns: &[
            (1, Act::Request(ALL), ALL_DONE),
            (1, Act::Collect, NOTHING),
            (1, Act::Finish, NOTHING),
            (1, Act::Collect, GOOD_END),
            (1, Act::Request(ALL), NOTHING),
            (1, Act::Finish, NOTHING),
        ],
    },
    Script {
        methods: MODIFIES,
        turns: &[(1, Act::Request(ALL_TURNED), ALL_DONE)],
    },
    // A call whose client has ended its side is over behind its last result.
    Script {
        methods: MODIFIES,
        turns: &[
            (1, Act::Request(ALL_HEARD), ALL_DONE),
            (1, Act::Collect, NOTHING),
            (1, Act::Finish, NOTHING),
            (1, Act::Collect, NOTHING),
            (1, Act::Work, NOTHING),
            (1, Act::Collect, Wanted::Ends(PROGRAMMED, 0, b"", None)),
        ],
    },
];

#[test]
fn modify_calls_are_served(rt: HostRuntime) -> Result<(), Fail> {
    let is_right = are_played(&rt, rt.alloc(), SERVED)?;
    assert!(rt; is_right);
    Ok(())
}

const APART: &[Script] = &[
    // Of three calls the second is refused for the parameters of the first, which stand no more once that is dropped.
    Script {
        methods: MODIFIES,
        turns: &[
            (1, Act::Request(KEEPS), SET),
            (3, Act::Request(DELETES), DIFFER),
            (1, Act::Drop, NOTHING),
            (3, Act::Drop, NOTHING),
            (1, Act::Request(KEEPS), NOTHING),
            (5, Act::Request(DELETES), SET),
        ],
    },
    // Two calls are served one behind the other.
    Script {
        methods: MODIFIES,
        turns: &[
            (1, Act::Request(ALL), ALL_DONE),
            (3, Act::Request(ALL), ALL_DONE_NEXT),
            (3, Act::Collect, NOTHING),
            (1, Act::Finish, NOTHING),
            (1, Act::Collect, GOOD_END),
            (3, Act::Finish, NOTHING),
            (3, Act::Collect, GOOD_END),
        ],
    },
];

#[test]
fn calls_have_sessions_of_their_own(rt: HostRuntime) -> Result<(), Fail> {
    let is_right = are_played(&rt, rt.alloc(), APART)?;
    assert!(rt; is_right);
    Ok(())
}
