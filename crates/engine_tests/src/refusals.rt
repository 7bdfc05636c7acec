//! Refusals that a reply or a message decides.

use crate::connection::connect_with;
use crate::scripts::{Act, NOTHING, Script, Wanted, are_played, gives};
use bytes::Bytes;
use grpc_heads::{Method, ModifyReason};
use std::alloc::Global;
use std::sync::Wait;
use std::test::Fail;

const MODIFIES: &[Method; 3] = &[Method::Modify, Method::Get, Method::Flush];

const KEEPS: &[u8] = b"\x12\x04\x08\x01\x10\x01";

const SET: &[&[u8]] = &[b"\x12\x02\x08\x01"];

// Two operations of a session without parameters: the first ends the call, and the second isn't done.
const BARE: &[u8] =
    b"\x0a\x0d\x08\x01\x12\x07DEFAULT\x18\x01\x0a\x0d\x08\x02\x12\x07DEFAULT\x18\x01";

const UNSUPPORTED: Option<ModifyReason> = Some(ModifyReason::UnsupportedParams);

// Each on a Modify call of its own, on which the message comes behind the parameters or alone.
const MODIFY_REFUSALS: &[Script] = &[
    Script {
        methods: MODIFIES,
        turns: &[
            (
                1,
                Act::Request(b"\x12\x00"),
                Wanted::Ends(&[], 12, b"unsupported session parameters", UNSUPPORTED),
            ),
            (1, Act::Request(KEEPS), NOTHING),
        ],
    },
    Script {
        methods: MODIFIES,
        turns: &[
            (1, Act::Request(KEEPS), Wanted::Open(SET)),
            (
                1,
                Act::Request(KEEPS),
                Wanted::Ends(
                    &[],
                    9,
                    b"session parameters already set",
                    Some(ModifyReason::ModifyNotAllowed),
                ),
            ),
        ],
    },
    Script {
        methods: MODIFIES,
        turns: &[(
            1,
            Act::Request(b"\x1a\x02\x10\x07"),
            Wanted::Ends(
                &[],
                9,
                b"election in ALL_PRIMARY",
                Some(ModifyReason::ElectionIdInAllPrimary),
            ),
        )],
    },
    Script {
        methods: MODIFIES,
        turns: &[(
            1,
            Act::Request(b"\x1a\x00\x12\x04\x08\x01\x10\x01"),
            Wanted::Ends(SET, 3, b"election id is zero", None),
        )],
    },
    Script {
        methods: MODIFIES,
        turns: &[
            (
                1,
                Act::Request(BARE),
                Wanted::Ends(&[], 12, b"ALL_PRIMARY is not served", UNSUPPORTED),
            ),
            (1, Act::Request(KEEPS), NOTHING),
            (1, Act::Finish, NOTHING),
        ],
    },
    Script {
        methods: MODIFIES,
        turns: &[(
            1,
            Act::Request(b"\x12\x04\x08\x01\x10\x01\x0a\x05"),
            Wanted::Refused(3, b"bad message at 6"),
        )],
    },
    Script {
        methods: MODIFIES,
        turns: &[
            (1, Act::Leave(0), NOTHING),
            (1, Act::Request(KEEPS), Wanted::Refused(10, b"session gone")),
        ],
    },
    Script {
        methods: MODIFIES,
        turns: &[
            (1, Act::Leave(0), NOTHING),
            (1, Act::Collect, Wanted::Refused(10, b"session gone")),
        ],
    },
];

#[test]
fn modify_calls_are_refused(rt: HostRuntime) -> Result<(), Fail> {
    let is_right = are_played(&rt, rt.alloc(), MODIFY_REFUSALS)?;
    assert!(rt; is_right);
    Ok(())
}

// All entries of DEFAULT.
const GET: &[u8] = b"\x0a\x07DEFAULT\x18\x01";

// By override, in all instances.
const FLUSH: &[u8] = b"\x12\x00\x22\x00";

// The Get is on stream 3 and the Flush on stream 5. Each is refused where its client ends its side.
const SINGLE_REFUSALS: &[Script] = &[
    Script {
        methods: MODIFIES,
        turns: &[
            (3, Act::Finish, Wanted::Refused(3, b"one request expected")),
            (5, Act::Finish, Wanted::Refused(3, b"one request expected")),
        ],
    },
    Script {
        methods: MODIFIES,
        turns: &[
            (3, Act::Request(GET), NOTHING),
            (3, Act::Request(GET), NOTHING),
            (3, Act::Finish, Wanted::Refused(3, b"one request expected")),
            (5, Act::Request(FLUSH), NOTHING),
            (5, Act::Request(FLUSH), NOTHING),
            (5, Act::Finish, Wanted::Refused(3, b"one request expected")),
        ],
    },
    Script {
        methods: MODIFIES,
        turns: &[
            (
                1,
                Act::Request(b"\x12\x04\x08\x01\x10\x01\x1a\x02\x10\x07"),
                Wanted::Open(&[b"\x12\x02\x08\x01", b"\x1a\x02\x10\x07"]),
            ),
            (5, Act::Request(b"\x0a\x02\x10\x06\x22\x00"), NOTHING),
            (5, Act::Finish, Wanted::Refused(9, b"not primary")),
        ],
    },
];

#[test]
fn single_calls_are_refused(rt: HostRuntime) -> Result<(), Fail> {
    let is_right = are_played(&rt, rt.alloc(), SINGLE_REFUSALS)?;
    assert!(rt; is_right);
    Ok(())
}

// One message of a Get on stream 3 or of a Flush on stream 5, and the text with which it is refused.
const MESSAGES: &[(u32, &[u8], &[u8])] = &[
    (3, b"\x0a\x07DEFAULT\x18", b"bad message at 9"),
    (3, b"\x18\x01", b"no network instance"),
    (3, b"\x0a\x01A\x18\x01", b"unknown network instance"),
    (3, b"\x12\x00\x18\x07", b"unknown AFT type"),
    (5, b"\x12\x00\x22", b"bad message at 2"),
    (5, b"\x12\x00", b"no network instance"),
    (5, b"\x12\x00\x1a\x01A", b"unknown network instance"),
    (5, b"\x22\x00", b"no election"),
    (5, b"\x0a\x00\x22\x00", b"election id is zero"),
];

// Whether the message is refused with this text where its client ends its side.
fn is_refused<R: Wait>(
    rt: &R,
    alloc: Global,
    stream: u32,
    message: &'static [u8],
    text: &'static [u8],
) -> Result<bool, Fail> {
    let mut one = connect_with(rt, alloc, MODIFIES)?;
    let is_kept = gives(
        one.request(rt, stream, Bytes::from_static(message)),
        &NOTHING,
    );
    let is_ended = gives(one.finish(rt, stream), &Wanted::Refused(3, text));
    Ok(one.is_begun & is_kept & is_ended)
}

#[test]
fn messages_are_refused(rt: HostRuntime) -> Result<(), Fail> {
    let mut is_right = true;
    for (stream, message, text) in MESSAGES {
        is_right &= is_refused(&rt, rt.alloc(), *stream, message, text)?;
    }
    assert!(rt; is_right);
    Ok(())
}

// Behind a Halt each command is refused.
const HALTED: &[Script] = &[
    Script {
        methods: MODIFIES,
        turns: &[
            (3, Act::Request(GET), NOTHING),
            (5, Act::Request(FLUSH), NOTHING),
            (1, Act::Halt, NOTHING),
            (1, Act::Request(KEEPS), Wanted::Halts),
            (3, Act::Finish, Wanted::Halts),
            (5, Act::Finish, Wanted::Halts),
        ],
    },
    Script {
        methods: MODIFIES,
        turns: &[(1, Act::Halt, NOTHING), (1, Act::Collect, Wanted::Halts)],
    },
];

#[test]
fn a_halt_ends_calls(rt: HostRuntime) -> Result<(), Fail> {
    let is_right = are_played(&rt, rt.alloc(), HALTED)?;
    assert!(rt; is_right);
    Ok(())
}
