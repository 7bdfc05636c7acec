use crate::chunked_source::ChunkedSource;
use crate::devices::run_program;
use crate::program_words::words;
use rig_io::{MemSink, MemSource};
use std::alloc::Global;
use std::sync::Wait;
use std::test::Fail;
use std::thread::Threads;

// Parameters, the election id 1, and an ADD of next hop 1.
const PARAMS: &[u8] = b"\0\0\0\0\x06\x12\x04\x08\x01\x10\x01";

pub const ELECTION: &[u8] = b"\0\0\0\0\x04\x1a\x02\x10\x01";

pub const HOP: &[u8] =
    b"\0\0\0\0\x19\x0a\x17\x08\x01\x12\x07DEFAULT\x18\x01\x42\x04\x08\x01\x12\x00\x5a\x02\x10\x01";

pub const PARAMS_SET: &[u8] = b"\0\0\0\0\x04\x12\x02\x08\x01";

pub const ELECTED: &[u8] = b"\0\0\0\0\x04\x1a\x02\x10\x01";

pub const PROGRAMMED: &[u8] = b"\0\0\0\0\x08\x0a\x06\x08\x01\x10\x03\x18\x03";

const PROGRAMMED_NEXT: &[u8] = b"\0\0\0\0\x08\x0a\x06\x08\x01\x10\x03\x18\x04";

const ALL_PRIMARY: &[u8] = b"\0\0\0\0\x02\x12\x00";

const COMPRESSED: &[u8] = b"\x01\0\0\0\0";

// An IPv4 route of group 1 alone; next hop 1, group 1 and that route in one message; group 1 deleted.
const ROUTE: &[u8] =
    b"\0\0\0\0\x2c\x0a\x2a\x08\x01\x12\x07DEFAULT\x18\x01\x22\x17\x0a\x0f198.51.100.0/24\x12\x04\x0a\x02\x08\x01\x5a\x02\x10\x01";

pub const ALL_THREE: &[u8] =
    b"\0\0\0\0\x68\x0a\x17\x08\x02\x12\x07DEFAULT\x18\x01\x42\x04\x08\x01\x12\x00\x5a\x02\x10\x01\x0a\x21\x08\x03\x12\x07DEFAULT\x18\x01\x3a\x0e\x08\x01\x12\x0a\x0a\x08\x08\x01\x12\x04\x0a\x02\x08\x01\x5a\x02\x10\x01\x0a\x2a\x08\x04\x12\x07DEFAULT\x18\x01\x22\x17\x0a\x0f198.51.100.0/24\x12\x04\x0a\x02\x08\x01\x5a\x02\x10\x01";

const GROUP_AWAY: &[u8] =
    b"\0\0\0\0\x17\x0a\x15\x08\x05\x12\x07DEFAULT\x18\x03\x3a\x02\x08\x01\x5a\x02\x10\x01";

const PARAMS_AND_HOP: &[u8] =
    b"\0\0\0\0\x1f\x12\x04\x08\x01\x10\x01\x0a\x17\x08\x06\x12\x07DEFAULT\x18\x01\x42\x04\x08\x01\x12\x00\x5a\x02\x10\x01";

pub const FIB_PARAMS: &[u8] = b"\0\0\0\0\x08\x12\x06\x08\x01\x10\x01\x18\x01";

const BAD_TAG: &[u8] = b"\0\0\0\0\x06\x1a\x02\x10\x01\x00\x01";

const UNRESOLVED: &[u8] = b"\0\0\0\0\x0a\x0a\x08\x08\x01\x10\x02\x18\x03\x20\x09";

const THREE_DONE: &[u8] =
    b"\0\0\0\0\x08\x0a\x06\x08\x02\x10\x03\x18\x04\0\0\0\0\x08\x0a\x06\x08\x03\x10\x03\x18\x04\0\0\0\0\x08\x0a\x06\x08\x04\x10\x03\x18\x04";

const IN_USE: &[u8] = b"\0\0\0\0\x0a\x0a\x08\x08\x05\x10\x02\x18\x05\x20\x0b";

const NOT_PRIMARY: &[u8] = b"\0\0\0\0\x0a\x0a\x08\x08\x01\x10\x02\x18\x02\x20\x01";

const ENDED_9: &[u8] = b"\x80\0\0\0\x019";

const ENDED_12: &[u8] = b"\x80\0\0\0\x0212";

const UNREADABLE_11: &[u8] = b"\x81\0\0\0\x0211";

const UNREADABLE_20: &[u8] = b"\x81\0\0\0\x0220";

pub fn joined(alloc: Global, parts: &[&[u8]]) -> Result<Vec<u8>, Fail> {
    let mut bytes = Vec::new(alloc);
    for part in parts {
        bytes.extend_from_slice(part)?;
    }
    Ok(bytes)
}

// Whether `apply` ends with this status and these answers.
fn is_answered<R: Threads + Wait + Sync>(
    rt: &R,
    alloc: Global,
    input: &[&[u8]],
    status: u8,
    answers: &[&[u8]],
) -> Result<bool, Fail> {
    let mut source = MemSource::new(joined(alloc, input)?, Vec::new(alloc));
    let mut sink = MemSink::new(alloc, Vec::new(alloc));
    let words = words(alloc, &["apply"])?;
    let found = run_program(rt, alloc, &words, &mut source, &mut sink)?;
    let wanted = joined(alloc, answers)?;
    Ok(found == status && sink.bytes() == wanted.as_slice())
}

#[test]
fn messages_are_answered(rt: HostRuntime) -> Result<(), Fail> {
    let cases: [(&[&[u8]], &[&[u8]]); 5] = [
        (&[], &[]),
        (&[PARAMS, ELECTION, HOP], &[PARAMS_SET, ELECTED, PROGRAMMED]),
        (
            &[PARAMS, ELECTION, HOP, HOP],
            &[PARAMS_SET, ELECTED, PROGRAMMED, PROGRAMMED_NEXT],
        ),
        (&[PARAMS, HOP], &[PARAMS_SET, NOT_PRIMARY]),
        (
            &[PARAMS, ELECTION, ROUTE, ALL_THREE, GROUP_AWAY],
            &[PARAMS_SET, ELECTED, UNRESOLVED, THREE_DONE, IN_USE],
        ),
    ];
    for (input, answers) in cases {
        assert!(rt; is_answered(&rt, rt.alloc(), input, 0, answers)?);
    }
    Ok(())
}

#[test]
fn a_reply_may_end_the_stream(rt: HostRuntime) -> Result<(), Fail> {
    let cases: [(&[&[u8]], &[&[u8]]); 4] = [
        (&[ELECTION], &[ENDED_9]),
        (&[ALL_PRIMARY], &[ENDED_12]),
        (&[HOP], &[ENDED_12]),
        // nothing behind that reply is done
        (
            &[PARAMS, ELECTION, PARAMS_AND_HOP, HOP],
            &[PARAMS_SET, ELECTED, ENDED_9],
        ),
    ];
    for (input, answers) in cases {
        assert!(rt; is_answered(&rt, rt.alloc(), input, 7, answers)?);
    }
    Ok(())
}

#[test]
fn an_input_that_cannot_be_read_tells_the_place(rt: HostRuntime) -> Result<(), Fail> {
    let cut = HOP.split_at(29).0;
    let cases: [(&[&[u8]], &[&[u8]]); 3] = [
        (
            &[PARAMS, ELECTION, cut],
            &[PARAMS_SET, ELECTED, UNREADABLE_20],
        ),
        (
            &[PARAMS, COMPRESSED, ELECTION],
            &[PARAMS_SET, UNREADABLE_11],
        ),
        // a message with a fault gives none of its answers
        (&[PARAMS, BAD_TAG, ELECTION], &[PARAMS_SET, UNREADABLE_20]),
    ];
    for (input, answers) in cases {
        assert!(rt; is_answered(&rt, rt.alloc(), input, 3, answers)?);
    }
    Ok(())
}

#[test]
fn any_pieces_are_answered_alike(rt: HostRuntime) -> Result<(), Fail> {
    let alloc = rt.alloc();
    let input = joined(alloc, &[PARAMS, ELECTION, HOP])?;
    let wanted = joined(alloc, &[PARAMS_SET, ELECTED, PROGRAMMED])?;
    for size in 1..51 {
        let mut pieces = ChunkedSource { rest: &input, size };
        let mut output = MemSink::new(alloc, Vec::new(alloc));
        let status = run_program(
            &rt,
            alloc,
            &words(alloc, &["apply"])?,
            &mut pieces,
            &mut output,
        )?;
        assert_eq!(rt; status, 0);
        assert_eq!(rt; output.bytes(), wanted.as_slice());
    }
    Ok(())
}
