ghost use Rattle.std.specs.Prelude.{◌≡◌, ◌<◌};
ghost use Rattle.h2_exchange.specs.declared.role.Role.TheVariants.{Client};

use bytes::Bytes;
use h2_frames::{FrameNext, FrameReader};
use h2_streams::{H2Limits, Role, StreamFault, StreamSet};
use std::alloc::{AllocError, Global};
use std::test::Fail;

const LIMITS: H2Limits = H2Limits {
    streams: 100,
    window: 1_048_576,
    list: 65_536,
};

fn send(set: &mut StreamSet, stream: u32, size: u32) {
    if set.may_send(stream) >= size {
        set.sent(stream, size);
    }
}

fn finish(set: &mut StreamSet, stream: u32) {
    if set.is_open(stream) {
        set.finish(stream);
    }
}

fn sends(set: &mut StreamSet) -> bool {
    send(set, 3, 65_000);
    set.may_send(3) == 535 && set.may_send(5) == 535 && set.may_send(7) == 0
}

fn are_over(set: &StreamSet) -> bool {
    let first = set.is_live(1);
    let third = set.is_live(3) && !set.is_open(3) && set.may_send(3) == 0;
    !first && third && set.is_open(5)
}

#[test]
fn a_client_begins_sends_and_finishes(rt: HostRuntime) -> Result<(), Fail> {
    let mut set = StreamSet::new(rt.alloc(), Role::Client, LIMITS)?;
    let first = set.begin() == Ok(1);
    let second = set.begin() == Ok(3);
    let third = set.begin() == Ok(5);
    assert!(rt; first && second && third && sends(&mut set));
    finish(&mut set, 3);
    set.reset(1);
    assert!(rt; are_over(&set));
    Ok(())
}

// Whether ten streams begin, from this id on.
fn begins_ten(set: &mut StreamSet, first: u32) -> bool
    requires role { set.old.role ≡ Client }
    requires first { first < 1000 }
    ensures { set.new.role ≡ Client }
{
    let mut is_right = set.begin() == Ok(first);
    is_right &= set.begin() == Ok(first + 2);
    is_right &= set.begin() == Ok(first + 4);
    is_right &= set.begin() == Ok(first + 6);
    is_right &= set.begin() == Ok(first + 8);
    is_right &= set.begin() == Ok(first + 10);
    is_right &= set.begin() == Ok(first + 12);
    is_right &= set.begin() == Ok(first + 14);
    is_right &= set.begin() == Ok(first + 16);
    is_right & (set.begin() == Ok(first + 18))
}

#[test]
fn a_client_begins_more_than_fifty_streams(rt: HostRuntime) -> Result<(), Fail> {
    let mut set = StreamSet::new(rt.alloc(), Role::Client, LIMITS)?;
    let mut is_right = begins_ten(&mut set, 1);
    is_right &= begins_ten(&mut set, 21);
    is_right &= begins_ten(&mut set, 41);
    is_right &= begins_ten(&mut set, 61);
    is_right &= begins_ten(&mut set, 81);
    is_right &= begins_ten(&mut set, 101);
    assert!(rt; is_right && set.count() == 60 && set.highest() == 119 && set.is_open(119));
    Ok(())
}

// What a set answers at a frame: 0, or 1 with the stream or 2, each with a code.
fn take(set: &mut StreamSet, next: &FrameNext) -> (u8, u32, u32) {
    let FrameNext::Frame(frame) = next else {
        return (3, 0, 0);
    };
    match set.on_frame(frame) {
        Ok(()) => (0, 0, 0),
        Err(StreamFault::Stream(id, code)) => (1, id, code.0),
        Err(StreamFault::Connection(code)) => (2, 0, code.0),
    }
}

fn read(alloc: Global, text: &'static [u8]) -> Result<FrameNext, AllocError> {
    let mut reader = FrameReader::new(alloc, false)?;
    reader.feed(Bytes::from_static(text))?;
    Ok(reader.next())
}

fn answer(
    alloc: Global,
    set: &mut StreamSet,
    text: &'static [u8],
) -> Result<(u8, u32, u32), AllocError> {
    let next = read(alloc, text)?;
    Ok(take(set, &next))
}

// The frames that a server of one stream receives, what it answers, and whether stream 9 is live then.
const RECEIVED: &[(&[u8], (u8, u32, u32), bool)] = &[
    (b"\0\0\0\x01\x04\0\0\0\x01", (2, 0, 1), false),
    (b"\0\0\0\x04\0\0\0\0\0", (0, 0, 0), false),
    (b"\0\0\0\x01\x04\0\0\0\x02", (2, 0, 1), false),
    (b"\0\0\0\0\0\0\0\0\x01", (2, 0, 1), false),
    (b"\0\0\0\x01\x04\0\0\0\x01", (0, 0, 0), false),
    (b"\0\0\0\x01\x04\0\0\0\x03", (1, 3, 7), false),
    (b"\0\0\x04\x08\0\0\0\0\x01\0\0\0\0", (1, 1, 1), false),
    (b"\0\0\0\x01\x04\0\0\0\x05", (0, 0, 0), false),
    (b"\0\0\0\x01\x04\0\0\0\x05", (1, 5, 1), false),
    (b"\0\0\0\x01\x05\0\0\0\x07", (0, 0, 0), false),
    (b"\0\0\x01\0\0\0\0\0\x07a", (1, 7, 5), false),
    (b"\0\0\0\x01\0\0\0\0\x09", (0, 0, 0), true),
    (b"\0\0\x08\x06\0\0\0\0\0pingping", (2, 0, 1), true),
    (b"\0\0\0\x09\x04\0\0\0\x09", (0, 0, 0), true),
    (b"\0\0\x04\x03\0\0\0\0\x09\0\0\0\x08", (0, 0, 0), false),
];

fn takes_frames(alloc: Global) -> Result<bool, AllocError> {
    let one = H2Limits {
        streams: 1,
        window: 1_048_576,
        list: 65_536,
    };
    let mut set = StreamSet::new(alloc, Role::Server, one)?;
    let mut is_right = true;
    for (text, wanted, is_live) in RECEIVED {
        is_right &= answer(alloc, &mut set, text)? == *wanted && set.is_live(9) == *is_live;
    }
    Ok(is_right)
}

#[test]
fn a_server_takes_frames(rt: HostRuntime) -> Result<(), Fail> {
    assert!(rt; takes_frames(rt.alloc())?);
    Ok(())
}

// The frames that a server receives, and of their stream: its place, whether it was live, had a head, and is live then.
const MET: &[(&[u8], (usize, bool, bool, bool))] = &[
    (b"\0\0\0\x04\0\0\0\0\0", (0, false, false, false)),
    (b"\0\0\0\x01\x04\0\0\0\x01", (0, false, false, true)),
    (b"\0\0\0\x01\0\0\0\0\x03", (1, false, false, true)),
    (b"\0\0\0\x09\x04\0\0\0\x03", (1, true, false, true)),
    (
        b"\0\0\x04\x03\0\0\0\0\x01\0\0\0\x08",
        (0, true, true, false),
    ),
    (b"\0\0\x02\0\0\0\0\0\x03ab", (0, true, true, true)),
    (b"\0\0\x01\0\0\0\0\0\x01a", (1, false, false, false)),
];

fn meet(set: &mut StreamSet, next: &FrameNext) -> (usize, bool, bool, bool) {
    let FrameNext::Frame(frame) = next else {
        return (99, false, false, false);
    };
    let (_, seen) = set.on_frame_seen(frame);
    (seen.place, seen.was_live, seen.had_head, seen.is_live)
}

fn is_owed(set: &StreamSet) -> bool {
    let all = set.owed_credit() == 983_041 + 3 && set.owed_credit_on(3) == 2;
    all && set.owed_credit_at(0) == Some((3, 2))
        && set.id_at(0) == Some(3)
        && set.id_at(1).is_none()
}

fn are_met(alloc: Global) -> Result<bool, AllocError> {
    let mut set = StreamSet::new(alloc, Role::Server, LIMITS)?;
    let mut is_right = true;
    for (text, wanted) in MET {
        let next = read(alloc, text)?;
        is_right &= meet(&mut set, &next) == *wanted;
    }
    Ok(is_right && is_owed(&set))
}

#[test]
fn a_frame_meets_its_stream(rt: HostRuntime) -> Result<(), Fail> {
    assert!(rt; are_met(rt.alloc())?);
    Ok(())
}

// SETTINGS with a window, or a WINDOW_UPDATE, and what may be sent then.
const WINDOWS: &[(&[u8], u32)] = &[
    (b"\0\0\x06\x04\0\0\0\0\0\0\x04\0\0\0\x28", 10),
    (b"\0\0\x06\x04\0\0\0\0\0\0\x04\0\0\0\x0a", 0),
    (b"\0\0\x04\x08\0\0\0\0\x01\0\0\0\x19", 5),
];

fn are_lowered(alloc: Global) -> Result<bool, AllocError> {
    let mut set = StreamSet::new(alloc, Role::Client, LIMITS)?;
    let mut is_right = set.begin() == Ok(1);
    send(&mut set, 1, 30);
    for (text, room) in WINDOWS {
        is_right &= answer(alloc, &mut set, text)? == (0, 0, 0) && set.may_send(1) == *room;
    }
    Ok(is_right)
}

#[test]
fn a_lowered_setting_lowers_a_window(rt: HostRuntime) -> Result<(), Fail> {
    assert!(rt; are_lowered(rt.alloc())?);
    Ok(())
}
