use aft_entries::{Instances, Kind};
use call_requests::{AskFault, Setting, read_flush, read_get};
use schema_numbers::default_numbering;
use std::alloc::Global;
use std::test::Fail;
use table_model::{FlushBy, KindAsk, Which};

fn setting(alloc: Global) -> Result<Setting, Fail> {
    let mut names = Vec::new(alloc);
    names.push(String::from_str(alloc, "DEFAULT")?)?;
    names.push(String::from_str(alloc, "B")?)?;
    Ok(Setting {
        numbering: default_numbering(alloc)?,
        instances: Instances::new(names)?,
    })
}

// INVALID_ARGUMENT with this text.
fn is_refused(fault: &AskFault, text: &[u8]) -> bool {
    match fault {
        AskFault::Refused(status) => status.code == 3 && status.message.as_slice() == text,
        AskFault::NoMemory => false,
    }
}

type Got<'a> = Result<(Which, KindAsk), &'a [u8]>;

// The bytes of a message, and what it asks for or the text of its refusal.
const GETS: &[(&[u8], Got<'_>)] = &[
    (b"\x12\x00\x18\x01", Ok((Which::All, KindAsk::All))),
    (
        b"\x0a\x07DEFAULT\x18\x02",
        Ok((Which::One(0), KindAsk::Only(Kind::V4))),
    ),
    (
        b"\x0a\x01B\x18\x06",
        Ok((Which::One(1), KindAsk::Only(Kind::Group))),
    ),
    (b"", Err(b"no network instance")),
    (b"\x18\x09", Err(b"no network instance")),
    (b"\x0a\x00\x18\x01", Err(b"unknown network instance")),
    (b"\x0a\x01A\x18\x09", Err(b"unknown network instance")),
    (b"\x12\x00", Err(b"unknown AFT type")),
    (b"\x12\x00\x18\x07", Err(b"unknown AFT type")),
    (b"\x12\x00\x18", Err(b"bad message at 2")),
    (
        b"\x0a\x08DEFAULTS\x18\x01\x0a\x01\xff",
        Err(b"bad message at 12"),
    ),
];

fn gets(alloc: Global, setting: &Setting, message: &[u8], want: &Got<'_>) -> bool {
    match read_get(alloc, setting, message) {
        Ok(asked) => match want {
            Ok(wanted) => asked == *wanted,
            Err(_) => false,
        },
        Err(fault) => match want {
            Ok(_) => false,
            Err(text) => is_refused(&fault, text),
        },
    }
}

#[test]
fn what_a_get_asks_for(rt: HostRuntime) -> Result<(), Fail> {
    let setting = setting(rt.alloc())?;
    let mut is_right = true;
    for (message, want) in GETS {
        is_right &= gets(rt.alloc(), &setting, message, want);
    }
    assert!(rt; is_right);
    Ok(())
}

type Flushed<'a> = Result<(FlushBy, Which), &'a [u8]>;

const FLUSHES: &[(&[u8], Flushed<'_>)] = &[
    (
        b"\x0a\x02\x10\x01\x22\x00",
        Ok((FlushBy::Id(1), Which::All)),
    ),
    (b"\x12\x00\x1a\x01B", Ok((FlushBy::Override, Which::One(1)))),
    (b"", Err(b"no network instance")),
    (b"\x0a\x00", Err(b"no network instance")),
    (b"\x1a\x01A", Err(b"unknown network instance")),
    (b"\x0a\x00\x1a\x01A", Err(b"unknown network instance")),
    (b"\x22\x00", Err(b"no election")),
    (b"\x0a\x00\x22\x00", Err(b"election id is zero")),
    (b"\x22\x00\x0a\x02\x08", Err(b"bad message at 2")),
];

fn flushes(alloc: Global, setting: &Setting, message: &[u8], want: &Flushed<'_>) -> bool {
    match read_flush(alloc, setting, message) {
        Ok(asked) => match want {
            Ok(wanted) => asked == *wanted,
            Err(_) => false,
        },
        Err(fault) => match want {
            Ok(_) => false,
            Err(text) => is_refused(&fault, text),
        },
    }
}

#[test]
fn what_a_flush_asks_for(rt: HostRuntime) -> Result<(), Fail> {
    let setting = setting(rt.alloc())?;
    let mut is_right = true;
    for (message, want) in FLUSHES {
        is_right &= flushes(rt.alloc(), &setting, message, want);
    }
    assert!(rt; is_right);
    Ok(())
}
