ghost use Rattle.std.specs.Prelude.{◌<◌};

use crate::devices::run_program;
use crate::program_words::words;
use rig_io::{MemSink, MemSource};
use std::alloc::Global;
use std::test::Fail;

/// How many operations the run has: more than a thousand events, in more bytes than are taken at a time.
const COUNT: u64 = 2_000;

/// How many bytes are taken at a time.
const TAKEN_AT_A_TIME: usize = 65_536;

// Seven bits of a number, from this place on.
fn digit(value: u64, place: u32) -> u8
    requires { place < 64 }
{
    ((value >> place) % 128) as u8
}

// Parameters and the election id 1, and then each next hop from 1,000 on, by operations from 20,000 on.
fn requests(alloc: Global, params: &[u8]) -> Result<Vec<u8>, Fail> {
    let mut bytes = Vec::from_slice(alloc, params)?;
    bytes.extend_from_slice(b"\0\0\0\0\x04\x1a\x02\x10\x01")?;
    for n in 0..COUNT {
        let id = 20_000 + n;
        let index = 1_000 + n;
        bytes.extend_from_slice(b"\0\0\0\0\x1c\x0a\x1a\x08")?;
        bytes.extend_from_slice(&[digit(id, 0) | 128, digit(id, 7) | 128, digit(id, 14)])?;
        bytes.extend_from_slice(b"\x12\x07DEFAULT\x18\x01\x42\x05\x08")?;
        bytes.extend_from_slice(&[digit(index, 0) | 128, digit(index, 7)])?;
        bytes.extend_from_slice(b"\x12\x00\x5a\x02\x10\x01")?;
    }
    Ok(bytes)
}

// The result of an operation, at the place of its message, with this status.
fn add_result(bytes: &mut Vec<u8>, n: u64, status: u8) -> Result<(), Fail>
    requires { n < 2000 }
{
    let id = 20_000 + n;
    let place = 3 + n;
    let size = if place < 128 { 8 } else { 9 };
    bytes.extend_from_slice(&[0, 0, 0, 0, size + 2, 10, size, 8])?;
    bytes.extend_from_slice(&[digit(id, 0) | 128, digit(id, 7) | 128, digit(id, 14)])?;
    bytes.extend_from_slice(&[16, status, 24])?;
    if place < 128 {
        bytes.push(digit(place, 0))?;
    } else {
        bytes.extend_from_slice(&[digit(place, 0) | 128, digit(place, 7)])?;
    }
    Ok(())
}

// Each operation is done with these statuses, one after another.
fn responses(alloc: Global, statuses: &[u8]) -> Result<Vec<u8>, Fail> {
    let mut bytes = Vec::new(alloc);
    bytes.extend_from_slice(b"\0\0\0\0\x04\x12\x02\x08\x01\0\0\0\0\x04\x1a\x02\x10\x01")?;
    for n in 0..COUNT {
        for status in statuses {
            add_result(&mut bytes, n, *status)?;
        }
    }
    Ok(bytes)
}

#[test]
fn a_long_input_is_answered_to_its_end(rt: HostRuntime) -> Result<(), Fail> {
    let alloc = rt.alloc();
    // RIB_PROGRAMMED alone, and FIB_PROGRAMMED behind it
    let cases: [(&[u8], &[u8]); 2] = [
        (b"\0\0\0\0\x06\x12\x04\x08\x01\x10\x01", &[3]),
        (b"\0\0\0\0\x08\x12\x06\x08\x01\x10\x01\x18\x01", &[3, 4]),
    ];
    for (params, statuses) in cases {
        let bytes = requests(alloc, params)?;
        assert!(rt; bytes.len() > TAKEN_AT_A_TIME);
        let mut input = MemSource::new(bytes, Vec::new(alloc));
        let mut output = MemSink::new(alloc, Vec::new(alloc));
        let status = run_program(
            &rt,
            alloc,
            &words(alloc, &["apply"])?,
            &mut input,
            &mut output,
        )?;
        let wanted = responses(alloc, statuses)?;
        assert!(rt; status == 0 && output.bytes() == wanted.as_slice());
    }
    Ok(())
}
