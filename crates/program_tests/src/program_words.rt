use crate::devices::run_program;
use rig_io::{MemSink, MemSource};
use std::alloc::Global;
use std::sync::Wait;
use std::test::Fail;
use std::thread::Threads;

/// These words, each a text of its own.
pub fn words(alloc: Global, all: &[&str]) -> Result<Vec<String>, Fail> {
    let mut words = Vec::new(alloc);
    for word in all {
        words.push(String::from_str(alloc, word)?)?;
    }
    Ok(words)
}

// Parameters, and what is answered.
const PARAMS: &[u8] = b"\0\0\0\0\x06\x12\x04\x08\x01\x10\x01";

const PARAMS_SET: &[u8] = b"\0\0\0\0\x04\x12\x02\x08\x01";

const USAGE: &[u8] = b"usage: gribi apply | serve\n";

// Whether a run over the parameters that fails at these reads and writes ends with this status and this output.
fn ends_with<R: Threads + Wait + Sync>(
    rt: &R,
    alloc: Global,
    all_words: &[&str],
    reads_failing: &[u64],
    writes_failing: &[u64],
    status: u8,
    wanted: &[u8],
) -> Result<bool, Fail> {
    let bytes = Vec::from_slice(alloc, PARAMS)?;
    let mut input = MemSource::new(bytes, Vec::from_slice(alloc, reads_failing)?);
    let mut output = MemSink::new(alloc, Vec::from_slice(alloc, writes_failing)?);
    let words = words(alloc, all_words)?;
    let found = run_program(rt, alloc, &words, &mut input, &mut output)?;
    Ok(found == status && output.bytes() == wanted)
}

#[test]
fn words_name_the_instances_or_are_no_command(rt: HostRuntime) -> Result<(), Fail> {
    let cases: [(&[&str], u8, &[u8]); 11] = [
        (&[], 2, USAGE),
        (&["apply", "now"], 2, USAGE),
        (&["apply", "--instances"], 2, USAGE),
        (&["apply", "--instances="], 2, USAGE),
        (&["apply", "--instances", "-A"], 2, USAGE),
        (&["apply", "--instances", "A,A"], 2, USAGE),
        (&["serve"], 2, USAGE),
        (&["serve", "--listen", "a", "--workers", "17"], 2, USAGE),
        (&["serve", "--listen=a", "--connections=01"], 2, USAGE),
        (&["apply", "--instances", "A,B"], 0, PARAMS_SET),
        (&["apply", "--instances=A"], 0, PARAMS_SET),
    ];
    for (words, status, wanted) in cases {
        assert!(rt;
            ends_with(&rt, rt.alloc(), words, &[], &[], status, wanted)?,
            "{words:?}"
        );
    }
    Ok(())
}

#[test]
fn failures_end_a_run(rt: HostRuntime) -> Result<(), Fail> {
    let cases: [(&[&str], &[u64], &[u64], u8, &[u8]); 4] = [
        (&["now"], &[], &[0], 2, b""),
        (&["apply"], &[], &[0], 5, b""),
        (&["apply"], &[0], &[], 4, b""),
        (&["apply"], &[1], &[], 4, PARAMS_SET),
    ];
    for (words, reads_failing, writes_failing, status, wanted) in cases {
        assert!(rt;
            ends_with(
                &rt,
                rt.alloc(),
                words,
                reads_failing,
                writes_failing,
                status,
                wanted
            )?
        );
    }
    Ok(())
}
