//! Runs of `serve` over links in memory.
ghost use Rattle.std.specs.Prelude.{◌≡◌, ◌≤◌, IfOk, length, vec_len};

use crate::client::{FIRST, HOP_1, LAST_HOP_2, call};
use aft_entries::{Device, MemDevice};
use gribi_program::gribi_main;
use rig_io::{Acceptor, MemAcceptor, MemLink, MemSink, MemSource, StepClock};
use std::alloc::{AllocError, Global};
use std::sync::Wait;
use std::test::Fail;
use std::thread::Threads;

fn words(alloc: Global, all: &[&str]) -> Result<Vec<String>, AllocError> {
    let mut words = Vec::new(alloc);
    for word in all {
        words.push(String::from_str(alloc, word)?)?;
    }
    Ok(words)
}

/// Runs the program with these words, where these writes of its output fail. It answers the status and what was written.
pub(crate) fn run<R: Threads + Wait + Sync, A: Acceptor, D: Device + Drop + Send>(
    rt: &R,
    alloc: Global,
    all_words: &[&str],
    writes_failing: &[u64],
    acceptor: &mut A,
    devices: &mut Vec<D>,
) -> Result<(u8, MemSink), AllocError>
    requires devices { 16 ≤ length devices.old.items }
    requires took { A.retired_count acceptor.old ≤ A.given_count acceptor.old }
{
    let words = words(alloc, all_words)?;
    let mut input = MemSource::new(Vec::new(alloc), Vec::new(alloc));
    let mut output = MemSink::new(alloc, Vec::from_slice(alloc, writes_failing)?);
    let mut clock = StepClock::new(0);
    let status = gribi_main(
        rt,
        alloc,
        &words,
        &mut input,
        &mut output,
        acceptor,
        devices,
        &mut clock,
    );
    Ok((status, output))
}

/// Whether this is a line of counts with this front, a number of events, and the newline.
pub(crate) fn is_line(text: &[u8], front: &[u8]) -> bool {
    match text.strip_prefix(front) {
        Some([digits @ .., b'\n']) => {
            !digits.is_empty() && digits.iter().all(|c| c.is_ascii_digit())
        }
        _ => false,
    }
}

fn devices(alloc: Global) -> Result<Vec<MemDevice>, AllocError>
    ensures { IfOk result (λ devices. vec_len devices ≡ 16) }
{
    let mut devices = Vec::new(alloc);
    for _ in 0..16u64 {
        devices.push(MemDevice::new(alloc, Vec::new(alloc)))?;
    }
    Ok(devices)
}

// Serves one client, which sends these bytes and then ends, for so many links.
fn serve_one<R: Threads + Wait + Sync>(
    rt: &R,
    alloc: Global,
    connections: &str,
    bytes: &[u8],
    writes_failing: &[u64],
) -> Result<(u8, MemSink), AllocError> {
    let mut link = MemLink::new(alloc, Vec::new(alloc));
    link.feed(bytes)?;
    link.end_input();
    let mut links = Vec::new(alloc);
    links.push(link)?;
    let mut acceptor = MemAcceptor::new(alloc, links);
    let mut devices = devices(alloc)?;
    run(
        rt,
        alloc,
        &["serve", "--listen", "a", "--connections", connections],
        writes_failing,
        &mut acceptor,
        &mut devices,
    )
}

const NOTHING: &[u8] = b"entries 0 installed 0 events ";

// Whether serving one client for so many links ends with this status and line.
fn comes_to<R: Threads + Wait + Sync>(
    rt: &R,
    alloc: Global,
    connections: &str,
    bytes: &[u8],
    status: u8,
    front: &[u8],
) -> Result<bool, AllocError> {
    let (found, output) = serve_one(rt, alloc, connections, bytes, &[])?;
    Ok(found == status && is_line(output.bytes(), front))
}

#[test]
fn a_client_that_asks_nothing_is_served(rt: HostRuntime) -> Result<(), Fail> {
    let is_right = comes_to(&rt, rt.alloc(), "1", FIRST, 0, NOTHING)?;
    assert!(rt; is_right);
    Ok(())
}

#[test]
fn links_that_do_not_come_are_a_failure_of_the_acceptor(rt: HostRuntime) -> Result<(), Fail> {
    let is_right = comes_to(&rt, rt.alloc(), "2", FIRST, 8, NOTHING)?;
    assert!(rt; is_right);
    Ok(())
}

#[test]
fn entries_of_a_client_are_counted(rt: HostRuntime) -> Result<(), Fail> {
    let bytes = call(rt.alloc(), &[HOP_1, LAST_HOP_2])?;
    let is_right = comes_to(
        &rt,
        rt.alloc(),
        "1",
        bytes.as_slice(),
        0,
        b"entries 2 installed 2 events ",
    )?;
    assert!(rt; is_right);
    Ok(())
}

// Whether a line that can't be written is told by the status.
fn is_cut<R: Threads + Wait + Sync>(rt: &R, alloc: Global) -> Result<bool, AllocError> {
    let (status, output) = serve_one(rt, alloc, "1", FIRST, &[0])?;
    Ok(status == 5 && output.bytes().is_empty())
}

#[test]
fn a_line_that_cannot_be_written_is_told(rt: HostRuntime) -> Result<(), Fail> {
    let is_right = is_cut(&rt, rt.alloc())?;
    assert!(rt; is_right);
    Ok(())
}
