//! The program `gribi`: its real streams, sockets, clock and devices, handed to `gribi_main`.
#![tactic(auto)]

ghost use Rattle.std.specs.Prelude.{◌≡◌, IfOk, vec_len};

use aft_entries::MemDevice;
use gribi_edge::TcpAcceptor;
use gribi_program::{ReaderSource, SystemClock, WriterSink, gribi_main};
use std::alloc::{AllocError, Global};
use std::process::ExitCode;
use std::{env, io};

/// The status of a run that found no memory for the words.
const NO_MEMORY: u8 = 6;

fn words_of(rt: &HostRuntime, alloc: Global) -> io::Result<Vec<String>> {
    let mut words = Vec::new(alloc);
    for word in env::args(rt)?.skip(1) {
        words.push(word)?;
    }
    Ok(words)
}

// The devices that are programmed, which are empty.
fn devices(alloc: Global) -> Result<Vec<MemDevice>, AllocError>
    ensures { IfOk result (λ devices. vec_len devices ≡ 16) }
{
    let mut devices = Vec::new(alloc);
    for _ in 0..16u64 {
        devices.push(MemDevice::new(alloc, Vec::new(alloc)))?;
    }
    Ok(devices)
}

fn main(rt: HostRuntime) -> ExitCode {
    let alloc = rt.alloc();
    let words = match words_of(&rt, alloc) {
        Ok(words) => words,
        Err(e) if e.kind() == io::ErrorKind::OutOfMemory => return ExitCode::from(NO_MEMORY),
        // A word that isn't text is none of a command.
        Err(_) => Vec::new(alloc),
    };
    let mut input = ReaderSource::new(rt.reader());
    let mut output = WriterSink::new(io::writer(&rt));
    let mut acceptor = TcpAcceptor::new(&rt, alloc, true);
    let mut clock = SystemClock::new(&rt);
    let Ok(mut devices) = devices(alloc) else {
        return ExitCode::from(NO_MEMORY);
    };
    let status = gribi_main(
        &rt,
        alloc,
        &words,
        &mut input,
        &mut output,
        &mut acceptor,
        &mut devices,
        &mut clock,
    );
    ExitCode::from(status)
}
