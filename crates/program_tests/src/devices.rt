ghost use Rattle.std.specs.Prelude.{◌≡◌, IfOk, vec_len};

use aft_entries::MemDevice;
use gribi_program::gribi_main;
use rig_io::{MemAcceptor, Sink, Source, StepClock};
use std::alloc::{AllocError, Global};
use std::sync::Wait;
use std::thread::Threads;

// Sixteen devices that fail at none of their calls.
fn devices(alloc: Global) -> Result<Vec<MemDevice>, AllocError>
    ensures { IfOk result (λ devices. vec_len devices ≡ 16) }
{
    let mut devices = Vec::new(alloc);
    for _ in 0..16u64 {
        devices.push(MemDevice::new(alloc, Vec::new(alloc)))?;
    }
    Ok(devices)
}

/// Runs the program with devices that fail at none of their calls, where nobody dials.
pub fn run_program<R: Threads + Wait + Sync, S: Source, K: Sink>(
    rt: &R,
    alloc: Global,
    words: &[String],
    input: &mut S,
    output: &mut K,
) -> Result<u8, AllocError> {
    let mut devices = devices(alloc)?;
    let mut acceptor = MemAcceptor::new(alloc, Vec::new(alloc));
    let mut clock = StepClock::new(0);
    Ok(gribi_main(
        rt,
        alloc,
        words,
        input,
        output,
        &mut acceptor,
        &mut devices,
        &mut clock,
    ))
}
