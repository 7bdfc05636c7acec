ghost use Rattle.std.specs.Prelude.{◌≡◌, ◌⊎◌, ◌+◌, ◌<◌, ◌≤◌, ◌^◌, [], List, ℕ, Some, None, IfOk};
ghost use Rattle.std.specs.Prelude.{length, vec_len, ◌==◌, if◌then◌else◌};
ghost use Rattle.rig_io.specs.Fault.{HasCause, StaysUnless};
ghost use Rattle.message_run.specs.Behaviour.{Behaviour};
ghost use Rattle.message_run.specs.Outcomes.{Close, trailer as trailer_spec};
ghost use Rattle.message_run.specs.Reading.{Stopped, close_of, stop_at as stop_said};
ghost use Rattle.message_run.specs.Runs.{Runs, RunsSomehow, IsStatus, told};
ghost use Rattle.message_run.specs.Written.{Wrote, WrotePart};
ghost use Rattle.message_run.specs.declared.stop.Stop.TheVariants.{ReadFault, WriteFault};

use crate::item::trailer;
use crate::message_handler::MessageHandler;
use crate::piece::handle_chunk;
use crate::put::write_all;
use crate::stop::Stop;
use rig_io::{Sink, Source, Took};
use std::alloc::{AllocError, Global};

/// How many bytes an input may have.
const MAX_INPUT_SIZE: u64 = 1_099_511_627_776;

/// How many bytes are taken at a time.
const BUFFER_SIZE: usize = 65_536;

fn new_buffer(alloc: Global) -> Result<Vec<u8>, AllocError>
    ensures { IfOk result (λ room. vec_len room ≡ 65536) }
{
    vec![in alloc; 0u8; BUFFER_SIZE]
}

// What ends a run at the end of an input of so many bytes.
fn stop_at_end(taken: u64, held: &[u8]) -> Stop
    requires { length held.now ≤ taken }
    ensures { result ≡ stop_said taken (length held.now) }
{
    if held.is_empty() {
        Stop::Finished
    } else {
        Stop::Unreadable((taken - held.len() as u64) as u128)
    }
}

// Serves the input piece by piece, up to its end or what ends the run.
fn handle_stream<A: MessageHandler, S: Source, K: Sink>(
    alloc: Global,
    server: &mut A,
    buffer: &mut [u8],
    out: &mut Vec<u8>,
    input: &mut S,
    output: &mut K,
) -> Stop
    requires first { (f : Behaviour) × A.shows server.old f × A.stands server.old f [] }
    requires room { length buffer.old ≡ 65536 }
    ensures became { (first : A) → A.became first server.old → A.became first server.new }
    ensures stopped { (f : Behaviour) → A.shows server.old f → A.stands server.old f [] → (g : Behaviour) × A.shows server.new g ×
        Stopped g (A.stands server.new g) result (told S.taken S.left K.placed input.old input.new output.old output.new) }
    ensures read { HasCause (S.faults input.old) (S.faults input.new) (result ≡ ReadFault) }
    ensures read_stays { StaysUnless (S.faults input.old) (S.faults input.new) (result ≡ ReadFault) }
    ensures write { HasCause (K.faults output.old) (K.faults output.new) (result ≡ WriteFault) }
    ensures write_stays { StaysUnless (K.faults output.old) (K.faults output.new) (result ≡ WriteFault) }
{
    let mut held = Vec::new(alloc);
    let mut taken = 0;
    loop {
        let room = (MAX_INPUT_SIZE - taken).min(BUFFER_SIZE as u64).max(1) as usize;
        let piece = &mut buffer[..room];
        match input.take(piece) {
            Took::Failed => return Stop::ReadFault,
            Took::End => return stop_at_end(taken, &held),
            Took::Got(count) => {
                if taken == MAX_INPUT_SIZE {
                    return Stop::Unreadable(MAX_INPUT_SIZE as u128);
                }
                let (front, _) = piece.split_at(count);
                if let Some(stop) = handle_chunk(server, taken, &mut held, front, out, output) {
                    return stop;
                }
                taken += count as u64;
            }
        }
    }
}

// The server leaves where the run closes.
fn leave_at<A: MessageHandler>(server: &mut A, stop: Stop)
    requires { (close : Close) → close_of stop ≡ Some close →
        (f : Behaviour) × (done : List (List ℕ)) × A.stands server.old f done × (length done < 2 ^ 61) }
    ensures left { (close : Close) → close_of stop ≡ Some close → (f : Behaviour) (done : List (List ℕ)) →
        A.stands server.old f done → length done < 2 ^ 61 → A.left server.new f done }
    ensures became { (first : A) → A.became first server.old → A.became first server.new }
    ensures shown { (f : Behaviour) → A.shows server.old f → A.shows server.new f }
    ensures stays { close_of stop ≡ None → server.new ≡ server.old }
{
    if stop.closes() {
        server.leave();
    }
}

// Writes a last item, and answers the status that goes with it.
fn close<K: Sink>(status: u8, flag: u8, number: u128, out: &mut Vec<u8>, output: &mut K) -> u8
    requires { status < 5 ⊎ (status ≡ 7) }
    ensures status { (result ≡ status) ⊎ (result ≡ 5) ⊎ (result ≡ 6) }
    ensures whole { result ≡ status → Wrote (K.placed output.old) (trailer_spec flag number) (K.placed output.new) }
    ensures part { WrotePart (K.placed output.old) (trailer_spec flag number) (K.placed output.new) }
    ensures lacks { result ≡ 6 → K.placed output.new ≡ K.placed output.old }
    ensures cause { HasCause (K.faults output.old) (K.faults output.new) (result ≡ 5) }
    ensures stays { StaysUnless (K.faults output.old) (K.faults output.new) (result ≡ 5) }
{
    match trailer(flag, number, out) {
        Ok(()) => { if write_all(output, out) { status } else { 5 } }
        Err(_) => 6,
    }
}

// The whole run: where it closes, the server leaves, and the last item is written.
fn run_in<A: MessageHandler, S: Source, K: Sink>(
    alloc: Global,
    server: &mut A,
    buffer: &mut [u8],
    input: &mut S,
    output: &mut K,
) -> u8
    requires first { (f : Behaviour) × A.shows server.old f × A.stands server.old f [] }
    requires room { length buffer.old ≡ 65536 }
    ensures became { (first : A) → A.became first server.old → A.became first server.new }
    ensures runs { (f : Behaviour) → A.shows server.old f → A.stands server.old f [] → (g : Behaviour) × A.shows server.new g
        × Runs g (A.stands server.new g) (A.left server.new g) result
        (told S.taken S.left K.placed input.old input.new output.old output.new) }
    ensures status { IsStatus result }
    ensures read { HasCause (S.faults input.old) (S.faults input.new) (result ≡ 4) }
    ensures read_stays { StaysUnless (S.faults input.old) (S.faults input.new) (result ≡ 4) }
    ensures write { HasCause (K.faults output.old) (K.faults output.new) (result ≡ 5) }
    ensures write_stays { StaysUnless (K.faults output.old) (K.faults output.new) (result ≡ 5) }
{
    let mut out = Vec::new(alloc);
    let stop = handle_stream(alloc, server, buffer, &mut out, input, output);
    leave_at(server, stop);
    match stop {
        Stop::Finished => 0,
        Stop::Refused(code) => close(7, 0x80, code as u128, &mut out, output),
        Stop::Unreadable(place) => close(3, 0x81, place, &mut out, output),
        Stop::ReadFault => 4,
        Stop::WriteFault => 5,
        Stop::NoMemory => 6,
    }
}

/// Hands each message of a stream to the server, and writes what it answers. At the end of the input, behind a reply that ends
/// the stream, and where the input can't be read, the server leaves, and in the last two cases a last item is written: byte 0x80
/// with the reply's status number, or byte 0x81 with the place in the input, each with a four-byte length, the highest byte
/// first, before the digits.
///
/// Answers 0 where the input was read and answered to its end, 3 where it can't be read, 4 and 5 where the input or the output
/// failed, 6 for want of memory, and 7 where a reply ended the stream. An input past 2^40 bytes can't be read at that place.
pub fn run<A: MessageHandler, S: Source, K: Sink>(
    alloc: Global,
    server: &mut A,
    input: &mut S,
    output: &mut K,
) -> u8
    requires first { (f : Behaviour) × A.shows server.old f × A.stands server.old f [] }
    // What is written is a function of the bytes that were taken and of the behaviour that showed, whether or not the source tells
    // what is left. Where it tells its input, it is a function of the input.
    ensures became { (first : A) → A.became first server.old → A.became first server.new }
    ensures runs { (f : Behaviour) → A.shows server.old f → A.stands server.old f []
        → RunsSomehow (A.shows server.new) (A.stands server.new) (A.left server.new) result
        (told S.taken S.left K.placed input.old input.new output.old output.new) }
    ensures status { IsStatus result }
    // No failure is hidden: a status but 4 leaves the input's faults, and one but 5 the output's.
    ensures read { HasCause (S.faults input.old) (S.faults input.new) (result ≡ 4) }
    ensures read_stays { StaysUnless (S.faults input.old) (S.faults input.new) (result ≡ 4) }
    ensures write { HasCause (K.faults output.old) (K.faults output.new) (result ≡ 5) }
    ensures write_stays { StaysUnless (K.faults output.old) (K.faults output.new) (result ≡ 5) }
{
    let Ok(mut buffer) = new_buffer(alloc) else {
        return 6;
    };
    run_in(alloc, server, &mut buffer, input, output)
}
