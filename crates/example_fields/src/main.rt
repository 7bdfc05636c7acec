//! An example for newcomers: prints the fields of a message in the Protocol Buffers encoding that stands on standard
//! input, one a line, by `proto_wire::FieldReader`.
//!
//! `rt run < stdin` in this folder shows the operation that adds next hop 1. Nothing but the reader's contract is
//! known here: the check proves that the loop ends and that nothing panics, whatever the bytes are.
#![tactic(auto)]

ghost use Rattle.std.specs.Prelude.{◌≤◌, IfOk, length};

use proto_wire::{Field, FieldReader, Next, WireFault, WireValue};
use std::io;

/// The most bytes that are read.
const MAX_MESSAGE_SIZE: usize = 4096;

fn fault_name(fault: WireFault) -> &'static str {
    match fault {
        WireFault::Truncated => "truncated",
        WireFault::BadVarint => "bad varint",
        WireFault::BadTag => "bad tag",
        WireFault::BadType => "bad type",
    }
}

fn print_field(rt: &HostRuntime, field: &Field) -> io::Result<()> {
    let place = field.place;
    let number = field.number;
    match field.value {
        WireValue::Varint(value) => println!(rt; "{place}: field {number} is the number {value}"),
        WireValue::Bytes(bytes) => {
            let count = bytes.len();
            println!(rt; "{place}: field {number} has {count} bytes")
        }
        WireValue::Eight(_) => println!(rt; "{place}: field {number} has 8 bytes without a length"),
        WireValue::Four(_) => println!(rt; "{place}: field {number} has 4 bytes without a length"),
    }
}

// A message has no more fields than bytes.
fn print_fields(rt: &HostRuntime, message: &[u8]) -> io::Result<()> {
    let mut reader = FieldReader::new(message);
    for _ in 0..message.len() {
        match reader.next() {
            Next::Field(field) => print_field(rt, &field)?,
            Next::End => break,
            Next::Refused(place, fault) => {
                let name = fault_name(fault);
                return println!(rt; "{place}: {name}");
            }
        }
    }
    Ok(())
}

// Reads until the buffer is full or the input ends, and answers how many bytes there are. Each read gives one at least.
fn read_all<R: io::Read>(input: &mut R, buffer: &mut [u8]) -> io::Result<usize>
    ensures { IfOk result (λ count. count ≤ length buffer.new) }
{
    let mut count = 0;
    for _ in 0..buffer.len() {
        if count >= buffer.len() {
            break;
        }
        let got = input.read(&mut buffer[count..])?;
        if got == 0 {
            break;
        }
        count += got;
    }
    Ok(count.min(buffer.len()))
}

fn main(rt: HostRuntime) -> io::Result<()> {
    let mut buffer = [0u8; MAX_MESSAGE_SIZE];
    let mut input = rt.reader();
    let count = read_all(&mut input, &mut buffer)?;
    print_fields(&rt, &buffer[..count])
}
