ghost use Rattle.std.specs.Prelude.{◌+◌, ◌<◌, ◌^◌, length};

use proto_wire::{FieldReader, Next, WireFault, WireValue, write_bytes, write_uint, write_varint};
use std::test::Fail;

// Skips this many fields of a message that stands at `place`, and reads one more.
fn read_behind(message: &[u8], place: usize, fields: usize) -> Next<'_>
    requires { place + length message.now < 2 ^ 64 }
{
    let mut reader = FieldReader::at(message, place);
    for _ in 0..fields {
        let _ = reader.next();
    }
    reader.next()
}

// A message, how many of its fields have no fault, and the place and the kind of the fault behind them.
const FAULTS: [(&[u8], usize, usize, WireFault); 9] = [
    // ten bytes of which the last is above 1: a value, a tag and a length
    (
        b"\x78\xff\xff\xff\xff\xff\xff\xff\xff\xff\x02",
        0,
        0,
        WireFault::BadVarint,
    ),
    (
        b"\x80\x80\x80\x80\x80\x80\x80\x80\x80\x02",
        0,
        0,
        WireFault::BadVarint,
    ),
    (
        b"\x0a\xff\xff\xff\xff\xff\xff\xff\xff\xff\x02",
        0,
        0,
        WireFault::BadVarint,
    ),
    (b"\x78\x01\x0b", 1, 2, WireFault::BadType),
    // the number 0, and one above 2^29 - 1
    (b"\x03", 0, 0, WireFault::BadTag),
    (b"\x80\x80\x80\x80\x10\x00", 0, 0, WireFault::BadTag),
    (b"\x0a\x03\x12", 0, 0, WireFault::Truncated),
    (
        b"\x09\x01\x02\x03\x04\x05\x06\x07",
        0,
        0,
        WireFault::Truncated,
    ),
    (b"\x08\x05\x0d\x01\x02\x03", 1, 2, WireFault::Truncated),
];

#[test]
fn faults_have_their_kind_and_place(rt: HostRuntime) {
    for (message, fields, place, fault) in FAULTS {
        let mut found = None;
        if let Next::Refused(at, kind) = read_behind(message, 0, fields) {
            found = Some((at, kind));
        }
        assert!(rt; found == Some((place, fault)));
    }
}

#[test]
fn a_fault_deep_inside_has_its_place_outermost(rt: HostRuntime) {
    let mut found = None;
    if let Next::Refused(at, kind) = read_behind(b"\x12\x05", 2, 0) {
        found = Some((at, kind));
    }
    assert!(rt; found == Some((2, WireFault::Truncated)));
}

#[test]
fn fields_are_written(rt: HostRuntime) -> Result<(), Fail> {
    let mut out = Vec::new(rt.alloc());
    write_uint(1, 150, &mut out)?;
    write_bytes(2, b"testing", &mut out)?;
    write_uint(536_870_911, u64::MAX, &mut out)?;
    write_bytes(3, b"", &mut out)?;
    write_varint(300, &mut out)?;
    let spelled =
        b"\x08\x96\x01\x12\x07testing\xf8\xff\xff\xff\x0f\xff\xff\xff\xff\xff\xff\xff\xff\xff\x01\x1a\x00\xac\x02";
    assert!(rt; out.as_slice() == spelled.as_slice());
    Ok(())
}

// The number of the next field, its place, and its value as bytes: a varint is one number of eight bytes.
fn seen(next: Next<'_>) -> Option<(u32, usize, u64, [u8; 8])> {
    let Next::Field(field) = next else {
        return None;
    };
    let (value, bytes) = match field.value {
        WireValue::Varint(value) => (value, [0; 8]),
        WireValue::Eight(bytes) => (8, bytes),
        WireValue::Four(b) => (4, [b[0], b[1], b[2], b[3], 0, 0, 0, 0]),
        WireValue::Bytes(bytes) => (bytes.len() as u64, [0; 8]),
    };
    Some((field.number, field.place, value, bytes))
}

#[test]
fn fields_of_each_type_are_read(rt: HostRuntime) {
    let message =
        b"\x88\x80\x00\x05\x09\x01\x02\x03\x04\x05\x06\x07\x08\x15\x01\x02\x03\x04\x1a\x03abc";
    let wanted = [
        Some((1, 0, 5, [0; 8])),
        Some((1, 4, 8, [1, 2, 3, 4, 5, 6, 7, 8])),
        Some((2, 13, 4, [1, 2, 3, 4, 0, 0, 0, 0])),
        Some((3, 18, 3, [0; 8])),
        None,
    ];
    let mut reader = FieldReader::new(message);
    assert!(rt; reader.place() == 0);
    for field in wanted {
        assert!(rt; seen(reader.next()) == field);
    }
}
