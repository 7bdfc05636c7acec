use crate::session_orders::setting;
use aft_entries::MemDevice;
use apply_path::{
    answers_match_the_server, apply_stream, histories_are_lawful, output_rests_on_the_input,
    write_all,
};
use rig_io::{MemSink, MemSource};
use std::test::Fail;

// Parameters, the election id 1, next hops of the instances BLUE and RED in one message, and one of DEFAULT.
const INPUT: &[u8] =
    b"\0\0\0\0\x06\x12\x04\x08\x01\x10\x01\0\0\0\0\x04\x1a\x02\x10\x01\0\0\0\0\x2b\x0a\x14\x08\x01\x12\x04BLUE\x18\x01\x42\x04\x08\x01\x12\x00\x5a\x02\x10\x01\x0a\x13\x08\x02\x12\x03RED\x18\x01\x42\x04\x08\x01\x12\x00\x5a\x02\x10\x01\0\0\0\0\x19\x0a\x17\x08\x03\x12\x07DEFAULT\x18\x01\x42\x04\x08\x01\x12\x00\x5a\x02\x10\x01";

const OUTPUT: &[u8] =
    b"\0\0\0\0\x04\x12\x02\x08\x01\0\0\0\0\x04\x1a\x02\x10\x01\0\0\0\0\x08\x0a\x06\x08\x01\x10\x03\x18\x03\0\0\0\0\x0a\x0a\x08\x08\x02\x10\x02\x18\x03\x20\x05\0\0\0\0\x08\x0a\x06\x08\x03\x10\x03\x18\x04";

#[test]
fn instances_are_those_of_the_setting(rt: HostRuntime) -> Result<(), Fail> {
    let alloc = rt.alloc();
    let setting = setting(alloc, &["DEFAULT", "BLUE"])?;
    let mut source = MemSource::new(Vec::from_slice(alloc, INPUT)?, Vec::new(alloc));
    let mut sink = MemSink::new(alloc, Vec::new(alloc));
    let mut device = MemDevice::new(alloc, Vec::new(alloc));
    let status = apply_stream(alloc, &setting, &mut source, &mut sink, &mut device);
    assert_eq!(rt; status, 0);
    assert_eq!(rt; device.contents().len(), 2);
    assert_eq!(rt; sink.bytes(), OUTPUT);
    Ok(())
}

#[test]
fn a_message_goes_on_or_ends_the_stream(rt: HostRuntime) -> Result<(), Fail> {
    let setting = setting(rt.alloc(), &["DEFAULT"])?;
    let cases: [(&[u8], u8, &[u8]); 5] = [
        (b"\0\0\0\0\0", 0, b""),
        (
            b"\0\0\0\0\x06\x1a\x02\x10\x01\x00\x01",
            3,
            b"\x81\0\0\0\x019",
        ),
        (
            b"\0\0\0\0\x06\x12\x04\x08\x01\x10\x01",
            0,
            b"\0\0\0\0\x04\x12\x02\x08\x01",
        ),
        (
            b"\0\0\0\0\x08\x12\x04\x08\x01\x10\x01\x1a\x00",
            7,
            b"\0\0\0\0\x04\x12\x02\x08\x01\x80\0\0\0\x013",
        ),
        (b"\0\0\0\0\x02\x12\x00", 7, b"\x80\0\0\0\x0212"),
    ];
    for (input, wanted, answers) in cases {
        let mut source = MemSource::new(Vec::from_slice(rt.alloc(), input)?, Vec::new(rt.alloc()));
        let mut sink = MemSink::new(rt.alloc(), Vec::new(rt.alloc()));
        let mut device = MemDevice::new(rt.alloc(), Vec::new(rt.alloc()));
        let status = apply_stream(rt.alloc(), &setting, &mut source, &mut sink, &mut device);
        assert_eq!(rt; status, wanted);
        assert_eq!(rt; sink.bytes(), answers);
    }
    Ok(())
}

#[test]
fn answers_stand_in_the_output(rt: HostRuntime) -> Result<(), Fail> {
    answers_match_the_server();
    histories_are_lawful();
    output_rests_on_the_input();
    let mut sink = MemSink::new(rt.alloc(), Vec::new(rt.alloc()));
    assert!(rt; write_all(&mut sink, b"abc"));
    assert_eq!(rt; sink.bytes(), b"abc".as_slice());
    Ok(())
}
