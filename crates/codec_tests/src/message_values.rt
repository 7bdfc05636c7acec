use proto_schema::{
    MergedBytes, MessageFault, MessageKind, first_fault, last_number_at, message_at, number_at,
    oneof_at, text_at,
};
use proto_wire::WireFault;
use schema_numbers::{FieldName, Numbering, ValueName, default_numbering};
use std::test::Fail;

const FIELDS: &[(FieldName, u32)] = &[
    (FieldName::ModifyRequestElectionId, 3),
    (FieldName::AftOperationElectionId, 11),
    (FieldName::AftEntryFibStatus, 8),
    (FieldName::LabelLeavesNextHopGroupNetworkInstance, 2),
    (FieldName::PushedLabelLabelUint64, 1),
];

const VALUES: &[(ValueName, u64)] = &[
    (ValueName::OpDelete, 3),
    (ValueName::AckTypeRibAck, 0),
    (ValueName::ResultStatusFibFailed, 5),
    (ValueName::ModifyReasonElectionIdInAllPrimary, 4),
];

fn are_default(n: &Numbering) -> bool {
    let mut is_right = true;
    for (item, number) in FIELDS {
        is_right &= n.field(*item) == *number;
    }
    for (item, number) in VALUES {
        is_right &= n.value(*item) == *number;
    }
    is_right
}

#[test]
fn numbers_of_the_schema(rt: HostRuntime) -> Result<(), Fail> {
    let n = default_numbering(rt.alloc())?;
    assert!(rt; are_default(&n));
    Ok(())
}

#[test]
fn first_faults_and_their_places(rt: HostRuntime) -> Result<(), Fail> {
    let n = default_numbering(rt.alloc())?;
    let cases: [(&[u8], Option<MessageFault>); 6] = [
        (b"", None),
        // a member of a oneof that loses
        (
            b"\x0a\x09\x22\x03\x0a\x01\xff\x42\x02\x08\x01",
            Some(MessageFault::Utf8(4)),
        ),
        // a member that isn't looked into
        (b"\x0a\x03\x4a\x01\xff", None),
        // the network instance of a route's group
        (
            b"\x0a\x09\x22\x07\x12\x05\x12\x03\x0a\x01\xff",
            Some(MessageFault::Utf8(8)),
        ),
        // the weight of a group's member, the deepest of all
        (
            b"\x0a\x0b\x3a\x09\x12\x07\x0a\x05\x12\x03\x0a\x01\x08",
            Some(MessageFault::Wire(12, WireFault::Truncated)),
        ),
        // an operation of another wire type
        (b"\x08\x01", None),
    ];
    for (bytes, fault) in cases {
        assert!(rt;
            first_fault(&n, MessageKind::ModifyRequest, bytes) == fault,
            "{bytes:?}"
        );
    }
    Ok(())
}

#[test]
fn numbers_and_texts_of_a_message(rt: HostRuntime) {
    assert!(rt; number_at(1, b"\x08\x01\x08\x07\x0a\x01\x05") == 7);
    assert!(rt; number_at(2, b"\x08\x01") == 0);
    assert!(rt; last_number_at(1, b"\x08\x07\x08\x00") == Some(0));
    assert!(rt; last_number_at(2, b"\x08\x01\x12\x00") == None);
    assert!(rt; text_at(1, b"\x0a\x01a\x0a\x02bc\x08\x01") == b"bc".as_slice());
}

#[test]
fn occurrences_of_a_message_are_joined(rt: HostRuntime) -> Result<(), Fail> {
    let cases: [(&[u8], Option<&[u8]>); 3] = [
        (b"\x0a\x01a\x12\x01x\x0a\x02bc", Some(b"abc")),
        (b"\x0a\x00", Some(b"")),
        (b"\x12\x01x", None),
    ];
    for (bytes, whole) in cases {
        let found = message_at(rt.alloc(), 1, bytes)?;
        assert!(rt;
            found.as_ref().map(MergedBytes::as_bytes) == whole,
            "{bytes:?}"
        );
    }
    Ok(())
}

#[test]
fn the_last_member_is_chosen(rt: HostRuntime) -> Result<(), Fail> {
    let cases: [(&[u8], Option<(u32, &[u8])>); 4] = [
        (b"\x22\x01a\x42\x01b\x22\x01c", Some((4, b"c"))),
        (b"\x22\x01a\x42\x01b\x1a\x01x\x42\x01c", Some((8, b"bc"))),
        (b"\x42\x01a\x40\x01", Some((8, b"a"))),
        (b"\x1a\x01x", None),
    ];
    for (bytes, member) in cases {
        let found = oneof_at(rt.alloc(), &[4, 8], bytes)?;
        let seen = found.as_ref().map(|c| (c.number, c.bytes.as_bytes()));
        assert!(rt; seen == member, "{bytes:?}");
    }
    Ok(())
}
