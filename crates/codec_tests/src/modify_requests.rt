use gribi_messages::{
    MessageFault, ModifyRequest, Op, OperationReader, RawEntry, RawParams, decode_modify,
    encode_modify_request, header_of,
};
use proto_wire::WireFault;
use schema_numbers::{Numbering, default_numbering};
use std::alloc::Global;
use std::test::Fail;

// Parameters, election and count of operations as plain values.
type Seen = (Option<RawParams>, Option<u128>, usize);

fn seen(request: &ModifyRequest) -> Seen {
    (
        request.params,
        request.election,
        request.operations.as_slice().len(),
    )
}

fn params(redundancy: u64, persistence: u64, ack: u64) -> Option<RawParams> {
    Some(RawParams {
        redundancy,
        persistence,
        ack,
    })
}

fn is_read(alloc: Global, n: &Numbering, bytes: &[u8], wanted: Seen) -> bool {
    match decode_modify(alloc, n, bytes) {
        Err(_) => false,
        Ok(request) => seen(&request) == wanted,
    }
}

#[test]
fn requests_are_read(rt: HostRuntime) -> Result<(), Fail> {
    let n = default_numbering(rt.alloc())?;
    let cases: [(&[u8], Seen); 5] = [
        (b"", (None, None, 0)),
        (b"\x12\x00", (params(0, 0, 0), None, 0)),
        // occurrences are joined, and the last number counts
        (
            b"\x12\x04\x08\x01\x10\x07\x12\x02\x10\x01",
            (params(1, 1, 0), None, 0),
        ),
        (b"\x1a\x02\x10\x01", (None, Some(1), 0)),
        (
            b"\x1a\x04\x08\x01\x10\x02\x0a\x00\x0a\x00",
            (None, Some(0x1_0000_0000_0000_0002), 2),
        ),
    ];
    for (bytes, wanted) in cases {
        assert!(rt; is_read(rt.alloc(), &n, bytes, wanted));
    }
    Ok(())
}

#[test]
fn faults_have_their_kind_and_place(rt: HostRuntime) -> Result<(), Fail> {
    let n = default_numbering(rt.alloc())?;
    let cases: [(&[u8], MessageFault); 6] = [
        (
            b"\x78\xff\xff\xff\xff\xff\xff\xff\xff\xff\x02",
            MessageFault::Wire(0, WireFault::BadVarint),
        ),
        (b"\x0a\x03\x12\x01\xff", MessageFault::Utf8(2)),
        (b"\x78\x01\x0b", MessageFault::Wire(2, WireFault::BadType)),
        (b"\x00\x01", MessageFault::Wire(0, WireFault::BadTag)),
        (b"\x0a\x03\x12", MessageFault::Wire(0, WireFault::Truncated)),
        (
            b"\x0a\x02\x12\x05",
            MessageFault::Wire(2, WireFault::Truncated),
        ),
    ];
    for (bytes, wanted) in cases {
        assert!(rt; decode_modify(rt.alloc(), &n, bytes).err() == Some(wanted));
    }
    Ok(())
}

// The entry's member of its oneof by its place, the index of a next hop, and whether it says nothing of an address.
fn entry_seen(entry: &Option<RawEntry>) -> (usize, u64, bool) {
    match entry {
        None => (0, 0, false),
        Some(RawEntry::V4(_, _)) => (1, 0, false),
        Some(RawEntry::V6(_, _)) => (2, 0, false),
        Some(RawEntry::Label(_, _)) => (3, 0, false),
        Some(RawEntry::Group(_, _)) => (4, 0, false),
        Some(RawEntry::Hop(index, hop)) => (5, *index, hop.ip.is_none()),
        Some(RawEntry::Mac) => (6, 0, false),
        Some(RawEntry::Policy) => (7, 0, false),
    }
}

// The id, the name of the instance, the op and the entry of an operation.
type Operation<'a> = (u64, &'a str, Option<Op>, (usize, u64, bool));

fn one<'a>(request: &'a ModifyRequest) -> Option<Operation<'a>> {
    let [operation] = request.operations.as_slice() else {
        return None;
    };
    let entry = entry_seen(&operation.entry);
    Some((
        operation.id,
        operation.instance.as_str(),
        operation.op,
        entry,
    ))
}

// Whether the request of these bytes has this operation alone.
fn has_one(alloc: Global, n: &Numbering, bytes: &[u8], wanted: Operation<'_>) -> bool {
    match decode_modify(alloc, n, bytes) {
        Err(_) => false,
        Ok(request) => one(&request) == Some(wanted),
    }
}

// How a request that is read from these bytes is written.
fn again(alloc: Global, n: &Numbering, bytes: &[u8]) -> Result<Vec<u8>, MessageFault> {
    let request = decode_modify(alloc, n, bytes)?;
    match encode_modify_request(alloc, n, &request) {
        Err(_) => Err(MessageFault::NoMemory),
        Ok(written) => Ok(written),
    }
}

// Requests of one operation, and its op and entry.
const OPERATIONS: [(&[u8], Option<Op>, (usize, u64, bool)); 6] = [
    (
        b"\x0a\x11\x08\x01\x12\x07DEFAULT\x18\x01\x42\x02\x08\x01",
        Some(Op::Add),
        (5, 1, true),
    ),
    (
        b"\x0a\x13\x08\x01\x12\x07DEFAULT\x18\x02\x42\x04\x08\x01\x12\x00",
        Some(Op::Replace),
        (5, 1, true),
    ),
    (
        b"\x0a\x13\x08\x01\x12\x07DEFAULT\x18\x03\x42\x04\x12\x02\x0a\x00",
        Some(Op::Delete),
        (5, 0, false),
    ),
    // an operation that isn't in the table, and a next hop that loses
    (
        b"\x0a\x15\x08\x01\x12\x07DEFAULT\x18\x09\x42\x02\x08\x01\x3a\x02\x08\x01",
        None,
        (4, 0, false),
    ),
    // a next hop that wins, without what stood before the other member
    (
        b"\x0a\x17\x08\x01\x12\x07DEFAULT\x42\x02\x12\x00\x3a\x00\x42\x04\x08\x02\x08\x03",
        None,
        (5, 3, true),
    ),
    // two occurrences of one next hop
    (
        b"\x0a\x17\x08\x01\x12\x07DEFAULT\x42\x04\x12\x02\x0a\x00\x42\x04\x08\x02\x12\x00",
        None,
        (5, 2, false),
    ),
];

#[test]
fn operations_are_read(rt: HostRuntime) -> Result<(), Fail> {
    let n = default_numbering(rt.alloc())?;
    for (bytes, op, entry) in OPERATIONS {
        let written = again(rt.alloc(), &n, bytes)?;
        assert!(rt; has_one(rt.alloc(), &n, &written, (1, "DEFAULT", op, entry)));
    }
    Ok(())
}

#[test]
fn parts_of_a_request_are_read_one_by_one(rt: HostRuntime) -> Result<(), Fail> {
    let n = default_numbering(rt.alloc())?;
    let bytes = b"\x0a\x02\x08\x01\x0a\x00";
    assert!(rt; header_of(rt.alloc(), &n, bytes)? == (None, None));
    let mut pieces = OperationReader::new(&n, bytes);
    assert!(rt; pieces.next() == Some(b"\x08\x01"));
    assert!(rt; pieces.next() == Some(b""));
    assert!(rt; pieces.next() == None);
    Ok(())
}

#[test]
fn members_are_told_apart(rt: HostRuntime) -> Result<(), Fail> {
    let n = default_numbering(rt.alloc())?;
    // the bytes of the last two are not read
    let cases: [(&[u8], usize); 6] = [
        (b"\x0a\x02\x22\x00", 1),
        (b"\x0a\x02\x2a\x00", 2),
        (b"\x0a\x02\x32\x00", 3),
        (b"\x0a\x02\x3a\x00", 4),
        (b"\x0a\x03\x4a\x01\xff", 6),
        (b"\x0a\x03\x52\x01\xff", 7),
    ];
    for (bytes, place) in cases {
        assert!(rt; has_one(rt.alloc(), &n, bytes, (0, "", None, (place, 0, false))));
    }
    Ok(())
}

#[test]
fn requests_are_written(rt: HostRuntime) -> Result<(), Fail> {
    let n = default_numbering(rt.alloc())?;
    let cases: [(&[u8], &[u8]); 3] = [
        (b"", b""),
        (
            b"\x1a\x02\x10\x01\x12\x04\x10\x01\x08\x01",
            b"\x12\x04\x08\x01\x10\x01\x1a\x02\x10\x01",
        ),
        (
            b"\x0a\x17\x18\x01\x08\x01\x12\x07DEFAULT\x42\x04\x08\x01\x12\x00\x5a\x02\x10\x01",
            b"\x0a\x17\x08\x01\x12\x07DEFAULT\x18\x01\x42\x04\x08\x01\x12\x00\x5a\x02\x10\x01",
        ),
    ];
    for (bytes, spelled) in cases {
        assert!(rt; again(rt.alloc(), &n, bytes)?.as_slice() == spelled);
    }
    Ok(())
}
