use gribi_messages::{
    FlushAsk, FlushRequest, FlushResponse, InstanceAsk, decode_flush, decode_flush_response,
    encode_flush_request, encode_flush_response,
};
use schema_numbers::{Numbering, default_numbering};
use std::alloc::Global;
use std::test::Fail;

// The name that is asked for, and none where all are.
fn name(instance: &Option<InstanceAsk>) -> Option<Option<&str>> {
    match instance {
        None => None,
        Some(InstanceAsk::All) => Some(None),
        Some(InstanceAsk::Named(name)) => Some(Some(name.as_str())),
    }
}

// The election and the instance that a request asks for.
type Asked<'a> = (Option<FlushAsk>, Option<Option<&'a str>>);

// Whether the request asks for this, and is written as these bytes.
fn is_asking(
    alloc: Global,
    n: &Numbering,
    request: &FlushRequest,
    asked: Asked<'_>,
    spelled: &[u8],
) -> bool {
    match encode_flush_request(alloc, n, request) {
        Err(_) => false,
        Ok(written) => {
            (request.election, name(&request.instance)) == asked && written.as_slice() == spelled
        }
    }
}

fn is_read(alloc: Global, n: &Numbering, bytes: &[u8], asked: Asked<'_>, spelled: &[u8]) -> bool {
    match decode_flush(alloc, n, bytes) {
        Err(_) => false,
        Ok(request) => is_asking(alloc, n, &request, asked, spelled),
    }
}

#[test]
fn requests_are_read_and_written(rt: HostRuntime) -> Result<(), Fail> {
    let n = default_numbering(rt.alloc())?;
    let cases: [(&[u8], Asked<'_>, &[u8]); 4] = [
        (b"", (None, None), b""),
        (
            b"\x0a\x02\x10\x01\x22\x00",
            (Some(FlushAsk::Id(1)), Some(None)),
            b"\x0a\x02\x10\x01\x22\x00",
        ),
        (
            b"\x0a\x02\x10\x01\x12\x00\x1a\x01A",
            (Some(FlushAsk::Override), Some(Some("A"))),
            b"\x12\x00\x1a\x01A",
        ),
        // an id behind another member, in two occurrences
        (
            b"\x0a\x02\x08\x07\x12\x00\x0a\x02\x10\x01\x0a\x02\x08\x02",
            (Some(FlushAsk::Id(0x2_0000_0000_0000_0001)), None),
            b"\x0a\x04\x08\x02\x10\x01",
        ),
    ];
    for (bytes, asked, spelled) in cases {
        assert!(rt; is_read(rt.alloc(), &n, bytes, asked, spelled));
    }
    Ok(())
}

#[test]
fn responses_are_written_and_read(rt: HostRuntime) -> Result<(), Fail> {
    let n = default_numbering(rt.alloc())?;
    let cases: [(i64, u64, &[u8]); 3] = [
        (7, 2, b"\x08\x07\x10\x02"),
        (0, 0, b""),
        (
            -1,
            1,
            b"\x08\xff\xff\xff\xff\xff\xff\xff\xff\xff\x01\x10\x01",
        ),
    ];
    for (timestamp, result, spelled) in cases {
        let answer = FlushResponse { timestamp, result };
        let written = encode_flush_response(rt.alloc(), &n, answer)?;
        assert!(rt; written.as_slice() == spelled);
        assert!(rt; decode_flush_response(&n, spelled) == Ok(answer));
    }
    Ok(())
}
