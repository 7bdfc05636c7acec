use aft_entries::{Entry, HopPayload, Instances, Key, KeyName, Labels, Payload, Row};
use gribi_messages::{
    GetRequest, InstanceAsk, MessageFault, RawEntry, RawRow, decode_get, decode_get_response,
    encode_get_request, encode_get_response,
};
use schema_numbers::{Numbering, default_numbering};
use std::alloc::Global;
use std::test::Fail;

// The name that is asked for, and none where all are.
fn name(instance: &Option<InstanceAsk>) -> Option<Option<&str>> {
    match instance {
        None => None,
        Some(InstanceAsk::All) => Some(None),
        Some(InstanceAsk::Named(name)) => Some(Some(name.as_str())),
    }
}

// The name and the table that a request of these bytes asks for.
type Asked<'a> = (Option<Option<&'a str>>, u64);

// Whether the request asks for this, and is written as these bytes.
fn is_asking(
    alloc: Global,
    n: &Numbering,
    request: &GetRequest,
    asked: Asked<'_>,
    spelled: &[u8],
) -> bool {
    match encode_get_request(alloc, n, request) {
        Err(_) => false,
        Ok(written) => {
            (name(&request.instance), request.aft) == asked && written.as_slice() == spelled
        }
    }
}

fn is_read(alloc: Global, n: &Numbering, bytes: &[u8], asked: Asked<'_>, spelled: &[u8]) -> bool {
    match decode_get(alloc, n, bytes) {
        Err(_) => false,
        Ok(request) => is_asking(alloc, n, &request, asked, spelled),
    }
}

#[test]
fn requests_are_read_and_written(rt: HostRuntime) -> Result<(), Fail> {
    let n = default_numbering(rt.alloc())?;
    let cases: [(&[u8], Asked<'_>, &[u8]); 5] = [
        (b"", (None, 0), b""),
        (b"\x12\x00\x18\x01", (Some(None), 1), b"\x12\x00\x18\x01"),
        (
            b"\x0a\x01A\x18\x06",
            (Some(Some("A")), 6),
            b"\x0a\x01A\x18\x06",
        ),
        (b"\x0a\x00", (Some(Some("")), 0), b"\x0a\x00"),
        // the last member counts, and of a text its last occurrence
        (
            b"\x12\x02\x08\x01\x0a\x01A\x0a\x01B\x18\x02\x18\x00",
            (Some(Some("B")), 0),
            b"\x0a\x01B",
        ),
    ];
    for (bytes, asked, spelled) in cases {
        assert!(rt; is_read(rt.alloc(), &n, bytes, asked, spelled));
    }
    // a bad text is refused where a later one counts
    let fault = decode_get(rt.alloc(), &n, b"\x0a\x01\xff\x0a\x00").err();
    assert!(rt; fault == Some(MessageFault::Utf8(0)));
    Ok(())
}

// The response of one row: next hop 1 of DEFAULT, with nothing in its payload.
fn response(alloc: Global, n: &Numbering, installed: bool) -> Result<Vec<u8>, Fail> {
    let mut names = Vec::new(alloc);
    names.push(String::from_str(alloc, "DEFAULT")?)?;
    let instances = Instances::new(names)?;
    let key = Key {
        instance: 0,
        name: KeyName::Hop(1),
    };
    let payload = Payload::Hop(HopPayload {
        ip: None,
        mac: None,
        interface: None,
        subinterface: None,
        source: None,
        target: None,
        push: Labels::from_vec(Vec::new(alloc)),
    });
    let rows = [Row {
        entry: Entry { key, payload },
        installed,
    }];
    Ok(encode_get_response(alloc, n, &instances, rows.as_slice())?)
}

// Whether the row is next hop 1 of DEFAULT with nothing of an address, in the RIB, and with this status in the FIB.
fn is_hop(row: &RawRow, status: u64) -> bool {
    let is_empty = match &row.entry {
        Some(RawEntry::Hop(1, hop)) => hop.ip.is_none(),
        _ => false,
    };
    is_empty
        && row.instance.as_str() == "DEFAULT"
        && row.rib_status == 1
        && row.fib_status == status
}

// Whether a response of these bytes has one row, which is that next hop.
fn has_hop(alloc: Global, n: &Numbering, bytes: &[u8], status: u64) -> bool {
    match decode_get_response(alloc, n, bytes) {
        Err(_) => false,
        Ok(response) => match response.rows.as_slice() {
            [row] => is_hop(row, status),
            _ => false,
        },
    }
}

#[test]
fn rows_are_written_and_read(rt: HostRuntime) -> Result<(), Fail> {
    let n = default_numbering(rt.alloc())?;
    let cases: [(bool, u64, &[u8]); 2] = [
        (
            true,
            1,
            b"\x0a\x13\x0a\x07DEFAULT\x32\x04\x08\x01\x12\x00\x38\x01\x40\x01",
        ),
        (
            false,
            2,
            b"\x0a\x13\x0a\x07DEFAULT\x32\x04\x08\x01\x12\x00\x38\x01\x40\x02",
        ),
    ];
    for (installed, status, bytes) in cases {
        let written = response(rt.alloc(), &n, installed)?;
        assert!(rt; written.as_slice() == bytes);
        assert!(rt; has_hop(rt.alloc(), &n, bytes, status));
    }
    Ok(())
}
