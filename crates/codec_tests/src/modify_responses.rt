use gribi_messages::{
    AftResult, AftResults, ModifyResponse, append_modify_response, decode_modify_response,
    encode_modify_response,
};
use schema_numbers::{Numbering, default_numbering};
use std::alloc::{AllocError, Global};
use std::test::Fail;

// A response with at most one result as plain values: the result, parameters and election.
type Seen = (Option<AftResult>, Option<u64>, Option<u128>);

fn response(alloc: Global, seen: Seen) -> Result<ModifyResponse, AllocError> {
    let (first, params, election) = seen;
    let mut results = AftResults::new(alloc);
    if let Some(first) = first {
        results.push(first)?;
    }
    Ok(ModifyResponse {
        results,
        params,
        election,
    })
}

fn seen(response: &ModifyResponse) -> Seen {
    let first = match response.results.as_slice() {
        [one] => Some(*one),
        _ => None,
    };
    (first, response.params, response.election)
}

// Whether the response is written as these bytes, at the start and behind others.
fn is_written(
    alloc: Global,
    n: &Numbering,
    response: &ModifyResponse,
    bytes: &[u8],
) -> Result<bool, Fail> {
    let mut out = Vec::from_slice(alloc, b"\x00")?;
    append_modify_response(n, response, &mut out)?;
    let whole = encode_modify_response(alloc, n, response)?;
    Ok(whole.as_slice() == bytes && &out[1..] == bytes)
}

fn is_read(alloc: Global, n: &Numbering, bytes: &[u8], wanted: Seen) -> bool {
    match decode_modify_response(alloc, n, bytes) {
        Err(_) => false,
        Ok(response) => seen(&response) == wanted,
    }
}

fn result(id: u64, status: u64, timestamp: i64, reason: u64) -> Option<AftResult> {
    Some(AftResult {
        id,
        status,
        timestamp,
        reason,
    })
}

#[test]
fn responses_are_written_and_read(rt: HostRuntime) -> Result<(), Fail> {
    let n = default_numbering(rt.alloc())?;
    let cases: [(Seen, &[u8]); 5] = [
        ((None, Some(1), None), b"\x12\x02\x08\x01"),
        ((None, None, Some(1)), b"\x1a\x02\x10\x01"),
        (
            (result(1, 3, 3, 0), None, None),
            b"\x0a\x06\x08\x01\x10\x03\x18\x03",
        ),
        (
            (result(0, 2, -1, 7), None, None),
            b"\x0a\x0f\x10\x02\x18\xff\xff\xff\xff\xff\xff\xff\xff\xff\x01\x20\x07",
        ),
        (
            (None, Some(0), Some(0x1_0000_0000_0000_0000)),
            b"\x12\x00\x1a\x02\x08\x01",
        ),
    ];
    for (wanted, bytes) in cases {
        assert!(rt; is_written(rt.alloc(), &n, &response(rt.alloc(), wanted)?, bytes)?);
        assert!(rt; is_read(rt.alloc(), &n, bytes, wanted));
    }
    Ok(())
}
