use crate::fields::{Pair, fields_of, shown};
use bytes::Bytes;
use grpc_heads::{ModifyReason, Status, Text, TrailerFault, read_trailers, trailers};
use schema_numbers::{Numbering, default_numbering};
use std::alloc::{AllocError, Global};
use std::test::Fail;

const SIXTEEN: Pair = (b"grpc-status", b"16");

// The base64 of 57 bytes: code 9, and one Any of a ModifyRPCErrorDetails with reason 2.
const NOT_ALLOWED: &[u8] =
    b"CAkaNQovdHlwZS5nb29nbGVhcGlzLmNvbS9ncmliaS5Nb2RpZnlSUENFcnJvckRldGFpbHMSAggC";

// The same, with a byte inside that is none of base64.
const BROKEN: &[u8] =
    b"CAkaNQovdHlwZS5nb29nbGVhcGlzLmNvbS9*cmliaS5Nb2RpZnlSUENFcnJvckRldGFpbHMSAggC";

const REFUSED: &[u8] =
    b"grpc-status=9;grpc-status-details-bin=CAkaNQovdHlwZS5nb29nbGVhcGlzLmNvbS9ncmliaS5Nb2RpZnlSUENFcnJvckRldGFpbHMSAggC;";

// Such details with a message and reason 3, in 61 bytes, so that it is padded.
const DIFFER: &[u8] =
    b"CAkSAmFiGjUKL3R5cGUuZ29vZ2xlYXBpcy5jb20vZ3JpYmkuTW9kaWZ5UlBDRXJyb3JEZXRhaWxzEgIIAw==";

// Whether these are the trailers of the status.
fn writes(
    alloc: Global,
    n: &Numbering,
    status: &Status,
    text: &'static [u8],
) -> Result<bool, AllocError> {
    let fields = trailers(alloc, n, status)?;
    Ok(shown(alloc, &fields)?.as_slice() == text)
}

fn writes_fine(alloc: Global, n: &Numbering) -> Result<bool, AllocError> {
    let status = Status {
        code: 0,
        message: Text::fixed(b""),
        reason: None,
    };
    writes(alloc, n, &status, b"grpc-status=0;")
}

fn writes_message(alloc: Global, n: &Numbering) -> Result<bool, AllocError> {
    let status = Status {
        code: 12,
        message: Text::from_bytes(Bytes::from_static(b"50% \xc3\xa9\n~")),
        reason: None,
    };
    let text = b"grpc-status=12;grpc-message=50%25 %C3%A9%0A~;";
    writes(alloc, n, &status.clone()?, text)
}

fn writes_reason(alloc: Global, n: &Numbering) -> Result<bool, AllocError> {
    let status = Status {
        code: 9,
        message: Text::fixed(b""),
        reason: Some(ModifyReason::ModifyNotAllowed),
    };
    writes(alloc, n, &status, REFUSED)
}

fn are_written(alloc: Global) -> Result<bool, AllocError> {
    let n = default_numbering(alloc)?;
    Ok(writes_fine(alloc, &n)? && writes_message(alloc, &n)? && writes_reason(alloc, &n)?)
}

#[test]
fn trailers_are_written(rt: HostRuntime) -> Result<(), Fail> {
    assert!(rt; are_written(rt.alloc())?);
    Ok(())
}

// The code, how long the message is, and the reason; or 900 and 901 for the faults.
fn read(
    alloc: Global,
    n: &Numbering,
    pairs: &[Pair],
) -> Result<(u16, usize, Option<ModifyReason>), AllocError> {
    let fields = fields_of(alloc, pairs)?;
    Ok(match read_trailers(alloc, n, &fields) {
        Err(TrailerFault::NoStatus) => (900, 0, None),
        Err(TrailerFault::BadStatus) => (901, 0, None),
        Err(TrailerFault::NoMemory) => (902, 0, None),
        Ok(status) => (
            status.code as u16,
            status.message.as_slice().len(),
            status.reason,
        ),
    })
}

// Details that aren't read give no reason.
const READ: &[(&[Pair], (u16, usize, Option<ModifyReason>))] = &[
    (&[(b"grpc-message", b"no")], (900, 0, None)),
    (&[(b"grpc-status", b"17")], (901, 0, None)),
    (&[(b"grpc-status", b"01")], (901, 0, None)),
    (&[(b"grpc-status", b"")], (901, 0, None)),
    (&[SIXTEEN, (b"grpc-status", b"17")], (16, 0, None)),
    (&[(b"grpc-message", b"a%25b%zz"), SIXTEEN], (16, 6, None)),
    (
        &[SIXTEEN, (b"grpc-status-details-bin", NOT_ALLOWED)],
        (16, 0, Some(ModifyReason::ModifyNotAllowed)),
    ),
    (
        &[SIXTEEN, (b"grpc-status-details-bin", DIFFER)],
        (16, 0, Some(ModifyReason::ParamsDiffer)),
    ),
    (
        &[SIXTEEN, (b"grpc-status-details-bin", b"?")],
        (16, 0, None),
    ),
    (
        &[SIXTEEN, (b"grpc-status-details-bin", b"CAk")],
        (16, 0, None),
    ),
    (
        &[SIXTEEN, (b"grpc-status-details-bin", BROKEN)],
        (16, 0, None),
    ),
];

fn are_read(alloc: Global) -> Result<bool, AllocError> {
    let n = default_numbering(alloc)?;
    let mut is_right = true;
    for (pairs, want) in READ {
        is_right &= read(alloc, &n, pairs)? == *want;
    }
    Ok(is_right)
}

#[test]
fn trailers_are_read(rt: HostRuntime) -> Result<(), Fail> {
    assert!(rt; are_read(rt.alloc())?);
    Ok(())
}
