use crate::fields::{Pair, fields_of, shown};
use grpc_heads::{HeadRead, Method, read_request_head, request_head, response_head};
use hpack_tables::{is_malformed_response, is_malformed_trailers};
use std::alloc::{AllocError, Global};
use std::test::Fail;

// A method's number, a status code and 100, an HTTP status, or 900 for a malformed head.
fn number(read: &HeadRead) -> u16 {
    match read {
        HeadRead::Method(Method::Modify) => 1,
        HeadRead::Method(Method::Get) => 2,
        HeadRead::Method(Method::Flush) => 3,
        HeadRead::Status(status) => 100 + status.code as u16,
        HeadRead::Http(http) => *http,
        HeadRead::Malformed => 900,
        HeadRead::NoMemory => 901,
    }
}

// The message of a head that is refused by a status.
fn message(read: &HeadRead) -> &[u8] {
    match read {
        HeadRead::Status(status) => status.message.as_slice(),
        _ => b"".as_slice(),
    }
}

const POST: Pair = (b":method", b"POST");

const HTTP: Pair = (b":scheme", b"http");

const PATH: Pair = (b":path", b"/gribi.gRIBI/Get");

const TYPE: Pair = (b"content-type", b"application/grpc");

fn whole(alloc: Global, pairs: &[Pair]) -> Result<u16, AllocError> {
    Ok(number(&read_request_head(&fields_of(alloc, pairs)?)))
}

// A method, a path and a content type, and what a head of them is.
const LINES: &[([&[u8]; 3], u16)] = &[
    ([b"POST", b"/gribi.gRIBI/Modify", b"application/grpc"], 1),
    ([b"POST", b"/gribi.gRIBI/Get", b"application/grpc+proto"], 2),
    ([b"POST", b"/gribi.gRIBI/Flush", b"application/grpc;a"], 3),
    ([b"POST", b"/gribi.gRIBI/Foo", b"application/grpc"], 112),
    ([b"POST", b"/gribi.gRIBI/Get", b"application/grpcx"], 415),
    ([b"POST", b"/", b"text/html"], 415),
    ([b"GET", b"/", b"text/html"], 405),
];

fn line(alloc: Global, [method, path, kind]: [&'static [u8]; 3]) -> Result<u16, AllocError> {
    whole(
        alloc,
        &[
            (b":method", method),
            HTTP,
            (b":path", path),
            (b"content-type", kind),
        ],
    )
}

fn are_lines(alloc: Global) -> Result<bool, AllocError> {
    let mut is_right = true;
    for (parts, want) in LINES {
        is_right &= line(alloc, *parts)? == *want;
    }
    Ok(is_right)
}

#[test]
fn methods_paths_and_types(rt: HostRuntime) -> Result<(), Fail> {
    assert!(rt; are_lines(rt.alloc())?);
    Ok(())
}

// A field behind a head that is served, what the head is then, and the message of its refusal.
const BEHIND: &[(Pair, u16, &[u8])] = &[
    ((b"te", b"trailers"), 2, b""),
    ((b"grpc-encoding", b"identity"), 2, b""),
    ((b"grpc-encoding", b""), 112, b"compression is not served"),
    ((b"grpc-timeout", b"12345678n"), 2, b""),
    ((b"grpc-timeout", b"123456789S"), 103, b"bad timeout"),
    ((b"grpc-timeout", b"S"), 103, b"bad timeout"),
    ((b"grpc-timeout", b"1h"), 103, b"bad timeout"),
    ((b"content-type", b"text/html"), 2, b""),
    (PATH, 900, b""),
    ((b":status", b"200"), 900, b""),
    ((b"Grpc-Timeout", b"1S"), 900, b""),
    ((b"grpc-timeout", b"1S\r"), 900, b""),
    ((b"connection", b"close"), 900, b""),
    ((b"te", b"gzip"), 900, b""),
    ((b"", b""), 900, b""),
];

fn reads_behind(alloc: Global, pair: Pair, want: u16, why: &[u8]) -> Result<bool, AllocError> {
    let head = fields_of(alloc, &[POST, HTTP, PATH, TYPE, pair])?;
    let read = read_request_head(&head);
    Ok(number(&read) == want && message(&read) == why)
}

fn are_behind(alloc: Global) -> Result<bool, AllocError> {
    let mut is_right = true;
    for (pair, want, why) in BEHIND {
        is_right &= reads_behind(alloc, *pair, *want, why)?;
    }
    Ok(is_right)
}

#[test]
fn a_field_behind_a_head(rt: HostRuntime) -> Result<(), Fail> {
    assert!(rt; are_behind(rt.alloc())?);
    Ok(())
}

const HTML: Pair = (b"content-type", b"text/html");

const GZIP: Pair = (b"grpc-encoding", b"gzip");

const NEVER: Pair = (b"grpc-timeout", b"");

const SECOND: Pair = (b"grpc-timeout", b"1S");

// Of several refusals the first counts, and of several fields of a name.
const WHOLE: &[(&[Pair], u16)] = &[
    (&[POST, HTTP, PATH], 415),
    (&[HTTP, PATH, TYPE], 900),
    (&[POST, PATH, TYPE], 900),
    (&[POST, HTTP, TYPE], 900),
    (&[POST, HTTP, PATH, PATH, TYPE], 900),
    (&[POST, HTTP, TYPE, PATH], 900),
    (&[POST, HTTP, PATH, HTML, TYPE], 415),
    (&[POST, HTTP, PATH, TYPE, NEVER, GZIP], 112),
    (&[POST, HTTP, PATH, TYPE, SECOND, NEVER], 2),
];

fn are_whole(alloc: Global) -> Result<bool, AllocError> {
    let mut is_right = true;
    for (pairs, want) in WHOLE {
        is_right &= whole(alloc, pairs)? == *want;
    }
    Ok(is_right)
}

#[test]
fn order_and_what_is_missing(rt: HostRuntime) -> Result<(), Fail> {
    assert!(rt; are_whole(rt.alloc())?);
    Ok(())
}

fn asks(alloc: Global, method: Method) -> Result<u16, AllocError> {
    Ok(number(&read_request_head(&request_head(alloc, method)?)))
}

fn answers(alloc: Global) -> Result<bool, AllocError> {
    let head = response_head(alloc)?;
    let text = shown(alloc, &head)?;
    Ok(text.as_slice() == b":status=200;content-type=application/grpc;".as_slice())
}

fn are_written(alloc: Global) -> Result<bool, AllocError> {
    let modify = asks(alloc, Method::Modify)? == 1;
    let get = asks(alloc, Method::Get)? == 2;
    let flush = asks(alloc, Method::Flush)? == 3;
    Ok(modify && get && flush && answers(alloc)?)
}

#[test]
fn heads_are_written(rt: HostRuntime) -> Result<(), Fail> {
    assert!(rt; are_written(rt.alloc())?);
    Ok(())
}

#[test]
fn heads_of_responses_and_trailers_are_judged(rt: HostRuntime) -> Result<(), Fail> {
    let head = fields_of(rt.alloc(), &[(b":status", b"200"), TYPE])?;
    let trailers = fields_of(rt.alloc(), &[(b"grpc-status", b"0")])?;
    assert!(rt; !is_malformed_response(head.as_slice()));
    assert!(rt; is_malformed_response(trailers.as_slice()));
    assert!(rt; is_malformed_trailers(head.as_slice()));
    assert!(rt; !is_malformed_trailers(trailers.as_slice()));
    Ok(())
}
