//! A client and a server, carried byte by byte against each other through all methods.
ghost use Rattle.std.specs.Prelude.{◌≡◌, ◌≤◌, length};
ghost use Rattle.h2_exchange.specs.declared.role.Role.TheVariants.{Client};
ghost use Rattle.grpc_stream.specs.CallTrace.{CallTrace};

use crate::sides::{LIMITS, Side, carry, side};
use grpc_calls::Calls;
use grpc_heads::{Method, Status, Text, short_trailers_fit};
use grpc_stream::{CallConnection, CallEvent};
use h2_conn::H2Conn;
use h2_exchange::Role;
use schema_numbers::{Numbering, default_numbering};
use std::alloc::{AllocError, Global};
use std::test::Fail;

// How many calls began, messages came and calls ended on a side.
#[derive(Clone, Copy, Debug, PartialEq, Eq)]
struct Told {
    begun: u32,
    messages: u32,
    finished: u32,
    closed: u32,
    others: u32,
}

const NOTHING: Told = Told {
    begun: 0,
    messages: 0,
    finished: 0,
    closed: 0,
    others: 0,
};

// The end of a call that went well.
fn good() -> Status
    ensures { length result.message ≤ 64 }
{
    Status {
        code: 0,
        message: Text::fixed(b""),
        reason: None,
    }
}

// Answers each message with one of two bytes, and ends each call that its client ended.
fn serve<K: CallConnection>(
    alloc: Global,
    n: &Numbering,
    calls: &mut K,
    told: &mut Told,
) -> Result<bool, AllocError> {
    match calls.next(n) {
        CallEvent::NeedMore => return Ok(false),
        CallEvent::Begun(_, _) => told.begun = told.begun.wrapping_add(1),
        CallEvent::Request(stream, _) => {
            told.messages = told.messages.wrapping_add(1);
            let answer = Vec::from_slice(alloc, b"ok")?;
            let _ = calls.answer(stream, answer);
        }
        CallEvent::Finished(stream) => {
            told.finished = told.finished.wrapping_add(1);
            short_trailers_fit();
            let _ = calls.end(n, stream, good());
        }
        _ => told.others = told.others.wrapping_add(1),
    }
    Ok(true)
}

// Counts what a server answered. Says whether it told anything.
fn note(event: &CallEvent, told: &mut Told) -> bool {
    match event {
        CallEvent::NeedMore => return false,
        CallEvent::Answered(_, message) => {
            if message.as_slice() == b"ok".as_slice() {
                told.messages = told.messages.wrapping_add(1);
            }
        }
        CallEvent::Closed(_, status) => {
            if status.code == 0 {
                told.closed = told.closed.wrapping_add(1);
            }
        }
        _ => told.others = told.others.wrapping_add(1),
    }
    true
}

fn hear<K: CallConnection>(n: &Numbering, calls: &mut K, told: &mut Told) -> bool {
    let event = calls.next(n);
    note(&event, told)
}

// One byte goes each way, if one waits, and what it tells is done.
fn step<K: CallConnection>(
    alloc: Global,
    n: &Numbering,
    client: &mut K,
    server: &mut K,
    at: &mut (Told, Told),
) -> Result<bool, AllocError> {
    client.pump()?;
    let went = carry(alloc, client, server)?;
    for _ in 0..8u32 {
        if !serve(alloc, n, server, &mut at.1)? {
            break;
        }
    }
    server.pump()?;
    let came = carry(alloc, server, client)?;
    for _ in 0..8u32 {
        if !hear(n, client, &mut at.0) {
            break;
        }
    }
    Ok(went || came)
}

// Begins a call.
fn begin<K: CallConnection>(client: &mut K, method: Method) -> u32
    requires { (t : CallTrace) × K.stands client.old t × (t.connection_trace.role ≡ Client) }
    ensures { (t : CallTrace) × K.stands client.new t × (t.connection_trace.role ≡ Client) }
{
    match client.call(method) {
        Ok(stream) => stream,
        Err(_) => 0,
    }
}

// Begins a call of each method.
fn begins<K: CallConnection>(client: &mut K) -> (u32, u32, u32)
    requires { (t : CallTrace) × K.stands client.old t × (t.connection_trace.role ≡ Client) }
{
    let modify = begin(client, Method::Modify);
    let get = begin(client, Method::Get);
    let flush = begin(client, Method::Flush);
    (modify, get, flush)
}

// Sends a message on a call.
fn sends<K: CallConnection>(
    alloc: Global,
    client: &mut K,
    stream: u32,
    text: &[u8],
) -> Result<bool, AllocError>
    requires { length text.now ≤ 5 }
{
    let message = Vec::from_slice(alloc, text)?;
    Ok(client.answer(stream, message).is_ok())
}

// Asks twice on the first call and once on the others, and ends the client's sides.
fn asks<K: CallConnection>(alloc: Global, client: &mut K) -> Result<bool, AllocError> {
    let mut is_right = sends(alloc, client, 1, b"one")?;
    is_right &= sends(alloc, client, 1, b"")?;
    is_right &= sends(alloc, client, 3, b"two")?;
    is_right &= sends(alloc, client, 5, b"three")?;
    is_right &= client.finish(1).is_ok();
    is_right &= client.finish(3).is_ok();
    Ok(is_right && client.finish(5).is_ok())
}

// A client with a call of each method.
fn client(alloc: Global, n: &Numbering) -> Result<Option<Side>, AllocError> {
    let mut client = Calls::new(
        alloc,
        Role::Client,
        H2Conn::new(alloc, Role::Client, LIMITS)?,
    );
    if begins(&mut client) == (1, 3, 5) {
        Ok(Some(client))
    } else {
        Ok(None)
    }
}

// Carries bytes until none waits, and says whether each side was told all.
fn carries<K: CallConnection>(
    alloc: Global,
    n: &Numbering,
    client: &mut K,
    server: &mut K,
) -> Result<bool, AllocError> {
    let mut at = (NOTHING, NOTHING);
    let is_right = asks(alloc, client)?;
    for _ in 0..2_000 {
        if !step(alloc, n, client, server, &mut at)? {
            break;
        }
    }
    let heard = Told {
        messages: 4,
        closed: 3,
        ..NOTHING
    };
    let served = Told {
        begun: 3,
        messages: 4,
        finished: 3,
        ..NOTHING
    };
    Ok(is_right && at == (heard, served))
}

fn are_carried(alloc: Global) -> Result<bool, AllocError> {
    let n = default_numbering(alloc)?;
    let Some(mut client) = client(alloc, &n)? else {
        return Ok(false);
    };
    let mut server = side(alloc, Role::Server)?;
    carries(alloc, &n, &mut client, &mut server)
}

#[test]
fn all_methods_are_carried_byte_by_byte(rt: HostRuntime) -> Result<(), Fail> {
    assert!(rt; are_carried(rt.alloc())?);
    Ok(())
}
