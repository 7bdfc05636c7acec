//! Scripts whose lines are all sent, served and judged.
ghost use Rattle.compliance_client.specs.Standing.{Past, StandsAs};

use crate::served::{Client, End, answers, turns};
use compliance_client::ClientConn;
use grpc_calls::Calls;
use grpc_stream::CallConnection;
use h2_conn::H2Conn;
use h2_exchange::Role;
use line_verdicts::Judged;
use rig_io::MemLink;
use schema_numbers::{Numbering, default_numbering};
use script_lang::{Line, NumberedLine, read_script};
use server_conn::LIMITS;
use std::alloc::{AllocError, Global};
use std::sync::Wait;
use std::test::Fail;

const SCRIPT: &[u8] = b"modify a
params a single-primary preserve rib-ack
expect a params-ok
elect a 10
expect a elected 10
add a 1 DEFAULT next-hop 1 ip=192.0.2.1
add a 2 DEFAULT group 1 hops=1:1
add a 3 DEFAULT ipv4 198.51.100.0/24 group=2
expect a 2 rib-programmed
expect a 3 rib-programmed
get g * all
expect g entries 2
expect g end OK
flush f id 10 *
expect f flushed ok
expect f end OK
finish a
expect a end OK
modify b
elect b 1
expect b elected 1
finish b
expect b end FAILED_PRECONDITION
modify c
drop c
expect c end CANCELLED
expect c params-ok
";

// The verdicts by the number of the line: 0 Pass, 1 Fail, 2 none yet.
const VERDICTS: &[(u32, u8)] = &[
    (3, 0),
    (5, 0),
    (9, 0),
    (10, 1),
    (12, 0),
    (13, 0),
    (15, 0),
    (16, 0),
    (18, 0),
    (21, 1),
    (23, 0),
    (26, 0),
    (27, 1),
];

fn is_expected(line: &Line) -> bool {
    match line {
        Line::ExpectParamsOk(_) => true,
        Line::ExpectElected(_) => true,
        Line::ExpectResult(_) => true,
        Line::ExpectEntries(_) => true,
        Line::ExpectFlushed(_) => true,
        Line::ExpectEnd(_) => true,
        _ => false,
    }
}

// Sends a line, unless it expects something.
fn send_one<K: CallConnection>(client: &mut ClientConn<K>, n: &Numbering, line: &Line)
    requires { (past : Past) × StandsAs K.stands n.now client.old.over client.old.calls client.old.kept.items client.old.tally past }
    ensures { (past : Past) × StandsAs K.stands n.now client.new.over client.new.calls client.new.kept.items client.new.tally past }
{
    if is_expected(line) {
        return;
    }
    let _ = client.send(n, line);
}

fn send_all<K: CallConnection>(client: &mut ClientConn<K>, n: &Numbering, lines: &[NumberedLine])
    requires { (past : Past) × StandsAs K.stands n.now client.old.over client.old.calls client.old.kept.items client.old.tally past }
{
    'lines: for line in lines {
        send_one(client, n, &line.line);
    }
}

// A client that was given all lines to be sent.
fn sent(alloc: Global, n: &Numbering, lines: &[NumberedLine]) -> Result<Client, AllocError> {
    let conn = H2Conn::new(alloc, Role::Client, LIMITS)?;
    let calls = Calls::new(alloc, Role::Client, conn);
    let mut client = ClientConn::new(alloc, calls);
    send_all(&mut client, n, lines);
    Ok(client)
}

fn verdict(judged: Option<Judged>) -> u8 {
    match judged {
        Some(Judged::Pass) => 0,
        Some(Judged::Fail(_)) => 1,
        _ => 2,
    }
}

fn are_judged(client: &mut Client, lines: &[NumberedLine], wanted: &[(u32, u8)]) -> bool {
    let mut place = 0usize;
    let mut is_right = true;
    for line in lines {
        if is_expected(&line.line) {
            let judged = verdict(client.judge_line(&line.line));
            is_right &= wanted.get(place) == Some(&(line.number, judged));
            place = place.wrapping_add(1);
        }
    }
    is_right && place == wanted.len()
}

fn is_served<R: Wait>(rt: &R, alloc: Global) -> Result<bool, Fail> {
    let n = default_numbering(alloc)?;
    let Ok(script) = read_script(alloc, SCRIPT) else {
        return Ok(false);
    };
    let mut client = sent(alloc, &n, script.as_slice())?;
    let mut link = MemLink::new(alloc, Vec::new(alloc));
    let mut is_right = turns(&mut client, &n, &mut link) == End::Idle;
    let served = answers(rt, alloc, link.sent())?;
    let mut answered = MemLink::new(alloc, Vec::new(alloc));
    answered.feed(served.sent())?;
    answered.end_input();
    is_right &= turns(&mut client, &n, &mut answered) == End::Ended;
    is_right &= are_judged(&mut client, script.as_slice(), VERDICTS);
    let tally = client.tally();
    Ok(is_right && tally.rib == 2 && tally.fib == 0 && tally.failed == 1)
}

#[test]
fn lines_are_sent_and_judged(rt: HostRuntime) -> Result<(), Fail> {
    let is_right = is_served(&rt, rt.alloc())?;
    assert!(rt; is_right);
    Ok(())
}
