//! What the windows allow is sent.
ghost use Rattle.std.specs.Prelude.{◌≡◌, ◌≤◌, None, ◌==◌, ◌&&◌, not, nat_lt, drop, ℕ, [], true, false, length, IfOk};
ghost use Rattle.http_connection.specs.ConnectionTrace.{ConnectionTrace};
ghost use Rattle.kept_calls.specs.CallState.{state_of, states};
ghost use Rattle.call_sending.specs.Pumping as spec;
ghost use Rattle.call_sending.specs.Pumping.{Closes, Heads, Lessens, Pieces, PumpsBytes, PumpsCall, PumpsCalls, PumpsRound, SendsBlock, SendsPiece, Turns, cutters_of, left_in, placed_in};

use grpc_heads::response_head;
use http_connection::HttpConnection;
use kept_calls::{Call, Ending};
use std::alloc::{AllocError, Global};

// Whether no end is left to be sent.
fn has_no_end(ending: Ending) -> bool
    ensures { result ≡ spec.has_no_end ending }
{
    match ending {
        Ending::Open => true,
        Ending::Sent => true,
        Ending::Block => false,
        Ending::Trailers => false,
        Ending::HalfClose => false,
    }
}

fn is_half_close(ending: Ending) -> bool
    ensures { result ≡ spec.is_half_close ending }
{
    match ending {
        Ending::HalfClose => true,
        Ending::Open => false,
        Ending::Sent => false,
        Ending::Block => false,
        Ending::Trailers => false,
    }
}

// Sends the head of a response, right before its first message.
fn send_head<C: HttpConnection>(
    alloc: Global,
    conn: &mut C,
    call: &mut Call,
) -> Result<(), AllocError>
    ensures turns { (c : ConnectionTrace) → C.stands conn.old c →
        Turns C.stands conn.new result c (λ done d. Heads call.old.has_head c (state_of call.old) (state_of call.new) d) }
    ensures ahead { C.ahead conn.new ≡ C.ahead conn.old }
    ensures cutter { call.new.cutter ≡ call.old.cutter }
    ensures left { call.new.unsent.items ≡ call.old.unsent.items }
{
    if call.has_head {
        return Ok(());
    }
    let fields = match response_head(alloc) {
        Ok(fields) => fields,
        Err(error) => return Err(error),
    };
    match conn.send_head(call.stream, &fields, false) {
        Ok(()) => {
            call.has_head = true;
            Ok(())
        }
        Err(_) => Err(AllocError),
    }
}

// Sends one DATA of what is left, and tells whether more may follow.
fn send_bytes<C: HttpConnection>(conn: &mut C, call: &mut Call) -> Result<bool, AllocError>
    ensures turns { (c : ConnectionTrace) → C.stands conn.old c →
        Turns C.stands conn.new result c (λ goes_on d. Pieces c (state_of call.old) goes_on (state_of call.new) d) }
    ensures ahead { C.ahead conn.new ≡ C.ahead conn.old }
    ensures cutter { call.new.cutter ≡ call.old.cutter }
    ensures left { IfOk result (λ goes_on. Lessens goes_on (length call.old.unsent.items) (length call.new.unsent.items)) }
{
    let is_last = is_half_close(call.ending);
    match conn.send_piece(call.stream, call.unsent.as_slice(), is_last) {
        Ok(n) => {
            let placed = clipped(n, call.unsent.len());
            Ok(take_placed(call, placed, is_last))
        }
        Err(_) => Err(AllocError),
    }
}

// No more than there are.
fn clipped(n: usize, all: usize) -> usize
    ensures most { result ≤ all }
    ensures same { n ≤ all → result ≡ n }
{
    if n < all { n } else { all }
}

// Drops what was placed, and tells whether more may follow.
fn take_placed(call: &mut Call, n: usize, is_last: bool) -> bool
    requires within { n ≤ length call.old.unsent.items }
    requires last { is_last ≡ spec.is_half_close call.old.ending }
    ensures new { state_of call.new ≡ placed_in n (state_of call.old) }
    ensures goes_on { result ≡ (nat_lt 0 n && not (length (drop n call.old.unsent.items) == 0)) }
    ensures cutter { call.new.cutter ≡ call.old.cutter }
{
    call.advance(n);
    let is_all = call.unsent.is_empty();
    if is_all && is_last {
        call.ending = Ending::Sent;
    }
    n > 0 && !is_all
}

// Sends a response's head and trailers in one block.
fn send_block<C: HttpConnection>(conn: &mut C, call: &mut Call) -> Result<(), AllocError>
    ensures turns { (c : ConnectionTrace) → C.stands conn.old c →
        Turns C.stands conn.new result c (λ done d. (state_of call.new ≡ record (state_of call.old) { ending = Ending.Sent })
        × SendsBlock c call.old.stream true call.old.fields d) }
    ensures ahead { C.ahead conn.new ≡ C.ahead conn.old }
    ensures cutter { call.new.cutter ≡ call.old.cutter }
    ensures left { call.new.unsent.items ≡ call.old.unsent.items }
{
    match conn.send_head(call.stream, &call.fields, true) {
        Ok(()) => {
            call.ending = Ending::Sent;
            Ok(())
        }
        Err(_) => Err(AllocError),
    }
}

fn send_trailers<C: HttpConnection>(conn: &mut C, call: &mut Call) -> Result<(), AllocError>
    ensures turns { (c : ConnectionTrace) → C.stands conn.old c →
        Turns C.stands conn.new result c (λ done d. (state_of call.new ≡ record (state_of call.old) { ending = Ending.Sent })
        × SendsBlock c call.old.stream true call.old.fields d) }
    ensures ahead { C.ahead conn.new ≡ C.ahead conn.old }
    ensures cutter { call.new.cutter ≡ call.old.cutter }
    ensures left { call.new.unsent.items ≡ call.old.unsent.items }
{
    match conn.send_trailers(call.stream, &call.fields) {
        Ok(()) => {
            call.ending = Ending::Sent;
            Ok(())
        }
        Err(_) => Err(AllocError),
    }
}

// Ends this side where no byte is left to do it.
fn half_close<C: HttpConnection>(conn: &mut C, call: &mut Call) -> Result<(), AllocError>
    ensures turns { (c : ConnectionTrace) → C.stands conn.old c →
        Turns C.stands conn.new result c (λ done d. (state_of call.new ≡ record (state_of call.old) { ending = Ending.Sent })
        × ((n : ℕ) × SendsPiece c call.old.stream [] true n d)) }
    ensures ahead { C.ahead conn.new ≡ C.ahead conn.old }
    ensures cutter { call.new.cutter ≡ call.old.cutter }
    ensures left { call.new.unsent.items ≡ call.old.unsent.items }
{
    match conn.send_piece(call.stream, [].as_slice(), true) {
        Ok(_) => {
            call.ending = Ending::Sent;
            Ok(())
        }
        Err(_) => Err(AllocError),
    }
}

// Sends the end behind the last byte.
fn send_end<C: HttpConnection>(conn: &mut C, call: &mut Call) -> Result<(), AllocError>
    ensures turns { (c : ConnectionTrace) → C.stands conn.old c →
        Turns C.stands conn.new result c (λ done d. Closes call.old.ending c (state_of call.old) (state_of call.new) d) }
    ensures ahead { C.ahead conn.new ≡ C.ahead conn.old }
    ensures cutter { call.new.cutter ≡ call.old.cutter }
    ensures left { call.new.unsent.items ≡ call.old.unsent.items }
{
    match call.ending {
        Ending::Open => Ok(()),
        Ending::Sent => Ok(()),
        Ending::Block => send_block(conn, call),
        Ending::Trailers => send_trailers(conn, call),
        Ending::HalfClose => half_close(conn, call),
    }
}

// Whether a call has something to send that may be sent.
fn may_send<C: HttpConnection>(conn: &C, call: &Call) -> bool
    ensures idle { result ≡ false → (c : ConnectionTrace) → C.stands conn.now c → c.refusal ≡ None →
        PumpsCall c (state_of call.now) false (state_of call.now) c }
    ensures open { result ≡ true → (c : ConnectionTrace) → C.stands conn.now c → c.refusal ≡ None →
        spec.is_open_in c call.now.stream ≡ true }
{
    if call.unsent.is_empty() && has_no_end(call.ending) {
        return false;
    }
    conn.is_open(call.stream)
}

// Whether a DATA holds every byte of its messages.
fn has_sent_all(call: &Call) -> bool
    ensures { result ≡ (length call.now.unsent.items == 0) }
{
    call.unsent.is_empty()
}

// One turn of a call, and whether another one may send more.
fn pump_call<C: HttpConnection>(
    alloc: Global,
    conn: &mut C,
    call: &mut Call,
) -> Result<bool, AllocError>
    ensures turns { (c : ConnectionTrace) → C.stands conn.old c → c.refusal ≡ None →
        Turns C.stands conn.new result c (λ goes_on d. PumpsCall c (state_of call.old) goes_on (state_of call.new) d) }
    ensures ahead { C.ahead conn.new ≡ C.ahead conn.old }
    ensures cutter { call.new.cutter ≡ call.old.cutter }
    ensures left { IfOk result (λ goes_on. Lessens goes_on (length call.old.unsent.items) (length call.new.unsent.items)) }
{
    if !may_send(conn, call) {
        return Ok(false);
    }
    if has_sent_all(call) {
        return match send_end(conn, call) {
            Ok(()) => Ok(false),
            Err(error) => Err(error),
        };
    }
    match send_head(alloc, conn, call) {
        Ok(()) => pump_bytes(conn, call),
        Err(error) => Err(error),
    }
}

// Behind the head: one DATA, and behind the last byte the end.
fn pump_bytes<C: HttpConnection>(conn: &mut C, call: &mut Call) -> Result<bool, AllocError>
    ensures turns { (c : ConnectionTrace) → C.stands conn.old c →
        Turns C.stands conn.new result c (λ goes_on d. PumpsBytes c (state_of call.old) goes_on (state_of call.new) d) }
    ensures ahead { C.ahead conn.new ≡ C.ahead conn.old }
    ensures cutter { call.new.cutter ≡ call.old.cutter }
    ensures left { IfOk result (λ goes_on. Lessens goes_on (length call.old.unsent.items) (length call.new.unsent.items)) }
{
    match send_bytes(conn, call) {
        Ok(goes_on) => {
            if goes_on {
                return Ok(true);
            }
            if !has_sent_all(call) {
                return Ok(false);
            }
            match send_end(conn, call) {
                Ok(()) => Ok(false),
                Err(error) => Err(error),
            }
        }
        Err(error) => Err(error),
    }
}

// One turn of each call, and whether another round may send more.
fn pump_round<C: HttpConnection>(
    alloc: Global,
    conn: &mut C,
    calls: &mut Vec<Call>,
) -> Result<bool, AllocError>
    ensures turns { (c : ConnectionTrace) → C.stands conn.old c → c.refusal ≡ None →
        Turns C.stands conn.new result c (λ goes_on d. PumpsRound c (states calls.old.items) goes_on (states calls.new.items) d) }
    ensures ahead { C.ahead conn.new ≡ C.ahead conn.old }
    ensures cutters { cutters_of calls.new.items ≡ cutters_of calls.old.items }
    ensures left { IfOk result (λ goes_on. Lessens goes_on (left_in (states calls.old.items)) (left_in (states calls.new.items))) }
{
    let mut goes_on = false;
    'calls: for at in 0..calls.len() {
        match pump_call(alloc, conn, &mut calls[at]) {
            Ok(more) => goes_on = goes_on || more,
            Err(error) => return Err(error),
        }
    }
    Ok(goes_on)
}

/// Sends what the windows allow. The calls take turns, so that a large answer does not keep the others waiting.
pub fn pump_calls<C: HttpConnection>(
    alloc: Global,
    conn: &mut C,
    calls: &mut Vec<Call>,
) -> Result<(), AllocError>
    ensures turns { (c : ConnectionTrace) → C.stands conn.old c → c.refusal ≡ None →
        Turns C.stands conn.new result c (λ done d. PumpsCalls c (states calls.old.items) (states calls.new.items) d) }
    ensures ahead { C.ahead conn.new ≡ C.ahead conn.old }
    ensures cutters { cutters_of calls.new.items ≡ cutters_of calls.old.items }
{
    'rounds: loop {
        match pump_round(alloc, conn, calls) {
            Ok(true) => {}
            Ok(false) => return Ok(()),
            Err(error) => return Err(error),
        }
    }
}
