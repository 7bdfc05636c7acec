//! A connection whose events are let go.
ghost use Rattle.std.specs.Prelude.{◌≡◌, IfOk, OnErr};
ghost use Rattle.http_connection.specs.Answers.{is_event};
ghost use Rattle.http_connection.specs.ConnectionTrace.{ConnectionTrace, Keeps, fed_more};
ghost use Rattle.http_connection.specs.Drains.{Drained};

use crate::connection::HttpConnection;
use crate::event::H2Event;
use bytes::Bytes;
use std::alloc::AllocError;

fn has_event(event: &H2Event) -> bool
    ensures { result ≡ is_event event.now }
{
    match event {
        H2Event::Head(_, _, _) => true,
        H2Event::Piece(_, _) => true,
        H2Event::Ended(_) => true,
        H2Event::Reset(_, _) => true,
        H2Event::GoneAway(_, _) => true,
        H2Event::NeedMore => false,
        H2Event::Refused(_, _) => false,
        H2Event::Calm(_) => false,
        H2Event::NoMemory => false,
    }
}

fn discard(_event: H2Event) {}

/// Lets every event go.
fn discard_events<C: HttpConnection>(conn: &mut C) -> H2Event
    ensures { (c : ConnectionTrace) → C.stands conn.old c → (d : ConnectionTrace) × C.stands conn.new d × Drained c result d }
{
    'events: loop {
        let event = conn.next_event();
        if !has_event(&event) {
            return event;
        }
        discard(event);
    }
}

/// Takes the next piece and lets every event of it go, as behind the end of all calls. Answers what the
/// connection says behind them: it wants more, or it refuses.
///
/// # Errors
///
/// Where there is no memory for the piece: nothing was taken.
pub fn drain<C: HttpConnection>(conn: &mut C, piece: Bytes) -> Result<H2Event, AllocError>
    ensures ok { (c : ConnectionTrace) → C.stands conn.old c →
        IfOk result (λ last. (d : ConnectionTrace) × C.stands conn.new d × Drained (fed_more piece c) last d) }
    ensures err { OnErr result (Keeps (C.stands conn.old) (C.stands conn.new)) }
{
    match conn.feed(piece) {
        Ok(()) => Ok(discard_events(conn)),
        Err(error) => Err(error),
    }
}
