//! What waits to be sent.
ghost use Rattle.std.specs.Prelude.{◌≡◌, ◌^◌, ◌-◌, None, min};
ghost use Rattle.http_connection.specs.ConnectionTrace.{ConnectionTrace};
ghost use Rattle.h2_exchange.specs.Streams.{is_live};
ghost use Rattle.kept_calls.specs.CallState.{states};
ghost use Rattle.kept_calls.specs.Table.{waiting_on};

use http_connection::HttpConnection;
use kept_calls::Call;

/// How many bytes no frame holds yet, at most 2^64 - 1.
pub fn waiting_bytes<C: HttpConnection>(conn: &C, calls: &[Call]) -> u64
    ensures { (c : ConnectionTrace) → C.stands conn.now c → c.refusal ≡ None →
        result ≡ min (waiting_on (is_live c.role c.frames) (states calls.now)) (2 ^ 64 - 1) }
{
    let mut waiting: u64 = 0;
    'calls: for at in 0..calls.len() {
        let call = &calls[at];
        if !call.unsent.is_empty() && conn.is_live(call.stream) {
            waiting = waiting.saturating_add(call.unsent.len() as u64);
        }
    }
    waiting
}
