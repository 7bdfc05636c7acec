ghost use Rattle.std.specs.Prelude.{◌≡◌};
ghost use Rattle.h2_conn.specs.Standing.{StandsFor, ahead_of, sound_of};
ghost use Rattle.h2_conn.specs.Room.{room_in};
ghost use Rattle.h2_conn.specs.State.{output_of, state_of};

use super::H2Conn;
use bytes::Bytes;
use h2_exchange::SendFault;
use h2_frames::ErrorCode;
use hpack_tables::Fields;
use http_connection::{H2Event, HttpConnection};
use std::alloc::AllocError;

impl HttpConnection for H2Conn {
    ghost use Rattle.std.proofs.Common.{sym, ◌∙◌};

    ghost stands = { StandsFor };

    ghost output = { output_of };

    ghost ahead = { ahead_of };

    ghost room = { room_in };

    fn reserve(&mut self, more: usize) -> Result<(), AllocError> {
        self.out.reserve(more)
    }

    fn is_live(&self, stream: u32) -> bool {
        self.set.is_live(stream)
    }

    fn is_open(&self, stream: u32) -> bool {
        self.set.is_open(stream)
    }

    fn feed(&mut self, piece: Bytes) -> Result<(), AllocError> {
        match self.reader.feed(piece) {
            Ok(()) => Ok(()),
            Err(error) => Err(error),
        }
    }

    fn next_event(&mut self) -> H2Event {
        self.next()
    }

    fn is_between(&self) -> bool {
        self.reader.is_between() && self.opened.is_none()
    }

    fn begin(&mut self, fields: &Fields) -> Result<u32, SendFault> {
        self.begin_stream(fields)
    }

    fn send_head(&mut self, stream: u32, fields: &Fields, last: bool) -> Result<(), SendFault> {
        self.send_block(stream, fields, last)
    }

    fn send_piece(&mut self, stream: u32, piece: &[u8], last: bool) -> Result<usize, SendFault> {
        self.place(stream, piece, last)
    }

    fn send_trailers(&mut self, stream: u32, fields: &Fields) -> Result<(), SendFault> {
        self.send_block(stream, fields, true)
    }

    fn reset(&mut self, stream: u32, code: ErrorCode) -> Result<(), SendFault> {
        self.cut(stream, code)
    }

    fn hold_credit(&mut self, hold: bool) -> Result<(), AllocError> {
        self.hold(hold)
    }

    fn out(&self) -> &[u8] {
        &self.out.as_slice()[self.start..]
    }

    fn drop_out(&mut self, n: usize) {
        self.drop_front(n);
    }

    ghost sound = { λ g c h. sound_of (state_of g) c h (λ e. sym h.refusal_is ∙ e) (λ q. sym h.holding_is ∙ q) };
}
