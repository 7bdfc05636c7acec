ghost use Rattle.call_standing.specs.Standing.{sound_by};
ghost use Rattle.grpc_calls.specs.Object.{StandAs, ahead_in, output_in, state_in};

use super::Calls;
use bytes::Bytes;
use call_sending::waiting_bytes;
use call_standing::{Fate, first, shifted};
use grpc_heads::{Method, Status};
use grpc_stream::{CallConnection, CallEvent};
use h2_exchange::SendFault;
use h2_frames::ErrorCode;
use hpack_tables::Fields;
use http_connection::HttpConnection;
use kept_calls::Ending;
use schema_numbers::Numbering;
use std::alloc::AllocError;

impl<C: HttpConnection> CallConnection for Calls<C> {
    ghost stands = { λ c t. StandAs C.stands C.output c t };

    ghost output = { λ c. output_in C.output c };

    ghost ahead = { λ c. ahead_in C.ahead c };

    fn feed(&mut self, piece: Bytes) -> Result<(), AllocError> {
        match self.conn.feed(piece) {
            Ok(()) => Ok(()),
            Err(error) => Err(error),
        }
    }

    fn next(&mut self, n: &Numbering) -> CallEvent {
        match self.fate {
            Fate::Going => self.next_going(n),
            Fate::Refused => self.repeat_refusal(),
            Fate::Starved(shown, _) => {
                self.fate = Fate::Dead(shown);
                CallEvent::NoMemory
            }
            Fate::Dead(_) => CallEvent::NoMemory,
        }
    }

    fn call(&mut self, method: Method) -> Result<u32, SendFault> {
        match self.fate {
            Fate::Going => self.begin(method),
            Fate::Starved(_, _) => Err(SendFault::NoMemory),
            Fate::Refused => Err(SendFault::NotOpen),
            Fate::Dead(_) => Err(SendFault::NotOpen),
        }
    }

    fn answer(&mut self, stream: u32, message: Vec<u8>) -> Result<(), SendFault> {
        match self.taking(stream) {
            Ok(at) => match self.calls[at].push(message.as_slice()) {
                Ok(()) => Ok(()),
                Err(_) => Err(SendFault::NoMemory),
            },
            Err(fault) => Err(fault),
        }
    }

    fn end(&mut self, n: &Numbering, stream: u32, status: Status) -> Result<(), SendFault> {
        match self.taking(stream) {
            Ok(at) => self.end_at(n, stream, at, &status),
            Err(fault) => Err(fault),
        }
    }

    fn finish(&mut self, stream: u32) -> Result<(), SendFault> {
        match self.taking(stream) {
            Ok(at) => {
                self.calls[at].close(Ending::HalfClose, Fields::new(self.alloc));
                Ok(())
            }
            Err(fault) => Err(fault),
        }
    }

    fn reset(&mut self, stream: u32) -> Result<(), SendFault> {
        match self.fate {
            Fate::Going => {
                self.has_stale = true;
                self.conn.reset(stream, ErrorCode::CANCEL)
            }
            Fate::Starved(_, _) => Err(SendFault::NoMemory),
            Fate::Refused => Err(SendFault::NotOpen),
            Fate::Dead(_) => Err(SendFault::NotOpen),
        }
    }

    fn hold_credit(&mut self, hold: bool) -> Result<(), AllocError> {
        match self.fate {
            Fate::Going => self.conn.hold_credit(hold),
            Fate::Refused => self.conn.hold_credit(hold),
            Fate::Starved(_, _) => Err(AllocError),
            Fate::Dead(_) => Err(AllocError),
        }
    }

    fn waiting(&self) -> u64 {
        match self.fate {
            Fate::Going => waiting_bytes(&self.conn, self.calls.as_slice()),
            Fate::Starved(_, waiting) => waiting,
            Fate::Refused => 0,
            Fate::Dead(_) => 0,
        }
    }

    fn pump(&mut self) -> Result<(), AllocError> {
        match self.fate {
            Fate::Going => self.pump_going(),
            Fate::Starved(_, _) => Err(AllocError),
            Fate::Refused => Ok(()),
            Fate::Dead(_) => Ok(()),
        }
    }

    fn is_between(&self) -> bool {
        self.conn.is_between()
    }

    fn out(&self) -> &[u8] {
        let out = self.conn.out();
        match self.fate {
            Fate::Going => out,
            Fate::Refused => out,
            Fate::Starved(shown, _) => first(out, shown),
            Fate::Dead(shown) => first(out, shown),
        }
    }

    fn drop_out(&mut self, n: usize) {
        self.conn.drop_out(n);
        self.fate = shifted(self.fate, n);
    }

    ghost sound = { λ c t h. sound_by C.stands C.output C.sound c.fate c.conn (state_in c) t h };
}
