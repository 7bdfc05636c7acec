//! What a received frame breaks.
ghost use Rattle.std.specs.Prelude.{◌≡◌, ◌%◌, ◌^◌, List, None, true, length, take, if◌then◌else◌};
ghost use Rattle.std.specs.Int.{w32, from_be_bytes};
ghost use Rattle.h2_exchange.specs.Frames as say;
ghost use Rattle.h2_exchange.specs.Rules as rule;
ghost use Rattle.h2_streams.specs.ConnectionErrors.{frame_error_in, live_error_in, shape_error_in, window_error_in};

use super::StreamSet;
use crate::live::Stream;
use crate::{rules, settings};
use h2_exchange::Role;
use h2_frames::{ErrorCode, Frame};

/// The increment of a WINDOW_UPDATE.
pub(super) fn increment(payload: &[u8]) -> u32
    requires { length payload.now ≡ 4 }
    ensures { result ≡ from_be_bytes w32 (take 4 payload.now) % 2 ^ 31 }
{
    let word = u32::from_be_bytes([payload[0], payload[1], payload[2], payload[3]]);
    word % 0x8000_0000
}

fn value_error(role: Role, frame: &Frame) -> Option<ErrorCode>
    requires { say.is_window_update frame.now ≡ true → say.payload_length frame.now ≡ 4 }
    ensures { result ≡ rule.value_error role frame.now }
{
    match frame {
        Frame::Settings(body) if rules::is_setting(frame) => {
            settings::settings_error(role, body.payload.as_slice())
        }
        Frame::WindowUpdate(body) if body.stream == 0 && increment(body.payload.as_slice()) == 0 =>
            { Some(ErrorCode::PROTOCOL_ERROR) }
        _ => None,
    }
}

impl StreamSet {
    fn shape_error(&self, frame: &Frame) -> Option<ErrorCode>
        ensures { result ≡ shape_error_in self.now frame.now }
    {
        let opened = match self.block {
            Some(block) => Some(block.stream),
            None => None,
        };
        let bad_start = !self.is_started && !rules::is_setting(frame);
        rules::shape_error(self.role, bad_start, opened, self.highest, frame)
    }

    fn window_error(&self, frame: &Frame) -> Option<ErrorCode>
        requires { say.is_window_update frame.now ≡ true → say.payload_length frame.now ≡ 4 }
        ensures { result ≡ window_error_in self.now frame.now }
    {
        let payload = frame.body().payload.as_slice();
        let is_broken = match frame {
            Frame::Content(_) => (self.receive as usize) < payload.len(),
            Frame::WindowUpdate(body) => {
                body.stream == 0
                    && u64::from(self.send) + u64::from(increment(payload)) > 2_147_483_647
            }
            Frame::Settings(_) => {
                rules::is_setting(frame) && settings::raises_streams(self.live.as_slice(), payload)
            }
            _ => false,
        };
        if is_broken {
            Some(ErrorCode::FLOW_CONTROL_ERROR)
        } else {
            None
        }
    }

    /// The connection error of a frame that is received next, the content of its header block apart.
    #[tactic(auto, using(crate::proofs::Judged::four_long))]
    pub(super) fn frame_error(&self, frame: &Frame) -> Option<ErrorCode>
        ensures { result ≡ frame_error_in self.now frame.now }
    {
        if let Some(code) = self.shape_error(frame) {
            return Some(code);
        }
        if let Some(code) = value_error(self.role, frame) {
            return Some(code);
        }
        self.window_error(frame)
    }

    pub(super) fn live_error(&self, frame: &Frame, stream: Stream) -> Option<ErrorCode>
        requires { say.is_window_update frame.now ≡ true → say.payload_length frame.now ≡ 4 }
        ensures { result ≡ live_error_in self.now frame.now stream }
    {
        let payload = frame.body().payload.as_slice();
        match frame {
            Frame::Priority(_) if payload.len() != 5 => Some(ErrorCode::FRAME_SIZE_ERROR),
            Frame::WindowUpdate(_) => {
                let more = u64::from(increment(payload));
                let room = u64::from(self.initial) + u64::from(stream.room);
                if more == 0 {
                    Some(ErrorCode::PROTOCOL_ERROR)
                } else if room + more > 4_294_967_295 {
                    Some(ErrorCode::FLOW_CONTROL_ERROR)
                } else {
                    None
                }
            }
            Frame::Content(_) => {
                if (stream.receive as usize) < payload.len() {
                    Some(ErrorCode::FLOW_CONTROL_ERROR)
                } else if stream.is_closed_remote {
                    Some(ErrorCode::STREAM_CLOSED)
                } else {
                    None
                }
            }
            _ => None,
        }
    }
}
