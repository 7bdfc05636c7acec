//! Rules that a received frame may break by itself, and by its place in the connection.
ghost use Rattle.std.specs.Prelude.{◌≡◌};
ghost use Rattle.h2_exchange.specs.Frames as say;
ghost use Rattle.h2_exchange.specs.Rules as rule;
ghost use Rattle.h2_exchange.specs.Streams.{is_idle_above};

use h2_exchange::Role;
use h2_frames::{ErrorCode, Frame};

const ACK: u8 = 1;

const PADDED: u8 = 8;

const PRIORITY: u8 = 32;

pub fn is_data(frame: &Frame) -> bool
    ensures { result ≡ say.is_data frame.now }
{
    matches!(frame, Frame::Content(_))
}

pub fn is_headers(frame: &Frame) -> bool
    ensures { result ≡ say.is_headers frame.now }
{
    matches!(frame, Frame::Headers(_))
}

pub fn is_priority(frame: &Frame) -> bool
    ensures { result ≡ say.is_priority frame.now }
{
    matches!(frame, Frame::Priority(_))
}

pub fn is_rst_stream(frame: &Frame) -> bool
    ensures { result ≡ say.is_rst_stream frame.now }
{
    matches!(frame, Frame::RstStream(_))
}

pub fn is_window_update(frame: &Frame) -> bool
    ensures { result ≡ say.is_window_update frame.now }
{
    matches!(frame, Frame::WindowUpdate(_))
}

pub fn is_continuation(frame: &Frame) -> bool
    ensures { result ≡ say.is_continuation frame.now }
{
    matches!(frame, Frame::Continuation(_))
}

pub fn has_flag(frame: &Frame, flag: u8) -> bool
    ensures { result ≡ say.has_flag flag frame.now }
{
    frame.body().flags & flag != 0
}

/// Settings that aren't an acknowledgement.
pub fn is_setting(frame: &Frame) -> bool
    ensures { result ≡ say.is_setting frame.now }
{
    matches!(frame, Frame::Settings(_)) && !has_flag(frame, ACK)
}

fn is_idle(greatest: u32, id: u32) -> bool
    ensures { result ≡ is_idle_above greatest id }
{
    id % 2 != 1 || greatest < id
}

pub fn is_client(role: Role) -> bool
    ensures { result ≡ rule.is_client role }
{
    match role {
        Role::Client => true,
        Role::Server => false,
    }
}

fn breaks_block(opened: Option<u32>, frame: &Frame) -> bool
    ensures { result ≡ rule.breaks_block_on opened frame.now }
{
    match opened {
        None => is_continuation(frame),
        Some(id) => !(is_continuation(frame) && frame.body().stream == id),
    }
}

fn breaks_zero(frame: &Frame) -> bool
    ensures { result ≡ rule.breaks_zero frame.now }
{
    let stream = frame.body().stream;
    match frame {
        Frame::Content(_)
        | Frame::Headers(_)
        | Frame::Priority(_)
        | Frame::RstStream(_)
        | Frame::Continuation(_) => stream == 0,
        Frame::Settings(_) | Frame::Ping(_) | Frame::GoAway(_) => stream != 0,
        Frame::PushPromise(_) | Frame::WindowUpdate(_) | Frame::Unknown(_, _) => false,
    }
}

fn breaks_parity(role: Role, greatest: u32, frame: &Frame) -> bool
    ensures { result ≡ rule.breaks_parity role greatest frame.now }
{
    let stream = frame.body().stream;
    is_headers(frame) && is_idle(greatest, stream) && (is_client(role) || stream % 2 != 1)
}

fn breaks_idle(greatest: u32, frame: &Frame) -> bool
    ensures { result ≡ rule.breaks_idle greatest frame.now }
{
    let stream = frame.body().stream;
    match frame {
        Frame::Content(_) | Frame::RstStream(_) | Frame::WindowUpdate(_) => {
            stream != 0 && is_idle(greatest, stream)
        }
        _ => false,
    }
}

fn breaks_number(role: Role, greatest: u32, frame: &Frame) -> bool
    ensures { result ≡ rule.breaks_number role greatest frame.now }
{
    breaks_zero(frame) || breaks_parity(role, greatest, frame) || breaks_idle(greatest, frame)
}

fn priority_length(frame: &Frame) -> usize
    ensures { result ≡ rule.priority_length frame.now }
{
    if is_headers(frame) && has_flag(frame, PRIORITY) {
        5
    } else {
        0
    }
}

fn flagged_length(frame: &Frame) -> usize
    ensures { result ≡ rule.flagged_length frame.now }
{
    let padding = if has_flag(frame, PADDED) { 1 } else { 0 };
    padding + priority_length(frame)
}

fn breaks_length(greatest: u32, frame: &Frame) -> bool
    ensures { result ≡ rule.breaks_length greatest frame.now }
{
    let length = frame.body().payload.len();
    match frame {
        Frame::RstStream(_) | Frame::WindowUpdate(_) => length != 4,
        Frame::Ping(_) => length != 8,
        Frame::Priority(body) => length != 5 && is_idle(greatest, body.stream),
        Frame::GoAway(_) => length < 8,
        Frame::Settings(_) => {
            if has_flag(frame, ACK) {
                length != 0
            } else {
                length % 6 != 0
            }
        }
        Frame::Content(_) | Frame::Headers(_) => length < flagged_length(frame),
        Frame::PushPromise(_) | Frame::Continuation(_) | Frame::Unknown(_, _) => false,
    }
}

fn breaks_padding(frame: &Frame) -> bool
    ensures { result ≡ rule.breaks_padding frame.now }
{
    if !(is_data(frame) || is_headers(frame)) || !has_flag(frame, PADDED) {
        return false;
    }
    let payload = frame.body().payload.as_slice();
    let Some(padding) = payload.first() else {
        return false;
    };
    (payload.len() - 1).saturating_sub(priority_length(frame)) < usize::from(*padding)
}

/// The first rule on the place, the stream number, the length and the padding of a frame that it breaks.
pub fn shape_error(
    role: Role,
    bad_start: bool,
    opened: Option<u32>,
    greatest: u32,
    frame: &Frame,
) -> Option<ErrorCode>
    ensures { result ≡ rule.shape_error role bad_start opened greatest frame.now }
{
    if bad_start || matches!(frame, Frame::PushPromise(_)) || breaks_block(opened, frame) {
        return Some(ErrorCode::PROTOCOL_ERROR);
    }
    if breaks_number(role, greatest, frame) {
        return Some(ErrorCode::PROTOCOL_ERROR);
    }
    if breaks_length(greatest, frame) {
        return Some(ErrorCode::FRAME_SIZE_ERROR);
    }
    if breaks_padding(frame) {
        return Some(ErrorCode::PROTOCOL_ERROR);
    }
    None
}
