//! The settings of a payload.
ghost use Rattle.std.specs.Prelude.{◌≡◌, ◌+◌, ◌≤◌, ◌==◌, ◌∷◌, drop, length, max, if◌then◌else◌};
ghost use Rattle.std.specs.List.{list_any};
ghost use Rattle.h2_exchange.specs.Rules as rule;
ghost use Rattle.h2_exchange.specs.Windows.{setting, settings_of};
ghost use Rattle.h2_streams.specs.Live.{greatest_room, greatest_window, is_raising};

use crate::live::Stream;
use h2_exchange::Role;
use h2_frames::ErrorCode;

const ENABLE_PUSH: u16 = 2;

const INITIAL_WINDOW_SIZE: u16 = 4;

const MAX_FRAME_SIZE: u16 = 5;

/// A setting's number and value.
#[derive(Clone, Copy)]
pub struct Setting {
    pub number: u16,
    pub value: u32,
}

#[tactic(auto, using(crate::proofs::SettingsRead::setting_here))]
fn setting_at(payload: &[u8], at: usize) -> Setting
    requires { at + 6 ≤ length payload.now }
    ensures { settings_of (drop at payload.now) ≡ (result.number, result.value) ∷ settings_of (drop (at + 6) payload.now) }
{
    let number = u16::from_be_bytes([payload[at], payload[at + 1]]);
    let value = u32::from_be_bytes([
        payload[at + 2],
        payload[at + 3],
        payload[at + 4],
        payload[at + 5],
    ]);
    Setting { number, value }
}

fn setting_error(role: Role, setting: Setting) -> Option<ErrorCode>
    ensures { result ≡ rule.setting_error role (setting.number, setting.value) }
{
    let is_client = match role {
        Role::Client => true,
        Role::Server => false,
    };
    let Setting { number, value } = setting;
    if number == ENABLE_PUSH && (value > 1 || is_client && value == 1) {
        return Some(ErrorCode::PROTOCOL_ERROR);
    }
    if number == MAX_FRAME_SIZE && (value < 16_384 || value > 16_777_215) {
        return Some(ErrorCode::PROTOCOL_ERROR);
    }
    if number == INITIAL_WINDOW_SIZE && value > 2_147_483_647 {
        return Some(ErrorCode::FLOW_CONTROL_ERROR);
    }
    None
}

/// The first setting that is out of its range.
pub fn settings_error(role: Role, payload: &[u8]) -> Option<ErrorCode>
    ensures { result ≡ rule.settings_error role (settings_of payload.now) }
{
    for i in 0..payload.len() / 6 {
        let setting = setting_at(payload, 6 * i);
        if let Some(code) = setting_error(role, setting) {
            return Some(code);
        }
    }
    None
}

fn window_behind(value: u32, setting: Setting) -> u32
    ensures { result ≡ (if setting.number == 4 then setting.value else value) }
{
    if setting.number == INITIAL_WINDOW_SIZE {
        setting.value
    } else {
        value
    }
}

/// INITIAL_WINDOW_SIZE as the settings leave it.
pub fn initial_window(first: u32, payload: &[u8]) -> u32
    ensures { result ≡ setting 4 first (settings_of payload.now) }
{
    let mut value = first;
    for i in 0..payload.len() / 6 {
        let setting = setting_at(payload, 6 * i);
        value = window_behind(value, setting);
    }
    value
}

fn larger_window(most: u32, setting: Setting) -> u32
    ensures { result ≡ (if setting.number == 4 then max most setting.value else most) }
{
    if setting.number == INITIAL_WINDOW_SIZE {
        most.max(setting.value)
    } else {
        most
    }
}

fn greatest_window(payload: &[u8]) -> u32
    ensures { result ≡ greatest_window 0 (settings_of payload.now) }
{
    let mut most = 0;
    for i in 0..payload.len() / 6 {
        let setting = setting_at(payload, 6 * i);
        most = larger_window(most, setting);
    }
    most
}

fn greatest_room(live: &[Stream]) -> u32
    ensures { result ≡ greatest_room 0 live.now }
{
    live.iter()
        .fold(0, |most: u32, stream| most.max(stream.room))
}

/// Whether a setting raises the window of a live stream above its bound.
pub fn raises_streams(live: &[Stream], payload: &[u8]) -> bool
    ensures { result ≡ list_any (is_raising live.now) (settings_of payload.now) }
{
    if live.is_empty() {
        return false;
    }
    let window = greatest_window(payload);
    let room = greatest_room(live);
    u64::from(window) + u64::from(room) > 4_294_967_295
}
