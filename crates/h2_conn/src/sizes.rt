//! The table sizes that a peer announces.
ghost use Rattle.std.specs.Prelude.{◌≡◌, ◌+◌, ◌≤◌, ◌==◌, ◌∷◌, drop, length, if◌then◌else◌};
ghost use Rattle.hpack_tables.specs.Writing.{limited};
ghost use Rattle.h2_exchange.specs.Compression.{limited_by};
ghost use Rattle.h2_exchange.specs.Windows.{settings_of};
ghost use Rattle.h2_conn.specs.Sizes.{limited_over};

use h2_frames::Frame;
use hpack_tables::HeaderEncoder;

/// A setting's number and value.
#[derive(Clone, Copy)]
struct Setting {
    number: u16,
    value: u32,
}

#[tactic(auto, using(crate::proofs::SizesRead::setting_here))]
fn setting_at(payload: &[u8], at: usize) -> Setting
    requires { at + 6 ≤ length payload.now }
    ensures { settings_of (drop at payload.now) ≡ (result.number, result.value) ∷ settings_of (drop (at + 6) payload.now) }
{
    let number = u16::from_be_bytes([payload[at], payload[at + 1]]);
    let value = u32::from_be_bytes([
        payload[at + 2],
        payload[at + 3],
        payload[at + 4],
        payload[at + 5],
    ]);
    Setting { number, value }
}

fn take_setting(encoder: &mut HeaderEncoder, setting: Setting)
    ensures { encoder.new ≡ (if setting.number == 1 then limited setting.value encoder.old else encoder.old) }
{
    if setting.number == 1 {
        encoder.limit(setting.value);
    }
}

fn take_settings(encoder: &mut HeaderEncoder, payload: &[u8])
    ensures { encoder.new ≡ limited_over (settings_of payload.now) encoder.old }
{
    for i in 0..payload.len() / 6 {
        let setting = setting_at(payload, 6 * i);
        take_setting(encoder, setting);
    }
}

/// Bounds an encoder's table by each size that a frame announces.
pub fn take_sizes(encoder: &mut HeaderEncoder, frame: &Frame)
    ensures { encoder.new ≡ limited_by frame.now encoder.old }
{
    if let Frame::Settings(body) = frame {
        if body.flags & 1 == 0 {
            take_settings(encoder, body.payload.as_slice());
        }
    }
}
