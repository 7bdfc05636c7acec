ghost use Rattle.std.specs.Prelude.{◌≡◌, length};
ghost use Rattle.grpc_framing.specs.Framing.{item_at, front_at, FitsIn};

/// What stands at the front of a stream of messages.
#[derive(Clone, Copy, Debug, PartialEq, Eq)]
pub enum Front {
    /// A whole message of this many bytes, behind five bytes of flag and length.
    Message(usize),
    /// Less than a whole message, an empty front included.
    NeedMore,
    /// The flag byte isn't 0.
    Compressed,
    /// The flag byte is 0, and the length is above the limit.
    TooLong,
}

/// What stands behind a flag byte of 0.
#[tactic(auto, unfolding(crate::specs::Framing::item_at))]
fn item_of(limit: u32, bytes: &[u8]) -> Front
    ensures front { result ≡ item_at limit bytes.now }
    ensures within { FitsIn result limit 4 (length bytes.now) }
{
    if bytes.len() < 4 {
        return Front::NeedMore;
    }
    let (head, rest) = bytes.split_at(4);
    let count = u32::from_be_bytes([head[0], head[1], head[2], head[3]]);
    if count > limit {
        Front::TooLong
    } else if rest.len() < count as usize {
        Front::NeedMore
    } else {
        Front::Message(count as usize)
    }
}

/// What stands at the front of the bytes, where a message has at most `limit` bytes. Both refusals
/// are told as soon as the flag or the length is there, whether or not the message is whole.
#[tactic(auto, unfolding(crate::specs::Framing::front_at))]
pub fn front_of(limit: u32, bytes: &[u8]) -> Front
    ensures front { result ≡ front_at limit bytes.now }
    ensures within { FitsIn result limit 5 (length bytes.now) }
{
    match bytes {
        [] => Front::NeedMore,
        [0, rest @ ..] => item_of(limit, rest),
        [_, ..] => Front::Compressed,
    }
}
