//! The streams that are live, in the order of their ids.
ghost use Rattle.std.specs.Prelude.{◌≡◌, ◌<◌, true, slice_get};
ghost use Rattle.std.specs.Vec.{vec_capacity, vec_len};
ghost use Rattle.h2_streams.specs.Live.{place_of, replaced, with_outcome, without};
ghost use Rattle.h2_streams.specs.Set.{new_stream};

use crate::numbered::Numbered;
use h2_exchange::H2Limits;

/// A stream that is live.
#[derive(Clone, Copy, Debug)]
pub struct Stream {
    pub id: u32,
    pub is_closed_local: bool,
    pub is_closed_remote: bool,
    pub has_head: bool,
    /// 2^31 and what the peer granted beyond its initial window, less what was sent.
    pub room: u32,
    /// How many bytes may still be received.
    pub receive: u32,
}

impl Numbered for Stream {
    ghost number = { λ s. s.id };

    fn number(&self) -> u32 {
        self.id
    }
}

/// What becomes of a frame's stream.
#[derive(Clone, Copy, Debug)]
pub enum StreamOutcome {
    /// The frame stands on no live stream.
    NoStream,
    Over,
    Alive(Stream),
}

impl Stream {
    /// A stream as its HEADERS leave it.
    pub fn new(limits: H2Limits, id: u32) -> Stream
        ensures { result ≡ new_stream limits id }
    {
        Stream {
            id,
            is_closed_local: false,
            is_closed_remote: false,
            has_head: false,
            room: 2_147_483_648,
            receive: limits.window,
        }
    }
}

/// The stream at this place.
pub fn stream_at(live: &[Stream], place: usize) -> Option<Stream>
    ensures { result ≡ slice_get live.now place }
{
    if place < live.len() {
        let stream = &live[place];
        Some(*stream)
    } else {
        None
    }
}

/// Puts a stream in the place of the one with this id, which stands at this place.
fn replace(live: &mut [Stream], place: usize, id: u32, new: Stream)
    requires { place ≡ place_of id live.old }
    ensures { live.new ≡ replaced id new live.old }
{
    if place < live.len() {
        live[place] = new;
    }
}

/// Leaves out the stream with this id.
pub fn remove(live: &mut Vec<Stream>, id: u32)
    ensures items { live.new.items ≡ without id live.old.items }
    ensures capacity { vec_capacity live.new ≡ vec_capacity live.old }
{
    live.retain(|stream| stream.id != id);
}

/// Puts a stream in the place of the one with this id, which stands at this place.
pub fn put(live: &mut Vec<Stream>, place: usize, id: u32, new: Stream)
    requires { place ≡ place_of id live.old.items }
    ensures items { live.new.items ≡ replaced id new live.old.items }
    ensures capacity { vec_capacity live.new ≡ vec_capacity live.old }
{
    replace(live.as_mut_slice(), place, id, new);
}

/// Puts what becomes of a stream, or of a new one, which comes last.
pub fn apply_outcome(
    live: &mut Vec<Stream>,
    is_new: bool,
    place: usize,
    id: u32,
    outcome: StreamOutcome,
)
    requires has_room { is_new ≡ true → vec_len live.old < vec_capacity live.old }
    requires place { place ≡ place_of id live.old.items }
    ensures items { live.new.items ≡ with_outcome is_new id outcome live.old.items }
    ensures capacity { vec_capacity live.new ≡ vec_capacity live.old }
{
    match outcome {
        StreamOutcome::NoStream => {}
        StreamOutcome::Over => {
            if !is_new {
                remove(live, id);
            }
        }
        StreamOutcome::Alive(stream) => {
            if is_new {
                live.push_reserved(stream);
            } else {
                replace(live.as_mut_slice(), place, id, stream);
            }
        }
    }
}
