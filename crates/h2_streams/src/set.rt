ghost use Rattle.std.specs.Prelude.{◌≡◌, ◌+◌, ◌-◌, ◌^◌, ◌<◌, ◌≤◌, ◌||◌, Some, Err, List, [], ◌∷◌, ◌++◌, length, slice_get, option_map, false, true, is_some, IfOk, OnErr};
ghost use Rattle.h2_exchange.specs.declared.role.Role.TheVariants.{Client};
ghost use Rattle.h2_frames.specs.declared.frame.Frame.{Frame};
ghost use Rattle.h2_frames.specs.declared.frame.Frame.TheVariants.{Content, Headers, RstStream, WindowUpdate};
ghost use Rattle.h2_frames.specs.declared.frame.FrameBody.{FrameBody};
ghost use Rattle.h2_exchange.specs.declared.fault.SendFault.TheVariants.{IdsSpent, NotOpen};
ghost use Rattle.h2_exchange.specs.Exchange.{Step, Sent, received, sent};
ghost use Rattle.h2_exchange.specs.Blocks.{Block, completed};
ghost use Rattle.h2_exchange.specs.Frames.{stream_of, is_headers, is_continuation, has_end_stream, increment_of};
ghost use Rattle.h2_exchange.specs.Streams.{highest, of_client, live, is_begun, is_live, is_open};
ghost use Rattle.h2_exchange.specs.Windows as windows;
ghost use Rattle.h2_streams.specs.Live.{place_of};
ghost use Rattle.h2_streams.specs.Set.{Set, fresh, at, is_open_in, begun, next_id, dropped, finished, room_of, spent, credited, credited_on, receive_in, owed_in, has_head_in};
ghost use Rattle.h2_streams.specs.Stands.{StandsFor, owed_on};

mod judge;
pub mod receive;

use crate::live::{self, Stream};
use crate::numbered;
use h2_exchange::{H2Limits, Role, SendFault};
use std::alloc::{AllocError, Global};
use std::marker::Model;

/// The header block that is being received.
#[derive(Clone, Copy, Debug)]
struct OpenBlock {
    stream: u32,
    last: bool,
}

/// The streams that are live, and the windows of the connection. Of a stream that is over nothing is
/// remembered but that it isn't above the greatest id.
#[derive(Debug, Drop)]
pub struct StreamSet {
    role: Role,
    limits: H2Limits,
    live: Vec<Stream>,
    highest: u32,
    is_started: bool,
    block: Option<OpenBlock>,
    initial: u32,
    send: u32,
    receive: u32,
}

impl Model for StreamSet {
    ghost use Rattle.std.specs.Prelude.{option_map};
    ghost use Rattle.std.specs.Vec.{vec_capacity};
    ghost use Rattle.h2_streams.specs.Live.{IsKept};
    ghost use Rattle.h2_streams.specs.Set.{Set};

    ghost Value = { Set };

    ghost view = { λ s. record {
      role = s.role;
      limits = s.limits;
      live = s.live.items;
      highest = s.highest;
      is_started = s.is_started;
      block = option_map (λ b. (b.stream, b.last)) s.block;
      initial = s.initial;
      send = s.send;
      receive = s.receive;
    } };

    ghost invariant = { λ s. IsKept s.role s.limits.streams (vec_capacity s.live) (option_map (λ b. (b.stream, b.last)) s.block) s.highest s.live.items };
}

impl StreamSet {
    /// A set that has seen no frame.
    ///
    /// # Errors
    ///
    /// Where there is no memory.
    pub fn new(alloc: Global, role: Role, limits: H2Limits) -> Result<StreamSet, AllocError>
        ensures exact { IfOk result (λ set. set ≡ fresh role limits) }
        ensures stands { IfOk result (λ set. StandsFor set []) }
    {
        let room = match role {
            Role::Client => 0,
            Role::Server => limits.streams as usize + 1,
        };
        Ok(StreamSet {
            role,
            limits,
            live: Vec::with_capacity(alloc, room)?,
            highest: 0,
            is_started: false,
            block: None,
            initial: 65_535,
            send: 65_535,
            receive: 65_535,
        })
    }

    /// Whether the stream is live: from its HEADERS until both sides ended it or either reset it.
    pub fn is_live(&self, stream: u32) -> bool
        ensures exact { result ≡ is_some (at stream self.now) }
        ensures stands { (x : List Step) → StandsFor self.now x → result ≡ is_live self.now.role x stream }
    {
        self.has(stream)
    }

    /// The place of a stream among those that are live.
    fn place_of(&self, id: u32) -> usize
        ensures { result ≡ place_of id self.now.live }
    {
        numbered::place_of(self.live.as_slice(), id)
    }

    /// The live stream with this id, which stands at this place.
    fn met(&self, id: u32, place: usize) -> Option<Stream>
        requires { place ≡ place_of id self.now.live }
        ensures { result ≡ at id self.now }
    {
        live::stream_at(self.live.as_slice(), place)
    }

    /// The live stream with this id.
    fn find(&self, id: u32) -> Option<Stream>
        ensures { result ≡ at id self.now }
    {
        self.met(id, self.place_of(id))
    }

    fn has(&self, stream: u32) -> bool
        ensures { result ≡ is_some (at stream self.now) }
    {
        self.find(stream).is_some()
    }

    /// Whether the stream is live and this side hasn't ended it.
    pub fn is_open(&self, stream: u32) -> bool
        ensures exact { result ≡ is_open_in (at stream self.now) }
        ensures stands { (x : List Step) → StandsFor self.now x → result ≡ is_open self.now.role x stream }
    {
        self.has_open(stream)
    }

    fn has_open(&self, stream: u32) -> bool
        ensures { result ≡ is_open_in (at stream self.now) }
    {
        match self.find(stream) {
            Some(found) => !found.is_closed_local,
            None => false,
        }
    }

    /// The greatest id that was begun, or 0.
    pub fn highest(&self) -> u32
        ensures exact { result ≡ self.now.highest }
        ensures stands { (x : List Step) → StandsFor self.now x → result ≡ highest (of_client self.now.role x) }
    {
        self.highest_id()
    }

    fn highest_id(&self) -> u32
        ensures { result ≡ self.now.highest }
    {
        self.highest
    }

    /// Whether the peer has completed a head on the stream, which is live.
    pub fn has_head(&self, stream: u32) -> bool
        ensures { result ≡ has_head_in (at stream self.now) }
    {
        match self.find(stream) {
            Some(found) => found.has_head,
            None => false,
        }
    }

    /// How many bytes are to be granted so that the connection's window is whole again.
    pub fn owed_credit(&self) -> u32
        ensures exact { result ≡ self.now.limits.window - self.now.receive }
        ensures stands { (x : List Step) → StandsFor self.now x →
            result ≡ self.now.limits.window + windows.spent (received x) - (65535 + windows.granted_on 0 (sent x)) }
    {
        self.owed()
    }

    fn owed(&self) -> u32
        ensures { result ≡ self.now.limits.window - self.now.receive }
    {
        self.limits.window.saturating_sub(self.receive)
    }

    /// How many bytes are to be granted so that the stream's window is whole again; 0 where it isn't live.
    pub fn owed_credit_on(&self, stream: u32) -> u32
        ensures exact { result ≡ owed_in self.now.limits (at stream self.now) }
        ensures stands { (x : List Step) → StandsFor self.now x → is_live self.now.role x stream ≡ true →
            result ≡ owed_on self.now.limits x stream }
    {
        self.owed_on(stream)
    }

    fn owed_on(&self, stream: u32) -> u32
        ensures { result ≡ owed_in self.now.limits (at stream self.now) }
    {
        match self.find(stream) {
            Some(found) => self.limits.window.saturating_sub(found.receive),
            None => 0,
        }
    }

    /// How many streams are live.
    pub fn count(&self) -> usize
        ensures exact { result ≡ length self.now.live }
        ensures stands { (x : List Step) → StandsFor self.now x → result ≡ length (live self.now.role x) }
    {
        self.live_count()
    }

    fn live_count(&self) -> usize
        ensures { result ≡ length self.now.live }
    {
        self.live.len()
    }

    /// The stream at this place among those that are live, in the order of their ids.
    pub fn id_at(&self, place: usize) -> Option<u32>
        ensures exact { result ≡ option_map (λ s. s.id) (slice_get self.now.live place) }
        ensures stands { (x : List Step) → StandsFor self.now x → result ≡ slice_get (live self.now.role x) place }
    {
        self.live_id(place)
    }

    fn live_id(&self, place: usize) -> Option<u32>
        ensures { result ≡ option_map (λ s. s.id) (slice_get self.now.live place) }
    {
        let live = self.live.as_slice();
        if place < live.len() {
            let stream = &live[place];
            Some(stream.id)
        } else {
            None
        }
    }

    /// The stream at this place among those that are live, and how many bytes are to be granted so that its window is
    /// whole again.
    pub fn owed_credit_at(&self, place: usize) -> Option<(u32, u32)>
        ensures exact { result ≡ option_map (λ s. (s.id, self.now.limits.window - s.receive)) (slice_get self.now.live place) }
        ensures stands { (x : List Step) → StandsFor self.now x →
            result ≡ option_map (λ id. (id, owed_on self.now.limits x id)) (slice_get (live self.now.role x) place) }
    {
        self.owed_at(place)
    }

    fn owed_at(&self, place: usize) -> Option<(u32, u32)>
        ensures { result ≡ option_map (λ s. (s.id, self.now.limits.window - s.receive)) (slice_get self.now.live place) }
    {
        let live = self.live.as_slice();
        if place < live.len() {
            let stream = &live[place];
            Some((stream.id, self.limits.window.saturating_sub(stream.receive)))
        } else {
            None
        }
    }

    /// Begins the next stream of this side, which is the client's, and gives its id.
    ///
    /// # Errors
    ///
    /// `IdsSpent` behind id 2,147,483,647, and `NoMemory`. Nothing is begun then.
    pub fn begin(&mut self) -> Result<u32, SendFault>
        requires { self.old.role ≡ Client }
        ensures exact { IfOk result (λ id. (id ≡ next_id self.old.highest) × (self.new ≡ begun id self.old)) }
        ensures err { OnErr result (self.new ≡ self.old) }
        ensures fits { IfOk result (λ id. id < 2 ^ 31) }
        ensures refused { result ≡ Err NotOpen → ⊥ }
        ensures role { self.new.role ≡ self.old.role }
        ensures stands { IfOk result (λ id. (x : List Step) (b : FrameBody) → StandsFor self.old x → b.stream ≡ id →
            has_end_stream (Headers b) ≡ false → StandsFor self.new (x ++ Sent (Headers b) ∷ [])) }
        ensures spent { result ≡ Err IdsSpent → (x : List Step) → StandsFor self.old x → highest (sent x) ≡ 2147483647 }
    {
        self.begin_next()
    }

    fn begin_next(&mut self) -> Result<u32, SendFault>
        requires { self.old.role ≡ Client }
        ensures ok { IfOk result (λ id. (id ≡ next_id self.old.highest) × (self.new ≡ begun id self.old)) }
        ensures err { OnErr result (self.new ≡ self.old) }
        ensures fits { IfOk result (λ id. id < 2 ^ 31) }
        ensures refused { result ≡ Err NotOpen → ⊥ }
        ensures role { self.new.role ≡ self.old.role }
        ensures spent { result ≡ Err IdsSpent → 2147483645 < self.old.highest }
    {
        if self.highest > 2_147_483_645 {
            return Err(SendFault::IdsSpent);
        }
        let id = if self.highest == 0 {
            1
        } else {
            self.highest + 2
        };
        if self.live.push(Stream::new(self.limits, id)).is_err() {
            return Err(SendFault::NoMemory);
        }
        self.highest = id;
        Ok(id)
    }

    /// Ends this side of an open stream, with DATA, whose bytes `sent` takes before, or with the frame that completes its
    /// trailers.
    pub fn finish(&mut self, stream: u32)
        requires { is_open_in (at stream self.old) ≡ true }
        ensures exact { self.new ≡ finished stream self.old }
        ensures stands { (before : Set) (x : List Step) (b : FrameBody) → StandsFor before x → is_open before.role x stream ≡ true →
            b.stream ≡ stream → length b.payload ≤ room_of before (at stream before) → has_end_stream (Content b) ≡ true →
            self.old ≡ spent stream (length b.payload) before → StandsFor self.new (x ++ Sent (Content b) ∷ []) }
        ensures trailers { (x : List Step) (f : Frame) (b : Block) → StandsFor self.old x → is_open self.old.role x stream ≡ true →
            (is_headers f || is_continuation f) ≡ true → stream_of f ≡ stream → completed (sent x) f ≡ Some b → b.stream ≡ stream →
            b.last ≡ true → StandsFor self.new (x ++ Sent f ∷ []) }
    {
        self.end_here(stream);
    }

    fn end_here(&mut self, stream: u32)
        requires { is_open_in (at stream self.old) ≡ true }
        ensures { self.new ≡ finished stream self.old }
    {
        let place = self.place_of(stream);
        let Some(found) = self.met(stream, place) else {
            return;
        };
        if found.is_closed_remote {
            live::remove(&mut self.live, stream);
        } else {
            let ended = Stream {
                is_closed_local: true,
                ..found
            };
            live::put(&mut self.live, place, stream, ended);
        }
    }

    /// Ends a live stream at once, and leaves any other as it is.
    pub fn reset(&mut self, stream: u32)
        ensures exact { self.new ≡ dropped stream self.old }
        ensures stands { (x : List Step) (b : FrameBody) → StandsFor self.old x → is_begun self.old.role x stream ≡ true →
            b.stream ≡ stream → StandsFor self.new (x ++ Sent (RstStream b) ∷ []) }
    {
        self.drop_stream(stream);
    }

    fn drop_stream(&mut self, stream: u32)
        ensures { self.new ≡ dropped stream self.old }
    {
        live::remove(&mut self.live, stream);
    }

    /// How many bytes of DATA the windows allow on an open stream; 0 where it isn't open.
    pub fn may_send(&self, stream: u32) -> u32
        ensures exact { result ≡ room_of self.now (at stream self.now) }
        ensures stands { (x : List Step) → StandsFor self.now x → is_open self.now.role x stream ≡ true →
            result ≡ windows.may_send x stream }
    {
        self.room(stream)
    }

    fn room(&self, stream: u32) -> u32
        ensures { result ≡ room_of self.now (at stream self.now) }
    {
        let Some(found) = self.find(stream) else {
            return 0;
        };
        if found.is_closed_local {
            return 0;
        }
        let offset = u64::from(self.initial) + u64::from(found.room);
        let window = offset.saturating_sub(2_147_483_648);
        window.min(u64::from(self.send)) as u32
    }

    /// Takes so many bytes of DATA off the windows, which allow them.
    pub fn sent(&mut self, stream: u32, n: u32)
        requires { n ≤ room_of self.old (at stream self.old) }
        ensures exact { self.new ≡ spent stream n self.old }
        ensures stands { (x : List Step) (b : FrameBody) → StandsFor self.old x → is_open self.old.role x stream ≡ true →
            b.stream ≡ stream → length b.payload ≡ n → has_end_stream (Content b) ≡ false →
            StandsFor self.new (x ++ Sent (Content b) ∷ []) }
    {
        self.spend(stream, n);
    }

    fn spend(&mut self, stream: u32, n: u32)
        requires { n ≤ room_of self.old (at stream self.old) }
        ensures { self.new ≡ spent stream n self.old }
    {
        let place = self.place_of(stream);
        let Some(found) = self.met(stream, place) else {
            return;
        };
        let less = Stream {
            room: found.room.saturating_sub(n),
            ..found
        };
        live::put(&mut self.live, place, stream, less);
        self.send = self.send.saturating_sub(n);
    }

    /// Takes that a WINDOW_UPDATE was sent for the connection.
    pub fn credited(&mut self, n: u32)
        requires { self.old.receive + n < 2 ^ 32 }
        ensures exact { self.new ≡ credited n self.old }
        ensures stands { (x : List Step) (b : FrameBody) → StandsFor self.old x → b.stream ≡ 0 → increment_of (WindowUpdate b) ≡ n →
            StandsFor self.new (x ++ Sent (WindowUpdate b) ∷ []) }
    {
        self.credit(n);
    }

    fn credit(&mut self, n: u32)
        requires { self.old.receive + n < 2 ^ 32 }
        ensures { self.new ≡ credited n self.old }
    {
        self.receive += n;
    }

    /// Takes that a WINDOW_UPDATE was sent for a live stream.
    pub fn credited_on(&mut self, stream: u32, n: u32)
        requires { receive_in (at stream self.old) + n < 2 ^ 32 }
        ensures exact { self.new ≡ credited_on stream n self.old }
        ensures stands { (x : List Step) (b : FrameBody) → StandsFor self.old x → is_live self.old.role x stream ≡ true →
            b.stream ≡ stream → increment_of (WindowUpdate b) ≡ n → StandsFor self.new (x ++ Sent (WindowUpdate b) ∷ []) }
    {
        self.credit_on(stream, n);
    }

    fn credit_on(&mut self, stream: u32, n: u32)
        requires { receive_in (at stream self.old) + n < 2 ^ 32 }
        ensures { self.new ≡ credited_on stream n self.old }
    {
        let place = self.place_of(stream);
        let Some(found) = self.met(stream, place) else {
            return;
        };
        let more = Stream {
            receive: found.receive + n,
            ..found
        };
        live::put(&mut self.live, place, stream, more);
    }
}
