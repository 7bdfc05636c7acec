//! What is asked to be sent.
ghost use Rattle.std.specs.Prelude.{◌≡◌, ◌+◌, ◌-◌, ◌*◌, ◌<◌, ◌≤◌, ◌^◌, ◌++◌, ◌||◌, ◌&&◌, ◌==◌, not, nat_lt, is_some, true, false, None, Err, Ok, length, take, drop, sum_by, min, IfOk, IsOk, OnOk, OnErr, if◌then◌else◌, List};
ghost use Rattle.h2_exchange.specs.declared.fault.SendFault.TheVariants.{NotOpen, IdsSpent, NoMemory};
ghost use Rattle.h2_exchange.specs.declared.role.Role.TheVariants.{Client, Server};
ghost use Rattle.h2_exchange.specs.Exchange.{Step, sent};
ghost use Rattle.h2_exchange.specs.Sending.{reset_text};
ghost use Rattle.h2_exchange.specs.Streams.{highest};
ghost use Rattle.h2_frames.specs.Layout.{text_of};
ghost use Rattle.hpack_tables.specs.EntrySizes.{size_of};
ghost use Rattle.hpack_tables.specs.Laws.{AreBytes};
ghost use Rattle.hpack_tables.specs.declared.encoder.Style.TheVariants.{Plain};
ghost use Rattle.std.specs.Vec.{vec_capacity, vec_len};
ghost use Rattle.http_connection.specs.Sends.{last_flag, block_room};
ghost use Rattle.h2_streams.specs.Set.{at, is_open_in, room_of, receive_in};
ghost use Rattle.h2_streams.specs.Stands as streams;
ghost use Rattle.h2_conn.specs.Blocks.{over_if, with_count, with_end, with_block, more_frames, closed_on, WritesBlock, SendsBlock, BeginsBlock};
ghost use Rattle.h2_conn.specs.State.{state_of, output_of};
ghost use Rattle.h2_conn.specs.Room.{room_in};
ghost use Rattle.h2_conn.specs.Steps.{with_reset, with_data, with_part, placed_in, sent_on, spent_to, SendsBy};

use super::H2Conn;
use crate::{blocks, texts};
use h2_exchange::{Role, SendFault};
use h2_frames::ErrorCode;
use hpack_tables::{EncodedBlock, Fields};
use std::alloc::AllocError;

/// Drops the first bytes of a list.
fn drop_first(out: &mut Vec<u8>, n: usize)
    requires { n ≤ vec_len out.old }
    ensures { out.new.items ≡ drop n out.old.items }
{
    let left = out.len() - n;
    out.rotate_left(n);
    out.truncate(left);
}

impl H2Conn {
    pub(super) fn has_refused(&self) -> bool
        ensures { result ≡ is_some self.now.refusal }
    {
        self.refusal.is_some()
    }

    /// Drops the first bytes that wait to be sent. Bytes are moved only where more were sent than are left.
    #[tactic(auto, using(crate::proofs::Outputs::dropped_front))]
    pub(super) fn drop_front(&mut self, n: usize)
        requires { n ≤ length (output_of self.old) }
        ensures { state_of self.new ≡ record (state_of self.old) { output = drop n (output_of self.old) } }
    {
        let start = self.start + n;
        let left = self.out.len() - start;
        if left == 0 {
            self.start = 0;
            self.out.clear();
        } else if left < start {
            self.start = 0;
            drop_first(&mut self.out, start);
        } else {
            self.start = start;
        }
    }

    #[tactic(auto, using(crate::proofs::Outputs::added))]
    fn put_reset(&mut self, stream: u32, code: ErrorCode) -> Result<(), SendFault>
        ensures ok { OnOk result (state_of self.new ≡ record (state_of self.old) { output = output_of self.old ++ reset_text stream code }) }
        ensures err { OnErr result (state_of self.new ≡ state_of self.old) }
        ensures fault { OnErr result (result ≡ Err NoMemory) }
    {
        if self.out.reserve(13).is_err() {
            return Err(SendFault::NoMemory);
        }
        texts::put_reset(&mut self.out, stream, code);
        Ok(())
    }

    /// Resets a live stream.
    pub(super) fn cut(&mut self, stream: u32, code: ErrorCode) -> Result<(), SendFault>
        ensures ok { OnOk result (state_of self.new ≡ with_reset stream code (state_of self.old)) }
        ensures err { OnErr result (state_of self.new ≡ state_of self.old) }
        ensures sends { SendsBy (not (is_some self.old.refusal) && is_some (at stream self.old.set)) result }
    {
        if self.has_refused() || !self.set.is_live(stream) {
            return Err(SendFault::NotOpen);
        }
        if let Err(fault) = self.put_reset(stream, code) {
            return Err(fault);
        }
        self.watch.cut(stream);
        self.set.reset(stream);
        Ok(())
    }

    /// Forgets what a stream asked for that is over.
    fn forget(&mut self, stream: u32)
        ensures state { state_of self.new ≡ over_if stream (state_of self.old) }
        ensures out { self.new.out ≡ self.old.out }
    {
        if !self.set.is_live(stream) {
            self.watch.over(stream);
        }
    }

    // ---- header blocks

    /// Writes a header block. Without memory nothing changes.
    fn put_block(&mut self, stream: u32, last: bool, fields: &Fields) -> Result<(), AllocError>
        requires { sum_by size_of fields.now ≤ 65536 }
        ensures ok { OnOk result (WritesBlock (state_of self.old) (state_of self.new) stream last fields.now) }
        ensures bytes { OnOk result (AreBytes fields.now) }
        ensures err { OnErr result (state_of self.new ≡ state_of self.old) }
        ensures plain { self.old.encoder.style ≡ Plain → block_room fields.now ≤ room_in self.old → IsOk result }
        ensures left { OnOk result (room_in self.old ≤ room_in self.new + block_room fields.now) }
    {
        blocks::put_block(&mut self.encoder, &mut self.out, stream, last, fields)
    }

    /// Whether the end of a call can be counted, which only a client counts.
    fn can_end(&self, last: bool) -> bool
        ensures server { self.now.role ≡ Server → result ≡ true }
        ensures client { self.now.role ≡ Client → result ≡ true → last ≡ true → self.now.watch.left < 18446744073709551615 }
    {
        match self.role {
            Role::Server => true,
            Role::Client => !last || self.watch.can_end(),
        }
    }

    fn count_end(&mut self)
        requires { self.old.role ≡ Client → self.old.watch.left < 18446744073709551615 }
        ensures state { state_of self.new ≡ with_count (state_of self.old) }
        ensures out { self.new.out ≡ self.old.out }
    {
        match self.role {
            Role::Server => {}
            Role::Client => self.watch.count_end(),
        }
    }

    /// Ends this side of a stream with its header block, or not.
    fn end_sent(&mut self, stream: u32, last: bool)
        requires open { last ≡ true → is_open_in (at stream self.old.set) ≡ true }
        requires count { self.old.role ≡ Client → last ≡ true → self.old.watch.left < 18446744073709551615 }
        ensures state { state_of self.new ≡ closed_on stream last (with_end stream last (state_of self.old)) }
        ensures out { self.new.out ≡ self.old.out }
    {
        if last {
            self.set.finish(stream);
            self.count_end();
            self.forget(stream);
        }
    }

    /// Sends a head or trailers on an open stream.
    pub(super) fn send_block(
        &mut self,
        stream: u32,
        fields: &Fields,
        last: bool,
    ) -> Result<(), SendFault>
        requires { sum_by size_of fields.now ≤ 65536 }
        ensures ok { OnOk result (SendsBlock (state_of self.old) (state_of self.new) stream last fields.now) }
        ensures bytes { OnOk result (AreBytes fields.now) }
        ensures err { OnErr result (state_of self.new ≡ state_of self.old) }
        ensures sends { SendsBy (not (is_some self.old.refusal) && is_open_in (at stream self.old.set)) result }
        ensures plain { self.old.role ≡ Server → (is_some self.old.refusal ≡ false → self.old.encoder.style ≡ Plain) →
            block_room fields.now ≤ room_in self.old → result ≡ Err NoMemory → ⊥ }
        ensures left { OnOk result (room_in self.old ≤ room_in self.new + block_room fields.now) }
    {
        if self.has_refused() || !self.set.is_open(stream) {
            return Err(SendFault::NotOpen);
        }
        if !self.can_end(last) {
            return Err(SendFault::NoMemory);
        }
        if self.put_block(stream, last, fields).is_err() {
            return Err(SendFault::NoMemory);
        }
        self.end_sent(stream, last);
        Ok(())
    }

    /// Adds a block that is written, for which there is room.
    #[tactic(auto, using(crate::proofs::Outputs::added))]
    fn put_draft(&mut self, stream: u32, draft: EncodedBlock)
        requires small { length draft.text ≤ 65542 }
        requires room { vec_len self.old.out + length draft.text + 9 * (more_frames (length draft.text) + 1) ≤ vec_capacity self.old.out }
        ensures { state_of self.new ≡ with_block stream false draft.text draft.after (state_of self.old) }
    {
        blocks::put_draft(&draft, &mut self.out, stream, false);
        self.encoder.keep(draft);
    }

    /// Begins the next stream with a head.
    pub(super) fn begin_stream(&mut self, fields: &Fields) -> Result<u32, SendFault>
        requires size { sum_by size_of fields.now ≤ 65536 }
        requires client { is_some self.old.refusal ≡ false → self.old.set.role ≡ Client }
        ensures ok { IfOk result (λ id. BeginsBlock (state_of self.old) (state_of self.new) id fields.now) }
        ensures fits { IfOk result (λ id. id < 2 ^ 31) }
        ensures bytes { IfOk result (λ id. AreBytes fields.now) }
        ensures err { OnErr result (state_of self.new ≡ state_of self.old) }
        ensures alive { IfOk result (λ id. is_some self.old.refusal ≡ false) }
        ensures refused { result ≡ Err NotOpen → is_some self.old.refusal ≡ true }
        ensures spent { result ≡ Err IdsSpent → (is_some self.old.refusal ≡ false)
            × ((x : List Step) → streams.StandsFor self.old.set x → highest (sent x) ≡ 2147483647) }
    {
        if self.has_refused() {
            return Err(SendFault::NotOpen);
        }
        let Ok(draft) = self.encoder.draft(fields) else {
            return Err(SendFault::NoMemory);
        };
        if blocks::reserve_draft(&draft, &mut self.out).is_err() {
            return Err(SendFault::NoMemory);
        }
        match self.set.begin() {
            Ok(stream) => {
                self.put_draft(stream, draft);
                Ok(stream)
            }
            Err(fault) => Err(fault),
        }
    }

    // ---- data

    /// Takes what a client's data are of its requests.
    fn watch_sent(&mut self, stream: u32, part: &[u8], ends: bool) -> Result<(), AllocError>
        ensures ok { OnOk result (state_of self.new ≡ record (state_of self.old) { watch = sent_on self.old.role stream part.now ends self.old.watch }) }
        ensures err { OnErr result (state_of self.new ≡ state_of self.old) }
        ensures server { self.old.role ≡ Server → IsOk result }
        ensures out { self.new.out ≡ self.old.out }
    {
        match self.role {
            Role::Server => Ok(()),
            Role::Client => {
                if ends {
                    self.watch.take_last(stream, part)
                } else {
                    self.watch.take(stream, part)
                }
            }
        }
    }

    /// Takes bytes of DATA off the windows, and ends this side of the stream or not.
    #[tactic(auto, using(crate::proofs::Placing::still_open))]
    fn spend(&mut self, stream: u32, n: u32, ends: bool)
        requires open { is_open_in (at stream self.old.set) ≡ true }
        requires room { n ≤ room_of self.old.set (at stream self.old.set) }
        ensures state { state_of self.new ≡ record (state_of self.old) { set = spent_to stream n ends self.old.set } }
        ensures out { self.new.out ≡ self.old.out }
    {
        self.set.sent(stream, n);
        if ends {
            self.set.finish(stream);
        }
    }

    #[tactic(auto, using(crate::proofs::Outputs::added))]
    fn put_data(&mut self, stream: u32, part: &[u8], ends: bool)
        requires small { length part.now ≤ 16384 }
        requires room { vec_len self.old.out + 9 + length part.now ≤ vec_capacity self.old.out }
        ensures state { state_of self.new ≡ record (state_of self.old) { output = output_of self.old ++ text_of 0 (last_flag ends) stream part.now } }
        ensures len { vec_len self.new.out ≡ vec_len self.old.out + 9 + length part.now }
        ensures capacity { vec_capacity self.old.out ≤ vec_capacity self.new.out }
    {
        let flags = if ends { 1 } else { 0 };
        texts::put_frame(&mut self.out, 0, flags, stream, part);
    }

    /// Sends DATA for which the windows have room.
    fn send_data(&mut self, stream: u32, part: &[u8], ends: bool) -> Result<(), SendFault>
        requires open { is_open_in (at stream self.old.set) ≡ true }
        requires room { length part.now ≤ room_of self.old.set (at stream self.old.set) }
        requires small { length part.now ≤ 16384 }
        ensures ok { OnOk result (state_of self.new ≡ with_data stream part.now ends (state_of self.old)) }
        ensures err { OnErr result (state_of self.new ≡ state_of self.old) }
        ensures fault { OnErr result (result ≡ Err NoMemory) }
        ensures plain { self.old.role ≡ Server → 9 + length part.now ≤ room_in self.old → IsOk result }
        ensures left { OnOk result (room_in self.old ≤ room_in self.new + (9 + length part.now)) }
    {
        if self.out.reserve(9 + part.len()).is_err() {
            return Err(SendFault::NoMemory);
        }
        if self.watch_sent(stream, part, ends).is_err() {
            return Err(SendFault::NoMemory);
        }
        self.put_data(stream, part, ends);
        self.spend(stream, part.len() as u32, ends);
        Ok(())
    }

    /// Sends DATA, and forgets the stream where it is over with them.
    fn send_part(&mut self, stream: u32, part: &[u8], ends: bool) -> Result<(), SendFault>
        requires open { is_open_in (at stream self.old.set) ≡ true }
        requires room { length part.now ≤ room_of self.old.set (at stream self.old.set) }
        requires small { length part.now ≤ 16384 }
        ensures ok { OnOk result (state_of self.new ≡ closed_on stream ends (with_data stream part.now ends (state_of self.old))) }
        ensures err { OnErr result (state_of self.new ≡ state_of self.old) }
        ensures fault { OnErr result (result ≡ Err NoMemory) }
        ensures plain { self.old.role ≡ Server → 9 + length part.now ≤ room_in self.old → IsOk result }
        ensures left { OnOk result (room_in self.old ≤ room_in self.new + (9 + length part.now)) }
    {
        if let Err(fault) = self.send_data(stream, part, ends) {
            return Err(fault);
        }
        if ends {
            self.forget(stream);
        }
        Ok(())
    }

    /// Sends as much of a piece as the windows and one frame allow.
    pub(super) fn place(
        &mut self,
        stream: u32,
        piece: &[u8],
        last: bool,
    ) -> Result<usize, SendFault>
        ensures ok { IfOk result (λ n. (n ≡ placed_in stream piece.now (state_of self.old))
            × (state_of self.new ≡ closed_on stream (last && n == length piece.now)
            (with_part stream piece.now (last && n == length piece.now) n (state_of self.old)))) }
        ensures err { OnErr result (state_of self.new ≡ state_of self.old) }
        ensures sends { SendsBy (not (is_some self.old.refusal) && is_open_in (at stream self.old.set)) result }
        ensures plain { self.old.role ≡ Server → 9 + length piece.now ≤ room_in self.old → result ≡ Err NoMemory → ⊥ }
        ensures left { IfOk result (λ n. room_in self.old ≤ room_in self.new + (9 + n)) }
    {
        if self.has_refused() || !self.set.is_open(stream) {
            return Err(SendFault::NotOpen);
        }
        let room = self.set.may_send(stream) as usize;
        let n = piece.len().min(room).min(16_384);
        let ends = last && n == piece.len();
        if n == 0 && !ends {
            return Ok(0);
        }
        let (part, _) = piece.split_at(n);
        if let Err(fault) = self.send_part(stream, part, ends) {
            return Err(fault);
        }
        Ok(n)
    }
}
