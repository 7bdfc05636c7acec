//! Credit that is held back and released.
ghost use Rattle.std.specs.Prelude.{◌≡◌, ◌+◌, ◌*◌, ◌≤◌, true, None, length, option_map, slice_get, OnOk, OnErr};
ghost use Rattle.std.specs.Vec.{vec_capacity, vec_len};
ghost use Rattle.http_connection.specs.ConnectionTrace.{ConnectionTrace};
ghost use Rattle.h2_conn.specs.Crediting.{ahead_in, granted_at, Credits, Releases, Holds};
ghost use Rattle.h2_conn.specs.Standing.{StandsFor};
ghost use Rattle.h2_conn.specs.State.{state_of};

use super::H2Conn;
use std::alloc::AllocError;

impl H2Conn {
    /// Makes the window of the live stream at a place whole.
    fn grant_at(&mut self, place: usize)
        requires { vec_len self.old.out + 13 ≤ vec_capacity self.old.out }
        ensures state { state_of self.new ≡ granted_at (option_map (λ s. s.id) (slice_get self.old.set.live place)) (state_of self.old) }
        ensures len { vec_len self.new.out ≤ vec_len self.old.out + 13 }
        ensures capacity { vec_capacity self.old.out ≤ vec_capacity self.new.out }
    {
        match self.set.id_at(place) {
            Some(stream) => self.grant_on(stream),
            None => {}
        }
    }

    /// Makes the windows of the first live streams whole, for which there is room.
    fn grant_each(&mut self, count: usize)
        requires room { vec_len self.old.out + 13 * count ≤ vec_capacity self.old.out }
        ensures credits { (c : ConnectionTrace) → Credits (state_of self.old) c 0 → Credits (state_of self.new) c count }
        ensures ahead { ahead_in (state_of self.new) ≡ ahead_in (state_of self.old) }
    {
        'streams: for place in 0..count {
            self.grant_at(place);
        }
    }

    /// Sends all credit that is owed.
    fn release(&mut self) -> Result<(), AllocError>
        requires alive { self.old.refusal ≡ None }
        requires holds { self.old.is_holding ≡ true }
        ensures ok { OnOk result ((c : ConnectionTrace) → StandsFor self.old c → Releases (state_of self.new) c) }
        ensures err { OnErr result (state_of self.new ≡ state_of self.old) }
        ensures ahead { ahead_in (state_of self.new) ≡ ahead_in (state_of self.old) }
    {
        let count = self.set.count();
        if count > 0xFFFF_FFFF {
            return Err(AllocError);
        }
        self.out.reserve(13 * (count + 1))?;
        self.grant();
        self.grant_each(count);
        Ok(())
    }

    /// Holds credit back, or ends that and sends what is owed. Without memory nothing changes.
    pub(super) fn hold(&mut self, hold: bool) -> Result<(), AllocError>
        ensures ok { (c : ConnectionTrace) → StandsFor self.old c → OnOk result (Holds hold c (state_of self.new)) }
        ensures err { OnErr result (state_of self.new ≡ state_of self.old) }
        ensures ahead { ahead_in (state_of self.new) ≡ ahead_in (state_of self.old) }
    {
        if hold {
            self.is_holding = true;
            return Ok(());
        }
        if !self.is_holding {
            return Ok(());
        }
        if self.has_refused() {
            self.is_holding = false;
            return Ok(());
        }
        self.release()?;
        self.is_holding = false;
        Ok(())
    }
}
