//! One turn: reads, hears, collects, responds, holds credit, writes.
ghost use Rattle.std.specs.Prelude.{◌≡◌, ◌⊎◌, ◌<◌, ◌≤◌, ℕ, ◌++◌, ◌||◌, List, Bool, length, Ok, IfOk, IfErr, true, false};
ghost use Rattle.std.specs.Option.{option_map};
ghost use Rattle.rig_io.specs.Fault.{HasCause, HasRisen, StaysUnless};
ghost use Rattle.rig_io.specs.Link.{Piece};
ghost use Rattle.rib_core.specs.Recorded.{IsLawful};
ghost use Rattle.grpc_stream.specs.CallTrace.{CallTrace};
ghost use Rattle.table_lock.specs.Passes.{IsPassOf, IsSound};
ghost use Rattle.table_model.specs.Event.{Event};
ghost use Rattle.call_orders.specs.Calls.{Action};
ghost use Rattle.server_turns.specs.Making.{MadeLast};
ghost use Rattle.server_turns.specs.Past.{Past};
ghost use Rattle.server_turns.specs.Serving.{Account};
ghost use Rattle.server_turns.specs.Turning.{During};
ghost use Rattle.server_account.specs.Agreeing.{IsSettled};
ghost use Rattle.server_conn.specs.Standing.{Goes, NoneWaits, Works};
ghost use Rattle.server_conn.specs.Steps.{IsFaultBy, StopsBy, got};
ghost use Rattle.server_conn.specs.Turns.{TakesIn, TurnsLast, TurnsOn};

use crate::conn::{Cause, ServerConn};
use call_answers::Setting;
use grpc_stream::CallConnection;
use rib_core::RibCore;
use rig_io::{Clock, Link};
use std::sync::Wait;
use table_lock::{Pass, TableLock};

fn is_any(a: bool, b: bool, c: bool) -> bool
    ensures { result ≡ (a || b || c) }
{
    a || b || c
}

impl<K: CallConnection> ServerConn<K> {
    // Reads, and handles what was read. Says whether a byte came, or first the end.
    fn take_in<R: Wait, L: Link, C: Clock>(
        &mut self,
        rt: &R,
        lock: &TableLock<RibCore>,
        pass: &mut Pass<RibCore>,
        link: &mut L,
        setting: &Setting,
        clock: &mut C,
    ) -> Result<bool, Cause>
        requires pass { IsPassOf lock.now pass.old }
        requires sound { IsSound IsLawful lock.now.setup pass.old }
        ensures pass { IsPassOf lock.now pass.new }
        ensures sound { IsSound IsLawful lock.now.setup pass.new }
        ensures goes { (t : CallTrace) (actions : List Action) (pieces : List Piece) (own : List Event) (rest : List ℕ)
            → Works K.stands K.output setting.now self.old.calls self.old.engine self.old.refused t actions pieces own → IsSettled t rest
            → MadeLast pass.old own
            → (bytes : List ℕ) × (length bytes ≤ 16384) × (L.pieces link.new ≡ option_map (λ told. told ++ got bytes) (L.pieces link.old))
            × IfOk result (λ moved. TakesIn K.stands K.output setting.now lock.now.setup pass.old pass.new self.old.calls self.new.calls self.new.engine
            self.new.refused t pieces own bytes self.old.is_ended self.new.is_ended moved (L.read_idles link.old) (L.read_idles link.new))
            × IfErr result (λ cause. StopsBy K.stands K.output setting.now lock.now.setup pass.old pass.new self.new.calls self.new.engine self.new.refused t
            (pieces ++ got bytes) own self.new.is_ended cause) }
        ensures fault { HasCause (L.faults link.old) (L.faults link.new) (IsFaultBy result)
            × StaysUnless (L.faults link.old) (L.faults link.new) (IsFaultBy result) }
        ensures ends { (self.new.is_ended ≡ true → (self.old.is_ended ≡ true) ⊎ HasRisen (L.ends link.old) (L.ends link.new))
            × ((self.old.is_ended ≡ true) ⊎ (L.ends link.old < L.ends link.new) → self.new.is_ended ≡ true) }
        ensures writes { L.write_idles link.new ≡ L.write_idles link.old }
        ensures same { self.new ≡ record self.old {
          calls = self.new.calls;
          engine = self.new.engine;
          refused = self.new.refused;
          is_ended = self.new.is_ended;
          may_wait = self.new.may_wait;
        } }
        // nothing may have come where it is still known that no session waits
        ensures idle { IfOk result (λ moved. self.new.may_wait ≡ false →
            (moved ≡ false) × (self.old.may_wait ≡ false) × (self.new.engine ≡ self.old.engine)) }
    {
        let has_read = self.read(link)?;
        if !has_read {
            return Ok(false);
        }
        self.may_wait = true;
        self.hear_all(rt, lock, pass, setting, clock)?;
        Ok(true)
    }

    // The whole turn of a connection that isn't over. Says whether a byte moved, the end was given or a call got on.
    pub(crate) fn go<R: Wait, L: Link, C: Clock>(
        &mut self,
        rt: &R,
        lock: &TableLock<RibCore>,
        pass: &mut Pass<RibCore>,
        link: &mut L,
        setting: &Setting,
        clock: &mut C,
    ) -> Result<bool, Cause>
        requires pass { IsPassOf lock.now pass.old }
        requires sound { IsSound IsLawful lock.now.setup pass.old }
        ensures pass { IsPassOf lock.now pass.new }
        ensures sound { IsSound IsLawful lock.now.setup pass.new }
        ensures goes { (past : Past) (before : Account)
            → (h : Goes K.stands K.output setting.now self.old.calls self.old.engine self.old.refused self.old.is_ended past before)
            → MadeLast pass.old past.own → (self.old.may_wait ≡ false → NoneWaits self.old.engine past.own)
            → (turn : During) × (L.pieces link.new ≡ option_map (λ told. told ++ turn.pieces) (L.pieces link.old))
            × IfOk result (λ moved. TurnsOn K.stands K.output setting.now lock.now.setup pass.old pass.new self.new.calls self.new.engine self.new.refused
            self.new.waiting self.new.is_ended past before turn moved
            (record { reads = L.read_idles link.old; writes = L.write_idles link.old; ends = L.ends link.old })
            (record { reads = L.read_idles link.new; writes = L.write_idles link.new; ends = L.ends link.new })
            × (self.new.may_wait ≡ false → NoneWaits self.new.engine (past.own ++ turn.own)))
            × IfErr result (λ cause. TurnsLast K.stands K.output setting.now lock.now.setup pass.old pass.new h.trace self.new.calls self.new.engine
            self.new.refused self.new.is_ended past turn cause
            (record { reads = L.read_idles link.old; writes = L.write_idles link.old; ends = L.ends link.old })
            (record { reads = L.read_idles link.new; writes = L.write_idles link.new; ends = L.ends link.new })) }
        ensures fault { HasCause (L.faults link.old) (L.faults link.new) (IsFaultBy result)
            × StaysUnless (L.faults link.old) (L.faults link.new) (IsFaultBy result) }
        ensures outcome { self.new.outcome ≡ self.old.outcome }
    {
        let has_read = self.take_in(rt, lock, pass, link, setting, clock)?;
        self.check_end()?;
        let has_collected = self.collect_all(rt, lock, pass, setting)?;
        self.respond(setting)?;
        self.check_windows()?;
        self.hold()?;
        let has_written = self.write(link)?;
        self.check_served()?;
        Ok(is_any(has_read, has_collected, has_written))
    }
}
