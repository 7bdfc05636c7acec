//! A connection that is served turn by turn, and the run of its turns to the end.
ghost use Rattle.std.specs.Prelude.{◌≡◌, ℕ, ◌++◌, ◌^◌, ◌-◌, min, Option, Some, None};
ghost use Rattle.std.specs.Option.{option_map};
ghost use Rattle.rig_io.specs.Fault.{HasCause, StaysUnless};
ghost use Rattle.call_answers.specs.declared.orders.Setting.{Setting as SettingView};
ghost use Rattle.rib_core.specs.Recorded.{IsLawful};
ghost use Rattle.table_lock.specs.Passes.{IsPassOf, IsSound};
ghost use Rattle.server_turns.specs.Making.{MadeLast, Makes};
ghost use Rattle.server_turns.specs.Past.{Past, nothing};
ghost use Rattle.server_turns.specs.Serving.{Account, Serves, refused_in};
ghost use Rattle.server_turns.specs.Turning.{Counts, During, GoesOn, IsAnswer, IsFault, KeepsUpUnlessOver, MayFail, behind, is_spent, outcome_of};
ghost use Rattle.server_turns.specs.declared.outcome.Outcome.{Outcome as OutcomeView};

use crate::outcome::{Outcome, TurnEnd};
use call_answers::Setting;
use rib_core::RibCore;
use rig_io::{Clock, Link};
use std::sync::Wait;
use table_lock::{Pass, TableLock};

/// A connection that is served turn by turn. All turns are given one lock, one pass, one link and one setting, with as many instances
/// as the table behind the lock has, and between two of them the pass makes no entry.
pub trait ServedByTurns: Drop {
    /// It was used so with this setting, of which this is an account, and is over with this outcome.
    ghost stands: { Self → SettingView → Past → Account → Option OutcomeView → Type 0 };

    /// How many bytes of answers no frame holds yet.
    ghost waiting: { Self → ℕ };

    /// How many calls were ended for want of memory, of the table or above it, at most 2^64 - 1.
    fn refused_calls(&self) -> u64
        ensures { (s : SettingView) (past : Past) (a : Account) (outcome : Option OutcomeView) → stands self.now s past a outcome →
            result ≡ min (refused_in s a.actions) (2 ^ 64 - 1) };

    /// Reads some, does what was asked, and writes what may be written. It waits for nothing but the lock. A connection that is
    /// over gives its outcome again. Of a link that tells no pieces only this is said: there are some that it served so.
    fn turn<R: Wait, L: Link, C: Clock>(
        &mut self,
        rt: &R,
        lock: &TableLock<RibCore>,
        pass: &mut Pass<RibCore>,
        link: &mut L,
        setting: &Setting,
        clock: &mut C,
    ) -> TurnEnd
        requires pass { IsPassOf lock.now pass.old }
        requires sound { IsSound IsLawful lock.now.setup pass.old }
        ensures pass { IsPassOf lock.now pass.new }
        ensures serves { (past : Past) (before : Account) → stands self.old setting.now past before None → MadeLast pass.old past.own
            → (turn : During) × (after : Account) × (L.pieces link.new ≡ option_map (λ told. told ++ turn.pieces) (L.pieces link.old))
            × Makes lock.now.setup (is_spent (outcome_of result)) pass.old pass.new turn.own
            × stands self.new setting.now (behind turn past) after (outcome_of result)
            × GoesOn past before after turn (record { reads = L.read_idles link.old; writes = L.write_idles link.old; ends = L.ends link.old })
            (record { reads = L.read_idles link.new; writes = L.write_idles link.new; ends = L.ends link.new })
            × IsAnswer past turn (record { reads = L.read_idles link.old; writes = L.write_idles link.old; ends = L.ends link.old })
            (record { reads = L.read_idles link.new; writes = L.write_idles link.new; ends = L.ends link.new }) result
            × KeepsUpUnlessOver result setting.now past before after turn (waiting self.new)
            (record { reads = L.read_idles link.old; writes = L.write_idles link.old; ends = L.ends link.old })
            (record { reads = L.read_idles link.new; writes = L.write_idles link.new; ends = L.ends link.new }) }
        ensures over { (past : Past) (a : Account) (outcome : OutcomeView) → stands self.old setting.now past a (Some outcome)
            → (result ≡ TurnEnd.Over outcome) × (self.new ≡ self.old) × (pass.new ≡ pass.old) × (L.pieces link.new ≡ L.pieces link.old) }
        ensures fault { (past : Past) (a : Account) → stands self.old setting.now past a None →
            HasCause (L.faults link.old) (L.faults link.new) (IsFault result) × StaysUnless (L.faults link.old) (L.faults link.new) (MayFail result) };

    ghost serves: { (x : Self) (s : SettingView) (past : Past) (a : Account) (outcome : Option OutcomeView) → stands x s past a outcome →
        Serves s past a outcome };
}

/// Serves a link to its end, by turns of a new connection.
pub fn serve_turns<R: Wait, L: Link, C: Clock, T: ServedByTurns>(
    rt: &R,
    mut conn: T,
    lock: &TableLock<RibCore>,
    pass: &mut Pass<RibCore>,
    link: &mut L,
    setting: &Setting,
    clock: &mut C,
) -> Outcome
    requires new { (a : Account) × T.stands conn setting.now nothing a None }
    requires pass { IsPassOf lock.now pass.old }
    requires sound { IsSound IsLawful lock.now.setup pass.old }
    ensures pass { IsPassOf lock.now pass.new }
    ensures serves { (past : Past) × (a : Account) × (L.pieces link.new ≡ option_map (λ told. told ++ past.pieces) (L.pieces link.old))
        × Makes lock.now.setup (is_spent (Some result)) pass.old pass.new past.own × Serves setting.now past a (Some result) }
    ensures fault { HasCause (L.faults link.old) (L.faults link.new) (IsFault (TurnEnd.Over result))
        × StaysUnless (L.faults link.old) (L.faults link.new) (MayFail (TurnEnd.Over result)) }
{
    'turns: for _ in rt.forever() {
        match conn.turn(rt, lock, pass, link, setting, clock) {
            TurnEnd::Over(outcome) => return outcome,
            TurnEnd::Progress => {}
            TurnEnd::Idle => {}
        }
    }
    unreachable!()
}
