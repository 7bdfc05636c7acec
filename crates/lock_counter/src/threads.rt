//! What threads do with a counter under a lock.
ghost use Rattle.std.specs.Prelude.{◌≡◌, ℕ, ◌+◌, ◌%◌, ◌^◌, ◌<◌, ◌≤◌, [], ◌∷◌, ◌++◌, IfOk, IfErr, IfSome, sum, true, false};
ghost use Rattle.table_lock.specs.Passes.{IsPassOf, IsNoteOf, IsExtended};
ghost use Rattle.table_lock.specs.Lock.{entry};
ghost use Rattle.lock_counter.specs.Totals.{Stands, IsLegal, added, total_after};

use crate::counter::Counter;
use std::alloc::{AllocError, Global};
use std::sync::Wait;
use std::thread::{Threads, join};
use table_lock::{Machine, Note, Pass, Spent, TableLock};

/// Adds one number, and returns the total that it left. Spent where 2^62 tickets had been drawn; the pass is
/// then as before, but for the ticket that it looked at.
pub fn add<R: Wait>(
    rt: &R,
    lock: &TableLock<Counter>,
    pass: &mut Pass<Counter>,
    amount: u64,
) -> Result<u64, Spent>
    requires { IsPassOf lock.now pass.old }
    ensures same { IsPassOf lock.now pass.new × (pass.new.number ≡ pass.old.number) }
    ensures ok { IfOk result (λ total. (pass.new.mine ≡ pass.old.mine ++ entry pass.old.number amount total ∷ [])
        × (total ≡ total_after lock.now.setup pass.new.seen)
        × IsLegal lock.now.setup pass.new.seen) }
    ensures spent { IfErr result (λ _. (2 ^ 62 ≤ pass.new.ticket) × (pass.new ≡ record pass.old { ticket = pass.new.ticket })) }
{
    lock.call(rt, pass, amount)
}

/// Adds each number, and returns the pass. False where 2^62 tickets had been drawn before all were added.
pub fn add_all<R: Wait>(
    rt: &R,
    lock: &TableLock<Counter>,
    mut pass: Pass<Counter>,
    amounts: &[u64],
) -> (Pass<Counter>, bool)
    requires { IsPassOf lock.now pass }
    ensures pass { IsPassOf lock.now result.0 × (result.0.number ≡ pass.number) }
    ensures all { result.1 ≡ true → added result.0.mine ≡ added pass.mine ++ amounts.now }
    ensures spent { result.1 ≡ false → 2 ^ 62 ≤ result.0.ticket }
{
    for amount in amounts {
        if add(rt, lock, &mut pass, *amount).is_err() {
            return (pass, false);
        }
    }
    (pass, true)
}

/// The same, once the pass has taken in a note.
pub fn add_all_after<R: Wait>(
    rt: &R,
    lock: &TableLock<Counter>,
    mut pass: Pass<Counter>,
    note: Note<Counter>,
    amounts: &[u64],
) -> (Pass<Counter>, bool)
    requires { IsPassOf lock.now pass × IsNoteOf lock.now note }
    ensures pass { IsPassOf lock.now result.0 × (result.0.number ≡ pass.number) }
    ensures all { result.1 ≡ true → added result.0.mine ≡ added pass.mine ++ amounts.now }
    ensures spent { result.1 ≡ false → 2 ^ 62 ≤ result.0.ticket }
{
    lock.learn(&mut pass, note);
    add_all(rt, lock, pass, amounts)
}

/// One pass adds `opening` and tells another of it. Then two threads add to the counter, which ends with the sum of all.
pub fn count_in_two<R: Threads + Wait + Sync>(
    rt: &R,
    alloc: Global,
    opening: u64,
    first: &[u64],
    second: &[u64],
) -> Result<Option<u64>, AllocError>
    ensures { IfOk result (λ o. IfSome o (λ total. total ≡ (opening + sum first.now + sum second.now) % 2 ^ 64)) }
{
    let (lock, mut root) = TableLock::new(alloc, Counter::new(0))?;
    let mut one = lock.split(&mut root);
    let two = lock.split(&mut root);
    let Ok(_) = add(rt, &lock, &mut one, opening) else {
        return Ok(None);
    };
    let note = lock.tell(&mut one);
    let shared = &lock;
    let (a, b) = join(
        rt,
        || -> (Pass<Counter>, bool)
            requires { IsPassOf shared.now one }
            ensures { IsPassOf shared.entry.now result.0
                × (result.0.number ≡ one.number)
                × (result.1 ≡ true → added result.0.mine ≡ added one.mine ++ first.entry.now) }
        { add_all(rt, shared, one, first) },
        || -> (Pass<Counter>, bool)
            requires { IsPassOf shared.now two × IsNoteOf shared.now note }
            ensures { IsPassOf shared.entry.now result.0
                × (result.0.number ≡ two.number)
                × (result.1 ≡ true → added result.0.mine ≡ added two.mine ++ second.entry.now) }
        { add_all_after(rt, shared, two, note, second) },
    );
    lock.join(&mut root, a.0);
    lock.join(&mut root, b.0);
    let counter = lock.close(root);
    if a.1 && b.1 {
        Ok(Some(counter.total))
    } else {
        Ok(None)
    }
}

/// Two calls of any machine, one after the other: both stand in the history, and no others of this pass between.
pub fn call_twice<M: Machine, R: Wait>(
    rt: &R,
    lock: &TableLock<M>,
    pass: &mut Pass<M>,
    first: M::Command,
    second: M::Command,
) -> Result<(M::Reply, M::Reply), Spent>
    requires { IsPassOf lock.now pass.old }
    ensures same { IsPassOf lock.now pass.new × (pass.new.number ≡ pass.old.number) }
    ensures called { IfOk result (λ r. IsExtended M.lawful lock.now.setup pass.old pass.new
        (entry pass.old.number first r.0 ∷ entry pass.old.number second r.1 ∷ [])) }
{
    let one = lock.call(rt, pass, first)?;
    let two = lock.call(rt, pass, second)?;
    Ok((one, two))
}
