ghost use Rattle.std.specs.Prelude.{◌≡◌};
ghost use Rattle.table_lock.specs.Passes.{IsPassOf};

use crate::counter::Counter;
use crate::threads::{add, call_twice, count_in_two};
use std::alloc::{AllocError, Global};
use std::sync::Wait;
use std::sync::atomic::{AtomicU64, Ordering};
use std::test::Fail;
use std::thread;
use std::thread::{Threads, join};
use std::time::Duration;
use table_lock::{Machine, Pass, TableLock};

// So often a thread looks for a flag before it gives up.
const LOOKS: u32 = 10_000_000;

// A rest that is not ended by the bell outlives the test.
const LONG: u64 = 1_000;

#[test]
fn two_threads_add_up(rt: HostRuntime) -> Result<(), Fail> {
    let mut all = Vec::new(rt.alloc());
    for i in 0..1000u64 {
        all.push(i)?;
    }
    let total = count_in_two(&rt, rt.alloc(), 100, all.as_slice(), &[7, 8, u64::MAX])?;
    assert_eq!(rt; total, Some(499_614));
    Ok(())
}

#[test]
fn a_note_carries_what_was_seen(rt: HostRuntime) -> Result<(), Fail> {
    let (lock, mut root) = TableLock::new(rt.alloc(), Counter::new(5))?;
    let mut one = lock.split(&mut root);
    let mut two = lock.split(&mut root);
    let first = lock.call(&rt, &mut one, 3);
    let note = lock.tell(&mut one);
    lock.learn(&mut two, note);
    let second = call_twice(&rt, &lock, &mut two, 4, 0);
    lock.join(&mut root, one);
    lock.join(&mut root, two);
    let third = lock.call(&rt, &mut root, 1);
    let counter = lock.close(root);
    assert!(rt; matches!(&first, Ok(8)));
    assert!(rt; matches!(&second, Ok((12, 12))));
    assert!(rt; matches!(&third, Ok(13)));
    assert_eq!(rt; counter.total, 13);
    Ok(())
}

// Whether the flag was raised, before so many looks.
fn is_raised(flag: &AtomicU64) -> bool {
    for _ in 0..LOOKS {
        if flag.load(Ordering::SeqCst) > 0 {
            return true;
        }
        thread::yield_now();
    }
    false
}

// Adds one before and after it waits for the other thread. True where that came, and both calls were made.
fn meet<R: Wait>(
    rt: &R,
    lock: &TableLock<Counter>,
    mut pass: Pass<Counter>,
    mine: &AtomicU64,
    other: &AtomicU64,
) -> (Pass<Counter>, bool)
    requires { IsPassOf lock.now pass }
    ensures { IsPassOf lock.now result.0 × (result.0.number ≡ pass.number) }
{
    let before = add(rt, lock, &mut pass, 1).is_ok();
    mine.store(1, Ordering::SeqCst);
    let met = is_raised(other);
    let after = add(rt, lock, &mut pass, 1).is_ok();
    (pass, before & met & after)
}

fn meet_in_two<R: Threads + Wait + Sync>(rt: &R, alloc: Global) -> Result<bool, AllocError> {
    let (lock, mut root) = TableLock::new(alloc, Counter::new(0))?;
    let one = lock.split(&mut root);
    let two = lock.split(&mut root);
    let flags = (AtomicU64::new(0), AtomicU64::new(0));
    let shared = &lock;
    let first = &flags.0;
    let second = &flags.1;
    let (a, b) = join(
        rt,
        || -> (Pass<Counter>, bool)
            requires { IsPassOf shared.now one }
            ensures { IsPassOf shared.entry.now result.0 }
        { meet(rt, shared, one, first, second) },
        || -> (Pass<Counter>, bool)
            requires { IsPassOf shared.now two }
            ensures { IsPassOf shared.entry.now result.0 }
        { meet(rt, shared, two, second, first) },
    );
    lock.join(&mut root, a.0);
    lock.join(&mut root, b.0);
    let counter = lock.close(root);
    Ok(a.1 & b.1 & (counter.total == 4))
}

#[test]
fn two_threads_run_at_once(rt: HostRuntime) -> Result<(), Fail> {
    let met = meet_in_two(&rt, rt.alloc())?;
    assert!(rt; met);
    Ok(())
}

// A machine whose calls last: the command says how often it yields.
#[derive(Drop)]
struct Holder {
    calls: u64,
}

impl Machine for Holder {
    type Command = u64;

    type Reply = u64;

    type Setup = u64;

    ghost setup = { λ h. 0 };

    ghost stands = { λ h log. Unit {0} };

    ghost lawful = { λ setup log. Unit {0} };

    fn act(&mut self, command: u64) -> u64 {
        for _ in 0..command {
            thread::yield_now();
        }
        self.calls = self.calls.wrapping_add(1);
        self.calls
    }

    ghost stands_lawful = { λ h log stands. stands };
}

// Holds the lock for so many yields, once it has raised the flag.
fn hold<R: Wait>(
    rt: &R,
    lock: &TableLock<Holder>,
    mut pass: Pass<Holder>,
    flag: &AtomicU64,
) -> (Pass<Holder>, bool)
    requires { IsPassOf lock.now pass }
    ensures { IsPassOf lock.now result.0 × (result.0.number ≡ pass.number) }
{
    flag.store(1, Ordering::SeqCst);
    let called = lock.call(rt, &mut pass, 300_000).is_ok();
    (pass, called)
}

// Calls while the other thread holds the lock.
fn call_behind<R: Wait>(
    rt: &R,
    lock: &TableLock<Holder>,
    mut pass: Pass<Holder>,
    flag: &AtomicU64,
) -> (Pass<Holder>, bool)
    requires { IsPassOf lock.now pass }
    ensures { IsPassOf lock.now result.0 × (result.0.number ≡ pass.number) }
{
    let held = is_raised(flag);
    for _ in 0..1000 {
        thread::yield_now();
    }
    let called = lock.call(rt, &mut pass, 0).is_ok();
    (pass, held & called)
}

fn sleep_behind_a_call<R: Threads + Wait + Sync>(
    rt: &R,
    alloc: Global,
) -> Result<bool, AllocError> {
    let (lock, mut root) = TableLock::new(alloc, Holder { calls: 0 })?;
    let one = lock.split(&mut root);
    let two = lock.split(&mut root);
    let flag = AtomicU64::new(0);
    let shared = &lock;
    let raised = &flag;
    let (a, b) = join(
        rt,
        || -> (Pass<Holder>, bool)
            requires { IsPassOf shared.now one }
            ensures { IsPassOf shared.entry.now result.0 }
        { hold(rt, shared, one, raised) },
        || -> (Pass<Holder>, bool)
            requires { IsPassOf shared.now two }
            ensures { IsPassOf shared.entry.now result.0 }
        { call_behind(rt, shared, two, raised) },
    );
    lock.join(&mut root, a.0);
    lock.join(&mut root, b.0);
    let holder = lock.close(root);
    Ok(a.1 & b.1 & (holder.calls == 2))
}

#[test]
fn a_sleeper_is_woken_by_a_hand_on(rt: HostRuntime) -> Result<(), Fail> {
    let woken = sleep_behind_a_call(&rt, rt.alloc())?;
    assert!(rt; woken);
    Ok(())
}

fn rest_until_rung<R: Threads + Wait + Sync>(rt: &R, alloc: Global) -> Result<bool, AllocError> {
    let (lock, root) = TableLock::new(alloc, Counter::new(0))?;
    let flag = AtomicU64::new(0);
    let shared = &lock;
    let raised = &flag;
    let heard = lock.rung();
    let ((), rang) = join(
        rt,
        || {
            raised.store(1, Ordering::SeqCst);
            shared.rest(rt, heard, Duration::from_secs(LONG));
        },
        || -> bool {
            let is_up = is_raised(raised);
            for _ in 0..100_000 {
                thread::yield_now();
            }
            shared.ring();
            is_up
        },
    );
    lock.rest(rt, heard, Duration::from_secs(LONG));
    let rung = lock.rung();
    lock.rest(rt, rung, Duration::from_millis(5));
    let _ = root;
    Ok(rang & (rung == heard.wrapping_add(1)))
}

#[test]
fn a_rest_ends_when_the_bell_is_rung_and_at_its_bound(rt: HostRuntime) -> Result<(), Fail> {
    let rang = rest_until_rung(&rt, rt.alloc())?;
    assert!(rt; rang);
    Ok(())
}
