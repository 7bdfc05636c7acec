//! The serving of links, in one thread.
ghost use Rattle.std.specs.Prelude.{◌≡◌, ◌+◌, ◌<◌, ◌≤◌, ◌||◌, [], ℕ, Bool, true, false, length};
ghost use Rattle.table_lock.specs.Passes.{IsPassOf};
ghost use Rattle.link_serving.specs.Serving.{AreServed, HasAccepted, HasBegun, IsTakenBack, Links, ServesItems, Start, Suits, ends, fails};
ghost use Rattle.link_serving.specs.Serving.{links_of, refuses, start_at};

use crate::course::{Came, Course, Tally};
use crate::service::Service;
use reactor::{Reactor, Turning};
use rig_io::{Accepted, Acceptor};
use std::alloc::Global;
use std::sync::Wait;
use std::thread;
use table_lock::{Machine, Pass, TableLock};

// So many links are taken in at most between two rounds.
const AT_ONCE: u32 = 64;

// Joins a pass, and gives its link back.
fn take_back<M: Machine, A: Acceptor>(
    lock: &TableLock<M>,
    root: &mut Pass<M>,
    acceptor: &mut A,
    link: A::Link,
    pass: Pass<M>,
)
    requires root { IsPassOf lock.now root.old × (root.old.number ≡ 0) }
    requires pass { IsPassOf lock.now pass }
    requires took { A.retired_count acceptor.old < A.given_count acceptor.old }
    ensures root { IsPassOf lock.now root.new × (root.new.number ≡ 0) }
    ensures back { IsTakenBack link pass root.old root.new (links_of A.given_count A.retired_count A.given A.retired acceptor.old)
        (links_of A.given_count A.retired_count A.given A.retired acceptor.new) }
    ensures same { (A.faults acceptor.new ≡ A.faults acceptor.old) × (A.asked acceptor.new ≡ A.asked acceptor.old) }
{
    lock.join(root, pass);
    acceptor.retire(link);
}

// Takes in a new link, or gives it back at once for want of memory.
fn adopt<M: Machine, A: Acceptor, T: Turning + Drop, V: Service<Pass<M>, M::Command, A::Link, T>>(
    lock: &TableLock<M>,
    root: &mut Pass<M>,
    acceptor: &mut A,
    service: &mut V,
    turns: &mut Reactor<T>,
    link: A::Link,
) -> Came
    requires suits { Suits M.lawful lock.now V.takes V.gives }
    requires root { IsPassOf lock.now root.old × (root.old.number ≡ 0) }
    requires took { A.retired_count acceptor.old < A.given_count acceptor.old }
    ensures root { IsPassOf lock.now root.new × (root.new.number ≡ 0) }
    ensures came { (ends result ≡ false) × (fails result ≡ false) }
    ensures took { A.retired_count acceptor.new + (length turns.new.live + length turns.new.over)
        ≤ A.retired_count acceptor.old + (length turns.old.live + length turns.old.over) + 1 }
    ensures same { (A.given_count acceptor.new ≡ A.given_count acceptor.old) × (A.faults acceptor.new ≡ A.faults acceptor.old)
        × (A.asked acceptor.new ≡ A.asked acceptor.old) }
    ensures serves { (start : Start M.Command M.Reply M.Setup A.Link) (before : Links A.Link) (short spent : Bool)
        → ServesItems V.served V.origin start root.old before turns.old short spent
        → HasBegun link before (links_of A.given_count A.retired_count A.given A.retired acceptor.old)
        → ServesItems V.served V.origin start root.new (links_of A.given_count A.retired_count A.given A.retired acceptor.new) turns.new
        (short || refuses result) spent }
{
    let pass = lock.split(root);
    match service.open(link, pass) {
        Ok(made) => match turns.adopt(made) {
            Ok(()) => Came::Taken,
            Err(made) => {
                let (link, pass) = service.discard(made);
                take_back(lock, root, acceptor, link, pass);
                Came::Refused
            }
        },
        Err((link, pass)) => {
            take_back(lock, root, acceptor, link, pass);
            Came::Refused
        }
    }
}

// Takes in one new link, if one is there.
fn accept_one<
    M: Machine,
    A: Acceptor,
    T: Turning + Drop,
    V: Service<Pass<M>, M::Command, A::Link, T>,
>(
    lock: &TableLock<M>,
    root: &mut Pass<M>,
    acceptor: &mut A,
    service: &mut V,
    turns: &mut Reactor<T>,
) -> Came
    requires suits { Suits M.lawful lock.now V.takes V.gives }
    requires root { IsPassOf lock.now root.old × (root.old.number ≡ 0) }
    requires took { A.retired_count acceptor.old + (length turns.old.live + length turns.old.over) ≤ A.given_count acceptor.old }
    ensures root { IsPassOf lock.now root.new × (root.new.number ≡ 0) }
    ensures took { A.retired_count acceptor.new + (length turns.new.live + length turns.new.over) ≤ A.given_count acceptor.new }
    ensures serves { (start : Start M.Command M.Reply M.Setup A.Link) (short spent : Bool)
        → ServesItems V.served V.origin start root.old (links_of A.given_count A.retired_count A.given A.retired acceptor.old) turns.old short spent
        → ServesItems V.served V.origin start root.new (links_of A.given_count A.retired_count A.given A.retired acceptor.new) turns.new
        (short || refuses result) spent }
    ensures accepts { (faults : ℕ) (asked : ℕ × ℕ) (has_ended has_failed : Bool)
        → HasAccepted faults (A.faults acceptor.old) asked (A.asked acceptor.old) (A.given_count acceptor.old) has_ended has_failed
        → HasAccepted faults (A.faults acceptor.new) asked (A.asked acceptor.new) (A.given_count acceptor.new) (has_ended || ends result)
        (has_failed || fails result) }
{
    match acceptor.poll_accept() {
        Accepted::New(link) => adopt(lock, root, acceptor, service, turns, link),
        Accepted::NotReady => Came::NotReady,
        Accepted::Closed => Came::Closed,
        Accepted::Failed => Came::Failed,
    }
}

// Takes in new links, at most so many. It asks for one also where accepting has ended: an acceptor may look after its links then.
fn accept<M: Machine, A: Acceptor, T: Turning + Drop, V: Service<Pass<M>, M::Command, A::Link, T>>(
    lock: &TableLock<M>,
    root: &mut Pass<M>,
    acceptor: &mut A,
    service: &mut V,
    turns: &mut Reactor<T>,
    course: &mut Course,
)
    requires suits { Suits M.lawful lock.now V.takes V.gives }
    requires root { IsPassOf lock.now root.old × (root.old.number ≡ 0) }
    requires took { A.retired_count acceptor.old + (length turns.old.live + length turns.old.over) ≤ A.given_count acceptor.old }
    ensures root { IsPassOf lock.now root.new × (root.new.number ≡ 0) }
    ensures took { A.retired_count acceptor.new + (length turns.new.live + length turns.new.over) ≤ A.given_count acceptor.new }
    ensures serves { (start : Start M.Command M.Reply M.Setup A.Link)
        → ServesItems V.served V.origin start root.old (links_of A.given_count A.retired_count A.given A.retired acceptor.old) turns.old
        course.old.tally.lacks_memory course.old.tally.is_spent
        → ServesItems V.served V.origin start root.new (links_of A.given_count A.retired_count A.given A.retired acceptor.new) turns.new
        course.new.tally.lacks_memory course.new.tally.is_spent }
    ensures accepts { (faults : ℕ) (asked : ℕ × ℕ)
        → HasAccepted faults (A.faults acceptor.old) asked (A.asked acceptor.old) (A.given_count acceptor.old) course.old.has_ended
        course.old.tally.has_failed
        → HasAccepted faults (A.faults acceptor.new) asked (A.asked acceptor.new) (A.given_count acceptor.new) course.new.has_ended
        course.new.tally.has_failed }
{
    'links: for _ in 0..AT_ONCE {
        let came = accept_one(lock, root, acceptor, service, turns);
        course.note(came);
        if !came.is_new() {
            return;
        }
    }
}

// Takes out every item that is over, and gives its link back.
fn drain<M: Machine, A: Acceptor, T: Turning + Drop, V: Service<Pass<M>, M::Command, A::Link, T>>(
    lock: &TableLock<M>,
    root: &mut Pass<M>,
    acceptor: &mut A,
    service: &mut V,
    turns: &mut Reactor<T>,
    course: &mut Course,
)
    requires suits { Suits M.lawful lock.now V.takes V.gives }
    requires root { IsPassOf lock.now root.old × (root.old.number ≡ 0) }
    requires took { A.retired_count acceptor.old + (length turns.old.live + length turns.old.over) ≤ A.given_count acceptor.old }
    ensures root { IsPassOf lock.now root.new × (root.new.number ≡ 0) }
    ensures took { A.retired_count acceptor.new + (length turns.new.live + length turns.new.over) ≤ A.given_count acceptor.new }
    ensures live { turns.new.live ≡ turns.old.live }
    ensures over { turns.new.over ≡ [] }
    ensures serves { (start : Start M.Command M.Reply M.Setup A.Link)
        → ServesItems V.served V.origin start root.old (links_of A.given_count A.retired_count A.given A.retired acceptor.old) turns.old
        course.old.tally.lacks_memory course.old.tally.is_spent
        → ServesItems V.served V.origin start root.new (links_of A.given_count A.retired_count A.given A.retired acceptor.new) turns.new
        course.new.tally.lacks_memory course.new.tally.is_spent }
    ensures same { (A.faults acceptor.new ≡ A.faults acceptor.old) × (A.asked acceptor.new ≡ A.asked acceptor.old)
        × (A.given_count acceptor.new ≡ A.given_count acceptor.old) }
    ensures course { (course.new.has_ended ≡ course.old.has_ended) × (course.new.tally.has_failed ≡ course.old.tally.has_failed) }
{
    'items: while let Some(made) = turns.take_over() {
        let (link, pass, end) = service.close(made);
        take_back(lock, root, acceptor, link, pass);
        course.ends(end);
    }
}

// Lets other threads go on behind a turn in which nothing was done.
fn give_way(came: bool, progressed: u64) {
    if !came && progressed == 0 {
        thread::yield_now();
    }
}

/// Serves links until accepting has ended and as many links were given back as were given. In each turn of its loop each link
/// that is not over has one turn.
///
/// Accepting ends where the acceptor answers Closed or Failed. A link for which memory is wanting is given back at once.
pub fn serve_links<
    M: Machine,
    A: Acceptor,
    T: Turning + Drop,
    V: Service<Pass<M>, M::Command, A::Link, T>,
    R: Wait,
>(
    rt: &R,
    alloc: Global,
    lock: &TableLock<M>,
    root: &mut Pass<M>,
    acceptor: &mut A,
    service: &mut V,
) -> Tally
    requires suits { Suits M.lawful lock.now V.takes V.gives }
    requires root { IsPassOf lock.now root.old × (root.old.number ≡ 0) }
    requires took { A.retired_count acceptor.old ≤ A.given_count acceptor.old }
    ensures root { IsPassOf lock.now root.new × (root.new.number ≡ 0) }
    ensures serves { AreServed V.served (start_at root.old (links_of A.given_count A.retired_count A.given A.retired acceptor.old)) root.new
        (links_of A.given_count A.retired_count A.given A.retired acceptor.new) result.lacks_memory result.is_spent }
    ensures accepts { HasAccepted (A.faults acceptor.old) (A.faults acceptor.new) (A.asked acceptor.old) (A.asked acceptor.new) (A.given_count acceptor.new)
        true result.has_failed }
{
    let mut turns: Reactor<T> = Reactor::new(alloc);
    let mut course = Course::new();
    'rounds: for _ in rt.forever() {
        course.begins();
        accept(lock, root, acceptor, service, &mut turns, &mut course);
        let round = turns.round(rt);
        drain(lock, root, acceptor, service, &mut turns, &mut course);
        if course.has_ended && turns.live() == 0 {
            return course.tally;
        }
        give_way(course.has_come, round.progressed);
    }
    unreachable!()
}
