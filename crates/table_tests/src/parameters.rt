use session_params::{AckType, AskedParams, ParamBook, Params, Persistence, Redundancy, SetEnd};
use std::alloc::{AllocError, Global};
use std::test::Fail;

const KEPT: Params = Params {
    persistence: Persistence::Preserve,
    ack: AckType::Rib,
};

const GOOD: AskedParams = AskedParams {
    redundancy: Some(Redundancy::SinglePrimary),
    persistence: Some(Persistence::Preserve),
    ack: Some(AckType::Rib),
};

const ALL_PRIMARY: AskedParams = AskedParams {
    redundancy: Some(Redundancy::AllPrimary),
    persistence: Some(Persistence::Preserve),
    ack: Some(AckType::Rib),
};

const NO_ACK: AskedParams = AskedParams {
    redundancy: Some(Redundancy::SinglePrimary),
    persistence: Some(Persistence::Preserve),
    ack: None,
};

const DELETE: AskedParams = AskedParams {
    redundancy: Some(Redundancy::SinglePrimary),
    persistence: Some(Persistence::Delete),
    ack: Some(AckType::Rib),
};

const ACK_OF_FIB: AskedParams = AskedParams {
    redundancy: Some(Redundancy::SinglePrimary),
    persistence: Some(Persistence::Preserve),
    ack: Some(AckType::RibAndFib),
};

// Two sessions that ask in turn: each end, and the parameters that count after it.
const TURNS: &[(u64, AskedParams, SetEnd, Option<Params>)] = &[
    (0, ALL_PRIMARY, SetEnd::Unsupported, None),
    (0, NO_ACK, SetEnd::Unsupported, None),
    (0, GOOD, SetEnd::Set, Some(KEPT)),
    (0, GOOD, SetEnd::NotAllowed, Some(KEPT)),
    (1, DELETE, SetEnd::Differs(KEPT), None),
    (1, ACK_OF_FIB, SetEnd::Differs(KEPT), None),
    (1, GOOD, SetEnd::Set, Some(KEPT)),
];

fn entered(alloc: Global) -> Result<ParamBook, AllocError> {
    let mut book = ParamBook::new(alloc);
    book.enter(0)?;
    book.enter(1)?;
    Ok(book)
}

fn set(book: &mut ParamBook, session: u64, asked: AskedParams) -> Option<SetEnd> {
    if book.is_entered(session) {
        Some(book.set(session, asked))
    } else {
        None
    }
}

fn sets(book: &mut ParamBook) -> bool {
    let mut is_right = true;
    for (session, asked, end, params) in TURNS {
        let is_set = set(book, *session, *asked) == Some(*end);
        is_right &= is_set && book.params_of(*session) == *params;
    }
    is_right
}

fn is_left(book: &mut ParamBook) -> bool {
    book.leave(0);
    let is_kept = book.params_of(1) == Some(KEPT);
    is_kept && !book.is_entered(0) && book.params_of(0).is_none()
}

#[test]
fn parameters_in_turn(rt: HostRuntime) -> Result<(), Fail> {
    let mut book = entered(rt.alloc())?;
    assert!(rt; sets(&mut book) && is_left(&mut book));
    Ok(())
}
