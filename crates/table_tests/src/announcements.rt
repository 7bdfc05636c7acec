use election::{AnnounceEnd, Election};

/// Sessions with their ids in turn: how each announcement ends, and the primary after it.
const TURNS: &[(u64, u128, AnnounceEnd, Option<u64>)] = &[
    (0, 0, AnnounceEnd::ZeroId, None),
    (0, 1, AnnounceEnd::Announced(1), Some(0)),
    (1, 0, AnnounceEnd::ZeroId, Some(0)),
    (0, 5, AnnounceEnd::Announced(5), Some(0)),
    (0, 4, AnnounceEnd::Announced(5), None),
    (0, 5, AnnounceEnd::Announced(5), Some(0)),
    (0, u128::MAX, AnnounceEnd::Announced(u128::MAX), Some(0)),
    (1, u128::MAX, AnnounceEnd::Announced(u128::MAX), Some(1)),
];

fn announces(election: &mut Election) -> bool {
    let mut is_right = true;
    for (session, id, end, primary) in TURNS {
        is_right &= election.announce(*session, *id) == *end && election.primary() == *primary;
    }
    is_right
}

#[test]
fn announcements_in_turn(rt: HostRuntime) {
    let mut election = Election::new();
    let announced = announces(&mut election);
    election.leave(0);
    let kept = election.primary();
    election.leave(1);
    assert!(rt; announced && kept == Some(1) && election.primary().is_none());
    assert!(rt; election.highest() == u128::MAX);
}
