use aft_entries::{Key, KeyName};
use fib_board::{Board, BoxedJob, Given};
use std::alloc::{AllocError, Global};
use std::test::Fail;
use table_model::{Batch, Job, JobNumber, NewJob, Verdict, Work};

const NUMBER: JobNumber = JobNumber {
    position: 3,
    index: 0,
};

// A board with a removal, whose result session 7 wants.
fn with_removal(alloc: Global) -> Result<Board, AllocError> {
    let mut board = Board::new(alloc, 1)?;
    board.reserve(1)?;
    let key = Key {
        instance: 0,
        name: KeyName::Label(9),
    };
    let made = NewJob {
        job: Job {
            number: NUMBER,
            work: Work::Remove(key),
        },
        id: 30,
        owner: Some(7),
        wants: true,
        displaced: None,
        copy: None,
    };
    board.add_reserved(BoxedJob::new(alloc, made)?);
    Ok(board)
}

fn gives_work(board: &mut Board) -> bool {
    match board.take(0, 5) {
        Given::Work(_) => true,
        Given::Skipped(_) => false,
        Given::Idle => false,
    }
}

fn goes_out_once(board: &mut Board) -> bool {
    let early = board.report(NUMBER, Verdict::Programmed, 4);
    let first = gives_work(board);
    let again = gives_work(board);
    !early && first && !again && !board.is_clear(0)
}

fn is_reported_once(board: &mut Board) -> bool {
    let first = board.report(NUMBER, Verdict::DeviceFault, 6);
    let again = board.report(NUMBER, Verdict::DeviceFault, 6);
    first && !again && board.is_clear(0)
}

fn reason(batch: &Batch) -> Option<u8> {
    batch.as_list().front().and_then(|first| first.failed)
}

fn is_collected_once(board: &mut Board) -> bool {
    let before = board.outstanding(7);
    let batch = board.collect(7);
    let after = board.outstanding(7);
    before == 1 && batch.len() == 1 && reason(&batch) == Some(20) && after == 0
}

/// One job goes out, fails, is reported once, and its session collects one result.
#[test]
fn a_job_in_its_turns(rt: HostRuntime) -> Result<(), Fail> {
    let mut board = with_removal(rt.alloc())?;
    let awaited = board.outstanding(7);
    assert!(rt; awaited == 1 && goes_out_once(&mut board));
    assert!(rt; is_reported_once(&mut board) && is_collected_once(&mut board));
    assert_eq!(rt; board.fib().len(), 0);
    Ok(())
}
