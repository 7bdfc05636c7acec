use std::alloc::{AllocError, Global};
use std::collections::LinkedList;
use table_model::{Batch, FibResult};

fn results(alloc: Global, count: u64) -> Result<LinkedList<FibResult>, AllocError> {
    let mut due = LinkedList::new(alloc);
    for id in 0..count {
        due.push_back(FibResult {
            id,
            failed: None,
            now: 0,
        })?;
    }
    Ok(due)
}

#[test]
fn a_batch_takes_256_results(rt: HostRuntime) -> Result<(), AllocError> {
    let mut due = results(rt.alloc(), 300)?;
    let first = Batch::cut(&mut due);
    let second = Batch::cut(&mut due);
    assert!(rt; first.len() == 256 && second.as_list().len() == 44);
    let id = second.into_list().pop_front().map(|first| first.id);
    assert!(rt; id == Some(256));
    assert!(rt; Batch::empty(rt.alloc()).len() == 0);
    Ok(())
}
