//! What becomes of links and their clients.
use crate::clients::{answered, client, unread};
use crate::runs::{Run, serve};
use link_serving::Tally;
use rig_io::{LinkStep, MemLink};
use std::alloc::{AllocError, Global};
use std::sync::Wait;
use std::test::Fail;
use std::thread::Threads;

// Nothing was wanting, and nothing failed.
const GOOD: Tally = Tally {
    lacks_memory: false,
    is_spent: false,
    has_failed: false,
};

const SHORT: Tally = Tally {
    lacks_memory: true,
    is_spent: false,
    has_failed: false,
};

const FAILED: Tally = Tally {
    lacks_memory: false,
    is_spent: false,
    has_failed: true,
};

// Three links, the second of this plan.
fn three(alloc: Global, plan: Vec<LinkStep>) -> Result<Vec<MemLink>, AllocError> {
    let mut links = Vec::new(alloc);
    links.push(client(alloc, 1, Vec::new(alloc))?)?;
    links.push(client(alloc, 2, plan)?)?;
    links.push(client(alloc, 3, Vec::new(alloc))?)?;
    Ok(links)
}

fn two(alloc: Global) -> Result<Vec<MemLink>, AllocError> {
    let mut links = Vec::new(alloc);
    links.push(client(alloc, 1, Vec::new(alloc))?)?;
    links.push(client(alloc, 2, Vec::new(alloc))?)?;
    Ok(links)
}

// Whether so many links were retired, and these clients got their answers, and no others.
fn is_answered(
    alloc: Global,
    run: &Run,
    retired: usize,
    wanted: (u64, u64, u64),
) -> Result<bool, AllocError> {
    let links = run.acceptor.retired();
    let first = answered(alloc, links, 1)?;
    let second = answered(alloc, links, 2)?;
    let third = answered(alloc, links, 3)?;
    Ok(links.len() == retired && (first, second, third) == wanted)
}

fn are_served<R: Threads + Wait + Sync>(rt: &R, alloc: Global) -> Result<bool, Fail> {
    let links = three(alloc, Vec::new(alloc))?;
    let run = serve(rt, alloc, links, 3, 3)?;
    let is_right = is_answered(alloc, &run, 3, (1, 1, 1))?;
    Ok(is_right && run.tally == GOOD && run.first == 1 && run.second == 2)
}

#[test]
fn each_client_gets_the_results_of_both_workers(rt: HostRuntime) -> Result<(), Fail> {
    let is_right = are_served(&rt, rt.alloc())?;
    assert!(rt; is_right);
    Ok(())
}

fn is_told_as_failed<R: Threads + Wait + Sync>(rt: &R, alloc: Global) -> Result<bool, Fail> {
    let links = two(alloc)?;
    let run = serve(rt, alloc, links, 3, 3)?;
    let is_right = is_answered(alloc, &run, 2, (1, 1, 0))?;
    Ok(is_right && run.tally == FAILED && run.first == 1 && run.second == 1)
}

#[test]
fn an_acceptor_that_fails_behind_its_links_is_told(rt: HostRuntime) -> Result<(), Fail> {
    let is_right = is_told_as_failed(&rt, rt.alloc())?;
    assert!(rt; is_right);
    Ok(())
}

// The reading of the second link fails.
fn do_others_go_on<R: Threads + Wait + Sync>(rt: &R, alloc: Global) -> Result<bool, Fail> {
    let mut plan = Vec::new(alloc);
    plan.push(LinkStep::Fail)?;
    let links = three(alloc, plan)?;
    let run = serve(rt, alloc, links, 3, 3)?;
    let is_right = is_answered(alloc, &run, 3, (1, 0, 1))?;
    let untouched = unread(run.acceptor.retired());
    Ok(is_right && untouched == 1 && run.tally == GOOD && run.first == 0 && run.second == 2)
}

#[test]
fn a_link_that_fails_leaves_the_others_to_go_on(rt: HostRuntime) -> Result<(), Fail> {
    let is_right = do_others_go_on(&rt, rt.alloc())?;
    assert!(rt; is_right);
    Ok(())
}

// No connection can be made for the third link.
fn is_told_as_short<R: Threads + Wait + Sync>(rt: &R, alloc: Global) -> Result<bool, Fail> {
    let links = three(alloc, Vec::new(alloc))?;
    let run = serve(rt, alloc, links, 3, 2)?;
    let is_right = is_answered(alloc, &run, 3, (1, 1, 0))?;
    let untouched = unread(run.acceptor.retired());
    Ok(is_right && untouched == 1 && run.tally == SHORT && run.first == 1 && run.second == 1)
}

#[test]
fn a_link_for_which_memory_is_wanting_is_given_back_unread(rt: HostRuntime) -> Result<(), Fail> {
    let is_right = is_told_as_short(&rt, rt.alloc())?;
    assert!(rt; is_right);
    Ok(())
}
