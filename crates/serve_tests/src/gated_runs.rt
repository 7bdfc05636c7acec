//! Runs of `serve` whose links and devices wait for one another: links are served side by side, devices are called on threads of
//! their own, and no call of a device holds the table back.
use crate::client::{
    HOP_1, HOP_2, LAST_HOP_1, LAST_HOP_2, PARAMETERS_ALONE, PROGRAMMED_2, TRAILERS, call,
};
use crate::gated::{Gate, is_up};
use crate::gated_acceptor::GatedAcceptor;
use crate::gated_device::{GatedDevice, sixteen};
use crate::gated_link::GatedLink;
use crate::runs::{is_line, run};
use rig_io::Gates;
use std::alloc::{AllocError, Global};
use std::sync::Wait;
use std::test::Fail;
use std::thread::Threads;

// Whether no holder gave up, the status is 0, and the line has this front.
fn is_done(gates: &Gates, status: u8, text: &[u8], front: &[u8]) -> bool {
    !is_up(gates, Gate::GaveUp) && status == 0 && is_line(text, front)
}

fn plain<'a>(alloc: Global, gates: &'a Gates) -> GatedDevice<'a> {
    GatedDevice::new(alloc, gates, None, None)
}

// The first client says nothing until the second was sent its trailers.
fn are_side_by_side<'a, R: Threads + Wait + Sync>(
    rt: &R,
    alloc: Global,
    gates: &'a Gates,
) -> Result<bool, AllocError> {
    let first = call(alloc, &[PARAMETERS_ALONE])?;
    let second = call(alloc, &[PARAMETERS_ALONE])?;
    let size = second.len();
    let mut links = Vec::new(alloc);
    links.push(GatedLink::new(alloc, gates, first, 0, Gate::First, TRAILERS, Gate::Second))?;
    links.push(GatedLink::new(
        alloc,
        gates,
        second,
        size,
        Gate::Second,
        TRAILERS,
        Gate::First,
    ))?;
    let mut acceptor = GatedAcceptor::new(links, true);
    let mut devices = sixteen(alloc, gates, plain(alloc, gates), plain(alloc, gates))?;
    let (status, output) = run(
        rt,
        alloc,
        &["serve", "--listen", "a", "--connections", "2"],
        &[],
        &mut acceptor,
        &mut devices,
    )?;
    let is_right = is_done(
        gates,
        status,
        output.bytes(),
        b"entries 0 installed 0 events ",
    );
    Ok(is_right && is_up(gates, Gate::Second) && acceptor.counts() == (2, 2))
}

#[test]
fn links_are_served_side_by_side(rt: HostRuntime) -> Result<(), Fail> {
    let gates = Gates::new();
    let is_right = are_side_by_side(&rt, rt.alloc(), &gates)?;
    assert!(rt; is_right);
    Ok(())
}

// The first device stays in its first call until the second began one.
fn are_on_threads<'a, R: Threads + Wait + Sync>(
    rt: &R,
    alloc: Global,
    gates: &'a Gates,
) -> Result<bool, AllocError> {
    let bytes = call(alloc, &[HOP_2, LAST_HOP_1])?;
    let size = bytes.len();
    let mut links = Vec::new(alloc);
    links.push(GatedLink::new(
        alloc,
        gates,
        bytes,
        size,
        Gate::Second,
        TRAILERS,
        Gate::Second,
    ))?;
    let mut acceptor = GatedAcceptor::new(links, true);
    let first = GatedDevice::new(alloc, gates, None, Some(Gate::First));
    let second = GatedDevice::new(alloc, gates, Some(Gate::First), None);
    let mut devices = sixteen(alloc, gates, first, second)?;
    let (status, output) = run(
        rt,
        alloc,
        &["serve", "--listen=a", "--connections=1", "--workers=2"],
        &[],
        &mut acceptor,
        &mut devices,
    )?;
    Ok(is_done(
        gates,
        status,
        output.bytes(),
        b"entries 2 installed 2 events ",
    ))
}

#[test]
fn devices_are_called_on_threads_of_their_own(rt: HostRuntime) -> Result<(), Fail> {
    let gates = Gates::new();
    let is_right = are_on_threads(&rt, rt.alloc(), &gates)?;
    assert!(rt; is_right);
    Ok(())
}

// The device stays in its first call until the second operation, which comes once that call began, was answered.
fn is_free<'a, R: Threads + Wait + Sync>(
    rt: &R,
    alloc: Global,
    gates: &'a Gates,
) -> Result<bool, AllocError> {
    let mut bytes = call(alloc, &[HOP_1])?;
    let size = bytes.len();
    bytes.extend_from_slice(LAST_HOP_2)?;
    let mut links = Vec::new(alloc);
    links.push(GatedLink::new(
        alloc,
        gates,
        bytes,
        size,
        Gate::First,
        PROGRAMMED_2,
        Gate::Second,
    ))?;
    let mut acceptor = GatedAcceptor::new(links, true);
    let first = GatedDevice::new(alloc, gates, Some(Gate::First), Some(Gate::Second));
    let mut devices = sixteen(alloc, gates, first, plain(alloc, gates))?;
    let (status, output) = run(
        rt,
        alloc,
        &[
            "serve",
            "--listen",
            "a",
            "--connections",
            "1",
            "--workers",
            "1",
        ],
        &[],
        &mut acceptor,
        &mut devices,
    )?;
    Ok(is_done(
        gates,
        status,
        output.bytes(),
        b"entries 2 installed 2 events ",
    ))
}

#[test]
fn a_device_in_its_call_holds_no_operation_back(rt: HostRuntime) -> Result<(), Fail> {
    let gates = Gates::new();
    let is_right = is_free(&rt, rt.alloc(), &gates)?;
    assert!(rt; is_right);
    Ok(())
}

// Whether an address that can't be opened is told, and nothing is written.
fn is_told<'a, R: Threads + Wait + Sync>(
    rt: &R,
    alloc: Global,
    gates: &'a Gates,
) -> Result<bool, AllocError> {
    let mut acceptor = GatedAcceptor::new(Vec::new(alloc), false);
    let mut devices = sixteen(alloc, gates, plain(alloc, gates), plain(alloc, gates))?;
    let (status, output) = run(
        rt,
        alloc,
        &["serve", "--listen", "a"],
        &[],
        &mut acceptor,
        &mut devices,
    )?;
    Ok(status == 8 && output.bytes().is_empty() && acceptor.counts() == (0, 0))
}

#[test]
fn an_address_that_cannot_be_opened_is_told(rt: HostRuntime) -> Result<(), Fail> {
    let gates = Gates::new();
    let is_right = is_told(&rt, rt.alloc(), &gates)?;
    assert!(rt; is_right);
    Ok(())
}
