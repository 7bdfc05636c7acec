use aft_entries::{Act, Device, Entry, Key, KeyName, MemDevice, Payload, RoutePayload};
use rig_io::{
    Accepted, Acceptor, Dialer, Dialled, Link, LinkRead, LinkStep, LinkWrite, MemAcceptor,
    MemDialer, MemLink,
};
use std::alloc::{AllocError, Global};
use std::test::Fail;

#[test]
fn a_link_follows_its_plan(rt: HostRuntime) -> Result<(), Fail> {
    let mut plan = Vec::new(rt.alloc());
    for step in [LinkStep::Upto(2), LinkStep::NotReady, LinkStep::Fail] {
        plan.push(step)?;
    }
    let mut link = MemLink::new(rt.alloc(), plan);
    link.feed(b"hello")?;
    let mut buffer = [0u8; 8];
    let mut is_right = link.poll_read(&mut buffer) == LinkRead::Got(2);
    is_right &= link.poll_write(b"ho") == LinkWrite::NotReady;
    is_right &= link.poll_read(&mut buffer) == LinkRead::Failed;
    is_right &= link.poll_read(&mut buffer) == LinkRead::Got(3);
    is_right &= link.poll_read(&mut buffer) == LinkRead::NotReady;
    is_right &= link.poll_write(b"ho") == LinkWrite::Put(2);
    link.end_input();
    is_right &= link.poll_read(&mut buffer) == LinkRead::End;
    is_right &= link.sent() == b"ho".as_slice() && link.left() == 0 && link.refused() == 0;
    assert!(rt; is_right);
    Ok(())
}

fn two_links(alloc: Global) -> Result<Vec<MemLink>, AllocError> {
    let mut links = Vec::new(alloc);
    links.push(MemLink::new(alloc, Vec::new(alloc)))?;
    links.push(MemLink::new(alloc, Vec::new(alloc)))?;
    Ok(links)
}

// What an acceptor answers, as a letter. A link that it gives is let go.
fn accepted(acceptor: &mut MemAcceptor) -> u8 {
    match acceptor.poll_accept() {
        Accepted::New(_) => b'n',
        Accepted::NotReady => b'r',
        Accepted::Closed => b'c',
        Accepted::Failed => b'f',
    }
}

#[test]
fn an_acceptor_gives_its_links_and_closes(rt: HostRuntime) -> Result<(), Fail> {
    let mut acceptor = MemAcceptor::new(rt.alloc(), two_links(rt.alloc())?);
    let mut is_right = acceptor.listen("a", 1);
    is_right &= accepted(&mut acceptor) == b'n';
    is_right &= accepted(&mut acceptor) == b'c';
    is_right &= acceptor.listen("a", 2);
    is_right &= accepted(&mut acceptor) == b'n';
    is_right &= accepted(&mut acceptor) == b'f';
    is_right &= acceptor.retired().is_empty() && acceptor.refused() == 0;
    assert!(rt; is_right);
    Ok(())
}

fn is_dialled(dialer: &mut MemDialer) -> bool {
    match dialer.dial("a") {
        Dialled::New(_) => true,
        Dialled::Failed => false,
    }
}

#[test]
fn a_dialer_fails_at_the_listed_calls_and_past_its_links(rt: HostRuntime) -> Result<(), Fail> {
    let mut failing = Vec::new(rt.alloc());
    failing.push(1)?;
    let mut dialer = MemDialer::new(rt.alloc(), two_links(rt.alloc())?, failing);
    let mut is_right = is_dialled(&mut dialer);
    is_right &= !is_dialled(&mut dialer);
    is_right &= is_dialled(&mut dialer);
    is_right &= !is_dialled(&mut dialer);
    is_right &= dialer.retired().is_empty() && dialer.refused() == 0;
    assert!(rt; is_right);
    Ok(())
}

#[test]
fn a_device_keeps_what_is_installed(rt: HostRuntime) -> Result<(), Fail> {
    let mut failing = Vec::new(rt.alloc());
    failing.push(1)?;
    let mut device = MemDevice::new(rt.alloc(), failing);
    let entry = Entry {
        key: Key {
            instance: 0,
            name: KeyName::Label(3),
        },
        payload: Payload::Route(RoutePayload {
            instance: 0,
            group: 1,
        }),
    };
    let mut is_right = device.install(&entry) == Act::Done;
    is_right &= device.install(&entry) == Act::Failed;
    is_right &= device.install(&entry) == Act::Done;
    is_right &= device.contents().len() == 1;
    is_right &= device.remove(&entry.key) == Act::Done;
    is_right &= device.contents().is_empty() && device.refused() == 0;
    assert!(rt; is_right);
    Ok(())
}
