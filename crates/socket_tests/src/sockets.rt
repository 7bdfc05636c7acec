ghost use Rattle.std.specs.Prelude.{◌≡◌, ◌<◌, ◌≤◌, length, IfSome};

use gribi_edge::{TcpAcceptor, TcpClientLink, TcpDialer, TcpLink};
use rig_io::{Accepted, Acceptor, Dialer, Dialled, Link, LinkRead, LinkWrite};
use std::alloc::{AllocError, Global};
use std::net::{Net, TcpListener};
use std::test::Fail;

// So many looks are made for what is to come: a patient acceptor and a patient link wait in them.
const LOOKS: u32 = 5000;

// The address of an acceptor that listens, as a text to dial.
fn address<R: Net + Sync>(
    alloc: Global,
    acceptor: &TcpAcceptor<'_, R>,
) -> Result<String, AllocError> {
    match acceptor.local_addr() {
        Ok(address) => format!(in alloc; "{address}"),
        Err(_) => Ok(String::new(alloc)),
    }
}

fn accepted<R: Net + Sync>(acceptor: &mut TcpAcceptor<'_, R>) -> Option<TcpLink>
    ensures one_more { IfSome result (λ _. acceptor.old.given_count < acceptor.new.given_count) }
    ensures never_less { acceptor.old.given_count ≤ acceptor.new.given_count }
    ensures retired { acceptor.new.retired_count ≡ acceptor.old.retired_count }
{
    for _ in 0..LOOKS {
        if let Accepted::New(link) = acceptor.poll_accept() {
            return Some(link);
        }
    }
    None
}

fn dialled<R: Net>(dialer: &mut TcpDialer<'_, R>, address: &str) -> Option<TcpClientLink>
    ensures one_more { IfSome result (λ _. dialer.old.given_count < dialer.new.given_count) }
    ensures retired { dialer.new.retired_count ≡ dialer.old.retired_count }
{
    match dialer.dial(address) {
        Dialled::New(link) => Some(link),
        Dialled::Failed => None,
    }
}

// What a served link reads, where the acceptor looks meanwhile.
fn served_read<R: Net + Sync>(
    acceptor: &mut TcpAcceptor<'_, R>,
    link: &mut TcpLink,
    buffer: &mut [u8],
) -> LinkRead
    requires { 0 < length buffer.old }
    ensures given { acceptor.old.given_count ≤ acceptor.new.given_count }
    ensures retired { acceptor.new.retired_count ≡ acceptor.old.retired_count }
{
    for _ in 0..LOOKS {
        match link.poll_read(buffer) {
            LinkRead::NotReady => {
                acceptor.poll_accept();
            }
            read => return read,
        }
    }
    LinkRead::NotReady
}

fn client_read(link: &mut TcpClientLink, buffer: &mut [u8]) -> LinkRead
    requires { 0 < length buffer.old }
{
    for _ in 0..LOOKS {
        match link.poll_read(buffer) {
            LinkRead::NotReady => {}
            read => return read,
        }
    }
    LinkRead::NotReady
}

// A question and its answer at an address, the end of the link, and the acceptor's end of the links that were asked for.
fn echoes<R: Net + Sync>(rt: &R, alloc: Global, at: &str) -> Result<bool, AllocError> {
    let mut acceptor = TcpAcceptor::new(rt, alloc, true);
    let mut is_right = acceptor.listen(at, 1);
    let to = address(alloc, &acceptor)?;
    let mut dialer = TcpDialer::new(rt, alloc, true);
    let Some(mut client) = dialled(&mut dialer, to.as_str()) else {
        return Ok(false);
    };
    let Some(mut served) = accepted(&mut acceptor) else {
        return Ok(false);
    };
    let mut buffer = [0u8; 8];
    is_right &= client.poll_write(b"ask") == LinkWrite::Put(3);
    is_right &= served_read(&mut acceptor, &mut served, &mut buffer) == LinkRead::Got(3);
    is_right &= &buffer[..3] == b"ask".as_slice();
    is_right &= served.poll_write(b"told") == LinkWrite::Put(4);
    is_right &= client_read(&mut client, &mut buffer) == LinkRead::Got(4);
    is_right &= &buffer[..4] == b"told".as_slice();
    dialer.retire(client);
    is_right &= served_read(&mut acceptor, &mut served, &mut buffer) == LinkRead::End;
    is_right &= served.faults() == 0;
    is_right &= matches!(&acceptor.poll_accept(), Accepted::Closed);
    acceptor.retire(served);
    Ok(is_right)
}

#[test]
fn a_link_carries_bytes_both_ways_and_ends(rt: HostRuntime) -> Result<(), Fail> {
    let is_right = echoes(&rt, rt.alloc(), "127.0.0.1:0")?;
    assert!(rt; is_right);
    Ok(())
}

#[test]
fn a_link_over_ipv6_does_too(rt: HostRuntime) -> Result<(), Fail> {
    // Where this machine has no IPv6 loopback, nothing listens there.
    let has_ipv6 = TcpListener::bind(&rt, "[::1]:0").is_ok();
    let is_right = !has_ipv6 || echoes(&rt, rt.alloc(), "[::1]:0")?;
    assert!(rt; is_right);
    Ok(())
}

fn refuses_a_second<R: Net + Sync>(rt: &R, alloc: Global) -> Result<bool, AllocError> {
    let mut first = TcpAcceptor::new(rt, alloc, false);
    let mut second = TcpAcceptor::new(rt, alloc, false);
    let listens = first.listen("127.0.0.1:0", 1);
    let taken = address(alloc, &first)?;
    Ok(listens && !second.listen(taken.as_str(), 1) && !second.listen("nowhere", 1))
}

#[test]
fn an_address_in_use_is_refused(rt: HostRuntime) -> Result<(), Fail> {
    let is_right = refuses_a_second(&rt, rt.alloc())?;
    assert!(rt; is_right);
    Ok(())
}

// The peer leaves bytes unread when it goes, and so resets the connection.
fn fails_at_a_reset<R: Net + Sync>(rt: &R, alloc: Global) -> Result<bool, AllocError> {
    let mut acceptor = TcpAcceptor::new(rt, alloc, true);
    let mut is_right = acceptor.listen("127.0.0.1:0", 2);
    let to = address(alloc, &acceptor)?;
    let mut dialer = TcpDialer::new(rt, alloc, false);
    let Some(mut client) = dialled(&mut dialer, to.as_str()) else {
        return Ok(false);
    };
    let Some(mut served) = accepted(&mut acceptor) else {
        return Ok(false);
    };
    let mut buffer = [0u8; 1];
    is_right &= served.poll_write(b"told") == LinkWrite::Put(4);
    is_right &= client_read(&mut client, &mut buffer) == LinkRead::Got(1);
    dialer.retire(client);
    is_right &= served_read(&mut acceptor, &mut served, &mut buffer) == LinkRead::Failed;
    is_right &= served.faults() == 1;
    // The acceptor goes on.
    is_right &= dialled(&mut dialer, to.as_str()).is_some();
    is_right &= accepted(&mut acceptor).is_some();
    Ok(is_right)
}

#[test]
fn a_peer_that_resets_is_a_fault_of_its_link_alone(rt: HostRuntime) -> Result<(), Fail> {
    let is_right = fails_at_a_reset(&rt, rt.alloc())?;
    assert!(rt; is_right);
    Ok(())
}

fn fails_where_nobody_listens<R: Net + Sync>(rt: &R, alloc: Global) -> Result<bool, AllocError> {
    let mut acceptor = TcpAcceptor::new(rt, alloc, false);
    let mut is_right = acceptor.listen("127.0.0.1:0", 1);
    let to = address(alloc, &acceptor)?;
    drop(acceptor);
    let mut dialer = TcpDialer::new(rt, alloc, false);
    is_right &= dialled(&mut dialer, to.as_str()).is_none();
    is_right &= dialled(&mut dialer, "nowhere").is_none();
    is_right &= dialer.faults() == 2;
    Ok(is_right)
}

#[test]
fn a_dial_is_refused_where_nobody_listens(rt: HostRuntime) -> Result<(), Fail> {
    let is_right = fails_where_nobody_listens(&rt, rt.alloc())?;
    assert!(rt; is_right);
    Ok(())
}
