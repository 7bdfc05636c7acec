ghost use Rattle.std.specs.Prelude.{◌≡◌, All, IfOk, length};
ghost use Rattle.gribi_messages.specs.Rows.{RowHasKnownInstances};

use aft_entries::{Entry, HopPayload, Instances, Key, KeyName, Labels, Payload, Row, Rows};
use call_answers::{Reply, end_of};
use call_requests::{Selection, Setting, flush_response};
use gribi_messages::decode_get_response;
use schema_numbers::{Numbering, default_numbering};
use std::alloc::{AllocError, Global};
use std::test::Fail;

fn setting(alloc: Global) -> Result<Setting, Fail>
    ensures { IfOk result (λ s. length s.instances ≡ 1) }
{
    let mut names = Vec::new(alloc);
    names.push(String::from_str(alloc, "DEFAULT")?)?;
    let instances = Instances::new(names)?;
    let numbering = default_numbering(alloc)?;
    Ok(Setting {
        numbering,
        instances,
    })
}

fn hop(alloc: Global, index: u64) -> Row
    ensures { RowHasKnownInstances 1 result }
{
    let key = Key {
        instance: 0,
        name: KeyName::Hop(index),
    };
    let payload = Payload::Hop(HopPayload {
        ip: None,
        mac: None,
        interface: None,
        subinterface: None,
        source: None,
        target: None,
        push: Labels::new(alloc),
    });
    Row {
        entry: Entry { key, payload },
        installed: true,
    }
}

fn hops(alloc: Global, count: u64) -> Result<Rows, AllocError>
    ensures { IfOk result (λ rows. All (RowHasKnownInstances 1) rows) }
{
    let mut rows = Rows::new(alloc);
    for index in 0..count {
        rows.push(hop(alloc, index))?;
    }
    Ok(rows)
}

fn has_rows(alloc: Global, n: &Numbering, bytes: &[u8], count: usize) -> bool {
    match decode_get_response(alloc, n, bytes) {
        Err(_) => false,
        Ok(response) => response.rows.as_slice().len() == count,
    }
}

// Whether the rows are answered in two messages, of 64 rows and of this many.
fn is_answered_in_two(alloc: Global, setting: &Setting, rows: Rows, last: usize) -> bool
    requires instances { length setting.now.instances ≡ 1 }
    requires known { All (RowHasKnownInstances 1) rows }
{
    let mut selection = Selection::new(rows);
    if selection.is_over() {
        return false;
    }
    let Ok(first) = selection.next_response(alloc, setting) else {
        return false;
    };
    if selection.is_over() {
        return false;
    }
    let Ok(second) = selection.next_response(alloc, setting) else {
        return false;
    };
    selection.is_over()
        && has_rows(alloc, &setting.numbering, first.as_slice(), 64)
        && has_rows(alloc, &setting.numbering, second.as_slice(), last)
}

#[test]
fn rows_are_answered_by_sixty_four(rt: HostRuntime) -> Result<(), Fail> {
    let setting = setting(rt.alloc())?;
    let is_right = is_answered_in_two(rt.alloc(), &setting, hops(rt.alloc(), 65)?, 1)
        && is_answered_in_two(rt.alloc(), &setting, hops(rt.alloc(), 128)?, 64);
    assert!(rt; is_right);
    Ok(())
}

// Whether the reply to a Flush ends its call so, without a reason.
fn ends(reply: &Reply, code: u8, text: &[u8]) -> bool {
    match end_of(false, reply) {
        Ok(Some(status)) => {
            status.code == code && status.message.as_slice() == text && status.reason.is_none()
        }
        _ => false,
    }
}

#[test]
fn a_flush_is_answered(rt: HostRuntime) -> Result<(), Fail> {
    let n = default_numbering(rt.alloc())?;
    let remains = flush_response(rt.alloc(), &n, 7, true)?;
    let is_gone = flush_response(rt.alloc(), &n, 0, false)?;
    let is_right = remains.as_slice() == b"\x08\x07\x10\x02".as_slice()
        && is_gone.as_slice() == b"\x10\x01".as_slice()
        && ends(&Reply::FlushRefused(5), 9, b"not primary");
    assert!(rt; is_right);
    Ok(())
}
