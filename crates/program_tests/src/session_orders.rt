use aft_entries::{Ask, Instances, Reason};
use call_answers::{Setting, operations_in, read_header, read_operation, read_orders};
use schema_numbers::default_numbering;
use std::alloc::Global;
use std::test::Fail;
use table_model::{AckType, Persistence, Redundancy};

/// The default numbering, and the instances of these names.
pub fn setting(alloc: Global, names: &[&str]) -> Result<Setting, Fail> {
    let mut all = Vec::new(alloc);
    for name in names {
        all.push(String::from_str(alloc, name)?)?;
    }
    let instances = Instances::new(all)?;
    let numbering = default_numbering(alloc)?;
    Ok(Setting {
        numbering,
        instances,
    })
}

#[test]
fn requests_are_read(rt: HostRuntime) -> Result<(), Fail> {
    let setting = setting(rt.alloc(), &["DEFAULT"])?;
    let bytes = b"\x12\x04\x08\x01\x10\x01\x1a\x02\x10\x07";
    let orders = read_orders(rt.alloc(), &setting, bytes)?;
    assert_eq!(rt; orders.election, Some(7));
    if let Some(asked) = orders.params {
        assert_eq!(rt; asked.redundancy, Some(Redundancy::SinglePrimary));
        assert_eq!(rt; asked.persistence, Some(Persistence::Preserve));
        assert_eq!(rt; asked.ack, Some(AckType::Rib));
    } else {
        assert!(rt; false);
    }
    assert!(rt; orders.operations.into_vec().is_empty());
    Ok(())
}

// ADD of next hop 0 in DEFAULT.
const ADD: &[u8] = b"\x0a\x11\x08\x01\x12\x07DEFAULT\x18\x01\x42\x02\x12\x00";

#[test]
fn operations_are_checked(rt: HostRuntime) -> Result<(), Fail> {
    let setting = setting(rt.alloc(), &["DEFAULT"])?;
    let operations = read_orders(rt.alloc(), &setting, ADD)?
        .operations
        .into_vec();
    assert_eq!(rt; operations.len(), 1);
    for operation in operations {
        assert!(rt; is_bad_key(&operation.ask));
    }
    Ok(())
}

fn is_bad_key(ask: &Ask) -> bool {
    match ask {
        Ask::Bad(reason) => *reason == Reason::BadKey,
        _ => false,
    }
}

#[test]
fn operations_are_read_one_by_one(rt: HostRuntime) -> Result<(), Fail> {
    let setting = setting(rt.alloc(), &["DEFAULT"])?;
    let (params, election) = read_header(rt.alloc(), &setting, ADD)?;
    assert!(rt; params.is_none() && election.is_none());
    let mut pieces = operations_in(&setting, ADD);
    if let Some(piece) = pieces.next() {
        let operation = read_operation(rt.alloc(), &setting, piece)?;
        assert!(rt; is_bad_key(&operation.ask));
    } else {
        assert!(rt; false);
    }
    assert!(rt; pieces.next().is_none());
    Ok(())
}
