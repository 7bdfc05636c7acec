use addr_text::Prefix6;
use aft_entries::{
    Ask, Entry, Instances, InstancesFault, Key, KeyName, Member, Payload, Reason, check_entry,
    refers, refs, shard,
};
use gribi_messages::operation_of;
use schema_numbers::default_numbering;
use std::alloc::{AllocError, Global};
use std::cmp::Ordering;
use std::test::Fail;

fn names(alloc: Global, texts: &[&str]) -> Result<Vec<String>, AllocError> {
    let mut all = Vec::new(alloc);
    for text in texts {
        all.push(String::from_str(alloc, text)?)?;
    }
    Ok(all)
}

#[test]
fn bad_names_of_instances_are_refused(rt: HostRuntime) -> Result<(), Fail> {
    let alloc = rt.alloc();
    let cases: [(&[&str], Option<InstancesFault>); 4] = [
        (&[], Some(InstancesFault::Empty)),
        (&["A", "A"], Some(InstancesFault::Twice)),
        (&["A", ""], Some(InstancesFault::BadName)),
        (&["DEFAULT", "RED"], None),
    ];
    for (texts, fault) in cases {
        assert!(rt; Instances::new(names(alloc, texts)?).err() == fault);
    }
    let mut many = Vec::new(alloc);
    for n in 0..257 {
        many.push(format!(in alloc; "{n}")?)?;
    }
    assert!(rt; Instances::new(many).err() == Some(InstancesFault::TooMany));
    Ok(())
}

// The instances DEFAULT and RED.
fn two(alloc: Global) -> Result<Instances, Fail> {
    Ok(Instances::new(names(alloc, &["DEFAULT", "RED"])?)?)
}

#[test]
fn instances_are_found(rt: HostRuntime) -> Result<(), Fail> {
    let instances = two(rt.alloc())?;
    assert!(rt; instances.find("RED") == Some(1));
    assert!(rt; instances.find("BLUE") == None);
    assert!(rt; instances.count() == 2);
    if 1 < instances.count() {
        assert!(rt; instances.name(1) == "RED");
    }
    Ok(())
}

// What an operation of these bytes asks.
fn asked(alloc: Global, bytes: &[u8]) -> Result<Ask, Fail> {
    let n = default_numbering(alloc)?;
    let instances = two(alloc)?;
    let raw = operation_of(alloc, &n, bytes)?;
    Ok(check_entry(alloc, &instances, raw)?)
}

// The cause of a bad operation, 0 for a put and 100 for a removal.
fn outcome(ask: &Ask) -> u8 {
    match ask {
        Ask::Bad(reason) => reason.number(),
        Ask::Put(_, _) => 0,
        Ask::Remove(_) => 100,
    }
}

#[test]
fn operations_are_checked(rt: HostRuntime) -> Result<(), Fail> {
    let cases: [(&[u8], u8); 11] = [
        // next hops 0 and 1
        (b"\x12\x07DEFAULT\x18\x01\x42\x02\x12\x00", 6),
        (b"\x12\x07DEFAULT\x18\x01\x42\x02\x08\x01", 0),
        // a member whose weight is 0, put and removed
        (
            b"\x12\x07DEFAULT\x18\x01\x3a\x0c\x08\x01\x12\x08\x0a\x06\x08\x01\x12\x02\x0a\x00",
            7,
        ),
        (
            b"\x12\x07DEFAULT\x18\x03\x3a\x0c\x08\x01\x12\x08\x0a\x06\x08\x01\x12\x02\x0a\x00",
            100,
        ),
        // one member twice
        (
            b"\x12\x07DEFAULT\x18\x01\x3a\x10\x08\x01\x12\x0c\x0a\x02\x08\x02\x0a\x02\x08\x01\x0a\x02\x08\x02",
            7,
        ),
        // an instance that isn't there, behind each cause that is tested before it
        (b"\x12\x04BLUE", 3),
        (b"\x12\x04BLUE\x18\x01\x4a\x00", 4),
        (b"\x12\x04BLUE\x18\x01\x42\x00", 5),
        // a prefix with a bit past its length, and routes without and with a group
        (
            b"\x12\x07DEFAULT\x18\x01\x22\x17\x0a\x0f198.51.100.1/24\x12\x04\x0a\x02\x08\x01",
            6,
        ),
        (b"\x12\x07DEFAULT\x18\x01\x22\x11\x0a\x0f198.51.100.0/24", 7),
        (
            b"\x12\x07DEFAULT\x18\x01\x22\x17\x0a\x0f198.51.100.0/24\x12\x04\x0a\x02\x08\x01",
            0,
        ),
    ];
    for (bytes, wanted) in cases {
        let ask = asked(rt.alloc(), bytes)?;
        assert!(rt; outcome(&ask) == wanted, "{bytes:?}");
    }
    Ok(())
}

// What a replacement of these bytes puts.
fn put(alloc: Global, bytes: &[u8]) -> Result<Option<Entry>, Fail> {
    match asked(alloc, bytes)? {
        Ask::Put(entry, true) => Ok(Some(entry)),
        Ask::Put(_, false) => Ok(None),
        Ask::Remove(_) => Ok(None),
        Ask::Bad(_) => Ok(None),
    }
}

// Whether the entry is group 1 of RED with the members in order, and refers to them alone.
fn has_members(alloc: Global, entry: &Entry) -> Result<bool, Fail> {
    let Payload::Group(group) = &entry.payload else {
        return Ok(false);
    };
    let wanted = [
        Member { hop: 2, weight: 1 },
        Member {
            hop: 5,
            weight: 65535,
        },
        Member { hop: 9, weight: 4 },
    ];
    let keys = refs(alloc, entry)?;
    Ok(
        entry.key == key(1, KeyName::Group(1))
            && group.members.as_slice() == wanted.as_slice()
            && keys.as_slice().len() == 3
            && refers(entry, &key(1, KeyName::Hop(2)))
            && !refers(entry, &key(0, KeyName::Hop(2))),
    )
}

fn key(instance: u16, name: KeyName) -> Key {
    Key { instance, name }
}

#[test]
fn members_are_put_in_order(rt: HostRuntime) -> Result<(), Fail> {
    // group 1 of RED with the members 9, 2 and 5
    let bytes =
        b"\x12\x03RED\x18\x02\x3a\x1e\x08\x01\x12\x1a\x0a\x08\x08\x09\x12\x04\x0a\x02\x08\x04\x0a\x02\x08\x02\x0a\x0a\x08\x05\x12\x06\x0a\x04\x08\xff\xff\x03";
    match put(rt.alloc(), bytes)? {
        None => assert!(rt; false),
        Some(entry) => assert!(rt; has_members(rt.alloc(), &entry)?),
    }
    Ok(())
}

#[test]
fn a_route_refers_to_the_instance_that_it_names(rt: HostRuntime) -> Result<(), Fail> {
    // 2001:db8::/32 in RED, to group 7 of DEFAULT
    let bytes =
        b"\x12\x03RED\x18\x02\x2a\x20\x0a\x0d2001:db8::/32\x12\x0f\x0a\x02\x08\x07\x12\x09\x0a\x07DEFAULT";
    match put(rt.alloc(), bytes)? {
        None => assert!(rt; false),
        Some(entry) => {
            assert!(rt; entry.key.instance == 1);
            assert!(rt; refers(&entry, &key(0, KeyName::Group(7))));
            assert!(rt; !refers(&entry, &key(1, KeyName::Group(7))));
        }
    }
    Ok(())
}

#[test]
fn keys_are_ordered_and_shared_out(rt: HostRuntime) {
    let last = KeyName::V6(Prefix6 {
        bits: 340282366920938463463374607431768211455,
        len: 128,
    });
    // 2^128 + 127 leaves 2 by 3, and the instance and the kind add 5
    assert!(rt; shard(&key(2, last), 3) == 1);
    assert!(rt; shard(&key(2, last), 1) == 0);
    assert!(rt; shard(&key(1, KeyName::Label(1048575)), 16) == 4);
    assert!(rt; last.place() == 3);
    assert!(rt; key(0, last).order(&key(1, KeyName::Hop(1))) == Ordering::Less);
    assert!(rt; key(1, last).is(&key(1, last)));
    assert!(rt; Reason::TableFull.number() == 12);
}
