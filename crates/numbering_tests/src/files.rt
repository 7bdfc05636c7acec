use numbering_file::{NumberingFault, read_numbering};
use schema_numbers::{FieldName, ValueName};
use std::alloc::{AllocError, Global};
use std::test::Fail;

fn fault_of(alloc: Global, text: &[u8]) -> Option<NumberingFault> {
    read_numbering(alloc, text).err()
}

// The text of a file, and its fault, or none.
const FILES: &[(&[u8], Option<NumberingFault>)] = &[
    (b"{}", None),
    (br#"{"fields":{},"values":{"op":{}}}"#, None),
    (b"", Some(NumberingFault::NotJson)),
    (b"{", Some(NumberingFault::NotJson)),
    (b"\xff", Some(NumberingFault::NotJson)),
    (b"[]", Some(NumberingFault::BadShape)),
    (br#"{"fields":[]}"#, Some(NumberingFault::BadShape)),
    (br#"{"numbers":{}}"#, Some(NumberingFault::UnknownName)),
    (
        br#"{"values":{"op":{"ADD":"1"}}}"#,
        Some(NumberingFault::BadShape),
    ),
    (
        br#"{"values":{"op":{"ADD":-0}}}"#,
        Some(NumberingFault::BadShape),
    ),
    (
        br#"{"values":{"op":{"ADD":7.0}}}"#,
        Some(NumberingFault::BadShape),
    ),
    (
        br#"{"values":{"op":{"ADD":18446744073709551616}}}"#,
        Some(NumberingFault::BadShape),
    ),
    (
        br#"{"values":{"op":{"APPEND":4}}}"#,
        Some(NumberingFault::UnknownName),
    ),
    (
        br#"{"fields":{"RouteLeaves":3}}"#,
        Some(NumberingFault::UnknownName),
    ),
    (
        br#"{"fields":{"StringValue":{}}}"#,
        Some(NumberingFault::UnknownName),
    ),
    // the first fault in the order of the keys, each key before its value
    (
        br#"{"values":{"op":3},"fields":{"X":1}}"#,
        Some(NumberingFault::UnknownName),
    ),
    (
        br#"{"fields":{"ModifyRequest":{"z":1,"operation":[]}}}"#,
        Some(NumberingFault::BadShape),
    ),
    // of equal keys the last counts
    (br#"{"values":{"op":{"ADD":"x","ADD":7}}}"#, None),
    // the rules of a numbering come last
    (
        br#"{"fields":{"ModifyRequest":{"operation":2}},"values":{"op":{"X":1}}}"#,
        Some(NumberingFault::UnknownName),
    ),
    (
        br#"{"fields":{"ModifyRequest":{"operation":2}}}"#,
        Some(NumberingFault::Invalid),
    ),
    (
        br#"{"fields":{"GetResponse":{"entry":0}}}"#,
        Some(NumberingFault::Invalid),
    ),
    (br#"{"fields":{"GetResponse":{"entry":18999}}}"#, None),
    (
        br#"{"fields":{"GetResponse":{"entry":19000}}}"#,
        Some(NumberingFault::Invalid),
    ),
    (
        br#"{"fields":{"GetResponse":{"entry":19999}}}"#,
        Some(NumberingFault::Invalid),
    ),
    (br#"{"fields":{"GetResponse":{"entry":536870911}}}"#, None),
    (
        br#"{"fields":{"GetResponse":{"entry":4294967297}}}"#,
        Some(NumberingFault::Invalid),
    ),
    (br#"{"values":{"op":{"ADD":2147483647}}}"#, None),
    (
        br#"{"values":{"op":{"ADD":2147483648}}}"#,
        Some(NumberingFault::Invalid),
    ),
    (
        br#"{"values":{"persistence":{"DELETE":2}}}"#,
        Some(NumberingFault::Invalid),
    ),
];

#[test]
fn files_and_their_faults(rt: HostRuntime) -> Result<(), Fail> {
    for (text, fault) in FILES {
        assert!(rt; fault_of(rt.alloc(), text) == *fault);
    }
    Ok(())
}

fn has_given_numbers(alloc: Global) -> bool {
    let text = br#"{"fields":{"ModifyRequest":{"election_id":9}},"values":{"aft":{"NEXTHOP":12}}}"#;
    match read_numbering(alloc, text) {
        Err(_) => false,
        Ok(n) => {
            n.field(FieldName::ModifyRequestElectionId) == 9
                && n.field(FieldName::ModifyRequestParams) == 2
                && n.value(ValueName::AftNextHop) == 12
                && n.value(ValueName::AftNextHopGroup) == 6
        }
    }
}

#[test]
fn names_that_are_not_given_keep_their_numbers(rt: HostRuntime) -> Result<(), Fail> {
    assert!(rt; has_given_numbers(rt.alloc()));
    Ok(())
}

// A text with so many times a byte behind it.
fn followed(alloc: Global, text: &[u8], byte: u8, count: usize) -> Result<Vec<u8>, AllocError> {
    let mut all = Vec::from_slice(alloc, text)?;
    for _ in 0..count {
        all.push(byte)?;
    }
    Ok(all)
}

fn nested(alloc: Global, depth: usize) -> Result<Vec<u8>, AllocError> {
    let open = followed(alloc, b"", b'[', depth)?;
    followed(alloc, open.as_slice(), b']', depth)
}

#[test]
fn limits_of_a_file(rt: HostRuntime) -> Result<(), Fail> {
    let longest = followed(rt.alloc(), b"{}", b' ', 1_048_574)?;
    let longer = followed(rt.alloc(), b"{}", b' ', 1_048_575)?;
    let deepest = nested(rt.alloc(), 127)?;
    let deeper = nested(rt.alloc(), 128)?;
    let is_right = fault_of(rt.alloc(), longest.as_slice()).is_none()
        && fault_of(rt.alloc(), longer.as_slice()) == Some(NumberingFault::TooLong)
        && fault_of(rt.alloc(), deepest.as_slice()) == Some(NumberingFault::BadShape)
        && fault_of(rt.alloc(), deeper.as_slice()) == Some(NumberingFault::NotJson);
    assert!(rt; is_right);
    Ok(())
}
