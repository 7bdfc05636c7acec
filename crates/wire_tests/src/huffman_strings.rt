use hpack_huffman::{HuffFault, huff_decode, huff_encode};
use std::alloc::{AllocError, Global};
use std::test::Fail;

// Strings of RFC 7541, appendix C.
const STRINGS: &[(&[u8], &[u8])] = &[
    (
        b"www.example.com",
        b"\xf1\xe3\xc2\xe5\xf2\x3a\x6b\xa0\xab\x90\xf4\xff",
    ),
    (b"custom-value", b"\x25\xa8\x49\xe9\x5b\xb8\xe8\xb4\xbf"),
    (b"307", b"\x64\x0e\xff"),
    (b"private", b"\xae\xc3\x77\x1a\x4b"),
    (
        b"https://www.example.com",
        b"\x9d\x29\xad\x17\x18\x63\xc7\x8f\x0b\x97\xc8\xe9\xae\x82\xae\x43\xd3",
    ),
    (b"", b""),
];

// Eight ones, zeros for padding, and thirty ones, also behind a symbol.
const FAULTS: &[(&[u8], HuffFault)] = &[
    (b"\xff", HuffFault::BadPadding),
    (b"\x18", HuffFault::BadPadding),
    (b"\xff\xff\xff", HuffFault::BadPadding),
    (b"\xff\xff\xff\xfc", HuffFault::EosInside),
    (b"\x1f\xff\xff\xff\xff\x00", HuffFault::EosInside),
];

// Adds a text where there is room for it.
fn decode(code: &[u8], text: &mut Vec<u8>) -> Option<HuffFault> {
    if code.len() > 40 || text.len() > 8 || text.capacity() < 80 {
        return None;
    }
    huff_decode(code, text).err()
}

fn is_string(alloc: Global, text: &[u8], code: &[u8]) -> Result<bool, AllocError> {
    let mut encoded = Vec::new(alloc);
    huff_encode(text, &mut encoded)?;
    let mut decoded = Vec::with_capacity(alloc, 80)?;
    let fault = decode(code, &mut decoded);
    Ok(fault.is_none() && encoded.as_slice() == code && decoded.as_slice() == text)
}

fn are_strings(alloc: Global) -> Result<bool, AllocError> {
    let mut is_right = true;
    for (text, code) in STRINGS {
        is_right &= is_string(alloc, text, code)?;
    }
    Ok(is_right)
}

#[test]
fn worked_strings(rt: HostRuntime) -> Result<(), Fail> {
    assert!(rt; are_strings(rt.alloc())?);
    Ok(())
}

// Whether the faults are found, and what stands before the text is kept.
fn are_refused(alloc: Global) -> Result<bool, AllocError> {
    let mut text = Vec::with_capacity(alloc, 80)?;
    text.push(7)?;
    let mut is_right = true;
    for (code, fault) in FAULTS {
        is_right &= decode(code, &mut text) == Some(*fault);
    }
    Ok(is_right && text.as_slice() == b"\x07".as_slice())
}

#[test]
fn refused_strings(rt: HostRuntime) -> Result<(), Fail> {
    assert!(rt; are_refused(rt.alloc())?);
    Ok(())
}
