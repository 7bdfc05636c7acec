ghost use Rattle.std.specs.Prelude.{◌≤◌, sum_by, IfOk};
ghost use Rattle.hpack_tables.specs.EntrySizes.{size_of};

use crate::fields::shown;
use hpack_tables::{Field, Fields, HeaderDecoder, HeaderEncoder, HpackFault, Style};
use std::alloc::{AllocError, Global};
use std::test::Fail;

// Header blocks, each with its fields or its fault.
type Blocks = &'static [(&'static [u8], &'static [u8])];

const REQUEST: &[u8] =
    b"\x20\x3f\xe1\x1f\x83\x86\x44\x13\x2f\x67\x72\x69\x62\x69\x2e\x67\x52\x49\x42\x49\x2f\x4d\x6f\x64\x69\x66\x79\x41\x8c\
    \xf1\xe3\xc2\xe5\xf2\x3a\x6b\xa0\xab\x90\xf4\xff\x5f\x10\x61\x70\x70\x6c\x69\x63\x61\x74\x69\x6f\x6e\x2f\x67\x72\x70\x63\x40\x02\x74\x65\x08\x74\x72\x61\x69\x6c\x65\x72\x73";

const REQUEST_FIELDS: &[u8] =
    b":method=POST;:scheme=http;:path=/gribi.gRIBI/Modify;:authority=www.example.com;content-type=application/grpc;te=trailers;";

// A request leaves four entries of 215 bytes in all, the newest first.
const ENTRIES: Blocks = &[
    (REQUEST, REQUEST_FIELDS),
    (
        b"\xbe\xbf\xc0\xc1",
        b"te=trailers;content-type=application/grpc;:authority=www.example.com;:path=/gribi.gRIBI/Modify;",
    ),
    (b"\x3f\xb8\x01\xc1", b":path=/gribi.gRIBI/Modify;"),
    (b"\x3f\xb7\x01\xc0", b":authority=www.example.com;"),
    (b"\xc1", b"BadIndex"),
    (REQUEST, b"BadIndex"),
];

// Section C.4 of RFC 7541, and its example of an integer as the size of the table.
const WITH_HUFFMAN: Blocks = &[
    (
        b"\x82\x86\x84\x41\x8c\xf1\xe3\xc2\xe5\xf2\x3a\x6b\xa0\xab\x90\xf4\xff",
        b":method=GET;:scheme=http;:path=/;:authority=www.example.com;",
    ),
    (
        b"\x82\x86\x84\xbe\x58\x86\xa8\xeb\x10\x64\x9c\xbf",
        b":method=GET;:scheme=http;:path=/;:authority=www.example.com;cache-control=no-cache;",
    ),
    (
        b"\x82\x87\x85\xbf\x40\x88\x25\xa8\x49\xe9\x5b\xa9\x7d\x7f\x89\x25\xa8\x49\xe9\x5b\xb8\xe8\xb4\xbf",
        b":method=GET;:scheme=https;:path=/index.html;:authority=www.example.com;custom-key=custom-value;",
    ),
    (b"\x3f\x9a\x0a\xbe", b"custom-key=custom-value;"),
];

// The fields, or the name of the fault.
fn told(alloc: Global, read: &Result<Fields, HpackFault>) -> Result<Vec<u8>, AllocError> {
    match read {
        Ok(fields) => shown(alloc, fields),
        Err(HpackFault::BadIndex) => Vec::from_slice(alloc, b"BadIndex"),
        Err(_) => Ok(Vec::new(alloc)),
    }
}

// Whether one decoder reads the blocks so, in turn.
fn reads(alloc: Global, blocks: Blocks) -> Result<bool, AllocError> {
    let mut decoder = HeaderDecoder::new(alloc, 4096)?;
    let mut is_right = true;
    for (block, text) in blocks {
        let told = told(alloc, &decoder.block(block))?;
        is_right &= told.as_slice() == *text;
    }
    Ok(is_right)
}

#[test]
fn blocks_are_read(rt: HostRuntime) -> Result<(), Fail> {
    assert!(rt; reads(rt.alloc(), ENTRIES)?);
    assert!(rt; reads(rt.alloc(), WITH_HUFFMAN)?);
    Ok(())
}

const FAULTS: &[(&[u8], Option<HpackFault>)] = &[
    (b"\x80", Some(HpackFault::BadIndex)),
    (b"\x83\x20", Some(HpackFault::LateSizeUpdate)),
    (b"\x3f\xe2\x1f", Some(HpackFault::SizeTooLarge)),
    (b"\xff", Some(HpackFault::BadInteger)),
    (b"\x41", Some(HpackFault::BadString)),
    (b"\x00\x84\xff\xff\xff\xff\x00", Some(HpackFault::BadString)),
    (b"", None),
    (&[0x83; 1524], None),
    (&[0x83; 1525], Some(HpackFault::ListTooLong)),
];

fn is_fault(alloc: Global, block: &[u8], fault: Option<HpackFault>) -> Result<bool, AllocError> {
    let mut decoder = HeaderDecoder::new(alloc, 4096)?;
    Ok(decoder.block(block).err() == fault)
}

fn are_faults(alloc: Global) -> Result<bool, AllocError> {
    let mut is_right = true;
    for (block, fault) in FAULTS {
        is_right &= is_fault(alloc, block, *fault)?;
    }
    Ok(is_right)
}

#[test]
fn faults_of_blocks(rt: HostRuntime) -> Result<(), Fail> {
    assert!(rt; are_faults(rt.alloc())?);
    Ok(())
}

// Names and values, and whether they are those of header fields.
const MARKS: &[(&[u8], &[u8], bool, bool)] = &[
    (b"te", b"trailers", true, true),
    (b":path", b"", false, true),
    (b"Te", b"a\tb\xff", false, true),
    (b"", b"a\nb", false, false),
    (b"x-1!", b"\x7f", true, false),
];

fn marks(name: &'static [u8], value: &'static [u8]) -> (bool, bool) {
    let field = Field::from_static(name, value);
    (field.has_header_name(), field.has_header_value())
}

fn are_marked() -> bool {
    let mut is_right = true;
    for (name, value, is_name, is_value) in MARKS {
        is_right &= marks(name, value) == (*is_name, *is_value);
    }
    is_right
}

#[test]
fn names_and_values(rt: HostRuntime) {
    assert!(rt; are_marked());
}

// A request's head, and an answer's head and trailers.
const PLAIN: Blocks = &[
    (
        REQUEST,
        b"\x83\x86\x04\x13/gribi.gRIBI/Modify\x01\x0fwww.example.com\x0f\x10\x10application/grpc\x00\x02te\x08trailers",
    ),
    (
        b"\x88\x5f\x10application/grpc",
        b"\x88\x0f\x10\x10application/grpc",
    ),
    (b"\x40\x0bgrpc-status\x010", b"\x00\x0bgrpc-status\x010"),
];

const LOWERED: Blocks = &[(b"\x88", b"\x20\x88"), (b"\x88", b"\x88")];

// Section C.4 of RFC 7541.
const INDEXED: Blocks = &[
    (
        b"\x82\x86\x84\x41\x0fwww.example.com",
        b"\x82\x86\x84\x41\x8c\xf1\xe3\xc2\xe5\xf2\x3a\x6b\xa0\xab\x90\xf4\xff",
    ),
    (
        b"\x82\x86\x84\xbe\x58\x08no-cache",
        b"\x82\x86\x84\xbe\x58\x86\xa8\xeb\x10\x64\x9c\xbf",
    ),
    (
        b"\x82\x87\x85\xbf\x40\x0acustom-key\x0ccustom-value",
        b"\x82\x87\x85\xbf\x40\x88\x25\xa8\x49\xe9\x5b\xa9\x7d\x7f\x89\x25\xa8\x49\xe9\x5b\xb8\xe8\xb4\xbf",
    ),
];

// An entry that is larger than the table is not kept.
const LARGER: Blocks = &[
    (
        b"\x40\x05abcde\x05~~~~~",
        b"\x3f\x09\x40\x84\x1c\x64\x90\xbf\x05~~~~~",
    ),
    (b"\xbe", b"\x40\x84\x1c\x64\x90\xbf\x05~~~~~"),
];

// What an encoder writes for the fields of a block, behind what stood there before.
fn written(
    alloc: Global,
    encoder: &mut HeaderEncoder,
    fields: &Fields,
) -> Result<Vec<u8>, AllocError>
    requires { sum_by size_of fields.now ≤ 65536 }
{
    let mut out = Vec::from_slice(alloc, b"\x01")?;
    encoder.block(fields, &mut out)?;
    Ok(out)
}

// Whether a draft has this text; it is kept.
fn is_drafted(encoder: &mut HeaderEncoder, fields: &Fields, text: &[u8]) -> Result<bool, AllocError>
    requires { sum_by size_of fields.now ≤ 65536 }
{
    let draft = encoder.draft(fields)?;
    let is_right = draft.text() == text;
    encoder.keep(draft);
    Ok(is_right)
}

fn is_written(
    alloc: Global,
    encoder: &mut HeaderEncoder,
    by_draft: bool,
    read: &Result<Fields, HpackFault>,
    text: &[u8],
) -> Result<bool, AllocError>
    requires { IfOk read.now (λ fields. sum_by size_of fields ≤ 65536) }
{
    match read {
        Ok(fields) if by_draft => is_drafted(encoder, fields, text),
        Ok(fields) => Ok(written(alloc, encoder, fields)?.get(1..) == Some(text)),
        Err(_) => Ok(false),
    }
}

// Whether one encoder, which is told a size first, writes the fields of the blocks so.
fn rewrites(
    alloc: Global,
    style: Style,
    size: u32,
    by_draft: bool,
    blocks: Blocks,
) -> Result<bool, AllocError> {
    let mut decoder = HeaderDecoder::new(alloc, 4096)?;
    let mut encoder = HeaderEncoder::new(alloc, style)?;
    encoder.limit(size);
    let mut is_right = true;
    for (block, text) in blocks {
        let read = decoder.block(block);
        is_right &= is_written(alloc, &mut encoder, by_draft, &read, text)?;
    }
    Ok(is_right)
}

#[test]
fn blocks_are_written(rt: HostRuntime) -> Result<(), Fail> {
    assert!(rt; rewrites(rt.alloc(), Style::Plain, 4096, false, PLAIN)?);
    assert!(rt; rewrites(rt.alloc(), Style::Plain, 0, false, LOWERED)?);
    assert!(rt; rewrites(rt.alloc(), Style::Indexed, 5000, false, INDEXED)?);
    assert!(rt; rewrites(rt.alloc(), Style::Indexed, 5000, true, INDEXED)?);
    assert!(rt; rewrites(rt.alloc(), Style::Indexed, 40, false, LARGER)?);
    Ok(())
}
