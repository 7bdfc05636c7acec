//! Strings, written where there is room for them.
ghost use Rattle.std.specs.Prelude.{◌≡◌, ◌+◌, ◌<◌, ◌≤◌, ◌^◌, ◌++◌, List, ℕ, length, OnOk, IsOk};
ghost use Rattle.std.specs.Vec.{vec_capacity, vec_len};
ghost use Rattle.hpack_tables.specs.Writing.{plain_string, IsString};
ghost use Rattle.hpack_tables.specs.declared.encoder.Style.TheVariants.{Plain, Indexed};

use crate::encoder::Style;
use crate::encoder::integers::put_integer;
use hpack_huffman::huff_encode;
use std::alloc::{AllocError, Global};

/// Adds bytes.
fn put(bytes: &[u8], out: &mut Vec<u8>)
    requires { vec_len out.old + length bytes.now ≤ vec_capacity out.old }
    ensures items { out.new.items ≡ out.old.items ++ bytes.now }
    ensures len { vec_len out.new ≡ vec_len out.old + length bytes.now }
    ensures capacity { vec_capacity out.old ≤ vec_capacity out.new }
{
    match out.extend_from_slice(bytes) {
        Ok(()) => {}
        Err(_) => {}
    }
}

/// Adds a string of the bytes as they are.
fn put_plain(text: &[u8], out: &mut Vec<u8>)
    requires small { length text.now < 2 ^ 32 }
    requires room { vec_len out.old + 6 + length text.now ≤ vec_capacity out.old }
    ensures items { out.new.items ≡ out.old.items ++ plain_string text.now }
    ensures len { vec_len out.new ≤ vec_len out.old + 6 + length text.now }
    ensures capacity { vec_capacity out.old ≤ vec_capacity out.new }
{
    put_integer(0, 7, text.len() as u32, out);
    put(text, out);
}

/// Adds a string of the bytes' code, or of the bytes where the code is not shorter.
fn put_shorter(alloc: Global, text: &[u8], out: &mut Vec<u8>) -> Result<(), AllocError>
    requires small { length text.now < 2 ^ 32 }
    requires room { vec_len out.old + 6 + length text.now ≤ vec_capacity out.old }
    ensures items { OnOk result ((string : List ℕ) × IsString Indexed text.now string
        × (out.new.items ≡ out.old.items ++ string)) }
    ensures len { vec_len out.new ≤ vec_len out.old + 6 + length text.now }
    ensures capacity { vec_capacity out.old ≤ vec_capacity out.new }
{
    let mut code = Vec::new(alloc);
    huff_encode(text, &mut code)?;
    if code.len() >= text.len() {
        put_plain(text, out);
        return Ok(());
    }
    put_integer(128, 7, code.len() as u32, out);
    put(code.as_slice(), out);
    Ok(())
}

/// Adds a string as the style has it. A plain one takes no memory.
pub fn put_string(
    alloc: Global,
    style: Style,
    text: &[u8],
    out: &mut Vec<u8>,
) -> Result<(), AllocError>
    requires small { length text.now < 2 ^ 32 }
    requires room { vec_len out.old + 6 + length text.now ≤ vec_capacity out.old }
    ensures items { OnOk result ((string : List ℕ) × IsString style text.now string
        × (out.new.items ≡ out.old.items ++ string)) }
    ensures plain { style ≡ Plain → IsOk result }
    ensures len { vec_len out.new ≤ vec_len out.old + 6 + length text.now }
    ensures capacity { vec_capacity out.old ≤ vec_capacity out.new }
{
    match style {
        Style::Plain => {
            put_plain(text, out);
            Ok(())
        }
        Style::Indexed => put_shorter(alloc, text, out),
    }
}
