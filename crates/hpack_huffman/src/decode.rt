ghost use Rattle.std.specs.Prelude.{◌≡◌, ◌+◌, ◌-◌, ◌*◌, ◌≤◌, ◌++◌, List, ℕ, length, vec_len, OnOk, OnErr, IfErr, MatchResult};
ghost use Rattle.std.specs.Vec.{vec_capacity};
ghost use Rattle.hpack_huffman.specs.Code.{IsHuffman};
ghost use Rattle.hpack_huffman.specs.Faults.{IsText, Ends, Decodes, ReadsAll};

use crate::bits::Bits;

/// What is wrong behind the last whole code of a string.
#[derive(Clone, Copy, Debug, PartialEq, Eq)]
pub enum HuffFault {
    /// The bits that are left are no first part of eight one bits.
    BadPadding,
    /// The code that ends a string stands there.
    EosInside,
}

/// Adds the text of a Huffman string, into room that was reserved: eight bytes for each five of the
/// string (RFC 7541, section 5.2). A refusal leaves the bytes as they were.
pub fn huff_decode(code: &[u8], out: &mut Vec<u8>) -> Result<(), HuffFault>
    requires room { 8 * length code.now ≤ 5 * (vec_capacity out.old - vec_len out.old) }
    ensures text { OnOk result ((text : List ℕ) × IsText text × (out.new.items ≡ out.old.items ++ text)
        × IsHuffman code.now text) }
    ensures only { ReadsAll code.now out.old.items out.new.items result }
    ensures err { OnErr result (out.new.items ≡ out.old.items) }
    ensures fault { IfErr result (λ fault. Ends code.now fault) }
    ensures capacity { vec_capacity out.new ≡ vec_capacity out.old }
{
    let start = out.len();
    match decode_all(code, out) {
        Ok(()) => Ok(()),
        Err(fault) => {
            out.truncate(start);
            Err(fault)
        }
    }
}

/// Adds the symbols up to the last whole code, also where the rest is at fault.
fn decode_all(code: &[u8], out: &mut Vec<u8>) -> Result<(), HuffFault>
    requires room { 8 * length code.now ≤ 5 * (vec_capacity out.old - vec_len out.old) }
    ensures decodes { Decodes code.now out.old.items out.new.items result }
    ensures capacity { vec_capacity out.new ≡ vec_capacity out.old }
{
    let mut bits = Bits::new(code);
    bits.fill();
    while let Some(symbol) = bits.symbol() {
        out.push_reserved(symbol);
        bits.fill();
    }
    bits.verdict()
}
