ghost use Rattle.std.specs.Prelude.{◌≡◌, [], ◌∷◌};
ghost use Rattle.addr_text.specs.AddressGrammar as spec;

use crate::number::octet;
use crate::scan::split_once;

/// Reads a MAC text: six groups of two hexadecimal digits, joined by colons.
pub fn read_mac(text: &str) -> Option<[u8; 6]>
    ensures { result ≡ spec.mac text.now }
{
    mac(text.as_bytes())
}

#[tactic(auto, using(crate::proofs::Scanning::six_more), unfolding(crate::specs::AddressGrammar::mac))]
fn mac(text: &[u8]) -> Option<[u8; 6]>
    ensures { result ≡ spec.mac text.now }
{
    let (a, rest) = split_once(text, b':')?;
    let (b, rest) = split_once(rest, b':')?;
    let (c, rest) = split_once(rest, b':')?;
    let (d, rest) = split_once(rest, b':')?;
    let (e, f) = split_once(rest, b':')?;
    match split_once(f, b':') {
        Some(_) => None,
        None => six(a, b, c, d, e, f),
    }
}

fn six(a: &[u8], b: &[u8], c: &[u8], d: &[u8], e: &[u8], f: &[u8]) -> Option<[u8; 6]>
    ensures { result ≡ spec.six (a.now ∷ b.now ∷ c.now ∷ d.now ∷ e.now ∷ f.now ∷ []) }
{
    Some([
        octet(a)?,
        octet(b)?,
        octet(c)?,
        octet(d)?,
        octet(e)?,
        octet(f)?,
    ])
}
