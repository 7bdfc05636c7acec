ghost use Rattle.std.specs.Prelude.{◌≡◌, ◌≤◌, ◌<◌, ◌+◌, ◌-◌, ◌*◌, ◌^◌, ◌==◌, if◌then◌else◌, nat_lt, [], ◌∷◌, option_map, IfSome, Some, None, true, false};
ghost use Rattle.addr_text.specs.AddressGrammar as spec;
ghost use Rattle.addr_text.specs.Counting.{counted, counted_from, IsSmall};

use crate::number::{decimal, hextet};
use crate::scan::{is_dotted, split_double_colon, split_once};

/// The number of an IPv4 text.
#[tactic(auto, using(crate::proofs::Scanning::quad_more), unfolding(crate::specs::AddressGrammar::v4_bits))]
pub fn v4_bits(text: &[u8]) -> Option<u32>
    ensures { result ≡ spec.v4_bits text.now }
{
    let (a, rest) = split_once(text, b'.')?;
    let (b, rest) = split_once(rest, b'.')?;
    let (c, d) = split_once(rest, b'.')?;
    match split_once(d, b'.') {
        Some(_) => None,
        None => quad(a, b, c, d),
    }
}

fn quad(a: &[u8], b: &[u8], c: &[u8], d: &[u8]) -> Option<u32>
    ensures { result ≡ spec.quad (a.now ∷ b.now ∷ c.now ∷ d.now ∷ []) }
{
    let a = decimal(a, 255)?;
    let b = decimal(b, 255)?;
    let c = decimal(c, 255)?;
    let d = decimal(d, 255)?;
    Some(((a * 256 + b) * 256 + c) * 256 + d)
}

// The count and the number of a text's groups, of which the last may be an IPv4 text.
#[tactic(auto, using(crate::proofs::Grouping::read_more, crate::proofs::Grouping::read_stops, crate::proofs::Grouping::read_last))]
fn read_groups(text: &[u8], tail: bool) -> Option<(u32, u128)>
    ensures value { result ≡ counted (spec.groups tail (spec.parts 58 text.now)) }
    ensures small { IfSome result IsSmall }
{
    let mut count = 0;
    let mut bits = 0;
    let mut rest = text;
    'groups: while let Some((part, more)) = split_once(rest, b':') {
        match with_group(count, bits, part) {
            None => return None,
            Some((new_count, new_bits)) => {
                count = new_count;
                bits = new_bits;
                rest = more;
            }
        }
    }
    with_last(count, bits, rest, tail)
}

fn with_last(count: u32, bits: u128, part: &[u8], tail: bool) -> Option<(u32, u128)>
    requires { IsSmall (count, bits) }
    ensures value { result ≡ counted_from count bits (spec.last_groups tail part.now) }
    ensures small { IfSome result IsSmall }
{
    if tail && is_dotted(part) {
        with_quad(count, bits, part)
    } else {
        with_group(count, bits, part)
    }
}

fn with_group(count: u32, bits: u128, part: &[u8]) -> Option<(u32, u128)>
    requires { IsSmall (count, bits) }
    ensures value { result ≡ counted_from count bits (option_map (λ group. group ∷ []) (spec.hextet part.now)) }
    ensures small { IfSome result IsSmall }
{
    if count == 8 {
        return None;
    }
    let group = hextet(part)?;
    Some((count + 1, bits * 65536 + group as u128))
}

fn with_quad(count: u32, bits: u128, part: &[u8]) -> Option<(u32, u128)>
    requires { IsSmall (count, bits) }
    ensures value { result ≡ counted_from count bits (spec.two_groups (spec.v4_bits part.now)) }
    ensures small { IfSome result IsSmall }
{
    if count > 6 {
        return None;
    }
    let low = v4_bits(part)?;
    Some((count + 2, bits * 4294967296 + low as u128))
}

// The groups of one side of `::`.
fn side(text: &[u8], tail: bool) -> Option<(u32, u128)>
    ensures value { result ≡ counted (spec.side tail text.now) }
    ensures small { IfSome result IsSmall }
{
    match text {
        [] => Some((0, 0)),
        _ => read_groups(text, tail),
    }
}

/// The number of an IPv6 text.
#[tactic(auto, unfolding(crate::specs::AddressGrammar::v6_bits))]
pub fn v6_bits(text: &[u8]) -> Option<u128>
    ensures { result ≡ spec.v6_bits text.now }
{
    match split_double_colon(text) {
        None => whole(text),
        Some((front, back)) => compressed(front, back),
    }
}

#[tactic(auto, using(crate::proofs::Grouping::whole_some, crate::proofs::Grouping::whole_none))]
fn whole(text: &[u8]) -> Option<u128>
    ensures { result ≡ spec.whole (spec.groups true (spec.parts 58 text.now)) }
{
    let (count, bits) = read_groups(text, true)?;
    if count == 8 { Some(bits) } else { None }
}

#[tactic(auto, using(crate::proofs::Grouping::gapped_some, crate::proofs::Grouping::gapped_no_front, crate::proofs::Grouping::gapped_no_back, crate::proofs::Grouping::sum_fits))]
fn compressed(front: &[u8], back: &[u8]) -> Option<u128>
    ensures { result ≡ spec.compressed (spec.side false front.now) (spec.side true back.now) }
{
    let (count, bits) = side(front, false)?;
    let (others, low) = side(back, true)?;
    if count + others >= 8 {
        return None;
    }
    Some(times_zero_groups(count, bits) + low)
}

// The number of the groups in front of zero groups, eight in all.
fn times_zero_groups(count: u32, bits: u128) -> u128
    requires { IsSmall (count, bits) }
    ensures { result ≡ bits * 65536 ^ (8 - count) }
{
    let mut number = bits;
    'zeros: for place in count..8 {
        number *= 65536;
    }
    number
}
