//! Addresses and prefixes, their texts and their numbers.
//!
//! Begin with [`read_v4_prefix`], [`read_v6_prefix`] and [`read_addr`]; their grammar is `specs/AddressGrammar`, the
//! printed form (RFC 5952) `specs/Printed`.
//!
//! ```
//! let prefix = read_v4_prefix("198.51.100.0/24")?;
//! ```
#![tactic(auto)]

mod groups;
mod laws;
mod mac;
mod number;
mod print;
mod runs;
mod scan;

ghost use Rattle.std.specs.Prelude.{◌≡◌, ◌≤◌, ◌-◌, ◌%◌, ◌^◌, ◌==◌, IfSome};
ghost use Rattle.addr_text.specs.AddressGrammar as spec;

use crate::groups::{v4_bits, v6_bits};
use crate::number::decimal;
use crate::scan::split_once;
pub use laws::{
    addresses_are_read_again, mac_texts_are_read_again, v4_prefixes_are_read_again,
    v6_prefixes_are_read_again,
};
pub use mac::read_mac;
pub use print::{print_addr, print_mac, print_v4_prefix, print_v6_prefix};

/// An IPv4 or IPv6 address.
#[derive(Clone, Copy, Debug, PartialEq, Eq)]
pub enum Address {
    V4(u32),
    V6(u128),
}

/// An IPv4 prefix: the address, and the count of its leading bits that matter.
#[derive(Clone, Copy, Debug, PartialEq, Eq, PartialOrd, Ord)]
pub struct Prefix4 {
    pub bits: u32,
    pub len: u8,
}

/// An IPv6 prefix: the address, and the count of its leading bits that matter.
#[derive(Clone, Copy, Debug, PartialEq, Eq, PartialOrd, Ord)]
pub struct Prefix6 {
    pub bits: u128,
    pub len: u8,
}

/// Why a text isn't read.
#[derive(Clone, Copy, Debug, PartialEq, Eq)]
pub enum TextFault {
    /// The text isn't in the grammar.
    BadText,
    /// The text is a prefix, and a bit past its length is set.
    HostBits,
}

/// Reads an IPv4 address, `/` and a length of 0 to 32.
#[tactic(auto, unfolding(crate::specs::AddressGrammar::v4_prefix))]
pub fn read_v4_prefix(text: &str) -> Result<Prefix4, TextFault>
    ensures { result ≡ spec.v4_prefix text.now }
{
    let Some((bits, len)) = v4_slashed(text.as_bytes()) else {
        return Err(TextFault::BadText);
    };
    if bits as u64 % (1 << (32 - len)) == 0 {
        Ok(Prefix4 {
            bits,
            len: len as u8,
        })
    } else {
        Err(TextFault::HostBits)
    }
}

/// Reads an IPv6 address, `/` and a length of 0 to 128.
#[tactic(auto, unfolding(crate::specs::AddressGrammar::v6_prefix))]
pub fn read_v6_prefix(text: &str) -> Result<Prefix6, TextFault>
    ensures { result ≡ spec.v6_prefix text.now }
{
    let Some((bits, len)) = v6_slashed(text.as_bytes()) else {
        return Err(TextFault::BadText);
    };
    if is_clear_v6(bits, len) {
        Ok(Prefix6 {
            bits,
            len: len as u8,
        })
    } else {
        Err(TextFault::HostBits)
    }
}

/// Reads an IPv4 or IPv6 address. Its only fault is `BadText`.
#[tactic(auto, unfolding(crate::specs::AddressGrammar::address))]
pub fn read_addr(text: &str) -> Result<Address, TextFault>
    ensures { result ≡ spec.address text.now }
{
    let text = text.as_bytes();
    if let Some(bits) = v4_bits(text) {
        return Ok(Address::V4(bits));
    }
    match v6_bits(text) {
        None => Err(TextFault::BadText),
        Some(bits) => Ok(Address::V6(bits)),
    }
}

#[tactic(auto, using(crate::proofs::Scanning::slashed_more))]
fn v4_slashed(text: &[u8]) -> Option<(u32, u32)>
    ensures value { result ≡ spec.address_and_length spec.v4_bits 32 (spec.parts 47 text.now) }
    ensures len { IfSome result (λ p. p.1 ≤ 32) }
{
    let (front, rest) = split_once(text, b'/')?;
    if let Some(_) = split_once(rest, b'/') {
        return None;
    }
    let bits = v4_bits(front)?;
    let len = decimal(rest, 32)?;
    Some((bits, len))
}

#[tactic(auto, using(crate::proofs::Scanning::slashed_more))]
fn v6_slashed(text: &[u8]) -> Option<(u128, u32)>
    ensures value { result ≡ spec.address_and_length spec.v6_bits 128 (spec.parts 47 text.now) }
    ensures len { IfSome result (λ p. p.1 ≤ 128) }
{
    let (front, rest) = split_once(text, b'/')?;
    if let Some(_) = split_once(rest, b'/') {
        return None;
    }
    let bits = v6_bits(front)?;
    let len = decimal(rest, 128)?;
    Some((bits, len))
}

// Whether no bit past the length is set.
fn is_clear_v6(bits: u128, len: u32) -> bool
    requires { len ≤ 128 }
    ensures { result ≡ (bits % 2 ^ (128 - len) == 0) }
{
    if len == 0 {
        bits == 0
    } else {
        bits % (1 << (128 - len)) == 0
    }
}
