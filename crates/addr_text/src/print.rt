ghost use Rattle.std.specs.Prelude.{◌≡◌, ◌≤◌, ◌<◌, ◌+◌, ◌*◌, [], ◌∷◌, ◌++◌, OnOk, OnErr, length, string_bytes};
ghost use Rattle.std.specs.String.{string_len, string_capacity};
ghost use Rattle.std.specs.List.{flat_map};
ghost use Rattle.addr_text.specs.Printed as spec;

use crate::runs::longest_run;
use crate::{Address, Prefix4, Prefix6};
use std::alloc::AllocError;

// Eight groups of four digits with a separator each, `/` and three digits.
const MAX_TEXT_LEN: usize = 44;

/// Appends the address in decimal, `/` and the length: `198.51.100.0/24`. Without memory for it `out` stays as it was.
pub fn print_v4_prefix(p: Prefix4, out: &mut String) -> Result<(), AllocError>
    ensures ok { OnOk result (string_bytes out.new ≡ string_bytes out.old ++ spec.v4_prefix_text p) }
    ensures err { OnErr result (string_bytes out.new ≡ string_bytes out.old) }
{
    out.reserve(MAX_TEXT_LEN)?;
    put_v4(p.bits, out);
    put(b'/', out);
    put_decimal(p.len, out);
    Ok(())
}

/// Appends the address as RFC 5952 has it, `/` and the length: `2001:db8::/32`. Without memory for it `out` stays
/// as it was.
pub fn print_v6_prefix(p: Prefix6, out: &mut String) -> Result<(), AllocError>
    ensures ok { OnOk result (string_bytes out.new ≡ string_bytes out.old ++ spec.v6_prefix_text p) }
    ensures err { OnErr result (string_bytes out.new ≡ string_bytes out.old) }
{
    out.reserve(MAX_TEXT_LEN)?;
    put_v6(p.bits, out);
    put(b'/', out);
    put_decimal(p.len, out);
    Ok(())
}

/// Appends the address, IPv4 in decimal and IPv6 as RFC 5952 has it, never with an IPv4 tail. Without memory for it
/// `out` stays as it was.
pub fn print_addr(a: Address, out: &mut String) -> Result<(), AllocError>
    ensures ok { OnOk result (string_bytes out.new ≡ string_bytes out.old ++ spec.address_text a) }
    ensures err { OnErr result (string_bytes out.new ≡ string_bytes out.old) }
{
    out.reserve(MAX_TEXT_LEN)?;
    match a {
        Address::V4(bits) => put_v4(bits, out),
        Address::V6(bits) => put_v6(bits, out),
    }
    Ok(())
}

/// Appends six groups of two hexadecimal digits in lower case, joined by colons. Without memory for it `out` stays as
/// it was.
#[tactic(auto, unfolding(crate::specs::Printed::mac_text))]
pub fn print_mac(mac: [u8; 6], out: &mut String) -> Result<(), AllocError>
    ensures ok { OnOk result (string_bytes out.new ≡ string_bytes out.old ++ spec.mac_text mac) }
    ensures err { OnErr result (string_bytes out.new ≡ string_bytes out.old) }
{
    out.reserve(MAX_TEXT_LEN)?;
    let [a, b, c, d, e, f] = mac;
    put_three_octets(a, b, c, out);
    put(b':', out);
    put_three_octets(d, e, f, out);
    Ok(())
}

// Appends a character for which there is room, so this takes no memory.
fn put(c: u8, out: &mut String)
    requires ascii { c < 128 }
    requires room { string_len out.old < string_capacity out.old }
    ensures bytes { string_bytes out.new ≡ string_bytes out.old ++ c ∷ [] }
    ensures len { string_len out.new ≡ string_len out.old + 1 }
    ensures capacity { string_capacity out.old ≤ string_capacity out.new }
{
    let _ = out.push(c as char);
}

fn put_digit(d: u8, out: &mut String)
    requires digit { d < 16 }
    requires room { string_len out.old < string_capacity out.old }
    ensures bytes { string_bytes out.new ≡ string_bytes out.old ++ spec.digit_text d ∷ [] }
    ensures len { string_len out.new ≡ string_len out.old + 1 }
    ensures capacity { string_capacity out.old ≤ string_capacity out.new }
{
    put(if d < 10 { 48 + d } else { 87 + d }, out);
}

fn put_octet(n: u8, out: &mut String)
    requires room { string_len out.old + 2 ≤ string_capacity out.old }
    ensures bytes { string_bytes out.new ≡ string_bytes out.old ++ spec.octet_text n }
    ensures len { string_len out.new ≡ string_len out.old + 2 }
    ensures capacity { string_capacity out.old ≤ string_capacity out.new }
{
    put_digit(n / 16, out);
    put_digit(n % 16, out);
}

#[tactic(auto, unfolding(crate::specs::Printed::mac_text))]
fn put_three_octets(a: u8, b: u8, c: u8, out: &mut String)
    requires room { string_len out.old + 8 ≤ string_capacity out.old }
    ensures bytes { string_bytes out.new ≡ string_bytes out.old ++ spec.mac_text (a ∷ b ∷ c ∷ []) }
    ensures len { string_len out.new ≡ string_len out.old + 8 }
    ensures capacity { string_capacity out.old ≤ string_capacity out.new }
{
    put_octet(a, out);
    put(b':', out);
    put_octet(b, out);
    put(b':', out);
    put_octet(c, out);
}

fn put_decimal(n: u8, out: &mut String)
    requires room { string_len out.old + 3 ≤ string_capacity out.old }
    ensures bytes { string_bytes out.new ≡ string_bytes out.old ++ spec.decimal_text n }
    ensures len { string_len out.new ≤ string_len out.old + 3 }
    ensures capacity { string_capacity out.old ≤ string_capacity out.new }
{
    if n < 10 {
        put_digit(n, out);
    } else if n < 100 {
        put_digit(n / 10, out);
        put_digit(n % 10, out);
    } else {
        put_digit(n / 100, out);
        put_digit(n / 10 % 10, out);
        put_digit(n % 10, out);
    }
}

fn put_group(n: u16, out: &mut String)
    requires room { string_len out.old + 4 ≤ string_capacity out.old }
    ensures bytes { string_bytes out.new ≡ string_bytes out.old ++ spec.hex_text n }
    ensures len { string_len out.new ≤ string_len out.old + 4 }
    ensures capacity { string_capacity out.old ≤ string_capacity out.new }
{
    if n < 16 {
        put_digit(n as u8, out);
    } else if n < 256 {
        put_octet(n as u8, out);
    } else if n < 4096 {
        put_digit((n / 256) as u8, out);
        put_octet((n % 256) as u8, out);
    } else {
        put_octet((n / 256) as u8, out);
        put_octet((n % 256) as u8, out);
    }
}

fn put_pair(a: u8, b: u8, out: &mut String)
    requires room { string_len out.old + 7 ≤ string_capacity out.old }
    ensures bytes { string_bytes out.new ≡ string_bytes out.old ++ (spec.decimal_text a ++ 46 ∷ spec.decimal_text b) }
    ensures len { string_len out.new ≤ string_len out.old + 7 }
    ensures capacity { string_capacity out.old ≤ string_capacity out.new }
{
    put_decimal(a, out);
    put(b'.', out);
    put_decimal(b, out);
}

fn put_v4(bits: u32, out: &mut String)
    requires room { string_len out.old + 15 ≤ string_capacity out.old }
    ensures bytes { string_bytes out.new ≡ string_bytes out.old ++ spec.v4_text bits }
    ensures len { string_len out.new ≤ string_len out.old + 15 }
    ensures capacity { string_capacity out.old ≤ string_capacity out.new }
{
    let above = bits / 256;
    let high = above / 256;
    put_pair((high / 256 % 256) as u8, (high % 256) as u8, out);
    put(b'.', out);
    put_pair((above % 256) as u8, (bits % 256) as u8, out);
}

#[tactic(auto, unfolding(crate::specs::Printed::v6_text))]
fn put_v6(bits: u128, out: &mut String)
    requires room { string_len out.old + 40 ≤ string_capacity out.old }
    ensures bytes { string_bytes out.new ≡ string_bytes out.old ++ spec.v6_text bits }
    ensures len { string_len out.new ≤ string_len out.old + 40 }
    ensures capacity { string_capacity out.old ≤ string_capacity out.new }
{
    put_groups(&groups_of(bits), out);
}

fn groups_of(bits: u128) -> [u16; 8]
    ensures { result ≡ spec.digits_in 65536 8 bits }
{
    let g = bits / 65536;
    let f = g / 65536;
    let e = f / 65536;
    let d = e / 65536;
    let c = d / 65536;
    let b = c / 65536;
    let a = b / 65536;
    [
        (a % 65536) as u16,
        (b % 65536) as u16,
        (c % 65536) as u16,
        (d % 65536) as u16,
        (e % 65536) as u16,
        (f % 65536) as u16,
        (g % 65536) as u16,
        (bits % 65536) as u16,
    ]
}

#[tactic(auto, unfolding(crate::specs::Printed::groups_text))]
fn put_groups(groups: &[u16], out: &mut String)
    requires few { length groups.now ≤ 8 }
    requires room { string_len out.old + 40 ≤ string_capacity out.old }
    ensures bytes { string_bytes out.new ≡ string_bytes out.old ++ spec.groups_text groups.now }
    ensures len { string_len out.new ≤ string_len out.old + 40 }
    ensures capacity { string_capacity out.old ≤ string_capacity out.new }
{
    let (place, run) = longest_run(groups);
    if run < 2 {
        put_joined_by_colons(groups, out);
        return;
    }
    let (front, _) = groups.split_at(place);
    let (_, back) = groups.split_at(place + run);
    put_joined_by_colons(front, out);
    put(b':', out);
    put(b':', out);
    put_joined_by_colons(back, out);
}

#[tactic(auto, using(crate::proofs::Printing::colons_written))]
fn put_joined_by_colons(groups: &[u16], out: &mut String)
    requires room { string_len out.old + 5 * length groups.now ≤ string_capacity out.old }
    ensures bytes { string_bytes out.new ≡ string_bytes out.old ++ spec.colons groups.now }
    ensures len { string_len out.new ≤ string_len out.old + 5 * length groups.now }
    ensures capacity { string_capacity out.old ≤ string_capacity out.new }
{
    if groups.is_empty() {
        return;
    }
    let (_, rest) = groups.split_at(1);
    put_group(groups[0], out);
    put_after_colons(rest, out);
}

// Appends each group behind a colon.
fn put_after_colons(groups: &[u16], out: &mut String)
    requires room { string_len out.old + 5 * length groups.now ≤ string_capacity out.old }
    ensures bytes { string_bytes out.new ≡ string_bytes out.old ++ flat_map (λ group. 58 ∷ spec.hex_text group) groups.now }
    ensures len { string_len out.new ≤ string_len out.old + 5 * length groups.now }
    ensures capacity { string_capacity out.old ≤ string_capacity out.new }
{
    'groups: for group in groups {
        put(b':', out);
        put_group(*group, out);
    }
}
