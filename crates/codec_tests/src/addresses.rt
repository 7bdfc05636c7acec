use addr_text::{
    Address, Prefix4, Prefix6, TextFault, print_addr, print_mac, print_v4_prefix, print_v6_prefix,
    read_addr, read_mac, read_v4_prefix, read_v6_prefix,
};
use std::alloc::Global;

#[test]
fn prefixes_are_read(rt: HostRuntime) {
    let first = Prefix4 {
        bits: 0xc6336400,
        len: 24,
    };
    for (text, answer) in [
        ("198.51.100.0/24", Ok(first)),
        ("198.51.100.1/24", Err(TextFault::HostBits)),
        ("198.51.100.01/32", Err(TextFault::BadText)),
        ("198.51.100/24", Err(TextFault::BadText)),
        ("256.0.0.0/8", Err(TextFault::BadText)),
        ("1.2.3.4/33", Err(TextFault::BadText)),
        ("1.2.3.4/8/8", Err(TextFault::BadText)),
    ] {
        assert!(rt; read_v4_prefix(text) == answer, "{text}");
    }
    let last = Prefix6 {
        bits: 0x20010db8 << 96,
        len: 32,
    };
    for (text, answer) in [
        ("2001:DB8:0:0::/32", Ok(last)),
        ("2001:db8::1/64", Err(TextFault::HostBits)),
        ("1::2::3/128", Err(TextFault::BadText)),
        ("1:2:3:4:5:6:7:8::/128", Err(TextFault::BadText)),
        ("12345::/128", Err(TextFault::BadText)),
        ("::/0128", Err(TextFault::BadText)),
        ("::", Err(TextFault::BadText)),
    ] {
        assert!(rt; read_v6_prefix(text) == answer, "{text}");
    }
}

#[test]
fn addresses_are_read(rt: HostRuntime) {
    for (text, answer) in [
        ("192.0.2.1", Ok(Address::V4(0xc0000201))),
        ("::ffff:192.0.2.1", Ok(Address::V6(0xffffc0000201))),
        (
            "1:2:3:4:5:6:7::",
            Ok(Address::V6(0x0001_0002_0003_0004_0005_0006_0007_0000)),
        ),
        ("192.0.2.1::", Err(TextFault::BadText)),
        ("1:2:3:4:5:6:7", Err(TextFault::BadText)),
        ("1:2:3:4:5:6:7:1.2.3.4", Err(TextFault::BadText)),
        ("g::", Err(TextFault::BadText)),
        ("1:", Err(TextFault::BadText)),
    ] {
        assert!(rt; read_addr(text) == answer, "{text}");
    }
}

fn is_address(alloc: Global, text: &str, printed: &str) -> bool {
    let mut out = String::new(alloc);
    match read_addr(text) {
        Err(_) => false,
        Ok(address) => print_addr(address, &mut out).is_ok() && out.as_str() == printed,
    }
}

#[test]
fn addresses_are_printed(rt: HostRuntime) {
    for (text, printed) in [
        ("198.51.100.7", "198.51.100.7"),
        ("::ffff:192.0.2.1", "::ffff:c000:201"),
        ("0:0:0:0:0:0:0:0", "::"),
        ("0:0:0:0:0:0:0:1", "::1"),
        ("1:0:0:0:0:0:0:0", "1::"),
        ("1:0:0:2:0:0:0:3", "1:0:0:2::3"),
        ("1:0:0:2:3:0:0:4", "1::2:3:0:0:4"),
        ("1:0:2:3:4:5:6:0", "1:0:2:3:4:5:6:0"),
        (
            "00AB:0CD:e:FFFF:10:100:1000:0",
            "ab:cd:e:ffff:10:100:1000:0",
        ),
    ] {
        assert!(rt; is_address(rt.alloc(), text, printed), "{text}");
    }
}

// Prints a prefix of either kind behind what `out` has.
fn print_again(text: &str, out: &mut String) -> bool {
    if let Ok(prefix) = read_v4_prefix(text) {
        return print_v4_prefix(prefix, out).is_ok();
    }
    match read_v6_prefix(text) {
        Err(_) => false,
        Ok(prefix) => print_v6_prefix(prefix, out).is_ok(),
    }
}

fn is_prefix(alloc: Global, text: &str, printed: &str) -> bool {
    let mut out = String::new(alloc);
    out.push_str("> ").is_ok() && print_again(text, &mut out) && out.as_str() == printed
}

#[test]
fn prefixes_are_printed(rt: HostRuntime) {
    for (text, printed) in [
        ("0.0.0.0/0", "> 0.0.0.0/0"),
        ("203.0.113.9/32", "> 203.0.113.9/32"),
        ("::/0", "> ::/0"),
        ("2001:DB8:0:0::/32", "> 2001:db8::/32"),
    ] {
        assert!(rt; is_prefix(rt.alloc(), text, printed), "{text}");
    }
}

fn is_mac(alloc: Global, text: &str, printed: &str) -> bool {
    let mut out = String::new(alloc);
    match read_mac(text) {
        None => printed == "none",
        Some(mac) => print_mac(mac, &mut out).is_ok() && out.as_str() == printed,
    }
}

#[test]
fn mac_texts_are_read_and_printed(rt: HostRuntime) {
    for (text, printed) in [
        ("00:1b:2C:3d:4E:ff", "00:1b:2c:3d:4e:ff"),
        ("00:1b:2c:3d:4e", "none"),
        ("0:1b:2c:3d:4e:ff", "none"),
    ] {
        assert!(rt; is_mac(rt.alloc(), text, printed), "{text}");
    }
}
