//! What the printers write is read again as the same value. Each law is the contract of a function that does nothing:
//! to call it is to cite the law.
ghost use Rattle.std.specs.Prelude.{◌≡◌, ◌<◌, ◌≤◌, ◌-◌, ◌%◌, ◌^◌, ℕ, List, length, Some, Ok};
ghost use Rattle.std.specs.List.{All};
ghost use Rattle.addr_text.specs.Printed as printed;
ghost use Rattle.addr_text.specs.AddressGrammar as texts;
ghost use Rattle.addr_text.specs.declared.Address.TheVariants.{V4, V6};
ghost use Rattle.addr_text.specs.declared.Prefix4.{Prefix4};
ghost use Rattle.addr_text.specs.declared.Prefix6.{Prefix6};

/// What `print_v4_prefix` writes of a prefix with no bit past its length is read as that prefix.
pub fn v4_prefixes_are_read_again()
    ensures { (p : Prefix4) → p.bits < 2 ^ 32 → p.len ≤ 32 → p.bits % 2 ^ (32 - p.len) ≡ 0 → texts.v4_prefix (printed.v4_prefix_text p) ≡ Ok p }
{}

/// What `print_v6_prefix` writes of a prefix with no bit past its length is read as that prefix.
pub fn v6_prefixes_are_read_again()
    ensures { (p : Prefix6) → p.bits < 2 ^ 128 → p.len ≤ 128 → p.bits % 2 ^ (128 - p.len) ≡ 0 → texts.v6_prefix (printed.v6_prefix_text p) ≡ Ok p }
{}

/// What `print_addr` writes is read as the same address.
pub fn addresses_are_read_again()
    ensures v4 { (bits : ℕ) → bits < 2 ^ 32 → texts.address (printed.address_text (V4 bits)) ≡ Ok (V4 bits) }
    ensures v6 { (bits : ℕ) → bits < 2 ^ 128 → texts.address (printed.address_text (V6 bits)) ≡ Ok (V6 bits) }
{}

/// What `print_mac` writes is read as the same octets.
pub fn mac_texts_are_read_again()
    ensures { (octets : List ℕ) → length octets ≡ 6 → All (λ octet. octet < 256) octets → texts.mac (printed.mac_text octets) ≡ Some octets }
{}
