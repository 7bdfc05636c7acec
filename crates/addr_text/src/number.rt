ghost use Rattle.std.specs.Prelude.{◌≡◌, ◌≤◌, ◌<◌, IfSome, IsTrue, length};
ghost use Rattle.addr_text.specs.AddressGrammar as spec;

fn digit(c: u8) -> Option<u32>
    ensures value { result ≡ spec.digit c }
    ensures small { IfSome result (λ d. d < 10) }
{
    match c {
        b'0'..=b'9' => Some(c as u32 - 48),
        _ => None,
    }
}

fn hex_digit(c: u8) -> Option<u32>
    ensures value { result ≡ spec.hex_digit c }
    ensures small { IfSome result (λ d. d < 16) }
{
    match c {
        b'0'..=b'9' => Some(c as u32 - 48),
        b'A'..=b'F' => Some(c as u32 - 55),
        b'a'..=b'f' => Some(c as u32 - 87),
        _ => None,
    }
}

fn decimal_digits(text: &[u8]) -> Option<u32>
    requires { length text.now ≤ 3 }
    ensures { result ≡ spec.number_by spec.digit 10 text.now }
{
    let mut number = 0;
    'digits: for place in 0..text.len() {
        match digit(text[place]) {
            None => return None,
            Some(d) => number = number * 10 + d,
        }
    }
    Some(number)
}

fn hex_digits(text: &[u8]) -> Option<u32>
    requires { length text.now ≤ 4 }
    ensures value { result ≡ spec.number_by spec.hex_digit 16 text.now }
    ensures small { IfSome result (λ group. group < 65536) }
    ensures pair { IfSome result (λ pair. length text.now ≡ 2 → pair < 256) }
{
    let mut number = 0;
    'digits: for place in 0..text.len() {
        match hex_digit(text[place]) {
            None => return None,
            Some(d) => number = number * 16 + d,
        }
    }
    Some(number)
}

/// A decimal number that is at most so large.
#[tactic(auto, unfolding(crate::specs::AddressGrammar::decimal))]
pub fn decimal(text: &[u8], most: u32) -> Option<u32>
    ensures value { result ≡ spec.decimal most text.now }
    ensures within { IfSome result (λ number. number ≤ most) }
{
    if !is_plain(text) {
        return None;
    }
    match decimal_digits(text) {
        None => None,
        Some(number) => { if number <= most { Some(number) } else { None } }
    }
}

fn is_plain(text: &[u8]) -> bool
    ensures plain { result ≡ spec.is_plain text.now }
    ensures short { IsTrue result → length text.now ≤ 3 }
{
    if text.len() == 0 || text.len() > 3 {
        return false;
    }
    text.len() == 1 || text[0] != b'0'
}

/// A group of one to four hexadecimal digits.
#[tactic(auto, unfolding(crate::specs::AddressGrammar::hextet))]
pub fn hextet(text: &[u8]) -> Option<u32>
    ensures value { result ≡ spec.hextet text.now }
    ensures small { IfSome result (λ group. group < 65536) }
{
    if text.len() == 0 || text.len() > 4 {
        return None;
    }
    hex_digits(text)
}

/// A number of two hexadecimal digits.
pub fn octet(text: &[u8]) -> Option<u8>
    ensures { result ≡ spec.octet text.now }
{
    if text.len() != 2 {
        return None;
    }
    match hex_digits(text) {
        None => None,
        Some(number) => Some(number as u8),
    }
}
