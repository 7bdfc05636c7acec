ghost use Rattle.std.specs.Prelude.{◌≡◌, ◌≤◌, ◌<◌, IfSome, IsTrue, length};
ghost use Rattle.addr_text.specs.AddressGrammar.{digit, number_by};
ghost use Rattle.gribi_words.specs.Grammar as spec;

fn digit_of(c: u8) -> Option<u64>
    ensures value { result ≡ digit c }
    ensures small { IfSome result (λ d. d < 10) }
{
    match c {
        b'0'..=b'9' => Some(c as u64 - 48),
        _ => None,
    }
}

fn digits(text: &[u8]) -> Option<u64>
    requires { length text.now ≤ 7 }
    ensures { result ≡ number_by digit 10 text.now }
{
    let mut number = 0;
    'digits: for place in 0..text.len() {
        match digit_of(text[place]) {
            None => return None,
            Some(d) => number = number * 10 + d,
        }
    }
    Some(number)
}

fn is_plain(text: &[u8]) -> bool
    ensures plain { result ≡ spec.is_plain text.now }
    ensures short { IsTrue result → length text.now ≤ 7 }
{
    match text {
        [] => false,
        [_] => true,
        [first, others @ ..] => *first != b'0' && others.len() <= 6,
    }
}

/// A decimal number from 1 to `most`, without sign or needless zero.
#[tactic(auto, unfolding(crate::specs::Grammar::decimal))]
pub fn decimal(text: &[u8], most: u64) -> Option<u64>
    ensures value { result ≡ spec.decimal most text.now }
    ensures within { IfSome result (λ number. number ≤ most) }
{
    if !is_plain(text) {
        return None;
    }
    match digits(text) {
        None => None,
        Some(number) => {
            if number >= 1 && number <= most {
                Some(number)
            } else {
                None
            }
        }
    }
}
