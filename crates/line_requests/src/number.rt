ghost use Rattle.std.specs.Prelude.{◌≡◌, ◌^◌};
ghost use Rattle.script_lang.specs.Forms.{below, value};
ghost use Rattle.line_requests.specs.Numbers as spec;

// The value of decimal digits, or `None` where it is past 128 bits.
#[tactic(auto, using(crate::proofs::Digits::past, crate::proofs::Digits::whole))]
fn value_of(digits: &[u8]) -> Option<u128>
    ensures { result ≡ below (2 ^ 128) (value digits.now) }
{
    let mut number: u128 = 0;
    'digits: for place in 0..digits.len() {
        let digit = digits[place].saturating_sub(48) as u128;
        if number > u128::MAX / 10 {
            return None;
        }
        if digit > u128::MAX - number * 10 {
            return None;
        }
        number = number * 10 + digit;
    }
    Some(number)
}

/// A number of 128 bits, or the greatest one where the word's is past them.
pub fn wide(word: &str) -> u128
    ensures { result ≡ spec.wide word.now }
{
    match value_of(word.as_bytes()) {
        None => u128::MAX,
        Some(value) => value,
    }
}

/// A number of 64 bits, or the greatest one where the word's is past them.
pub fn narrow(word: &str) -> u64
    ensures { result ≡ spec.narrow word.now }
{
    let value = wide(word);
    if value < 1 << 64 {
        value as u64
    } else {
        u64::MAX
    }
}
