ghost use Rattle.std.specs.Prelude.{◌≡◌, ◌^◌, not};
ghost use Rattle.std.specs.List.{list_any};
ghost use Rattle.script_lang.specs.Forms as spec;

use crate::fit::Fit;

fn is_digit(c: u8) -> bool
    ensures { result ≡ spec.is_digit c }
{
    48 <= c && c <= 57
}

fn has_other(word: &[u8]) -> bool
    ensures { result ≡ list_any (λ c. not (spec.is_digit c)) word.now }
{
    word.iter().any(|c| !is_digit(*c))
}

// Whether a word is decimal digits without needless zero.
fn is_number(word: &[u8]) -> bool
    ensures { result ≡ spec.is_number word.now }
{
    if has_other(word) || word.is_empty() {
        return false;
    }
    word.len() == 1 || word[0] != b'0'
}

/// The value of decimal digits, or `None` where it is past 128 bits.
#[tactic(auto, using(crate::proofs::Numbers::past, crate::proofs::Numbers::whole))]
pub fn value_of(digits: &[u8]) -> Option<u128>
    ensures { result ≡ spec.below (2 ^ 128) (spec.value digits.now) }
{
    let mut number: u128 = 0;
    'digits: for place in 0..digits.len() {
        let digit = digits[place].saturating_sub(48) as u128;
        if number > u128::MAX / 10 {
            return None;
        }
        if digit > u128::MAX - number * 10 {
            return None;
        }
        number = number * 10 + digit;
    }
    Some(number)
}

/// A number of 64 bits.
#[tactic(auto, unfolding(crate::specs::Forms::number))]
pub fn number(word: &[u8]) -> Fit
    ensures { result ≡ spec.number (2 ^ 64) word.now }
{
    if !is_number(word) {
        return Fit::Unlike;
    }
    match value_of(word) {
        None => Fit::TooGreat,
        Some(value) => {
            if value < 1 << 64 {
                Fit::Fits
            } else {
                Fit::TooGreat
            }
        }
    }
}

/// A number of 128 bits.
#[tactic(auto, unfolding(crate::specs::Forms::number))]
pub fn wide_number(word: &[u8]) -> Fit
    ensures { result ≡ spec.number (2 ^ 128) word.now }
{
    if !is_number(word) {
        return Fit::Unlike;
    }
    match value_of(word) {
        None => Fit::TooGreat,
        Some(_) => Fit::Fits,
    }
}
