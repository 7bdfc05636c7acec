ghost use Rattle.std.specs.Prelude.{◌≡◌, ◌||◌, ◌∷◌, [], MatchOption};
ghost use Rattle.std.specs.Fmt.{decimal};
ghost use Rattle.script_lang.specs.Lines.{line_words};
ghost use Rattle.line_verdicts.specs.Seen as spec;
ghost use Rattle.line_verdicts.specs.Verdicts.{expected, matches, is_awaited, is_rival};

use crate::print::{reason_name, status_name};
use crate::seen::{Seen, SeenEnd};
use itoa::Buffer;
use script_lang::{Line, Words};

fn next_bytes<'a>(words: &mut Words<'a>) -> Option<&'a [u8]>
    ensures { MatchOption result ((words.old ≡ []) × (words.new ≡ [])) (λ word. words.old ≡ word.now ∷ words.new) }
{
    match words.next() {
        None => None,
        Some(word) => Some(word.as_bytes()),
    }
}

// What a line expects.
fn wanted(line: &Line) -> Words<'_>
    ensures { result ≡ expected (line_words line.now) }
{
    let mut words = line.words();
    let _ = words.next();
    let _ = words.next();
    words
}

fn is_one(words: &mut Words<'_>, first: &str) -> bool
    ensures { result ≡ spec.same_words words.old (first.now ∷ []) }
{
    let Some(word) = next_bytes(words) else {
        return false;
    };
    let None = next_bytes(words) else {
        return false;
    };
    word == first.as_bytes()
}

fn are_two(words: &mut Words<'_>, first: &str, second: &str) -> bool
    ensures { result ≡ spec.same_words words.old (first.now ∷ second.now ∷ []) }
{
    let Some(word) = next_bytes(words) else {
        return false;
    };
    let is_first = word == first.as_bytes();
    is_first && is_one(words, second)
}

fn are_three(words: &mut Words<'_>, first: &str, second: &str, third: &str) -> bool
    ensures { result ≡ spec.same_words words.old (first.now ∷ second.now ∷ third.now ∷ []) }
{
    let Some(word) = next_bytes(words) else {
        return false;
    };
    let is_first = word == first.as_bytes();
    is_first && are_two(words, second, third)
}

// A word, and a number in decimal digits.
fn are_named(words: &mut Words<'_>, name: &str, number: u128) -> bool
    ensures { result ≡ spec.same_words words.old (name.now ∷ decimal number ∷ []) }
{
    let mut buffer = Buffer::new();
    are_two(words, name, buffer.format(number))
}

fn is_success(words: &mut Words<'_>, id: u64, what: &str) -> bool
    ensures { result ≡ spec.same_words words.old (decimal id ∷ what.now ∷ []) }
{
    let mut buffer = Buffer::new();
    are_two(words, buffer.format(id), what)
}

fn is_failure(words: &mut Words<'_>, id: u64, what: &str, why: u64) -> bool
    ensures { result ≡ spec.same_words words.old (decimal id ∷ what.now ∷ decimal why ∷ []) }
{
    let mut first = Buffer::new();
    let mut last = Buffer::new();
    are_three(words, first.format(id), what, last.format(why))
}

fn is_whole_end(words: &mut Words<'_>, ending: SeenEnd) -> bool
    ensures { result ≡ spec.same_words words.old (spec.whole_end_words ending.code ending.reason) }
{
    match ending.reason {
        None => are_two(words, "end", status_name(ending.code)),
        Some(why) => are_three(words, "end", status_name(ending.code), reason_name(why)),
    }
}

// Whether the item stands on a line in these words.
fn says(words: &mut Words<'_>, item: &Seen) -> bool
    ensures { result ≡ matches words.old item.now }
{
    match *item {
        Seen::ParamsOk => is_one(words, "params-ok"),
        Seen::Elected(id) => are_named(words, "elected", id),
        Seen::RibProgrammed(id) => is_success(words, id, "rib-programmed"),
        Seen::FibProgrammed(id) => is_success(words, id, "fib-programmed"),
        Seen::Failed(id, why) => is_failure(words, id, "failed", why),
        Seen::FibFailed(id, why) => is_failure(words, id, "fib-failed", why),
        Seen::Entries(count) => are_named(words, "entries", count as u128),
        Seen::FlushedOk => are_two(words, "flushed", "ok"),
        Seen::FlushedRemain => are_two(words, "flushed", "remain"),
        Seen::End(ending) => is_whole_end(words, ending),
    }
}

/// Whether a line expects the item.
pub fn line_matches(line: &Line, item: &Seen) -> bool
    ensures { result ≡ matches (expected (line_words line.now)) item.now }
{
    says(&mut wanted(line), item)
}

/// Whether a line expects an end with this status, whatever its reason, or with both.
pub fn line_matches_end(line: &Line, ending: SeenEnd) -> bool
    ensures { result ≡ (spec.same_words (expected (line_words line.now)) (spec.end_words ending.code)
        || matches (expected (line_words line.now)) (Seen.End ending)) }
{
    are_two(&mut wanted(line), "end", status_name(ending.code))
        || is_whole_end(&mut wanted(line), ending)
}

fn awaits(words: &mut Words<'_>, done: &str, failed: &str, id: u64) -> bool
    ensures { result ≡ is_awaited done.now failed.now id words.old }
{
    let Some(word) = next_bytes(words) else {
        return false;
    };
    let Some(what) = next_bytes(words) else {
        return false;
    };
    let mut buffer = Buffer::new();
    word == buffer.format(id).as_bytes() && (what == done.as_bytes() || what == failed.as_bytes())
}

/// Whether a line expects a result for the id of this one and in its phase.
pub fn line_is_about(line: &Line, item: &Seen) -> bool
    ensures { result ≡ is_rival (expected (line_words line.now)) item.now }
{
    let words = &mut wanted(line);
    match *item {
        Seen::RibProgrammed(id) => awaits(words, "rib-programmed", "failed", id),
        Seen::Failed(id, _) => awaits(words, "rib-programmed", "failed", id),
        Seen::FibProgrammed(id) => awaits(words, "fib-programmed", "fib-failed", id),
        Seen::FibFailed(id, _) => awaits(words, "fib-programmed", "fib-failed", id),
        _ => false,
    }
}
