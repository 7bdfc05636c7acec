ghost use Rattle.std.specs.Prelude.{◌≡◌, IfOk};
ghost use Rattle.std.specs.Option.{option_copied};
ghost use Rattle.script_lang.specs.Forms as spec;
ghost use Rattle.line_requests.specs.Entries.{number_at};

use crate::number::narrow;
use aft_entries::Name;
use script_lang::Words;
use std::alloc::{AllocError, Global};

/// Whether a word is this text.
pub fn is(text: &str, word: &str) -> bool
    ensures { result ≡ spec.is text.now word.now }
{
    word.as_bytes() == text.as_bytes()
}

// What stands behind the key in a word that begins with it.
fn behind_key<'a>(key: &str, word: &'a str) -> Option<&'a str>
    ensures { option_copied result ≡ spec.behind_key key.now word.now }
{
    match word.strip_prefix(key) {
        None => None,
        Some(text) => Some(text),
    }
}

/// What stands behind the key, where the next word begins with it; that word is taken.
pub fn option<'a>(key: &str, words: &mut Words<'a>) -> Option<&'a str>
    ensures text { option_copied result ≡ spec.option_at key.now words.old }
    ensures rest { words.new ≡ spec.rest_at key.now words.old }
{
    let mut ahead = words.twin();
    let Some(word) = ahead.next() else {
        return None;
    };
    let Some(text) = behind_key(key, word) else {
        return None;
    };
    *words = ahead;
    Some(text)
}

/// The number behind the key.
pub fn number_option(key: &str, words: &mut Words<'_>) -> Option<u64>
    ensures value { result ≡ number_at key.now words.old }
    ensures rest { words.new ≡ spec.rest_at key.now words.old }
{
    match option(key, words) {
        None => None,
        Some(text) => Some(narrow(text)),
    }
}

/// A text of its own.
pub fn name(alloc: Global, text: &str) -> Result<Name, AllocError>
    ensures { IfOk result (λ name. name ≡ text.now) }
{
    Ok(Name::from_string(String::from_str(alloc, text)?))
}

/// The text behind the key.
pub fn text_option(
    alloc: Global,
    key: &str,
    words: &mut Words<'_>,
) -> Result<Option<Name>, AllocError>
    ensures text { IfOk result (λ text. text ≡ spec.option_at key.now words.old) }
    ensures rest { words.new ≡ spec.rest_at key.now words.old }
{
    match option(key, words) {
        None => Ok(None),
        Some(text) => Ok(Some(name(alloc, text)?)),
    }
}
