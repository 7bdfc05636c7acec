ghost use Rattle.std.specs.Prelude.{◌≡◌, ◌^◌, ◌==◌, ◌<◌, IfSome, length};
ghost use Rattle.std.specs.List.{position};
ghost use Rattle.std.specs.Option.{option_copied};
ghost use Rattle.script_lang.specs.Words.{ended_by};
ghost use Rattle.script_lang.specs.Forms as spec;

use crate::fit::{Fit, both, fits_if, is};
use crate::number::{number, wide_number};
use crate::split::split_piece;
use crate::words::{Words, next_bytes};

fn some_text(word: &[u8]) -> Fit
    ensures { result ≡ spec.some_text word.now }
{
    fits_if(0 < word.len())
}

fn place_of(mark: u8, word: &[u8]) -> Option<usize>
    ensures place { result ≡ position (λ c. c == mark) word.now }
    ensures within { IfSome result (λ place. place < length word.now) }
{
    word.iter().position(|c| *c == mark)
}

fn member(word: &[u8]) -> Fit
    ensures { result ≡ spec.member word.now }
{
    let Some(place) = place_of(b':', word) else {
        return Fit::Unlike;
    };
    let (index, _) = word.split_at(place);
    let (_, weight) = word.split_at(place + 1);
    both(number(index), number(weight))
}

fn text_pair(word: &[u8]) -> Fit
    ensures { result ≡ spec.halves 44 spec.some_text word.now }
{
    let Some(place) = place_of(b',', word) else {
        return Fit::Unlike;
    };
    let (source, _) = word.split_at(place);
    let (_, target) = word.split_at(place + 1);
    both(some_text(source), some_text(target))
}

fn ends_in_piece(word: &[u8]) -> bool
    ensures { result ≡ spec.ends_in_piece word.now }
{
    !word.is_empty() && word[word.len() - 1] != b','
}

#[tactic(auto, using(crate::proofs::Fitting::both_assoc, crate::proofs::Fitting::both_fits))]
fn each_number(word: &[u8]) -> Fit
    ensures { result ≡ spec.each (spec.number (2 ^ 64)) (ended_by 44 word.now) }
{
    let mut fit = Fit::Fits;
    let mut rest = word;
    'pieces: while let Some((piece, behind)) = split_piece(rest, b',') {
        fit = both(fit, number(piece));
        rest = behind;
    }
    fit
}

#[tactic(auto, using(crate::proofs::Fitting::both_assoc, crate::proofs::Fitting::both_fits))]
fn each_member(word: &[u8]) -> Fit
    ensures { result ≡ spec.each spec.member (ended_by 44 word.now) }
{
    let mut fit = Fit::Fits;
    let mut rest = word;
    'pieces: while let Some((piece, behind)) = split_piece(rest, b',') {
        fit = both(fit, member(piece));
        rest = behind;
    }
    fit
}

#[tactic(auto, unfolding(crate::specs::Forms::listed))]
fn labels(word: &[u8]) -> Fit
    ensures { result ≡ spec.listed (spec.number (2 ^ 64)) word.now }
{
    if ends_in_piece(word) {
        each_number(word)
    } else {
        Fit::Unlike
    }
}

#[tactic(auto, unfolding(crate::specs::Forms::listed))]
fn members(word: &[u8]) -> Fit
    ensures { result ≡ spec.listed spec.member word.now }
{
    if ends_in_piece(word) {
        each_member(word)
    } else {
        Fit::Unlike
    }
}

// What stands behind the key in a word that begins with it.
fn behind_key<'a>(key: &str, word: &'a [u8]) -> Option<&'a [u8]>
    ensures { option_copied result ≡ spec.behind_key key.now word.now }
{
    let key = key.as_bytes();
    if word.len() < key.len() {
        return None;
    }
    let (front, rest) = word.split_at(key.len());
    if front == key { Some(rest) } else { None }
}

// What stands behind the key, where the next word begins with it; that word is taken.
fn option<'a>(key: &str, words: &mut Words<'a>) -> Option<&'a [u8]>
    ensures text { option_copied result ≡ spec.option_at key.now words.old }
    ensures rest { words.new ≡ spec.rest_at key.now words.old }
{
    let mut ahead = words.twin();
    let Some(word) = next_bytes(&mut ahead) else {
        return None;
    };
    let Some(text) = behind_key(key, word) else {
        return None;
    };
    *words = ahead;
    Some(text)
}

fn text_option(key: &str, words: &mut Words<'_>) -> Fit
    ensures fit { result ≡ spec.test_at spec.some_text (spec.option_at key.now words.old) }
    ensures rest { words.new ≡ spec.rest_at key.now words.old }
{
    match option(key, words) {
        None => Fit::Fits,
        Some(text) => some_text(text),
    }
}

fn number_option(key: &str, words: &mut Words<'_>) -> Fit
    ensures fit { result ≡ spec.test_at (spec.number (2 ^ 64)) (spec.option_at key.now words.old) }
    ensures rest { words.new ≡ spec.rest_at key.now words.old }
{
    match option(key, words) {
        None => Fit::Fits,
        Some(text) => number(text),
    }
}

fn pair_option(key: &str, words: &mut Words<'_>) -> Fit
    ensures fit { result ≡ spec.test_at (spec.halves 44 spec.some_text) (spec.option_at key.now words.old) }
    ensures rest { words.new ≡ spec.rest_at key.now words.old }
{
    match option(key, words) {
        None => Fit::Fits,
        Some(text) => text_pair(text),
    }
}

fn labels_option(key: &str, words: &mut Words<'_>) -> Fit
    ensures fit { result ≡ spec.test_at (spec.listed (spec.number (2 ^ 64))) (spec.option_at key.now words.old) }
    ensures rest { words.new ≡ spec.rest_at key.now words.old }
{
    match option(key, words) {
        None => Fit::Fits,
        Some(text) => labels(text),
    }
}

fn members_option(key: &str, words: &mut Words<'_>) -> Fit
    ensures fit { result ≡ spec.test_at (spec.listed spec.member) (spec.option_at key.now words.old) }
    ensures rest { words.new ≡ spec.rest_at key.now words.old }
{
    match option(key, words) {
        None => Fit::Fits,
        Some(text) => members(text),
    }
}

fn required_number(key: &str, words: &mut Words<'_>) -> Fit
    ensures fit { result ≡ spec.must (spec.number (2 ^ 64)) (spec.option_at key.now words.old) }
    ensures rest { words.new ≡ spec.rest_at key.now words.old }
{
    match option(key, words) {
        None => Fit::Unlike,
        Some(text) => number(text),
    }
}

fn elected_by(word: &[u8]) -> Fit
    ensures { result ≡ spec.elected_by word.now }
{
    if is("none", word) {
        Fit::Fits
    } else {
        wide_number(word)
    }
}

fn by_form(words: &mut Words<'_>) -> Fit
    ensures { result ≡ spec.by_form words.old }
{
    let Some(first) = next_bytes(words) else {
        return Fit::Fits;
    };
    let Some(id) = next_bytes(words) else {
        return Fit::Unlike;
    };
    let Some(_) = next_bytes(words) else {
        return both(fits_if(is("by", first)), elected_by(id));
    };
    Fit::Unlike
}

#[tactic(auto, unfolding(crate::specs::Forms::hop_end))]
fn hop_end(words: &mut Words<'_>) -> Fit
    ensures { result ≡ spec.hop_end words.old }
{
    let subinterface = number_option("subinterface=", words);
    let tunnel = pair_option("ipip=", words);
    let push = labels_option("push=", words);
    both(subinterface, both(tunnel, both(push, by_form(words))))
}

#[tactic(auto, unfolding(crate::specs::Forms::hop_form))]
fn hop_form(words: &mut Words<'_>) -> Fit
    ensures { result ≡ spec.hop_form words.old }
{
    let ip = text_option("ip=", words);
    let mac = text_option("mac=", words);
    let interface = text_option("interface=", words);
    both(ip, both(mac, both(interface, hop_end(words))))
}

#[tactic(auto, unfolding(crate::specs::Forms::group_form))]
fn group_form(words: &mut Words<'_>) -> Fit
    ensures { result ≡ spec.group_form words.old }
{
    let hops = members_option("hops=", words);
    let backup = number_option("backup=", words);
    both(hops, both(backup, by_form(words)))
}

#[tactic(auto, unfolding(crate::specs::Forms::route_form))]
fn route_form(words: &mut Words<'_>) -> Fit
    ensures { result ≡ spec.route_form words.old }
{
    let group = required_number("group=", words);
    let instance = text_option("group-instance=", words);
    both(group, both(instance, by_form(words)))
}

fn key_form(kind: &[u8], key: &[u8]) -> Fit
    ensures { result ≡ spec.key_form kind.now key.now }
{
    if is("next-hop", kind) || is("group", kind) || is("mpls", kind) {
        number(key)
    } else {
        fits_if(is("ipv4", kind) || is("ipv6", kind))
    }
}

fn payload_form(kind: &[u8], words: &mut Words<'_>) -> Fit
    ensures { result ≡ spec.payload_form kind.now words.old }
{
    if is("next-hop", kind) {
        hop_form(words)
    } else if is("group", kind) {
        group_form(words)
    } else {
        route_form(words)
    }
}

/// Whether the words are an entry to add or replace.
#[tactic(auto, unfolding(crate::specs::Forms::put_form))]
pub fn put_form(words: &mut Words<'_>) -> Fit
    ensures { result ≡ spec.put_form words.old }
{
    let Some(_call) = next_bytes(words) else {
        return Fit::Unlike;
    };
    let Some(id) = next_bytes(words) else {
        return Fit::Unlike;
    };
    let Some(_instance) = next_bytes(words) else {
        return Fit::Unlike;
    };
    let Some(kind) = next_bytes(words) else {
        return Fit::Unlike;
    };
    let Some(key) = next_bytes(words) else {
        return Fit::Unlike;
    };
    let payload = payload_form(kind, words);
    both(number(id), both(key_form(kind, key), payload))
}

/// Whether the words are the key of an entry to delete.
#[tactic(auto, unfolding(crate::specs::Forms::delete_form))]
pub fn delete_form(words: &mut Words<'_>) -> Fit
    ensures { result ≡ spec.delete_form words.old }
{
    let Some(_call) = next_bytes(words) else {
        return Fit::Unlike;
    };
    let Some(id) = next_bytes(words) else {
        return Fit::Unlike;
    };
    let Some(_instance) = next_bytes(words) else {
        return Fit::Unlike;
    };
    let Some(kind) = next_bytes(words) else {
        return Fit::Unlike;
    };
    let Some(key) = next_bytes(words) else {
        return Fit::Unlike;
    };
    let by = by_form(words);
    both(number(id), both(key_form(kind, key), by))
}
