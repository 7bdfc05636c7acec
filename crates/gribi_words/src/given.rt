ghost use Rattle.std.specs.Prelude.{◌≡◌, ◌≤◌, IfOk, IfSome, map, length, string_bytes, option_map, codes};
ghost use Rattle.std.specs.Option.{option_copied};
ghost use Rattle.std.specs.List.{find, list_all, list_any};
ghost use Rattle.std.specs.Str.{bytes_eq};
ghost use Rattle.gribi_words.specs.Grammar as spec;
ghost use Rattle.gribi_words.specs.Given.{said, first_option};

use std::alloc::{AllocError, Global};

/// An option and its value.
#[derive(Clone, Copy)]
pub struct Given<'a> {
    name: &'a str,
    value: &'a str,
}

fn is_value(text: &str) -> bool
    ensures { result ≡ spec.is_value text.now }
{
    match text.as_bytes() {
        [] => false,
        [first, ..] => *first != b'-',
    }
}

// The option of `--name` and a value.
fn option_of<'a>(word: &'a str, value: &'a str) -> Option<Given<'a>>
    ensures { option_map said result ≡ spec.option_of word.now value.now }
{
    match word.strip_prefix("--") {
        None => None,
        Some(name) => {
            if is_value(value) {
                Some(Given { name, value })
            } else {
                None
            }
        }
    }
}

// The first option, and the words behind it.
fn first_option<'a>(word: &'a str, behind: &'a [String]) -> Option<(Given<'a>, &'a [String])>
    ensures first { option_map (λ cut. (said cut.0, map string_bytes cut.1.now)) result ≡ first_option word.now (map string_bytes behind.now) }
    ensures less { IfSome result (λ cut. length cut.1.now ≤ length behind.now) }
{
    match word.split_once('=') {
        Some((name, value)) => {
            match option_of(name, value) {
                None => None,
                Some(option) => Some((option, behind)),
            }
        }
        None => match behind {
            [] => None,
            [next, others @ ..] => {
                match option_of(word, next.as_str()) {
                    None => None,
                    Some(option) => Some((option, others)),
                }
            }
        },
    }
}

/// The options that words give, or None where the words are other ones.
pub fn options<'a>(alloc: Global, words: &'a [String]) -> Result<Option<Vec<Given<'a>>>, AllocError>
    ensures { IfOk result (λ found. option_map (λ given. map said given.items) found ≡ spec.options (map string_bytes words.now)) }
{
    let mut given = Vec::new(alloc);
    let mut left = words;
    'words: while let [word, behind @ ..] = left {
        let Some((option, others)) = first_option(word.as_str(), behind) else {
            return Ok(None);
        };
        given.push(option)?;
        left = others;
    }
    Ok(Some(given))
}

fn found<'g, 'a>(given: &'g [Given<'a>], name: &str) -> Option<&'g Given<'a>>
    ensures { option_copied result ≡ find (λ option. bytes_eq option.name.now name.now) given.now }
{
    given.iter().find(|option| option.name == name)
}

/// The value of an option, or None where it is absent.
pub fn value_of<'a>(given: &[Given<'a>], name: &str) -> Option<&'a str>
    ensures { option_copied result ≡ spec.value_of name.now (map said given.now) }
{
    match found(given, name) {
        None => None,
        Some(option) => Some(option.value),
    }
}

#[tactic(auto, using(crate::proofs::Lookups::count_map))]
fn is_once(given: &[Given], name: &str) -> bool
    ensures { result ≡ spec.is_once (map said given.now) name.now }
{
    given.iter().filter(|option| option.name == name).count() <= 1
}

fn is_apply_name(name: &str) -> bool
    ensures { result ≡ list_any (λ other. bytes_eq name.now other) spec.apply_names }
{
    name == "instances"
}

fn are_apply_names(given: &[Given]) -> bool
    ensures { result ≡ list_all (λ option. list_any (λ other. bytes_eq option.name.now other) spec.apply_names) given.now }
{
    given.iter().all(|option| is_apply_name(option.name))
}

/// Whether these are options of `apply`, each at most once.
#[tactic(auto, using(crate::proofs::Lookups::all_map))]
pub fn are_apply_options(given: &[Given]) -> bool
    ensures { result ≡ spec.are_of spec.apply_names (map said given.now) }
{
    are_apply_names(given) && is_once(given, "instances")
}

fn is_serve_name(name: &str) -> bool
    ensures { result ≡ list_any (λ other. bytes_eq name.now other) spec.serve_names }
{
    name == "listen"
        || name == "connections"
        || name == "instances"
        || name == "workers"
        || name == "reactors"
}

fn are_serve_names(given: &[Given]) -> bool
    ensures { result ≡ list_all (λ option. list_any (λ other. bytes_eq option.name.now other) spec.serve_names) given.now }
{
    given.iter().all(|option| is_serve_name(option.name))
}

/// Whether these are options of `serve`, each at most once.
#[tactic(auto, using(crate::proofs::Lookups::all_map))]
pub fn are_serve_options(given: &[Given]) -> bool
    ensures { result ≡ spec.are_of spec.serve_names (map said given.now) }
{
    are_serve_names(given)
        && is_once(given, "listen")
        && is_once(given, "connections")
        && is_once(given, "instances")
        && is_once(given, "workers")
        && is_once(given, "reactors")
}
