ghost use Rattle.std.specs.Prelude.{◌≡◌, ◌==◌, ◌≤◌, IfOk, IfSome, Some, None, Err, map, string_bytes, codes};
ghost use Rattle.std.specs.List.{slice_split};
ghost use Rattle.gribi_words.specs.Grammar as spec;
ghost use Rattle.gribi_words.specs.Given.{said};
ghost use Rattle.gribi_words.specs.declared.wish.Wish.TheVariants.{Serve};
ghost use Rattle.gribi_words.specs.declared.wish.WordsFault.TheVariants.{NotInGrammar};

use crate::given::{Given, are_apply_options, are_serve_options, options, value_of};
use crate::number::decimal;
use aft_entries::{Instances, Name};
use std::alloc::{AllocError, Global};
use thiserror::Error;

/// A word of the command line, seen as its text.
pub type Word = Name;

/// The names that `--instances` says, which can be those of the network instances, seen as a list of texts.
pub type Words = Instances;

/// What the words of a command line ask for. An option that is absent has its default.
#[derive(Drop)]
pub enum Wish {
    /// Answers the ModifyRequests of the input.
    Apply {
        /// The network instances, `DEFAULT` where absent.
        instances: Words,
    },
    /// Serves links.
    Serve {
        /// Where to listen, as the acceptor reads it.
        listen: Word,
        /// How many links are taken: 1 to 1,000,000, which it is where absent.
        connections: u64,
        /// The network instances, `DEFAULT` where absent.
        instances: Words,
        /// How many workers write to the devices: 1 to 16, 1 where absent.
        workers: u32,
        /// How many reactors give links their turns: 1 to 16, 1 where absent.
        reactors: u32,
    },
}

/// Why words aren't read.
#[derive(Clone, Copy, Debug, PartialEq, Eq, Error)]
pub enum WordsFault {
    /// The words aren't in the grammar.
    #[error("the words are no command")]
    NotInGrammar,
    /// There was no memory for what they say.
    #[error("want of memory")]
    NoMemory,
}

// The parts of a text that commas part.
fn parts(alloc: Global, text: &str) -> Result<Vec<String>, AllocError>
    ensures { IfOk result (λ names. map string_bytes names.items ≡ slice_split (λ c. c == 44) text.now) }
{
    let mut names = Vec::new(alloc);
    for part in text.split(',') {
        names.push(String::from_str(alloc, part)?)?;
    }
    Ok(names)
}

fn names_in(alloc: Global, text: &str) -> Result<Words, WordsFault>
    ensures ok { IfOk result (λ names. spec.names_in text.now ≡ Some names) }
    ensures refused { result ≡ Err NotInGrammar → spec.names_in text.now ≡ None }
{
    let Ok(names) = parts(alloc, text) else {
        return Err(WordsFault::NoMemory);
    };
    match Instances::new(names) {
        Ok(instances) => Ok(instances),
        Err(_) => Err(WordsFault::NotInGrammar),
    }
}

#[tactic(auto, unfolding(crate::specs::Grammar::instances_of))]
fn instances_of(alloc: Global, given: &[Given]) -> Result<Words, WordsFault>
    ensures ok { IfOk result (λ names. spec.instances_of (map said given.now) ≡ Some names) }
    ensures refused { result ≡ Err NotInGrammar → spec.instances_of (map said given.now) ≡ None }
{
    match value_of(given, "instances") {
        None => names_in(alloc, "DEFAULT"),
        Some(text) => names_in(alloc, text),
    }
}

// The number that an option says.
fn number_of(given: &[Given], name: &str, most: u64, absent: u64) -> Option<u64>
    requires { absent ≤ most }
    ensures value { result ≡ spec.number_in most absent (spec.value_of name.now (map said given.now)) }
    ensures within { IfSome result (λ number. number ≤ most) }
{
    match value_of(given, name) {
        None => Some(absent),
        Some(text) => decimal(text.as_bytes(), most),
    }
}

// A number of threads.
fn count_of(given: &[Given], name: &str) -> Option<u32>
    ensures { result ≡ spec.number_in 16 1 (spec.value_of name.now (map said given.now)) }
{
    match number_of(given, name, 16, 1) {
        None => None,
        Some(count) => Some(count as u32),
    }
}

#[tactic(auto, unfolding(crate::specs::Grammar::apply_wish))]
fn apply_wish(alloc: Global, given: &[Given]) -> Result<Wish, WordsFault>
    ensures ok { IfOk result (λ wish. spec.apply_wish (map said given.now) ≡ Some wish) }
    ensures refused { result ≡ Err NotInGrammar → spec.apply_wish (map said given.now) ≡ None }
{
    if !are_apply_options(given) {
        return Err(WordsFault::NotInGrammar);
    }
    match instances_of(alloc, given) {
        Err(fault) => Err(fault),
        Ok(instances) => Ok(Wish::Apply { instances }),
    }
}

fn word(alloc: Global, text: &str) -> Result<Word, WordsFault>
    ensures ok { IfOk result (λ word. word ≡ text.now) }
    ensures refused { result ≡ Err NotInGrammar → ⊥ }
{
    match String::from_str(alloc, text) {
        Err(_) => Err(WordsFault::NoMemory),
        Ok(text) => Ok(Name::from_string(text)),
    }
}

fn served(
    alloc: Global,
    listen: &str,
    connections: u64,
    instances: Words,
    workers: u32,
    reactors: u32,
) -> Result<Wish, WordsFault>
    ensures ok { IfOk result (λ wish. wish ≡ Serve listen.now connections instances workers reactors) }
    ensures refused { result ≡ Err NotInGrammar → ⊥ }
{
    match word(alloc, listen) {
        Err(fault) => Err(fault),
        Ok(listen) => Ok(Wish::Serve {
            listen,
            connections,
            instances,
            workers,
            reactors,
        }),
    }
}

// `serve`, where its options' names are right.
fn serve_values(alloc: Global, given: &[Given]) -> Result<Wish, WordsFault>
    ensures ok { IfOk result (λ wish. spec.serve_values (map said given.now) ≡ Some wish) }
    ensures refused { result ≡ Err NotInGrammar → spec.serve_values (map said given.now) ≡ None }
{
    let Some(listen) = value_of(given, "listen") else {
        return Err(WordsFault::NotInGrammar);
    };
    let Some(connections) = number_of(given, "connections", 1_000_000, 1_000_000) else {
        return Err(WordsFault::NotInGrammar);
    };
    let Some(workers) = count_of(given, "workers") else {
        return Err(WordsFault::NotInGrammar);
    };
    let Some(reactors) = count_of(given, "reactors") else {
        return Err(WordsFault::NotInGrammar);
    };
    match instances_of(alloc, given) {
        Err(fault) => Err(fault),
        Ok(instances) => served(alloc, listen, connections, instances, workers, reactors),
    }
}

#[tactic(auto, unfolding(crate::specs::Grammar::serve_wish))]
fn serve_wish(alloc: Global, given: &[Given]) -> Result<Wish, WordsFault>
    ensures ok { IfOk result (λ wish. spec.serve_wish (map said given.now) ≡ Some wish) }
    ensures refused { result ≡ Err NotInGrammar → spec.serve_wish (map said given.now) ≡ None }
{
    if !are_serve_options(given) {
        return Err(WordsFault::NotInGrammar);
    }
    serve_values(alloc, given)
}

fn wish_of(alloc: Global, command: &str, given: &[Given]) -> Result<Wish, WordsFault>
    ensures ok { IfOk result (λ wish. spec.wish_of command.now (map said given.now) ≡ Some wish) }
    ensures refused { result ≡ Err NotInGrammar → spec.wish_of command.now (map said given.now) ≡ None }
{
    match command {
        "apply" => apply_wish(alloc, given),
        "serve" => serve_wish(alloc, given),
        _ => Err(WordsFault::NotInGrammar),
    }
}

/// What the words behind the program's name ask for.
///
/// # Errors
///
/// `NotInGrammar` where the words are no command, and `NoMemory` for want of memory.
#[tactic(auto, unfolding(crate::specs::Grammar::wish_in))]
pub fn read_words(alloc: Global, words: &[String]) -> Result<Wish, WordsFault>
    ensures ok { IfOk result (λ wish. spec.wish_in (map string_bytes words.now) ≡ Some wish) }
    ensures refused { result ≡ Err NotInGrammar → spec.wish_in (map string_bytes words.now) ≡ None }
{
    let [command, behind @ ..] = words else {
        return Err(WordsFault::NotInGrammar);
    };
    match options(alloc, behind) {
        Err(_) => Err(WordsFault::NoMemory),
        Ok(None) => Err(WordsFault::NotInGrammar),
        Ok(Some(given)) => wish_of(alloc, command.as_str(), given.as_slice()),
    }
}
