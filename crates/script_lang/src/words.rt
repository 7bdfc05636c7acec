ghost use Rattle.std.specs.Prelude.{◌≡◌, ◌<◌, ◌==◌, ◌∷◌, [], MatchOption, length};
ghost use Rattle.std.specs.List.{filter};
ghost use Rattle.script_lang.specs.Words as text_of;

use std::marker::Model;

/// The words of a line, one after another. Contracts see the list of those to come.
#[derive(Drop)]
pub struct Words<'a> {
    rest: &'a str,
}

impl<'a> Model for Words<'a> {
    ghost use Rattle.std.specs.Prelude.{ℕ, List};
    ghost use Rattle.script_lang.specs.Words.{words};

    ghost Value = { List (List ℕ) };

    ghost view = { λ w. words w.rest.now };
}

// What stands before and after the first space.
#[tactic(auto, using(crate::proofs::Pieces::split_none, crate::proofs::Pieces::split_found, crate::proofs::Pieces::split_shorter))]
fn split_space(text: &str) -> (&str, &str)
    ensures parts { filter text_of.is_some_text (text_of.parts text.now) ≡ filter text_of.is_some_text (result.0.now ∷ text_of.parts result.1.now) }
    ensures shorter { 0 < length text.now → length result.1.now < length text.now }
{
    match text.split_once(' ') {
        None => (text, ""),
        Some((front, back)) => (front, back),
    }
}

impl<'a> Words<'a> {
    /// All words of a line.
    pub fn new(line: &'a str) -> Words<'a>
        ensures { result ≡ text_of.words line.now }
    {
        Words { rest: line }
    }

    // The same words once more.
    pub fn twin(&self) -> Words<'a>
        ensures { result ≡ self.now }
    {
        Words { rest: self.rest }
    }

    /// The next word. After `None` it answers the same again.
    #[tactic(auto, using(crate::proofs::Pieces::words_skip, crate::proofs::Pieces::words_keep, crate::proofs::Pieces::words_end), unfolding(crate::specs::Words::words))]
    pub fn next(&mut self) -> Option<&'a str>
        ensures { MatchOption result ((self.old ≡ []) × (self.new ≡ [])) (λ word. self.old ≡ word.now ∷ self.new) }
    {
        'pieces: while !self.rest.is_empty() {
            let (piece, rest) = split_space(self.rest);
            self.rest = rest;
            if !piece.is_empty() {
                return Some(piece);
            }
        }
        None
    }
}

/// The bytes of the next word.
pub fn next_bytes<'a>(words: &mut Words<'a>) -> Option<&'a [u8]>
    ensures { MatchOption result ((words.old ≡ []) × (words.new ≡ [])) (λ word. words.old ≡ word.now ∷ words.new) }
{
    match words.next() {
        None => None,
        Some(word) => Some(word.as_bytes()),
    }
}
