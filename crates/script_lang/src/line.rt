ghost use Rattle.std.specs.Prelude.{◌≡◌, IfOk};
ghost use Rattle.script_lang.specs.Words as text_of;
ghost use Rattle.script_lang.specs.Lines as spec;

use crate::words::{Words, next_bytes};
use std::alloc::{AllocError, Global};
use std::marker::Model;
use vec_list::VecList;

/// The rows that a line can have, one for each variant of [`Line`].
#[derive(Clone, Copy, Debug, PartialEq, Eq)]
pub enum Row {
    Modify,
    Params,
    Elect,
    Operate,
    Close,
    Get,
    Flush,
    ExpectParamsOk,
    ExpectElected,
    ExpectResult,
    ExpectEntries,
    ExpectFlushed,
    ExpectEnd,
}

/// The text of a line, seen as the list of its words.
#[derive(Drop)]
pub struct LineText {
    text: String,
}

impl Model for LineText {
    ghost use Rattle.std.specs.Prelude.{ℕ, List, string_bytes};
    ghost use Rattle.script_lang.specs.Words.{words};

    ghost Value = { List (List ℕ) };

    ghost view = { λ t. words (string_bytes t.text) };
}

impl LineText {
    /// The words.
    pub fn words(&self) -> Words<'_>
        ensures { result ≡ self.now }
    {
        Words::new(self.text.as_str())
    }
}

/// A copy of a line's text.
pub fn line_text(alloc: Global, line: &str) -> Result<LineText, AllocError>
    ensures { IfOk result (λ text. text ≡ text_of.words line.now) }
{
    Ok(LineText {
        text: String::from_str(alloc, line)?,
    })
}

/// A line of a script. Contracts see it as its words, by `line_words` of `specs/Lines`.
#[derive(Drop)]
pub enum Line {
    /// `modify C`: begins a Modify call.
    Modify(LineText),
    /// `params C R P K`: sends session parameters.
    Params(LineText),
    /// `elect C N`: announces an election id.
    Elect(LineText),
    /// `add`, `replace` or `delete`: sends an operation.
    Operate(LineText),
    /// `finish C` or `drop C`: ends the client's side, or resets the call.
    Close(LineText),
    /// `get C I KIND`: a whole Get call.
    Get(LineText),
    /// `flush C id N I` or `flush C override I`: a whole Flush call.
    Flush(LineText),
    /// `expect C params-ok`.
    ExpectParamsOk(LineText),
    /// `expect C elected N`.
    ExpectElected(LineText),
    /// `expect C N rib-programmed`, `fib-programmed`, `failed R` or `fib-failed R`.
    ExpectResult(LineText),
    /// `expect C entries N`.
    ExpectEntries(LineText),
    /// `expect C flushed ok` or `remain`.
    ExpectFlushed(LineText),
    /// `expect C end STATUS [REASON]`.
    ExpectEnd(LineText),
}

/// A line, and its number in the script; the first line has number 1.
#[derive(Drop)]
pub struct NumberedLine {
    pub number: u32,
    pub line: Line,
}

/// A script, seen as the list of its lines with their numbers. Lines that are skipped aren't in it.
pub type Script = VecList<NumberedLine>;

impl Line {
    /// The line's words.
    pub fn words(&self) -> Words<'_>
        ensures { result ≡ spec.line_words self.now }
    {
        match self {
            Line::Modify(text) => text.words(),
            Line::Params(text) => text.words(),
            Line::Elect(text) => text.words(),
            Line::Operate(text) => text.words(),
            Line::Close(text) => text.words(),
            Line::Get(text) => text.words(),
            Line::Flush(text) => text.words(),
            Line::ExpectParamsOk(text) => text.words(),
            Line::ExpectElected(text) => text.words(),
            Line::ExpectResult(text) => text.words(),
            Line::ExpectEntries(text) => text.words(),
            Line::ExpectFlushed(text) => text.words(),
            Line::ExpectEnd(text) => text.words(),
        }
    }
}

/// A line of this row.
pub fn line_of(row: Row, text: LineText) -> Line
    ensures { result ≡ spec.line_of row text }
{
    match row {
        Row::Modify => Line::Modify(text),
        Row::Params => Line::Params(text),
        Row::Elect => Line::Elect(text),
        Row::Operate => Line::Operate(text),
        Row::Close => Line::Close(text),
        Row::Get => Line::Get(text),
        Row::Flush => Line::Flush(text),
        Row::ExpectParamsOk => Line::ExpectParamsOk(text),
        Row::ExpectElected => Line::ExpectElected(text),
        Row::ExpectResult => Line::ExpectResult(text),
        Row::ExpectEntries => Line::ExpectEntries(text),
        Row::ExpectFlushed => Line::ExpectFlushed(text),
        Row::ExpectEnd => Line::ExpectEnd(text),
    }
}

/// Whether a line begins a call of this name.
pub fn begins(name: &[u8], line: &Line) -> bool
    ensures { result ≡ spec.begins name.now line.now }
{
    match line {
        Line::Modify(text) => text.names(name),
        Line::Get(text) => text.names(name),
        Line::Flush(text) => text.names(name),
        _ => false,
    }
}

impl LineText {
    // Whether the second word, which names the call, is this one.
    fn names(&self, name: &[u8]) -> bool
        ensures { result ≡ spec.names name.now self.now }
    {
        let mut words = self.words();
        if next_bytes(&mut words).is_none() {
            return false;
        }
        match next_bytes(&mut words) {
            None => false,
            Some(second) => second == name,
        }
    }
}
