ghost use Rattle.std.specs.Prelude.{◌≡◌, ◌==◌, ◌≤◌, ◌⊎◌, [], IfOk, IfErr, OnOk, OnErr, Ok, Err, Some, MatchOption, true, false, length};
ghost use Rattle.std.specs.List.{list_any, count_by};
ghost use Rattle.script_lang.specs.Words.{lines, words};
ghost use Rattle.script_lang.specs.Scripts as spec;
ghost use Rattle.script_lang.specs.declared.fault.ScriptFaultKind.TheVariants as kind;

use crate::fault::{ScriptFault, ScriptFaultKind};
use crate::form::row_behind;
use crate::line::{NumberedLine, Row, Script, begins, line_of, line_text};
use crate::split::split_piece;
use crate::words::{Words, next_bytes};
use std::alloc::{AllocError, Global};
use std::str::from_utf8;
use vec_list::VecList;

fn newlines(text: &[u8]) -> usize
    ensures count { result ≡ count_by (λ c. c == 10) text.now }
    ensures bound { result ≤ length text.now }
{
    text.iter().filter(|c| **c == b'\n').count()
}

// The number of the line that holds the first byte past the limit, or 0 where there is none.
#[tactic(auto, unfolding(crate::specs::Scripts::long_line))]
fn long_line(text: &[u8]) -> usize
    ensures { result ≡ spec.long_line text.now }
{
    if text.len() <= 1048576 {
        return 0;
    }
    let (front, _) = text.split_at(1048576);
    1 + newlines(front)
}

fn is_past(long: usize, number: u32) -> bool
    ensures { result ≡ spec.is_past long number }
{
    number as usize == long || number > 10000
}

// The text of a line that is UTF-8.
#[tactic(auto, using(crate::proofs::Reading::utf8_true, crate::proofs::Reading::utf8_false))]
fn utf8_text(line: &[u8]) -> Option<&str>
    ensures { MatchOption result (spec.is_utf8 line.now ≡ false) (λ text. (text.now ≡ line.now) × (spec.is_utf8 line.now ≡ true)) }
{
    match from_utf8(line) {
        Ok(text) => Some(text),
        Err(_) => None,
    }
}

fn begins_call(row: Row) -> bool
    ensures { result ≡ spec.begins_call row }
{
    match row {
        Row::Modify => true,
        Row::Get => true,
        Row::Flush => true,
        _ => false,
    }
}

// Whether one of these lines begins a call of this name.
fn is_begun(name: &[u8], before: &[NumberedLine]) -> bool
    ensures { result ≡ spec.is_begun name.now before.now }
{
    before.iter().any(|l| begins(name, &l.line))
}

fn call_name<'a>(words: &Words<'a>) -> &'a [u8]
    ensures { result.now ≡ spec.call_name words.now }
{
    let mut words = words.twin();
    match next_bytes(&mut words) {
        None => &[],
        Some(name) => name,
    }
}

fn named(begun: bool, row: Result<Row, ScriptFaultKind>) -> Result<Option<Row>, ScriptFaultKind>
    ensures { result ≡ spec.named begun row }
{
    match row {
        Err(kind) => Err(kind),
        Ok(row) => {
            if begins_call(row) {
                if begun {
                    Err(ScriptFaultKind::NameTaken)
                } else {
                    Ok(Some(row))
                }
            } else if begun {
                Ok(Some(row))
            } else {
                Err(ScriptFaultKind::UnknownCall)
            }
        }
    }
}

fn is_comment(word: &[u8]) -> bool
    ensures { result ≡ spec.is_comment word.now }
{
    match word.first() {
        None => false,
        Some(c) => *c == b'#',
    }
}

#[tactic(auto, unfolding(crate::specs::Scripts::words_row))]
fn words_row(before: &[NumberedLine], words: &mut Words<'_>) -> Result<Option<Row>, ScriptFaultKind>
    ensures { result ≡ spec.words_row before.now words.old }
{
    let Some(first) = next_bytes(words) else {
        return Ok(None);
    };
    if is_comment(first) {
        return Ok(None);
    }
    let begun = is_begun(call_name(words), before);
    named(begun, row_behind(first, words))
}

fn add_line(
    alloc: Global,
    script: &mut Script,
    number: u32,
    row: Row,
    line: &str,
) -> Result<(), AllocError>
    ensures { OnOk result (script.new ≡ spec.with_line script.old number row (words line.now)) }
{
    let text = line_text(alloc, line)?;
    let line = line_of(row, text);
    script.push(NumberedLine { number, line })?;
    Ok(())
}

// Takes a line's text to the script, where it is read and not skipped.
fn take_text(
    alloc: Global,
    script: &mut Script,
    number: u32,
    text: &str,
) -> Result<(), ScriptFaultKind>
    ensures ok { OnOk result (spec.words_taken script.old number (words text.now) ≡ Ok script.new) }
    ensures err { IfErr result (λ k. (k ≡ kind.NoMemory) ⊎ (spec.words_taken script.old number (words text.now) ≡ Err k)) }
{
    match words_row(script.as_slice(), &mut Words::new(text)) {
        Err(kind) => Err(kind),
        Ok(None) => Ok(()),
        Ok(Some(row)) => {
            match add_line(alloc, script, number, row, text) {
                Ok(()) => Ok(()),
                Err(_) => Err(ScriptFaultKind::NoMemory),
            }
        }
    }
}

#[tactic(auto, unfolding(crate::specs::Scripts::line_row))]
fn take_line(
    alloc: Global,
    long: usize,
    script: &mut Script,
    number: u32,
    line: &[u8],
) -> Result<(), ScriptFaultKind>
    ensures ok { OnOk result (spec.line_taken long script.old number line.now ≡ Ok script.new) }
    ensures err { IfErr result (λ k. (k ≡ kind.NoMemory) ⊎ (spec.line_taken long script.old number line.now ≡ Err k)) }
    ensures few { OnOk result (number ≤ 10000) }
{
    if is_past(long, number) {
        return Err(ScriptFaultKind::TooLong);
    }
    match utf8_text(line) {
        None => Err(ScriptFaultKind::NotUtf8),
        Some(text) => take_text(alloc, script, number, text),
    }
}

#[tactic(auto, using(crate::proofs::Reading::from_taken, crate::proofs::Reading::from_fault))]
fn read_lines(alloc: Global, text: &[u8], script: &mut Script) -> Result<(), ScriptFault>
    ensures ok { OnOk result (spec.from (spec.long_line text.now) script.old 1 (lines text.now) ≡ Ok script.new) }
    ensures err { IfErr result (λ f. (f.kind ≡ kind.NoMemory) ⊎ (spec.from (spec.long_line text.now) script.old 1 (lines text.now) ≡ Err f)) }
{
    let long = long_line(text);
    let mut number: u32 = 1;
    let mut rest = text;
    'lines: while let Some((line, behind)) = split_piece(rest, b'\n') {
        if let Err(kind) = take_line(alloc, long, script, number, line) {
            return Err(ScriptFault { line: number, kind });
        }
        number += 1;
        rest = behind;
    }
    Ok(())
}

/// Reads a script: the lines of the text with their numbers, empty lines and comments (`#`) left out, or the first fault of its
/// lines. `specs/Scripts` says which. `NoMemory` may come in place of any answer.
#[tactic(auto, unfolding(crate::specs::Scripts::script))]
pub fn read_script(alloc: Global, text: &[u8]) -> Result<Script, ScriptFault>
    ensures ok { IfOk result (λ script. spec.script text.now ≡ Ok script) }
    ensures err { IfErr result (λ fault. (fault.kind ≡ kind.NoMemory) ⊎ (spec.script text.now ≡ Err fault)) }
{
    let mut script = VecList::new(alloc);
    match read_lines(alloc, text, &mut script) {
        Ok(()) => Ok(script),
        Err(fault) => Err(fault),
    }
}
