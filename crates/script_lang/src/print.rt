ghost use Rattle.std.specs.Prelude.{◌≡◌, ◌++◌, IfOk, OnOk, string_bytes, replicate};
ghost use Rattle.std.specs.List.{join_with_byte};
ghost use Rattle.script_lang.specs.Printed as spec;

use crate::line::{NumberedLine, Script};
use crate::words::Words;
use std::alloc::{AllocError, Global};

/// Writes a script: each line at its own number, with empty lines between, words parted by one space, and no newline behind the
/// last line. Fails only for want of memory.
#[tactic(auto, unfolding(crate::specs::Printed::printed))]
pub fn print_script(alloc: Global, script: &Script) -> Result<String, AllocError>
    ensures { IfOk result (λ text. string_bytes text ≡ spec.printed script.now) }
{
    let mut out = String::new(alloc);
    put_lines(script.as_slice(), &mut out)?;
    Ok(out)
}

#[tactic(auto, using(crate::proofs::Printing::lines_step, crate::proofs::Printing::lines_end))]
fn put_lines(lines: &[NumberedLine], out: &mut String) -> Result<(), AllocError>
    ensures { OnOk result (string_bytes out.new ≡ string_bytes out.old ++ spec.printed_behind 1 lines.now) }
{
    let mut number: u32 = 1;
    'lines: for place in 0..lines.len() {
        let line = &lines[place];
        put_line(number, line, out)?;
        number = line.number;
    }
    Ok(())
}

fn put_line(number: u32, line: &NumberedLine, out: &mut String) -> Result<(), AllocError>
    ensures { OnOk result (string_bytes out.new ≡ string_bytes out.old ++ spec.printed_line number line.now) }
{
    put_newlines(line.number.saturating_sub(number), out)?;
    let mut words = line.line.words();
    put_words(&mut words, out)
}

#[tactic(auto, using(crate::proofs::Printing::newlines_step, crate::proofs::Printing::newlines_end))]
fn put_newlines(count: u32, out: &mut String) -> Result<(), AllocError>
    ensures { OnOk result (string_bytes out.new ≡ string_bytes out.old ++ replicate count 10) }
{
    let mut left = count;
    'newlines: while left > 0 {
        out.push_str("\n")?;
        left -= 1;
    }
    Ok(())
}

#[tactic(auto, using(crate::proofs::Printing::first_step))]
fn put_words(words: &mut Words<'_>, out: &mut String) -> Result<(), AllocError>
    ensures { OnOk result (string_bytes out.new ≡ string_bytes out.old ++ join_with_byte 32 words.old) }
{
    match words.next() {
        None => Ok(()),
        Some(first) => {
            out.push_str(first)?;
            put_more_words(words, out)?;
            Ok(())
        }
    }
}

#[tactic(auto, using(crate::proofs::Printing::words_step, crate::proofs::Printing::words_end))]
fn put_more_words(words: &mut Words<'_>, out: &mut String) -> Result<(), AllocError>
    ensures { OnOk result (string_bytes out.new ≡ string_bytes out.old ++ spec.spaced words.old) }
{
    'words: while let Some(word) = words.next() {
        out.push_str(" ")?;
        out.push_str(word)?;
    }
    Ok(())
}
