//! What a script that was read is. The law is the contract of a function that does nothing: to call it is to cite the law.
ghost use Rattle.std.specs.Prelude.{◌≡◌, ℕ, List, Ok, map};
ghost use Rattle.script_lang.specs.Words.{lines, words};
ghost use Rattle.std.specs.List.{join_with_byte};
ghost use Rattle.script_lang.specs.Scripts.{script};
ghost use Rattle.script_lang.specs.KeptLines.{seen, numbered};
ghost use Rattle.script_lang.specs.declared.line.NumberedLine.{NumberedLine};

/// A script that is read has each line of its text that isn't skipped, with its number and its words, and no other.
pub fn lines_are_kept()
    ensures { (text : List ℕ) (kept : List NumberedLine) → script text ≡ Ok kept → map seen kept ≡ numbered 1 (lines text) }
{}

/// The words of a line, written with one space between each two, are read as the same words.
pub fn printed_words_are_read_again()
    ensures { (line : List ℕ) → words (join_with_byte 32 (words line)) ≡ words line }
{}
