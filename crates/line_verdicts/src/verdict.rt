ghost use Rattle.std.specs.Prelude.{◌≡◌};
ghost use Rattle.std.specs.List.{find};
ghost use Rattle.std.specs.Option.{option_map};
ghost use Rattle.script_lang.specs.Lines.{line_words};
ghost use Rattle.line_verdicts.specs.Verdicts as spec;

use crate::matching::{line_is_about, line_matches, line_matches_end};
use crate::seen::{Judged, Seen, SeenEnd};
use script_lang::Line;

/// The place of the first item that the line expects.
pub fn match_place(line: &Line, items: &[Seen]) -> Option<usize>
    ensures { result ≡ spec.match_place (spec.expected (line_words line.now)) items.now }
{
    items.iter().position(|item| line_matches(line, item))
}

fn rival(line: &Line, items: &[Seen]) -> Option<Seen>
    ensures { result ≡ find (spec.is_rival (spec.expected (line_words line.now))) items.now }
{
    items.iter().copied().find(|item| line_is_about(line, item))
}

/// The verdict of a line that no item matches.
pub fn unmatched(line: &Line, items: &[Seen], ended: Option<SeenEnd>) -> Option<Judged>
    ensures { result ≡ spec.unmatched (find (spec.is_rival (spec.expected (line_words line.now))) items.now) ended }
{
    if let Some(item) = rival(line, items) {
        return Some(Judged::Fail(item));
    }
    match ended {
        None => None,
        Some(ending) => Some(Judged::Fail(Seen::End(ending))),
    }
}

/// The verdict of a line on the entries of an ended call.
pub fn entries_judged(line: &Line, count: u64) -> Judged
    ensures { result ≡ spec.entries_judged (spec.expected (line_words line.now)) count }
{
    let item = Seen::Entries(count);
    if line_matches(line, &item) {
        Judged::Pass
    } else {
        Judged::Fail(item)
    }
}

/// The verdict of a line on a call's end.
pub fn end_judged(line: &Line, ending: SeenEnd) -> Judged
    ensures { result ≡ spec.end_judged (spec.expected (line_words line.now)) ending }
{
    if line_matches_end(line, ending) {
        Judged::Pass
    } else {
        Judged::Fail(Seen::End(ending))
    }
}
