ghost use Rattle.std.specs.Prelude.{◌≡◌};
ghost use Rattle.script_lang.specs.Forms as spec;

use crate::entry::{delete_form, put_form};
use crate::expect::expect_row;
use crate::fault::ScriptFaultKind;
use crate::fit::{Fit, both, fits_if, is};
use crate::line::Row;
use crate::number::wide_number;
use crate::words::{Words, next_bytes};

/// The row, where its words fit, and else what is wrong with them.
pub fn judged(row: Row, fit: Fit) -> Result<Row, ScriptFaultKind>
    ensures { result ≡ spec.judged row fit }
{
    match fit {
        Fit::Fits => Ok(row),
        Fit::TooGreat => Err(ScriptFaultKind::BadNumber),
        Fit::Unlike => Err(ScriptFaultKind::BadShape),
    }
}

/// The row of the line's words behind the first one.
#[tactic(auto, unfolding(crate::specs::Forms::row_behind))]
pub fn row_behind(first: &[u8], words: &mut Words<'_>) -> Result<Row, ScriptFaultKind>
    ensures { result ≡ spec.row_behind first.now words.old }
{
    if is("modify", first) {
        judged(Row::Modify, call_form(words))
    } else if is("params", first) {
        judged(Row::Params, params_form(words))
    } else if is("elect", first) {
        judged(Row::Elect, elect_form(words))
    } else if is("add", first) || is("replace", first) {
        judged(Row::Operate, put_form(words))
    } else if is("delete", first) {
        judged(Row::Operate, delete_form(words))
    } else if is("finish", first) || is("drop", first) {
        judged(Row::Close, call_form(words))
    } else if is("get", first) {
        judged(Row::Get, get_form(words))
    } else if is("flush", first) {
        judged(Row::Flush, flush_form(words))
    } else if is("expect", first) {
        expect_row(words)
    } else {
        Err(ScriptFaultKind::UnknownWord)
    }
}

fn call_form(words: &mut Words<'_>) -> Fit
    ensures { result ≡ spec.call_form words.old }
{
    let Some(_call) = next_bytes(words) else {
        return Fit::Unlike;
    };
    let Some(_) = next_bytes(words) else {
        return Fit::Fits;
    };
    Fit::Unlike
}

fn is_params(redundancy: &[u8], persistence: &[u8], ack: &[u8]) -> bool
    ensures { result ≡ spec.is_params redundancy.now persistence.now ack.now }
{
    (is("all-primary", redundancy) || is("single-primary", redundancy))
        && (is("delete", persistence) || is("preserve", persistence))
        && (is("rib-ack", ack) || is("rib-and-fib-ack", ack))
}

fn params_form(words: &mut Words<'_>) -> Fit
    ensures { result ≡ spec.params_form words.old }
{
    let Some(_call) = next_bytes(words) else {
        return Fit::Unlike;
    };
    let Some(redundancy) = next_bytes(words) else {
        return Fit::Unlike;
    };
    let Some(persistence) = next_bytes(words) else {
        return Fit::Unlike;
    };
    let Some(ack) = next_bytes(words) else {
        return Fit::Unlike;
    };
    let Some(_) = next_bytes(words) else {
        return fits_if(is_params(redundancy, persistence, ack));
    };
    Fit::Unlike
}

fn elect_form(words: &mut Words<'_>) -> Fit
    ensures { result ≡ spec.elect_form words.old }
{
    let Some(_call) = next_bytes(words) else {
        return Fit::Unlike;
    };
    let Some(id) = next_bytes(words) else {
        return Fit::Unlike;
    };
    let Some(_) = next_bytes(words) else {
        return wide_number(id);
    };
    Fit::Unlike
}

fn is_get_kind(word: &[u8]) -> bool
    ensures { result ≡ spec.is_get_kind word.now }
{
    is("all", word)
        || is("ipv4", word)
        || is("ipv6", word)
        || is("mpls", word)
        || is("next-hop", word)
        || is("group", word)
}

fn get_form(words: &mut Words<'_>) -> Fit
    ensures { result ≡ spec.get_form words.old }
{
    let Some(_call) = next_bytes(words) else {
        return Fit::Unlike;
    };
    let Some(_instance) = next_bytes(words) else {
        return Fit::Unlike;
    };
    let Some(kind) = next_bytes(words) else {
        return Fit::Unlike;
    };
    let Some(_) = next_bytes(words) else {
        return fits_if(is_get_kind(kind));
    };
    Fit::Unlike
}

fn flush_form(words: &mut Words<'_>) -> Fit
    ensures { result ≡ spec.flush_form words.old }
{
    let Some(_call) = next_bytes(words) else {
        return Fit::Unlike;
    };
    let Some(way) = next_bytes(words) else {
        return Fit::Unlike;
    };
    let Some(third) = next_bytes(words) else {
        return Fit::Unlike;
    };
    let Some(_instance) = next_bytes(words) else {
        return fits_if(is("override", way));
    };
    let Some(_) = next_bytes(words) else {
        return both(fits_if(is("id", way)), wide_number(third));
    };
    Fit::Unlike
}
