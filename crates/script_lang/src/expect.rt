ghost use Rattle.std.specs.Prelude.{◌≡◌};
ghost use Rattle.script_lang.specs.Forms as spec;

use crate::fault::ScriptFaultKind;
use crate::fit::{both, fits_if, is};
use crate::form::judged;
use crate::line::Row;
use crate::number::{number, wide_number};
use crate::words::{Words, next_bytes};

fn is_first_status(word: &[u8]) -> bool
    ensures { result ≡ spec.is_first_status word.now }
{
    is("OK", word)
        || is("CANCELLED", word)
        || is("UNKNOWN", word)
        || is("INVALID_ARGUMENT", word)
        || is("DEADLINE_EXCEEDED", word)
        || is("NOT_FOUND", word)
        || is("ALREADY_EXISTS", word)
        || is("PERMISSION_DENIED", word)
}

fn is_later_status(word: &[u8]) -> bool
    ensures { result ≡ spec.is_later_status word.now }
{
    is("RESOURCE_EXHAUSTED", word)
        || is("FAILED_PRECONDITION", word)
        || is("ABORTED", word)
        || is("OUT_OF_RANGE", word)
        || is("UNIMPLEMENTED", word)
        || is("INTERNAL", word)
        || is("UNAVAILABLE", word)
        || is("DATA_LOSS", word)
        || is("UNAUTHENTICATED", word)
}

fn is_status(word: &[u8]) -> bool
    ensures { result ≡ spec.is_status word.now }
{
    is_first_status(word) || is_later_status(word)
}

fn is_reason(word: &[u8]) -> bool
    ensures { result ≡ spec.is_reason word.now }
{
    is("UNSUPPORTED_PARAMS", word)
        || is("MODIFY_NOT_ALLOWED", word)
        || is("PARAMS_DIFFER_FROM_OTHER_CLIENTS", word)
        || is("ELECTION_ID_IN_ALL_PRIMARY", word)
}

fn is_success(word: &[u8]) -> bool
    ensures { result ≡ spec.is_success word.now }
{
    is("rib-programmed", word) || is("fib-programmed", word)
}

fn is_failure(word: &[u8]) -> bool
    ensures { result ≡ spec.is_failure word.now }
{
    is("failed", word) || is("fib-failed", word)
}

fn is_flush_result(word: &[u8]) -> bool
    ensures { result ≡ spec.is_flush_result word.now }
{
    is("ok", word) || is("remain", word)
}

fn expect_one(item: &[u8]) -> Result<Row, ScriptFaultKind>
    ensures { result ≡ spec.expect_one item.now }
{
    judged(Row::ExpectParamsOk, fits_if(is("params-ok", item)))
}

#[tactic(auto, unfolding(crate::specs::Forms::expect_two))]
fn expect_two(item: &[u8], what: &[u8]) -> Result<Row, ScriptFaultKind>
    ensures { result ≡ spec.expect_two item.now what.now }
{
    if is("elected", item) {
        judged(Row::ExpectElected, wide_number(what))
    } else if is("entries", item) {
        judged(Row::ExpectEntries, number(what))
    } else if is("flushed", item) {
        judged(Row::ExpectFlushed, fits_if(is_flush_result(what)))
    } else if is("end", item) {
        judged(Row::ExpectEnd, fits_if(is_status(what)))
    } else {
        judged(
            Row::ExpectResult,
            both(number(item), fits_if(is_success(what))),
        )
    }
}

fn is_end(status: &[u8], reason: &[u8]) -> bool
    ensures { result ≡ spec.is_end status.now reason.now }
{
    is_status(status) && is_reason(reason)
}

#[tactic(auto, unfolding(crate::specs::Forms::expect_three))]
fn expect_three(item: &[u8], what: &[u8], reason: &[u8]) -> Result<Row, ScriptFaultKind>
    ensures { result ≡ spec.expect_three item.now what.now reason.now }
{
    if is("end", item) {
        judged(Row::ExpectEnd, fits_if(is_end(what, reason)))
    } else {
        let failure = both(fits_if(is_failure(what)), number(reason));
        judged(Row::ExpectResult, both(number(item), failure))
    }
}

/// Reads the words of an `expect` line, behind its first.
pub fn expect_row(words: &mut Words<'_>) -> Result<Row, ScriptFaultKind>
    ensures { result ≡ spec.expect_row words.old }
{
    let Some(_call) = next_bytes(words) else {
        return Err(ScriptFaultKind::BadShape);
    };
    let Some(item) = next_bytes(words) else {
        return Err(ScriptFaultKind::BadShape);
    };
    let Some(what) = next_bytes(words) else {
        return expect_one(item);
    };
    let Some(reason) = next_bytes(words) else {
        return expect_two(item, what);
    };
    let Some(_) = next_bytes(words) else {
        return expect_three(item, what, reason);
    };
    Err(ScriptFaultKind::BadShape)
}
