ghost use Rattle.std.specs.Prelude.{◌≡◌, ◌++◌, ◌∷◌, [], IfOk, OnOk, string_bytes};
ghost use Rattle.std.specs.List.{join_with_byte};
ghost use Rattle.std.specs.Fmt.{decimal};
ghost use Rattle.line_verdicts.specs.Seen as spec;

use crate::seen::{Seen, SeenEnd};
use grpc_heads::ModifyReason;
use itoa::Buffer;
use std::alloc::{AllocError, Global};

#[tactic(auto, unfolding(crate::specs::Seen::later_status_name))]
fn later_status_name(code: u8) -> &'static str
    ensures { result.now ≡ spec.later_status_name code }
{
    if code == 8 {
        "RESOURCE_EXHAUSTED"
    } else if code == 9 {
        "FAILED_PRECONDITION"
    } else if code == 10 {
        "ABORTED"
    } else if code == 11 {
        "OUT_OF_RANGE"
    } else if code == 12 {
        "UNIMPLEMENTED"
    } else if code == 13 {
        "INTERNAL"
    } else if code == 14 {
        "UNAVAILABLE"
    } else if code == 15 {
        "DATA_LOSS"
    } else if code == 16 {
        "UNAUTHENTICATED"
    } else {
        "UNKNOWN"
    }
}

/// The name of a status code.
#[tactic(auto, unfolding(crate::specs::Seen::status_name))]
pub fn status_name(code: u8) -> &'static str
    ensures { result.now ≡ spec.status_name code }
{
    if code == 0 {
        "OK"
    } else if code == 1 {
        "CANCELLED"
    } else if code == 2 {
        "UNKNOWN"
    } else if code == 3 {
        "INVALID_ARGUMENT"
    } else if code == 4 {
        "DEADLINE_EXCEEDED"
    } else if code == 5 {
        "NOT_FOUND"
    } else if code == 6 {
        "ALREADY_EXISTS"
    } else if code == 7 {
        "PERMISSION_DENIED"
    } else {
        later_status_name(code)
    }
}

/// The name of a reason.
pub fn reason_name(why: ModifyReason) -> &'static str
    ensures { result.now ≡ spec.reason_name why }
{
    match why {
        ModifyReason::UnsupportedParams => "UNSUPPORTED_PARAMS",
        ModifyReason::ModifyNotAllowed => "MODIFY_NOT_ALLOWED",
        ModifyReason::ParamsDiffer => "PARAMS_DIFFER_FROM_OTHER_CLIENTS",
        ModifyReason::ElectionIdInAllPrimary => "ELECTION_ID_IN_ALL_PRIMARY",
    }
}

fn push_one(first: &str, out: &mut String) -> Result<(), AllocError>
    ensures ok { OnOk result (string_bytes out.new ≡ string_bytes out.old ++ join_with_byte 32 (first.now ∷ [])) }
{
    out.push_str(first)?;
    Ok(())
}

fn push_two(first: &str, second: &str, out: &mut String) -> Result<(), AllocError>
    ensures ok { OnOk result (string_bytes out.new ≡ string_bytes out.old ++ join_with_byte 32 (first.now ∷ second.now ∷ [])) }
{
    out.push_str(first)?;
    out.push_str(" ")?;
    out.push_str(second)?;
    Ok(())
}

fn push_three(first: &str, second: &str, third: &str, out: &mut String) -> Result<(), AllocError>
    ensures ok { OnOk result (string_bytes out.new ≡ string_bytes out.old ++ join_with_byte 32 (first.now ∷ second.now ∷ third.now ∷ [])) }
{
    out.push_str(first)?;
    out.push_str(" ")?;
    push_two(second, third, out)
}

fn push_named(name: &str, number: u128, out: &mut String) -> Result<(), AllocError>
    ensures ok { OnOk result (string_bytes out.new ≡ string_bytes out.old ++ join_with_byte 32 (name.now ∷ decimal number ∷ [])) }
{
    let mut buffer = Buffer::new();
    push_two(name, buffer.format(number), out)
}

fn push_success(id: u64, what: &str, out: &mut String) -> Result<(), AllocError>
    ensures ok { OnOk result (string_bytes out.new ≡ string_bytes out.old ++ join_with_byte 32 (decimal id ∷ what.now ∷ [])) }
{
    let mut buffer = Buffer::new();
    push_two(buffer.format(id), what, out)
}

fn push_failure(id: u64, what: &str, why: u64, out: &mut String) -> Result<(), AllocError>
    ensures ok { OnOk result (string_bytes out.new ≡ string_bytes out.old ++ join_with_byte 32 (decimal id ∷ what.now ∷ decimal why ∷ [])) }
{
    let mut first = Buffer::new();
    let mut last = Buffer::new();
    push_three(first.format(id), what, last.format(why), out)
}

fn push_end(ending: SeenEnd, out: &mut String) -> Result<(), AllocError>
    ensures ok { OnOk result (string_bytes out.new ≡ string_bytes out.old ++ join_with_byte 32 (spec.whole_end_words ending.code ending.reason)) }
{
    match ending.reason {
        None => push_two("end", status_name(ending.code), out),
        Some(why) => push_three("end", status_name(ending.code), reason_name(why), out),
    }
}

/// The words of an item, parted by one space. Fails only for want of memory.
pub fn print_seen(alloc: Global, item: &Seen) -> Result<String, AllocError>
    ensures { IfOk result (λ text. string_bytes text ≡ join_with_byte 32 (spec.seen_words item.now)) }
{
    let mut out = String::new(alloc);
    append_seen(item, &mut out)?;
    Ok(out)
}

// After want of memory `out` ends somewhere in the words: `print_seen` drops it.
fn append_seen(item: &Seen, out: &mut String) -> Result<(), AllocError>
    ensures ok { OnOk result (string_bytes out.new ≡ string_bytes out.old ++ join_with_byte 32 (spec.seen_words item.now)) }
{
    match *item {
        Seen::ParamsOk => push_one("params-ok", out),
        Seen::Elected(id) => push_named("elected", id, out),
        Seen::RibProgrammed(id) => push_success(id, "rib-programmed", out),
        Seen::FibProgrammed(id) => push_success(id, "fib-programmed", out),
        Seen::Failed(id, why) => push_failure(id, "failed", why, out),
        Seen::FibFailed(id, why) => push_failure(id, "fib-failed", why, out),
        Seen::Entries(count) => push_named("entries", count as u128, out),
        Seen::FlushedOk => push_two("flushed", "ok", out),
        Seen::FlushedRemain => push_two("flushed", "remain", out),
        Seen::End(ending) => push_end(ending, out),
    }
}
