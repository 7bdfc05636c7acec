ghost use Rattle.std.specs.Prelude.{◌≡◌, IfOk};
ghost use Rattle.line_requests.specs.Asks as spec;

use crate::ask::LineAsk;
use crate::entry::entry_of;
use crate::number::{narrow, wide};
use crate::words::{is, name};
use aft_entries::{Op, RawOperation};
use gribi_messages::{ModifyRequest, RawOperations};
use script_lang::Words;
use std::alloc::{AllocError, Global};

fn op_of(word: &str) -> Op
    ensures { result ≡ spec.op_of word.now }
{
    if is("add", word) {
        Op::Add
    } else if is("replace", word) {
        Op::Replace
    } else {
        Op::Delete
    }
}

fn election_by(last: Option<u128>, words: &mut Words<'_>) -> Option<u128>
    ensures { result ≡ spec.election_by last words.old }
{
    let Some(_by) = words.next() else {
        return last;
    };
    let Some(id) = words.next() else {
        return last;
    };
    if is("none", id) { None } else { Some(wide(id)) }
}

fn operation_request(alloc: Global, o: RawOperation) -> Result<ModifyRequest, AllocError>
    ensures { IfOk result (λ request. request ≡ spec.operation_request o) }
{
    let mut operations = RawOperations::new(alloc);
    operations.push(o)?;
    Ok(ModifyRequest {
        operations,
        params: None,
        election: None,
    })
}

/// What an operation's line asks, by its first word and those behind the call's name.
pub fn operate_ask(
    alloc: Global,
    last: Option<u128>,
    first: &str,
    words: &mut Words<'_>,
) -> Result<LineAsk, AllocError>
    ensures { IfOk result (λ ask. ask ≡ spec.operate_ask last first.now words.old) }
{
    let Some(id) = words.next() else {
        return Ok(LineAsk::Nothing);
    };
    let Some(instance) = words.next() else {
        return Ok(LineAsk::Nothing);
    };
    let Some(kind) = words.next() else {
        return Ok(LineAsk::Nothing);
    };
    let Some(key) = words.next() else {
        return Ok(LineAsk::Nothing);
    };
    let entry = entry_of(alloc, kind, key, words)?;
    let instance = name(alloc, instance)?;
    let request = operation_request(
        alloc,
        RawOperation {
            id: narrow(id),
            instance,
            op: Some(op_of(first)),
            entry: Some(entry),
            election: election_by(last, words),
        },
    )?;
    Ok(LineAsk::Send(request))
}
