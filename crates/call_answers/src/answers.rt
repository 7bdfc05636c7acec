ghost use Rattle.std.specs.Prelude.{◌≡◌, ◌≤◌, ◌+◌, ◌++◌, map, length, IfOk, IfSome, OnOk, OnErr, true};
ghost use Rattle.std.specs.Option.{option_map};
ghost use Rattle.gribi_messages.specs.Response.{response_bytes};
ghost use Rattle.call_answers.specs.Answers as said;

use aft_entries::Reason;
use gribi_messages::{
    AftResult, AftResults, ModifyResponse, append_modify_response, append_result_response,
};
use schema_numbers::{Numbering, ValueName};
use std::alloc::{AllocError, Global};
use std::marker::Model;
use table_model::{Batch, FibResult, Reply};

/// A message as its bytes, without the flag and the length that stand before it in a stream.
#[derive(Debug, Drop)]
pub struct Message {
    bytes: Vec<u8>,
}

impl Model for Message {
    ghost use Rattle.std.specs.Prelude.{List, ℕ};

    ghost Value = { List ℕ };

    ghost view = { λ m. m.bytes.items };
}

impl Message {
    /// The bytes.
    pub fn as_bytes(&self) -> &[u8]
        ensures { result.now ≡ self.now }
    {
        &self.bytes
    }

    /// The bytes, as a vector.
    pub fn into_vec(self) -> Vec<u8>
        ensures { result.items ≡ self }
    {
        let Message { bytes } = self;
        bytes
    }
}

// A result of the forwarding table.
fn fib_result(n: &Numbering, given: &FibResult) -> AftResult
    ensures { result ≡ said.fib_result n.now given.entry.now }
{
    match given.failed {
        None => AftResult {
            id: given.id,
            status: n.value(ValueName::ResultStatusFibProgrammed),
            timestamp: given.now,
            reason: 0,
        },
        Some(reason) => AftResult {
            id: given.id,
            status: n.value(ValueName::ResultStatusFibFailed),
            timestamp: given.now,
            reason: u64::from(reason),
        },
    }
}

fn fib_results(alloc: Global, n: &Numbering, given: &Batch) -> Result<AftResults, AllocError>
    ensures { IfOk result (λ results. results ≡ map (said.fib_result n.now) given.now) }
{
    let mut results = AftResults::new(alloc);
    for one in given.as_list().iter().copied() {
        results.push(fib_result(n, &one))?;
    }
    Ok(results)
}

// The result of an operation.
fn operation_result(n: &Numbering, id: u64, now: i64, failed: Option<Reason>) -> AftResult
    ensures { result ≡ said.operation_result n.now id now failed }
{
    match failed {
        None => AftResult {
            id,
            status: n.value(ValueName::ResultStatusRibProgrammed),
            timestamp: now,
            reason: 0,
        },
        Some(reason) => AftResult {
            id,
            status: n.value(ValueName::ResultStatusFailed),
            timestamp: now,
            reason: u64::from(reason.number()),
        },
    }
}

#[tactic(auto, using(crate::proofs::Sizes::short))]
fn append_params_set(alloc: Global, n: &Numbering, out: &mut Vec<u8>) -> Result<bool, AllocError>
    ensures ok { IfOk result (λ has_response. (has_response ≡ true) × (out.new.items ≡ out.old.items ++ response_bytes n.now (said.params_set n.now))) }
    ensures short { OnOk result (length out.new.items ≤ length out.old.items + said.MAX_MESSAGE_SIZE) }
    ensures err { OnErr result (out.new.items ≡ out.old.items) }
{
    let response = ModifyResponse {
        results: AftResults::new(alloc),
        params: Some(n.value(ValueName::ParamsStatusOk)),
        election: None,
    };
    append_modify_response(n, &response, out)?;
    Ok(true)
}

#[tactic(auto, using(crate::proofs::Sizes::short))]
fn append_announced(
    alloc: Global,
    n: &Numbering,
    highest: u128,
    out: &mut Vec<u8>,
) -> Result<bool, AllocError>
    ensures ok { IfOk result (λ has_response. (has_response ≡ true) × (out.new.items ≡ out.old.items ++ response_bytes n.now (said.announced highest))) }
    ensures short { OnOk result (length out.new.items ≤ length out.old.items + said.MAX_MESSAGE_SIZE) }
    ensures err { OnErr result (out.new.items ≡ out.old.items) }
{
    let response = ModifyResponse {
        results: AftResults::new(alloc),
        params: None,
        election: Some(highest),
    };
    append_modify_response(n, &response, out)?;
    Ok(true)
}

fn append_collected(
    alloc: Global,
    n: &Numbering,
    given: &Batch,
    out: &mut Vec<u8>,
) -> Result<bool, AllocError>
    ensures ok { IfOk result (λ has_response. said.Answers n.now has_response (said.collected n.now given.now) out.old.items out.new.items) }
    ensures short { OnOk result (length out.new.items ≤ length out.old.items + said.MAX_MESSAGE_SIZE) }
    ensures err { OnErr result (out.new.items ≡ out.old.items) }
{
    if given.len() == 0 {
        return Ok(false);
    }
    let response = ModifyResponse {
        results: fib_results(alloc, n, given)?,
        params: None,
        election: None,
    };
    append_modify_response(n, &response, out)?;
    Ok(true)
}

fn append_result(n: &Numbering, one: &AftResult, out: &mut Vec<u8>) -> Result<bool, AllocError>
    ensures ok { IfOk result (λ has_response. (has_response ≡ true) × (out.new.items ≡ out.old.items ++ response_bytes n.now (said.one_result one.now))) }
    ensures short { OnOk result (length out.new.items ≤ length out.old.items + said.MAX_MESSAGE_SIZE) }
    ensures err { OnErr result (out.new.items ≡ out.old.items) }
{
    append_result_response(n, one, out)?;
    Ok(true)
}

/// Appends the ModifyResponse that tells the result of an operation, with its id and its moment, in nanoseconds. Without memory
/// `out` is unchanged.
pub fn append_operation_result(
    n: &Numbering,
    id: u64,
    now: i64,
    failed: Option<Reason>,
    out: &mut Vec<u8>,
) -> Result<(), AllocError>
    ensures ok { OnOk result (out.new.items ≡ out.old.items ++ response_bytes n.now (said.one_result (said.operation_result n.now id now failed))) }
    ensures short { OnOk result (length out.new.items ≤ length out.old.items + said.MAX_MESSAGE_SIZE) }
    ensures err { OnErr result (out.new.items ≡ out.old.items) }
{
    append_result(n, &operation_result(n, id, now, failed), out)?;
    Ok(())
}

/// Appends the ModifyResponse that is owed for a reply, and tells whether one is. An operation's result bears its id and its
/// moment, in nanoseconds.
pub fn append_answer(
    alloc: Global,
    n: &Numbering,
    id: u64,
    now: i64,
    reply: &Reply,
    out: &mut Vec<u8>,
) -> Result<bool, AllocError>
    ensures ok { IfOk result (λ has_response. said.Answers n.now has_response (said.response_for n.now id now reply.now) out.old.items out.new.items) }
    ensures short { OnOk result (length out.new.items ≤ length out.old.items + said.MAX_MESSAGE_SIZE) }
    ensures err { OnErr result (out.new.items ≡ out.old.items) }
{
    match reply {
        Reply::ParamsSet => append_params_set(alloc, n, out),
        Reply::Announced(highest) => append_announced(alloc, n, *highest, out),
        Reply::RibDone => append_result(n, &operation_result(n, id, now, None), out),
        Reply::RibFailed(reason) => {
            append_result(n, &operation_result(n, id, now, Some(*reason)), out)
        }
        Reply::Collected(given, _) => append_collected(alloc, n, given, out),
        _ => Ok(false),
    }
}

/// The one ModifyResponse that is owed for a reply, or None where none is. An operation's result bears its id and its moment,
/// in nanoseconds.
pub fn answer_of(
    alloc: Global,
    n: &Numbering,
    id: u64,
    now: i64,
    reply: &Reply,
) -> Result<Option<Message>, AllocError>
    ensures response_for { IfOk result (λ message. message ≡ option_map (response_bytes n.now) (said.response_for n.now id now reply.now)) }
    ensures short { IfOk result (λ message. IfSome message (λ bytes. length bytes ≤ said.MAX_MESSAGE_SIZE)) }
{
    let mut bytes = Vec::new(alloc);
    if append_answer(alloc, n, id, now, reply, &mut bytes)? {
        Ok(Some(Message { bytes }))
    } else {
        Ok(None)
    }
}
