//! What a message of each kind of call gives.
ghost use Rattle.std.specs.Prelude.{◌≡◌, ◌≢◌, IfOk, OnOk, is_some, true};
ghost use Rattle.line_verdicts.specs.Items.{with_end};
ghost use Rattle.grpc_heads.specs.declared.head.Method.TheVariants as method;
ghost use Rattle.compliance_client.specs.Deeds as spec;

use gribi_messages::{
    MessageFault, decode_flush_response, decode_get_response, decode_modify_response,
};
use line_verdicts::{CallItems, SeenEnd, Tally};
use schema_numbers::Numbering;
use std::alloc::{AllocError, Global};

/// The end of a call without a status that can be read.
pub(crate) const UNKNOWN: SeenEnd = SeenEnd {
    code: 2,
    reason: None,
};

/// The end of a call that its client drops.
pub(crate) const CANCELLED: SeenEnd = SeenEnd {
    code: 1,
    reason: None,
};

// A message that can't be read ends the call.
fn refuse(fault: MessageFault, items: &mut CallItems) -> Result<bool, AllocError>
    ensures refused { IfOk result (λ is_refused. is_refused ≡ true) }
    ensures memory { OnOk result (fault ≢ MessageFault.NoMemory) }
    ensures ended { OnOk result (items.new ≡ with_end spec.unknown items.old) }
{
    match fault {
        MessageFault::NoMemory => Err(AllocError),
        _ => {
            items.end(UNKNOWN);
            Ok(true)
        }
    }
}

/// An answer of a Modify call: its items, and the counts of its results. Says whether it can't be read.
pub(crate) fn hear_modify(
    alloc: Global,
    n: &Numbering,
    bytes: &[u8],
    items: &mut CallItems,
    tally: &mut Tally,
) -> Result<bool, AllocError>
    ensures refused { IfOk result (λ is_refused. is_refused ≡ is_some (spec.fault_in n.now method.Modify bytes.now)) }
    ensures heard { OnOk result (items.new ≡ spec.read_or_end (spec.fault_in n.now method.Modify bytes.now)
        (spec.with_message n.now method.Modify bytes.now items.old) items.old) }
    ensures counted { OnOk result (tally.new ≡ spec.tally_message n.now method.Modify bytes.now tally.old) }
{
    match decode_modify_response(alloc, n, bytes) {
        Err(fault) => refuse(fault, items),
        Ok(response) => {
            items.take_modify(n, &response)?;
            tally.count(n, &response);
            Ok(false)
        }
    }
}

/// An answer of a Get call. Says whether it can't be read.
pub(crate) fn hear_get(
    alloc: Global,
    n: &Numbering,
    bytes: &[u8],
    items: &mut CallItems,
) -> Result<bool, AllocError>
    ensures refused { IfOk result (λ is_refused. is_refused ≡ is_some (spec.fault_in n.now method.Get bytes.now)) }
    ensures heard { OnOk result (items.new ≡ spec.read_or_end (spec.fault_in n.now method.Get bytes.now)
        (spec.with_message n.now method.Get bytes.now items.old) items.old) }
{
    match decode_get_response(alloc, n, bytes) {
        Err(fault) => refuse(fault, items),
        Ok(response) => {
            items.take_get(&response);
            Ok(false)
        }
    }
}

/// The answer of a Flush call. Says whether it can't be read.
pub(crate) fn hear_flush(
    n: &Numbering,
    bytes: &[u8],
    items: &mut CallItems,
) -> Result<bool, AllocError>
    ensures refused { IfOk result (λ is_refused. is_refused ≡ is_some (spec.fault_in n.now method.Flush bytes.now)) }
    ensures heard { OnOk result (items.new ≡ spec.read_or_end (spec.fault_in n.now method.Flush bytes.now)
        (spec.with_message n.now method.Flush bytes.now items.old) items.old) }
{
    match decode_flush_response(n, bytes) {
        Err(fault) => refuse(fault, items),
        Ok(response) => {
            items.take_flush(n, response)?;
            Ok(false)
        }
    }
}
