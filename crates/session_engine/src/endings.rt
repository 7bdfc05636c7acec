ghost use Rattle.std.specs.Prelude.{◌≡◌, ◌++◌, ◌||◌, codes, None, IfOk, false};
ghost use Rattle.std.specs.Fmt.{decimal};
ghost use Rattle.call_requests.specs.Asked.{invalid, bad_message};
ghost use Rattle.call_orders.specs.Owed.{ok, want_of_memory, end_items};
ghost use Rattle.session_engine.specs.Steps.{AddsItems};

use crate::step::{Progress, Step};
use bytes::Bytes;
use grpc_heads::{Status, Text};
use itoa::Buffer;
use proto_schema::MessageFault;
use std::alloc::{AllocError, Global};

// The end of a call for a message whose first fault is at this place.
fn bad_at(alloc: Global, place: usize) -> Result<Status, AllocError>
    ensures { IfOk result (λ status. status ≡ invalid (codes "bad message at " ++ decimal place)) }
{
    let mut buffer = Buffer::new();
    let digits = buffer.format(place).as_bytes();
    let mut text = Vec::from_slice(alloc, b"bad message at ")?;
    text.extend_from_slice(digits)?;
    let Ok(bytes) = Bytes::from_vec(text) else {
        return Err(AllocError);
    };
    Ok(Status {
        code: 3,
        message: Text::from_bytes(bytes),
        reason: None,
    })
}

fn bad_status(alloc: Global, fault: MessageFault) -> Result<Status, AllocError>
    ensures { IfOk result (λ status. status ≡ bad_message fault) }
{
    match fault {
        MessageFault::Wire(place, _) => bad_at(alloc, place),
        MessageFault::Utf8(place) => bad_at(alloc, place),
        MessageFault::NoMemory => Err(AllocError),
    }
}

/// Ends a call for a message that can't be read.
pub(crate) fn refuse(alloc: Global, fault: MessageFault, out: &mut Step) -> Progress
    requires { out.old.end ≡ None }
    ensures told { AddsItems result (end_items (Some (bad_message fault))) out.old out.new }
    ensures halted { out.new.halted ≡ out.old.halted }
    ensures alive { result ≡ Progress.Spent → ⊥ }
{
    match bad_status(alloc, fault) {
        Err(_) => Progress::OutOfMemory,
        Ok(status) => {
            out.end = Some(status);
            Progress::Ended
        }
    }
}

/// The end of a call for which there was no memory.
pub(crate) fn want_of_memory() -> Status
    ensures { result ≡ want_of_memory }
{
    Status {
        code: 8,
        message: Text::fixed(b"want of memory"),
        reason: None,
    }
}

/// The end of a call that is done.
pub(crate) fn good_end() -> Status
    ensures { result ≡ ok }
{
    Status {
        code: 0,
        message: Text::fixed(b""),
        reason: None,
    }
}
