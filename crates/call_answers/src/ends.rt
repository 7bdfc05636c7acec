ghost use Rattle.std.specs.Prelude.{◌≡◌, ◌≤◌, IfOk};
ghost use Rattle.call_answers.specs.Ends.{status_by, without_params};

use grpc_heads::{ModifyReason, Status, Text};
use std::alloc::AllocError;
use table_model::Reply;

fn status(code: u8, text: &'static [u8], reason: Option<ModifyReason>) -> Status
    requires { code ≤ 16 }
    ensures { result ≡ record { code = code; message = text.now; reason = reason } }
{
    Status {
        code,
        message: Text::fixed(text),
        reason,
    }
}

// The end of a call without session parameters.
fn without_params(operate: bool) -> Status
    ensures { result ≡ without_params operate }
{
    if operate {
        let reason = Some(ModifyReason::UnsupportedParams);
        status(12, b"ALL_PRIMARY is not served", reason)
    } else {
        let reason = Some(ModifyReason::ElectionIdInAllPrimary);
        status(9, b"election in ALL_PRIMARY", reason)
    }
}

/// The status that the reply ends its call with, or None where the call goes on. `operate` says that the command was an
/// operation.
pub fn end_of(operate: bool, reply: &Reply) -> Result<Option<Status>, AllocError>
    ensures { IfOk result (λ end. end ≡ status_by operate reply.now) }
{
    let end = match reply {
        Reply::ParamsUnsupported => {
            let reason = Some(ModifyReason::UnsupportedParams);
            status(12, b"unsupported session parameters", reason)
        }
        Reply::ParamsNotAllowed => {
            let reason = Some(ModifyReason::ModifyNotAllowed);
            status(9, b"session parameters already set", reason)
        }
        Reply::ParamsDiffer(_) => {
            let reason = Some(ModifyReason::ParamsDiffer);
            status(9, b"session parameters differ", reason)
        }
        Reply::NoParams => without_params(operate),
        Reply::ZeroId => status(3, b"election id is zero", None),
        Reply::FlushRefused(_) => status(9, b"not primary", None),
        Reply::NoMemory => status(8, b"want of memory", None),
        Reply::Stopped => status(14, b"server stopped", None),
        Reply::Gone => status(10, b"session gone", None),
        _ => return Ok(None),
    };
    Ok(Some(end))
}
