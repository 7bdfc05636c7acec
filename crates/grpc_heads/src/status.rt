ghost use Rattle.std.specs.Prelude.{◌≡◌};

use crate::text::Text;
use std::alloc::AllocError;
use std::marker::Model;

/// Why a Modify call was ended, as its status' details say it.
#[derive(Clone, Copy, Debug, PartialEq, Eq)]
pub enum ModifyReason {
    /// The session parameters aren't served.
    UnsupportedParams,
    /// The session parameters can't be changed.
    ModifyNotAllowed,
    /// Another session has other parameters.
    ParamsDiffer,
    /// An election was sent to a session whose redundancy is ALL_PRIMARY.
    ElectionIdInAllPrimary,
}

/// How a call ended: a status code of gRPC, 0 to 16, a message, and the reason where one stands.
#[derive(Debug, Drop)]
pub struct Status {
    /// The status code, 0 for OK to 16 for UNAUTHENTICATED.
    pub code: u8,
    /// A text for people, which may be empty.
    pub message: Text,
    /// The reason that the details give.
    pub reason: Option<ModifyReason>,
}

impl Model for Status {
    ghost use Rattle.std.specs.Prelude.{◌≤◌};
    ghost use Rattle.grpc_heads.specs.GrpcStatus.{GrpcStatus};

    ghost Value = { GrpcStatus };

    ghost view = { λ s. record { code = s.code; message = s.message; reason = s.reason } };

    ghost invariant = { λ s. s.code ≤ 16 };
}

// Another owner of the same message.
impl Clone for Status {
    ghost is_clone = { λ x y. y ≡ x };

    fn clone(&self) -> Result<Status, AllocError> {
        let message = self.message.clone()?;
        Ok(Status {
            code: self.code,
            message,
            reason: self.reason,
        })
    }
}
