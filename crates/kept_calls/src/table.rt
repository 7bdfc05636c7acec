//! The calls of a connection, each on its stream.
ghost use Rattle.std.specs.Prelude.{◌≡◌, ◌==◌, ◌++◌, [], ◌∷◌, IfOk, OnOk, OnErr, length};
ghost use Rattle.std.specs.List.{position};
ghost use Rattle.kept_calls.specs.CallState.{state_of, states};

use crate::call::Call;
use std::alloc::{AllocError, Global};

/// Where the call on a stream stands.
pub fn find_call(calls: &[Call], stream: u32) -> Option<usize>
    ensures { result ≡ position (λ c. c.stream == stream) calls.now }
{
    calls.iter().position(|call| call.stream == stream)
}

/// Keeps a call from now on, and tells where it stands.
pub fn add_call(calls: &mut Vec<Call>, call: Call) -> Result<usize, AllocError>
    ensures place { IfOk result (λ at. at ≡ length calls.old.items) }
    ensures ok { OnOk result (states calls.new.items ≡ states calls.old.items ++ state_of call ∷ []) }
    ensures err { OnErr result (states calls.new.items ≡ states calls.old.items) }
{
    let at = calls.len();
    match calls.push(call) {
        Ok(()) => Ok(at),
        Err(_) => Err(AllocError),
    }
}
