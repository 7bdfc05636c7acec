//! The two sides of a connection.
use bytes::Bytes;
use grpc_calls::Calls;
use grpc_stream::{CallConnection, CallEvent};
use h2_conn::H2Conn;
use h2_exchange::{H2Limits, Role};
use schema_numbers::Numbering;
use std::alloc::{AllocError, Global};

pub(crate) type Side = Calls<H2Conn>;

// What each side allows the other.
pub(crate) const LIMITS: H2Limits = H2Limits {
    streams: 100,
    window: 1_048_576,
    list: 65_536,
};

pub(crate) fn side(alloc: Global, role: Role) -> Result<Side, AllocError> {
    Ok(Calls::new(alloc, role, H2Conn::new(alloc, role, LIMITS)?))
}

// Lets all that waits be sent, and says whether it was this.
pub(crate) fn sends_all<K: CallConnection>(calls: &mut K, wanted: &[u8]) -> bool {
    let is_it = calls.out() == wanted;
    let size = calls.out().len();
    calls.drop_out(size);
    is_it
}

// Carries one byte, if one waits.
pub(crate) fn carry<K: CallConnection>(
    alloc: Global,
    from: &mut K,
    to: &mut K,
) -> Result<bool, AllocError> {
    let Some(&byte) = from.out().first() else {
        return Ok(false);
    };
    to.feed(Bytes::copy_from_slice(alloc, &[byte])?)?;
    from.drop_out(1);
    Ok(true)
}

// What a side tells behind a piece, if it is one thing.
pub(crate) fn tells<K: CallConnection>(
    calls: &mut K,
    n: &Numbering,
    piece: &'static [u8],
) -> Result<CallEvent, AllocError> {
    calls.feed(Bytes::from_static(piece))?;
    Ok(calls.next(n))
}
