//! A new connection.
ghost use Rattle.std.specs.Prelude.{◌≡◌, ◌++◌, ◌-◌, [], length, IfOk};
ghost use Rattle.h2_frames.specs.Stream.{preface_if, place_after};
ghost use Rattle.h2_exchange.specs.Order.{own_preface, peer_preface};
ghost use Rattle.h2_exchange.specs.Sending.{first_text};
ghost use Rattle.h2_streams.specs.Set.{fresh, credited};
ghost use Rattle.h2_streams.specs.Stands as streams;
ghost use Rattle.http_connection.specs.ConnectionTrace.{IsNew, style_of};
ghost use Rattle.h2_conn.specs.Standing.{StandsFor};

use super::H2Conn;
use crate::watch::Watch;
use h2_exchange::{H2Limits, Role};
use h2_frames::{FrameReader, PREFACE};
use h2_streams::StreamSet;
use hpack_tables::{HeaderDecoder, HeaderEncoder, Style};
use std::alloc::{AllocError, Global};

/// The settings of a side, and the connection's window raised, behind the preface that is due.
fn first(alloc: Global, role: Role, limits: H2Limits) -> Result<Vec<u8>, AllocError>
    ensures { IfOk result (λ out. out.items ≡ own_preface role ++ first_text role limits) }
{
    let [a, b, c, d] = limits.window.to_be_bytes();
    let [i, j, k, l] = (limits.window - 65_535).to_be_bytes();
    let mut out = Vec::new(alloc);
    match role {
        Role::Client => {
            out.extend_from_slice(PREFACE)?;
            out.extend_from_slice(&[
                0, 0, 12, 4, 0, 0, 0, 0, 0, 0, 2, 0, 0, 0, 0, 0, 4, a, b, c, d,
            ])?;
        }
        Role::Server => {
            let [e, f, g, h] = limits.streams.to_be_bytes();
            out.extend_from_slice(&[
                0, 0, 18, 4, 0, 0, 0, 0, 0, 0, 3, e, f, g, h, 0, 4, a, b, c, d,
            ])?;
            let [e, f, g, h] = limits.list.to_be_bytes();
            out.extend_from_slice(&[0, 6, e, f, g, h])?;
        }
    }
    out.extend_from_slice(&[0, 0, 4, 8, 0, 0, 0, 0, 0, i, j, k, l])?;
    Ok(out)
}

/// How a side writes header blocks: a server's take no memory of its peer's.
fn style_of(role: Role) -> Style
    ensures { result ≡ style_of role }
{
    match role {
        Role::Client => Style::Indexed,
        Role::Server => Style::Plain,
    }
}

fn is_preface_due(role: Role) -> bool
    ensures { preface_if result ≡ peer_preface role }
{
    match role {
        Role::Client => false,
        Role::Server => true,
    }
}

/// The place of the first frame.
fn first_place(role: Role) -> u64
    ensures { result ≡ place_after (peer_preface role) [] }
{
    match role {
        Role::Client => 0,
        Role::Server => 24,
    }
}

/// The streams, where the window of all together is raised.
fn first_set(alloc: Global, role: Role, limits: H2Limits) -> Result<StreamSet, AllocError>
    ensures exact { IfOk result (λ set. set ≡ credited (limits.window - 65535) (fresh role limits)) }
    ensures stands { IfOk result (λ set. streams.StandsFor (fresh role limits) []) }
{
    let mut set = StreamSet::new(alloc, role, limits)?;
    set.credited(limits.window - 65_535);
    Ok(set)
}

impl H2Conn {
    /// A connection that was fed nothing. Its first frames wait to be sent.
    ///
    /// # Errors
    ///
    /// Where there is no memory.
    pub fn new(alloc: Global, role: Role, limits: H2Limits) -> Result<H2Conn, AllocError>
        ensures { IfOk result (λ conn. IsNew role limits (StandsFor conn)) }
    {
        Ok(H2Conn {
            alloc,
            role,
            limits,
            reader: FrameReader::new(alloc, is_preface_due(role))?,
            place: first_place(role),
            set: first_set(alloc, role, limits)?,
            decoder: HeaderDecoder::new(alloc, 4096)?,
            encoder: HeaderEncoder::new(alloc, style_of(role))?,
            out: first(alloc, role, limits)?,
            start: 0,
            text: Vec::new(alloc),
            opened: None,
            ended: None,
            is_holding: false,
            watch: Watch::new(alloc),
            refusal: None,
        })
    }
}
