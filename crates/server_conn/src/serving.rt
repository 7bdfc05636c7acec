//! A link served to its end.
ghost use Rattle.std.specs.Prelude.{◌≡◌, ◌++◌, Some};
ghost use Rattle.std.specs.Option.{option_map};
ghost use Rattle.rig_io.specs.Fault.{HasCause, StaysUnless};
ghost use Rattle.rib_core.specs.Recorded.{IsLawful};
ghost use Rattle.table_lock.specs.Passes.{IsPassOf, IsSound};
ghost use Rattle.server_turns.specs.Making.{Makes};
ghost use Rattle.server_turns.specs.Past.{Past};
ghost use Rattle.server_turns.specs.Serving.{Account, Serves};
ghost use Rattle.server_turns.specs.Turning.{IsFault, MayFail, is_spent};

use crate::conn::ServerConn;
use call_answers::Setting;
use grpc_calls::Calls;
use h2_conn::H2Conn;
use h2_exchange::{H2Limits, Role};
use rib_core::RibCore;
use rig_io::{Clock, Link};
use server_turns::{Outcome, TurnEnd, serve_turns};
use std::alloc::Global;
use std::sync::Wait;
use table_lock::{Pass, TableLock};

/// What a server allows its client: 100 streams at once, 1,048,576 bytes on the connection and on each stream before it grants more, and header
/// lists of 65,536 bytes.
pub const LIMITS: H2Limits = H2Limits {
    streams: 100,
    window: 1_048_576,
    list: 65_536,
};

/// Serves the client of a link to its end: whatever bytes come, the commands that they spell stand in the history that the pass knows, once and in
/// order, and what is written spells a first part of what they are owed, all of it where this answers Served.
pub fn serve_link<R: Wait, L: Link, C: Clock>(
    rt: &R,
    alloc: Global,
    lock: &TableLock<RibCore>,
    pass: &mut Pass<RibCore>,
    link: &mut L,
    setting: &Setting,
    clock: &mut C,
) -> Outcome
    requires pass { IsPassOf lock.now pass.old }
    requires sound { IsSound IsLawful lock.now.setup pass.old }
    ensures pass { IsPassOf lock.now pass.new }
    ensures serves { (past : Past) × (a : Account) × (L.pieces link.new ≡ option_map (λ told. told ++ past.pieces) (L.pieces link.old))
        × Makes lock.now.setup (is_spent (Some result)) pass.old pass.new past.own × Serves setting.now past a (Some result) }
    ensures fault { HasCause (L.faults link.old) (L.faults link.new) (IsFault (TurnEnd.Over result))
        × StaysUnless (L.faults link.old) (L.faults link.new) (MayFail (TurnEnd.Over result)) }
{
    let Ok(conn) = H2Conn::new(alloc, Role::Server, LIMITS) else {
        return Outcome::NoMemory;
    };
    let calls = Calls::new(alloc, Role::Server, conn);
    serve_turns(
        rt,
        ServerConn::new(alloc, calls),
        lock,
        pass,
        link,
        setting,
        clock,
    )
}
