//! What is done with a link: a new connection is made for it.
use crate::item::{ServedLink, ended_by};
use crate::room::{Naming, Room};
use link_serving::{Ended, Service};
use rib_core::RibCore;
use rig_io::{Clock, Link};
use server_turns::ServedByTurns;
use std::alloc::AllocError;
use table_lock::Pass;
use table_model::Command;

/// Makes new connections.
pub trait MakesConnection<K: ServedByTurns> {
    ghost use Rattle.std.specs.Prelude.{IfOk, None};
    ghost use Rattle.call_answers.specs.declared.orders.Setting.{Setting as SettingView};
    ghost use Rattle.server_turns.specs.Past.{nothing};
    ghost use Rattle.server_turns.specs.Serving.{Account};

    /// A connection that had no turn. It fails for want of memory alone.
    fn make(&mut self) -> Result<K, AllocError>
        ensures { IfOk result (λ conn. (setting : SettingView) → (a : Account) × K.stands conn setting nothing a None) };
}

/// Serves each link by a connection of its own, over the table of a room.
#[derive(Drop)]
pub struct TableService<'a, N: Naming, C: Clock, F: Drop> {
    room: Room<'a, N>,
    clock: C,
    maker: F,
}

impl<'a, N: Naming, C: Clock, F: Drop> TableService<'a, N, C, F> {
    /// Connections are made by the maker, and have clocks of this kind.
    pub fn new(room: Room<'a, N>, clock: C, maker: F) -> TableService<'a, N, C, F> {
        TableService { room, clock, maker }
    }
}

impl<
    'a,
    N: Naming,
    K: ServedByTurns,
    L: Link + Drop,
    C: Clock,
    F: MakesConnection<K> + Drop,
> Service<Pass<RibCore>, Command, L, ServedLink<'a, N, K, L, C>> for TableService<'a, N, C, F> {
    ghost use Rattle.std.specs.Prelude.{◌≡◌, []};
    ghost use Rattle.rib_core.specs.Recorded.{IsLawful};
    ghost use Rattle.table_lock.specs.Passes.{IsPassOf, IsSound};
    ghost use Rattle.table_model.specs.declared.command.Command.TheVariants as command;
    ghost use Rattle.gribi_serve.specs.Links.{IsServed, IsServedSoFar};

    ghost takes = { λ pass. IsPassOf N.lock pass × IsSound IsLawful N.lock.setup pass × (pass.mine ≡ []) };

    ghost gives = { λ pass. IsPassOf N.lock pass };

    ghost origin = { λ made first.
        IsServedSoFar L.pieces L.faults (λ past a. K.stands made.conn N.setting past a made.outcome) N.lock.setup first made.link made.pass made.outcome };

    ghost opened = { λ made link pass. (made.link ≡ link) × (made.pass ≡ pass) };

    ghost served = { λ first link pass end. IsServed L.pieces L.faults N.lock.setup N.setting first link pass end };

    ghost halt = { command.Halt };

    fn open(
        &mut self,
        link: L,
        pass: Pass<RibCore>,
    ) -> Result<ServedLink<'a, N, K, L, C>, (L, Pass<RibCore>)> {
        match self.maker.make() {
            Ok(conn) => Ok(ServedLink {
                room: self.room.again(),
                link,
                pass,
                conn,
                clock: self.clock.twin(),
                outcome: None,
            }),
            Err(_) => Err((link, pass)),
        }
    }

    fn close(&mut self, made: ServedLink<'a, N, K, L, C>) -> (L, Pass<RibCore>, Ended) {
        let ServedLink {
            link,
            pass,
            outcome,
            ..
        } = made;
        let end = ended_by(&outcome);
        (link, pass, end)
    }

    fn discard(&mut self, made: ServedLink<'a, N, K, L, C>) -> (L, Pass<RibCore>) {
        let ServedLink { link, pass, .. } = made;
        (link, pass)
    }

    fn halt(&mut self) -> Command {
        Command::Halt
    }

    ghost keeps_origin = { λ before after came_to first goes made. goes first made };
}
