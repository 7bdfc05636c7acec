//! Which instances and kinds are asked for.
ghost use Rattle.std.specs.Prelude.{◌≡◌, ◌&&◌};
ghost use Rattle.table_model.specs.Reply as reply;
ghost use Rattle.table_model.specs.Table as spec;

use aft_entries::{Entry, KeyName, Kind};
use table_model::{KindAsk, Which};

pub(crate) fn names(which: Which, instance: u16) -> bool
    ensures { result ≡ spec.names which instance }
{
    match which {
        Which::All => true,
        Which::One(named) => instance == named,
    }
}

fn place_of(kind: Kind) -> u8
    ensures { result ≡ reply.place_of kind }
{
    match kind {
        Kind::Hop => 0,
        Kind::Group => 1,
        Kind::V4 => 2,
        Kind::V6 => 3,
        Kind::Label => 4,
    }
}

fn is_kind(kinds: KindAsk, name: &KeyName) -> bool
    ensures { result ≡ reply.asked_kind kinds name.now }
{
    match kinds {
        KindAsk::All => true,
        KindAsk::Only(kind) => name.place() == place_of(kind),
    }
}

pub(crate) fn is_asked(which: Which, kinds: KindAsk, entry: &Entry) -> bool
    ensures { result ≡ (spec.names which entry.now.key.instance && reply.asked_kind kinds entry.now.key.name) }
{
    names(which, entry.key.instance) && is_kind(kinds, &entry.key.name)
}
