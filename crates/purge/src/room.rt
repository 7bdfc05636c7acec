ghost use Rattle.std.specs.Prelude.{◌≡◌, ◌≤◌, OnOk, OnErr};

use aft_entries::Entry;
use std::alloc::{AllocError, Global};
use std::collections::VecDeque;
use std::marker::Model;

/// Room for the boxes and the ranks of a number of entries that leave a table.
#[derive(Drop)]
pub struct PurgeRoom {
    // The rank of each, in the order of their boxes.
    pub(crate) ranks: VecDeque<u8>,
    pub(crate) gone: VecDeque<Box<Entry>>,
    // For how many entries both lists have room.
    pub(crate) places: u64,
}

impl Model for PurgeRoom {
    ghost use Rattle.std.specs.Prelude.{◌≤◌};
    ghost use Rattle.std.specs.VecDeque.{deque_capacity};
    ghost use Rattle.purge.specs.RoomState.{RoomState};

    ghost Value = { RoomState };

    ghost view = { λ r. record { room = r.places } };

    ghost invariant = { λ r. (r.places ≤ deque_capacity r.ranks) × (r.places ≤ deque_capacity r.gone) };
}

impl PurgeRoom {
    /// No room.
    pub fn new(alloc: Global) -> PurgeRoom {
        PurgeRoom {
            ranks: VecDeque::new(alloc),
            gone: VecDeque::new(alloc),
            places: 0,
        }
    }

    /// Makes room for so many entries. This alone takes memory.
    pub fn reserve(&mut self, n: u64) -> Result<(), AllocError>
        ensures ok { OnOk result (n ≤ self.new.room) }
        ensures kept { self.old.room ≤ self.new.room }
        ensures err { OnErr result (self.new ≡ self.old) }
    {
        if n <= self.places {
            return Ok(());
        }
        let places = n as usize;
        self.ranks.clear();
        self.gone.clear();
        self.ranks.reserve(places)?;
        self.gone.reserve(places)?;
        self.places = n;
        Ok(())
    }
}
