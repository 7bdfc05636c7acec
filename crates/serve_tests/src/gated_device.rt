//! A device that waits at a gate.
ghost use Rattle.std.specs.Prelude.{◌≡◌, IfOk, vec_len};

use crate::gated::{Gate, Holder, raise};
use aft_entries::{Act, Device, Entry, Key, MemDevice};
use rig_io::Gates;
use std::alloc::{AllocError, Global};

/// A device in memory, each call of which raises a gate where it begins, and then waits for another.
#[derive(Drop)]
pub(crate) struct GatedDevice<'a> {
    gates: &'a Gates,
    inner: MemDevice,
    raises: Option<Gate>,
    holder: Option<Holder<'a>>,
}

impl<'a> GatedDevice<'a> {
    /// An empty device.
    pub(crate) fn new(
        alloc: Global,
        gates: &'a Gates,
        raises: Option<Gate>,
        behind: Option<Gate>,
    ) -> GatedDevice<'a> {
        let holder = match behind {
            None => None,
            Some(gate) => Some(Holder::new(gates, gate)),
        };
        GatedDevice {
            gates,
            inner: MemDevice::new(alloc, Vec::new(alloc)),
            raises,
            holder,
        }
    }

    /// How many entries it has.
    pub(crate) fn count(&self) -> usize {
        self.inner.contents().len()
    }

    fn begin(&mut self)
        ensures { self.new.inner ≡ self.old.inner }
    {
        if let Some(gate) = self.raises {
            raise(self.gates, gate);
        }
        if let Some(holder) = &mut self.holder {
            holder.pass();
        }
    }
}

impl<'a> Device for GatedDevice<'a> {
    ghost use Rattle.std.specs.Prelude.{Some};

    ghost contents = { λ d. Some d.inner.contents };

    ghost faults = { λ d. d.inner.faults };

    ghost dones = { λ d. d.inner.dones };

    fn install(&mut self, entry: &Entry) -> Act {
        self.begin();
        self.inner.install(entry)
    }

    fn remove(&mut self, key: &Key) -> Act {
        self.begin();
        self.inner.remove(key)
    }
}

/// Sixteen devices, of which the first two are given.
pub(crate) fn sixteen<'a>(
    alloc: Global,
    gates: &'a Gates,
    first: GatedDevice<'a>,
    second: GatedDevice<'a>,
) -> Result<Vec<GatedDevice<'a>>, AllocError>
    ensures { IfOk result (λ devices. vec_len devices ≡ 16) }
{
    let mut devices = Vec::new(alloc);
    devices.push(first)?;
    devices.push(second)?;
    for _ in 0..14u64 {
        devices.push(GatedDevice::new(alloc, gates, None, None))?;
    }
    Ok(devices)
}
