ghost use Rattle.std.specs.Prelude.{◌≡◌, ◌++◌, IfOk};

use std::alloc::{AllocError, Global};
use std::marker::Model;

/// Bytes of a message, or occurrences of an embedded message one behind the other. Contracts see the bytes. One
/// occurrence is borrowed; several take memory.
#[derive(Drop)]
pub struct MergedBytes<'a> {
    one: &'a [u8],
    several: Option<Vec<u8>>,
}

impl<'a> Model for MergedBytes<'a> {
    ghost use Rattle.std.specs.Prelude.{ℕ, List};
    ghost use Rattle.std.specs.Option.{option_map_or};

    ghost Value = { List ℕ };

    ghost view = { λ j. option_map_or (λ v. v.items) j.several j.one.now };
}

impl<'a> MergedBytes<'a> {
    /// The bytes of one occurrence, which are borrowed.
    pub fn new(one: &'a [u8]) -> MergedBytes<'a>
        ensures { result ≡ one.now }
    {
        MergedBytes { one, several: None }
    }

    /// The bytes of all occurrences, one behind the other.
    pub fn as_bytes(&self) -> &[u8]
        ensures { result.now ≡ self.now }
    {
        match &self.several {
            Some(all) => all.as_slice(),
            None => self.one,
        }
    }

    /// These bytes with `more` behind them.
    pub fn with(self, alloc: Global, more: &[u8]) -> Result<MergedBytes<'a>, AllocError>
        ensures { IfOk result (λ all. all ≡ self.entry ++ more.now) }
    {
        let MergedBytes { one, several } = self;
        let mut all = match several {
            Some(all) => all,
            None => Vec::from_slice(alloc, one)?,
        };
        all.extend_from_slice(more)?;
        Ok(MergedBytes {
            one,
            several: Some(all),
        })
    }
}
