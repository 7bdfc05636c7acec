ghost use Rattle.std.specs.Prelude.{◌≡◌, ◌≤◌, [], None, IfOk, MatchResult, sum_by};
ghost use Rattle.hpack_tables.specs.Decoder.{GivesFields, RefusesBlock};
ghost use Rattle.hpack_tables.specs.EntrySizes.{size_of};

use crate::block::Progress;
use crate::fault::HpackFault;
use crate::fields::Fields;
use crate::table::Table;
use std::alloc::{AllocError, Global};
use std::marker::Model;
use std::mem;

/// Reads header blocks, one after another, over one table.
#[derive(Drop)]
pub struct HeaderDecoder {
    alloc: Global,
    table: Table,
    limit: u32,
    refusal: Option<HpackFault>,
}

impl Model for HeaderDecoder {
    ghost use Rattle.hpack_tables.specs.Decoder.{Decoder};

    ghost Value = { Decoder };

    ghost view = { λ d. record { entries = d.table.items; max = d.table.max; limit = d.limit; refusal = d.refusal } };
}

impl HeaderDecoder {
    /// A decoder with an empty table of so many bytes, which is also the most that a size update
    /// may ask for.
    pub fn new(alloc: Global, max_size: u32) -> Result<HeaderDecoder, AllocError>
        ensures { IfOk result (λ d. d ≡ record { entries = []; max = max_size; limit = max_size; refusal = None }) }
    {
        Ok(HeaderDecoder {
            alloc,
            table: Table::new(alloc, max_size),
            limit: max_size,
            refusal: None,
        })
    }

    /// The fields of a block, whose sizes sum to at most 65,536, or the fault of its first bad item
    /// (RFC 7541). A decoder that has refused a block gives the same refusal from then on.
    pub fn block(&mut self, bytes: &[u8]) -> Result<Fields, HpackFault>
        ensures read { MatchResult result (λ fields. GivesFields self.old bytes.now fields self.new)
            (λ fault. RefusesBlock self.old bytes.now fault self.new) }
        ensures size { IfOk result (λ fields. sum_by size_of fields ≤ 65536) }
    {
        if let Some(fault) = self.refusal {
            return Err(fault);
        }
        let table = mem::replace(&mut self.table, Table::new(self.alloc, 0));
        let mut progress = Progress {
            table,
            fields: Fields::new(self.alloc),
            list_size: 0,
        };
        let result = progress.items(self.alloc, self.limit, bytes);
        let Progress {
            table,
            fields,
            list_size: _,
        } = progress;
        self.table = table;
        match result {
            Ok(()) => Ok(fields),
            Err(fault) => {
                self.refusal = Some(fault);
                Err(fault)
            }
        }
    }
}
