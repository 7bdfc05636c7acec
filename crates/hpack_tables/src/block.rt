ghost use Rattle.std.specs.Prelude.{◌≡◌, ◌≤◌, sum_by};
ghost use Rattle.hpack_tables.specs.EntrySizes.{size_of};

use crate::fields::Fields;
use crate::table::Table;

/// A block that is being read.
#[derive(Drop)]
pub struct Progress {
    pub table: Table,
    pub fields: Fields,
    pub list_size: u64,
    ghost sum: { list_size ≡ sum_by size_of fields },
    ghost in_range: { list_size ≤ 65536 },
}

mod items;
