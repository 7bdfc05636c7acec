ghost use Rattle.std.specs.Prelude.{◌≡◌, ◌++◌, OnOk, OnErr};
ghost use Rattle.proto_wire.specs.Written.{bytes_field};
ghost use Rattle.gribi_messages.specs.Response.{uint128_bytes};

use aft_messages::{nonzero_uint_size, write_length_prefix, write_two_uints};
use proto_wire::roll_back;
use schema_numbers::{FieldName, Numbering};
use std::alloc::AllocError;

/// Appends an embedded message of a number of 128 bits.
#[tactic(auto, unfolding(crate::specs::Response::uint128_bytes))]
pub fn write_uint128(
    n: &Numbering,
    number: u32,
    id: u128,
    out: &mut Vec<u8>,
) -> Result<(), AllocError>
    ensures ok { OnOk result (out.new.items ≡ out.old.items ++ bytes_field number (uint128_bytes n.now id)) }
    ensures err { OnErr result (out.new.items ≡ out.old.items) }
{
    let before = out.len();
    let high_number = n.field(FieldName::Uint128High);
    let low_number = n.field(FieldName::Uint128Low);
    let high = (id / 0x1_0000_0000_0000_0000) as u64;
    let low = (id % 0x1_0000_0000_0000_0000) as u64;
    let size = nonzero_uint_size(high_number, high) + nonzero_uint_size(low_number, low);
    write_length_prefix(number, size, out)?;
    if write_two_uints(high_number, high, low_number, low, out).is_err() {
        return Err(roll_back(out, before));
    }
    Ok(())
}
