ghost use Rattle.std.specs.Prelude.{◌≡◌, ◌≤◌, length};
ghost use Rattle.proto_wire.specs.Written.{varint};
ghost use Rattle.aft_messages.specs.Writing.{nonzero_uint_field};

/// How many bytes a number takes as a varint.
#[tactic(auto, using(crate::proofs::VarintSize::sizes))]
pub fn varint_size(value: u64) -> usize
    ensures size { result ≡ length (varint value) }
    ensures bound { result ≤ 10 }
{
    let mut size = 1;
    let mut rest = value;
    while rest >= 128 && size < 10 {
        rest /= 128;
        size += 1;
    }
    size
}

/// How many bytes a field of a number takes, none where the number is 0.
#[tactic(auto, unfolding(crate::specs::Writing::nonzero_uint_field))]
pub fn nonzero_uint_size(number: u32, value: u64) -> usize
    ensures size { result ≡ length (nonzero_uint_field number value) }
    ensures bound { result ≤ 20 }
{
    if value == 0 {
        0
    } else {
        varint_size(u64::from(number) * 8) + varint_size(value)
    }
}
