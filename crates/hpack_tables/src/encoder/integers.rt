//! Integers, written where there is room for them.
ghost use Rattle.std.specs.Prelude.{◌≡◌, ◌+◌, ◌*◌, ◌^◌, ◌<◌, ◌≤◌, ◌++◌};
ghost use Rattle.std.specs.Vec.{vec_capacity, vec_len};
ghost use Rattle.hpack_tables.specs.Writing.{groups_text, integer_text};

/// Adds groups of seven bits, the lowest first: at most so many behind the first.
#[tactic(auto, unfolding(crate::specs::Writing::groups_text))]
fn put_groups(left: u8, n: u32, out: &mut Vec<u8>)
    requires few { left ≤ 4 }
    requires small { n < 2 ^ (7 * (left + 1)) }
    requires room { vec_len out.old + left < vec_capacity out.old }
    ensures items { out.new.items ≡ out.old.items ++ groups_text left n }
    ensures len { vec_len out.new ≤ vec_len out.old + left + 1 }
    ensures capacity { vec_capacity out.new ≡ vec_capacity out.old }
{
    if left == 0 || n < 128 {
        out.push_reserved(n as u8);
        return;
    }
    out.push_reserved((128 + n % 128) as u8);
    put_groups(left - 1, n / 128, out);
}

/// Adds an integer behind first bits, with a prefix of so many bits.
#[tactic(auto, unfolding(crate::specs::Writing::integer_text))]
pub fn put_integer(first: u8, bits: u32, n: u32, out: &mut Vec<u8>)
    requires few { bits < 8 }
    requires byte { first + 2 ^ bits ≤ 256 }
    requires room { vec_len out.old + 6 ≤ vec_capacity out.old }
    ensures items { out.new.items ≡ out.old.items ++ integer_text first bits n }
    ensures len { vec_len out.new ≤ vec_len out.old + 6 }
    ensures capacity { vec_capacity out.new ≡ vec_capacity out.old }
{
    let ones = (1u32 << bits) - 1;
    if n < ones {
        out.push_reserved((first as u32 + n) as u8);
        return;
    }
    out.push_reserved((first as u32 + ones) as u8);
    put_groups(4, n - ones, out);
}
