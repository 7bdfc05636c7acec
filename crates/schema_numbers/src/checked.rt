ghost use Rattle.std.specs.Prelude.{◌≡◌, ◌<◌, ◌==◌, ◌^◌, true, false, IfOk, MatchOption, length, map};
ghost use Rattle.std.specs.List.{list_all, list_any};
ghost use Rattle.schema_numbers.specs.Valid.{IsValid, are_distinct as distinct, is_field_number as field_number, is_enumerator_number as enumerator_number};
ghost use Rattle.schema_numbers.specs.Groups as groups;

use crate::numbering::Numbering;
use std::alloc::{AllocError, Global};

// How many fields each message has, and how many enumerators each enumeration, in the order of the names.
const MESSAGE_SIZES: [usize; 28] = [
    3, 11, 3, 2, 3, 4, 1, 3, 1, 8, 4, 2, 1, 2, 2, 2, 2, 2, 2, 2, 2, 2, 1, 2, 5, 2, 2, 1,
];

const ENUMERATION_SIZES: [usize; 10] = [3, 2, 2, 2, 4, 1, 6, 2, 2, 4];

fn is_field_number(n: u64) -> bool
    ensures { result ≡ field_number n }
{
    1 <= n && n <= 536_870_911 && (n < 19_000 || 19_999 < n)
}

fn has_number(numbers: &[u64], n: u64) -> bool
    ensures { result ≡ list_any (λ m. m == n) numbers.now }
{
    numbers.iter().any(|m| *m == n)
}

fn are_distinct(numbers: &[u64]) -> bool
    ensures { result ≡ distinct numbers.now }
{
    match numbers {
        [] => true,
        [first, rest @ ..] => !has_number(rest, *first) && are_distinct(rest),
    }
}

#[tactic(auto, unfolding(crate::specs::Groups::are_distinct_in))]
fn are_distinct_in(sizes: &[usize], numbers: &[u64]) -> bool
    ensures { result ≡ groups.are_distinct_in sizes.now numbers.now }
{
    match sizes {
        [] => true,
        [size, rest @ ..] => {
            let (piece, behind) = numbers.split_at((*size).min(numbers.len()));
            are_distinct(piece) && are_distinct_in(rest, behind)
        }
    }
}

fn are_field_numbers(fields: &[u64]) -> bool
    ensures { result ≡ list_all field_number fields.now }
{
    fields.iter().all(|n| is_field_number(*n))
}

fn are_enumerator_numbers(values: &[u64]) -> bool
    ensures { result ≡ list_all enumerator_number values.now }
{
    values.iter().all(|n| *n <= 2_147_483_647)
}

#[tactic(auto, unfolding(crate::specs::Groups::are_valid_fields))]
fn are_valid_fields(fields: &[u64]) -> bool
    ensures { result ≡ groups.are_valid_fields fields.now }
{
    fields.len() == 77 && are_field_numbers(fields) && are_distinct_in(&MESSAGE_SIZES, fields)
}

fn has_zeros(values: &[u64]) -> bool
    requires { length values.now ≡ 28 }
    ensures { result ≡ groups.has_zeros values.now }
{
    values[3] == 0 && values[5] == 0 && values[7] == 0
}

#[tactic(auto, unfolding(crate::specs::Groups::are_valid_values))]
fn are_valid_values(values: &[u64]) -> bool
    ensures { result ≡ groups.are_valid_values values.now }
{
    values.len() == 28
        && are_enumerator_numbers(values)
        && are_distinct_in(&ENUMERATION_SIZES, values)
        && has_zeros(values)
}

// The numbers of the fields in 32 bits, which each field number has.
fn in_32_bits(alloc: Global, fields: &[u64]) -> Result<Vec<u32>, AllocError>
    requires { list_all field_number fields.now ≡ true }
    ensures { IfOk result (λ all. all.items ≡ fields.now) }
{
    let mut all = Vec::with_capacity(alloc, fields.len())?;
    for n in fields {
        all.push(*n as u32)?;
    }
    Ok(all)
}

// The numbering that has these numbers, in the order of the names, or None where it would not be valid.
pub(crate) fn numbering_of(
    alloc: Global,
    fields: &[u64],
    values: &[u64],
) -> Result<Option<Numbering>, AllocError>
    ensures { IfOk result (λ found. groups.IsNumberingOf fields.now values.now found) }
{
    if !are_valid_fields(fields) || !are_valid_values(values) {
        return Ok(None);
    }
    let fields = in_32_bits(alloc, fields)?;
    let values = Vec::from_slice(alloc, values)?;
    Ok(Some(Numbering::checked(fields, values)))
}
