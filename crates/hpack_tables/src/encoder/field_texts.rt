//! Fields, written where there is room for them.
ghost use Rattle.std.specs.Prelude.{◌≡◌, ◌+◌, ◌≤◌, ◌++◌, List, ℕ, true, false, length, sum_by, OnOk, IsOk};
ghost use Rattle.std.specs.Vec.{vec_capacity, vec_len};
ghost use Rattle.hpack_tables.specs.Entries.{Entries};
ghost use Rattle.hpack_tables.specs.EntrySizes.{size_of};
ghost use Rattle.hpack_tables.specs.Writing.{IsName, IsLiteral, IsFieldText, AreFieldTexts, index_of, first_bits, prefix, integer_text, taken, update_text};
ghost use Rattle.hpack_tables.specs.declared.encoder.Style.TheVariants.{Plain};

use crate::encoder::Style;
use crate::encoder::integers::put_integer;
use crate::encoder::strings::put_string;
use crate::field::Field;
use crate::table::Table;
use std::alloc::{AllocError, Global};

/// Adds the size update that is due.
pub fn put_update(is_due: bool, max: u32, out: &mut Vec<u8>)
    requires { vec_len out.old + 6 ≤ vec_capacity out.old }
    ensures items { out.new.items ≡ out.old.items ++ update_text is_due max }
    ensures len { vec_len out.new ≤ vec_len out.old + 6 }
    ensures capacity { vec_capacity out.old ≤ vec_capacity out.new }
{
    if is_due {
        put_integer(32, 5, max, out);
    }
}

/// Adds the index of a literal's name, or 0.
fn put_name_index(style: Style, index: u32, out: &mut Vec<u8>)
    requires { vec_len out.old + 6 ≤ vec_capacity out.old }
    ensures items { out.new.items ≡ out.old.items ++ integer_text (first_bits style) (prefix style) index }
    ensures len { vec_len out.new ≤ vec_len out.old + 6 }
    ensures capacity { vec_capacity out.old ≤ vec_capacity out.new }
{
    match style {
        Style::Plain => put_integer(0, 4, index, out),
        Style::Indexed => put_integer(64, 6, index, out),
    }
}

/// Adds the name of a literal: the least index that has it, or a string.
fn put_name(
    alloc: Global,
    style: Style,
    table: &Table,
    field: &Field,
    out: &mut Vec<u8>,
) -> Result<(), AllocError>
    requires small { size_of field.now ≤ 65536 }
    requires room { vec_len out.old + 12 + length field.now.name ≤ vec_capacity out.old }
    ensures text { OnOk result ((text : List ℕ) × IsName style field.now.name (index_of style false field.now table.now.items) text
        × (out.new.items ≡ out.old.items ++ text)) }
    ensures plain { style ≡ Plain → IsOk result }
    ensures len { vec_len out.new ≤ vec_len out.old + 12 + length field.now.name }
    ensures capacity { vec_capacity out.old ≤ vec_capacity out.new }
{
    match table.index_of(style, false, field) {
        Some(index) => {
            put_name_index(style, index, out);
            Ok(())
        }
        None => {
            put_name_index(style, 0, out);
            put_string(alloc, style, field.name.as_slice(), out)
        }
    }
}

/// Lets the table take a field that was written as a literal.
fn take(style: Style, table: &mut Table, field: &Field) -> Result<(), AllocError>
    requires { size_of field.now ≤ 65536 }
    ensures ok { OnOk result (table.new ≡ record { items = taken style table.old.max field.now table.old.items; max = table.old.max }) }
    ensures plain { style ≡ Plain → IsOk result }
{
    match style {
        Style::Plain => Ok(()),
        Style::Indexed => table.insert(field.clone()?),
    }
}

/// Adds a literal.
fn put_literal(
    alloc: Global,
    style: Style,
    table: &mut Table,
    field: &Field,
    out: &mut Vec<u8>,
) -> Result<(), AllocError>
    requires small { size_of field.now ≤ 65536 }
    requires room { vec_len out.old + size_of field.now ≤ vec_capacity out.old }
    ensures text { OnOk result ((text : List ℕ) × IsLiteral style table.old.max field.now table.old.items text table.new.items
        × (out.new.items ≡ out.old.items ++ text)) }
    ensures max { OnOk result (table.new.max ≡ table.old.max) }
    ensures plain { style ≡ Plain → IsOk result }
    ensures len { vec_len out.new ≤ vec_len out.old + size_of field.now }
    ensures capacity { vec_capacity out.old ≤ vec_capacity out.new }
{
    put_name(alloc, style, table, field, out)?;
    put_string(alloc, style, field.value.as_slice(), out)?;
    take(style, table, field)
}

/// Adds a field: the least index that has it, or a literal.
fn put_field(
    alloc: Global,
    style: Style,
    table: &mut Table,
    field: &Field,
    out: &mut Vec<u8>,
) -> Result<(), AllocError>
    requires small { size_of field.now ≤ 65536 }
    requires room { vec_len out.old + size_of field.now ≤ vec_capacity out.old }
    ensures text { OnOk result ((text : List ℕ) × IsFieldText style table.old.max field.now table.old.items text table.new.items
        × (out.new.items ≡ out.old.items ++ text)) }
    ensures max { OnOk result (table.new.max ≡ table.old.max) }
    ensures plain { style ≡ Plain → IsOk result }
    ensures len { vec_len out.new ≤ vec_len out.old + size_of field.now }
    ensures capacity { vec_capacity out.old ≤ vec_capacity out.new }
{
    match table.index_of(style, true, field) {
        Some(index) => {
            put_integer(128, 7, index, out);
            Ok(())
        }
        None => put_literal(alloc, style, table, field, out),
    }
}

/// Adds fields, one after another. Plain ones take no memory.
#[tactic(auto, using(crate::proofs::FieldsWritten::sum_here))]
pub fn put_fields(
    alloc: Global,
    style: Style,
    table: &mut Table,
    fields: &[Field],
    out: &mut Vec<u8>,
) -> Result<(), AllocError>
    requires small { sum_by size_of fields.now ≤ 65536 }
    requires room { vec_len out.old + sum_by size_of fields.now ≤ vec_capacity out.old }
    ensures text { OnOk result ((text : List ℕ) × AreFieldTexts style table.old.max fields.now table.old.items text table.new.items
        × (out.new.items ≡ out.old.items ++ text)) }
    ensures max { OnOk result (table.new.max ≡ table.old.max) }
    ensures plain { style ≡ Plain → IsOk result }
    ensures len { OnOk result (vec_len out.new ≤ vec_len out.old + sum_by size_of fields.now) }
    ensures capacity { vec_capacity out.old ≤ vec_capacity out.new }
{
    for field in fields {
        put_field(alloc, style, table, field, out)?;
    }
    Ok(())
}
