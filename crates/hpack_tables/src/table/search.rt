//! The least index of a field or a name.
ghost use Rattle.std.specs.Prelude.{◌≡◌, ◌+◌, ◌<◌, ◌≤◌, ◌^◌, length};
ghost use Rattle.hpack_tables.specs.StaticTable.{static_table};
ghost use Rattle.hpack_tables.specs.Writing.{fits, index_from, index_of};

use super::Table;
use crate::encoder::Style;
use crate::field::Field;
use crate::static_table::static_pair;
use std::collections::VecDeque;

fn is_fit(whole: bool, field: &Field, name: &[u8], value: &[u8]) -> bool
    ensures { result ≡ fits whole field.now (record { name = name.now; value = value.now }) }
{
    name == field.name.as_slice() && (!whole || value == field.value.as_slice())
}

fn static_index(whole: bool, field: &Field) -> Option<u32>
    ensures { result ≡ index_from (fits whole field.now) 1 static_table }
{
    let mut place = 0;
    while place < 61 {
        let (name, value) = static_pair(place);
        if is_fit(whole, field, name, value) {
            return Some(place + 1);
        }
        place += 1;
    }
    None
}

fn dynamic_index(whole: bool, field: &Field, entries: &VecDeque<Field>) -> Option<u32>
    requires { length entries.now.items < 2 ^ 31 }
    ensures { result ≡ index_from (fits whole field.now) 62 entries.now.items }
{
    let mut place = 0;
    while place < entries.len() {
        let entry = &entries[place];
        if is_fit(whole, field, entry.name.as_slice(), entry.value.as_slice()) {
            return Some(place as u32 + 62);
        }
        place += 1;
    }
    None
}

impl Table {
    /// The least index that has the field, or its name, where the style looks.
    pub fn index_of(&self, style: Style, whole: bool, field: &Field) -> Option<u32>
        ensures { result ≡ index_of style whole field.now self.now.items }
    {
        if let Some(index) = static_index(whole, field) {
            return Some(index);
        }
        match style {
            Style::Plain => None,
            Style::Indexed => {
                let _max = self.max;
                dynamic_index(whole, field, &self.entries)
            }
        }
    }
}
