ghost use Rattle.std.specs.Prelude.{◌≡◌, ◌<◌, IfOk, length};
ghost use Rattle.schema_numbers.specs.Default.{default_numbers};
ghost use Rattle.schema_numbers.specs.Draft.{with_field, with_value};
ghost use Rattle.schema_numbers.specs.Groups.{IsNumberingOf};

use crate::checked::numbering_of;
use crate::names::{FieldName, ValueName};
use crate::numbering::{FIELDS, Numbering, VALUES, field_place, value_place};
use std::alloc::{AllocError, Global};
use std::marker::Model;

/// Numbers that may become a [`Numbering`]: the default ones, some of them changed. They need not be valid.
#[derive(Debug, Drop)]
pub struct NumberingDraft {
    fields: Vec<u64>,
    values: Vec<u64>,
}

impl Model for NumberingDraft {
    ghost use Rattle.std.specs.Prelude.{◌≡◌, length};
    ghost use Rattle.schema_numbers.specs.Numbers.{Numbers};

    ghost Value = { Numbers };

    ghost view = { λ d. record { fields = d.fields.items; values = d.values.items } };

    ghost invariant = { λ d. (length d.fields.items ≡ 77) × (length d.values.items ≡ 28) };
}

fn in_64_bits(alloc: Global, numbers: &[u32]) -> Result<Vec<u64>, AllocError>
    ensures { IfOk result (λ all. all.items ≡ numbers.now) }
{
    let mut all = Vec::with_capacity(alloc, numbers.len())?;
    for n in numbers {
        all.push(u64::from(*n))?;
    }
    Ok(all)
}

impl NumberingDraft {
    /// The default numbers, or want of memory.
    pub fn new(alloc: Global) -> Result<NumberingDraft, AllocError>
        ensures { IfOk result (λ d. d ≡ default_numbers) }
    {
        let fields = in_64_bits(alloc, &FIELDS)?;
        let values = Vec::from_slice(alloc, &VALUES)?;
        Ok(NumberingDraft { fields, values })
    }

    /// Gives a field this number.
    pub fn set_field(&mut self, item: FieldName, number: u64)
        ensures { self.new ≡ with_field self.old item number }
    {
        let place = field_place(item);
        self.fields[place] = number;
    }

    /// Gives an enumerator this number.
    pub fn set_value(&mut self, item: ValueName, number: u64)
        ensures { self.new ≡ with_value self.old item number }
    {
        let place = value_place(item);
        self.values[place] = number;
    }

    /// The numbering of these numbers, or None where it would not be valid.
    pub fn numbering(&self, alloc: Global) -> Result<Option<Numbering>, AllocError>
        ensures { IfOk result (λ found. IsNumberingOf self.now.fields self.now.values found) }
    {
        numbering_of(alloc, self.fields.as_slice(), self.values.as_slice())
    }
}
