//! Names and values are bytes, which a list of numbers doesn't say by itself.
ghost use Rattle.hpack_huffman.specs.Faults.{IsText};
ghost use Rattle.hpack_tables.specs.Laws.{AreBytes};

use crate::field::Field;
use crate::fields::Fields;

fn is_text(text: &[u8])
    ensures { IsText text.now }
{}

fn has_bytes(field: &Field)
    ensures { IsText field.now.name × IsText field.now.value }
{
    is_text(field.name.as_slice());
    is_text(field.value.as_slice());
}

fn all_have_bytes(fields: &[Field])
    ensures { AreBytes fields.now }
{
    for field in fields {
        has_bytes(field);
    }
}

/// Names and values are bytes.
pub fn are_bytes(fields: &Fields)
    ensures { AreBytes fields.now }
{
    all_have_bytes(fields.as_slice());
}
