ghost use Rattle.std.specs.Prelude.{◌≡◌, ◌∷◌, [], MatchOption};
ghost use Rattle.proto_schema.specs.FieldValues.{repeated_at};
ghost use Rattle.schema_numbers.specs.Numbers.{field_of};
ghost use Rattle.schema_numbers.specs.declared.names.FieldName.TheVariants as field_name;

use proto_schema::piece_of;
use proto_wire::{FieldReader, Next};
use schema_numbers::{FieldName, Numbering};
use std::marker::Model;

/// Finds the operations of a request, one after another, and takes no memory. Contracts see the bytes of those to come.
#[derive(Drop)]
pub struct OperationReader<'a> {
    wanted: u32,
    reader: FieldReader<'a>,
}

impl<'a> Model for OperationReader<'a> {
    ghost use Rattle.std.specs.Prelude.{ℕ, List};
    ghost use Rattle.proto_wire.specs.Fields.{fields_from};
    ghost use Rattle.proto_schema.specs.FieldValues.{pieces};

    ghost Value = { List (List ℕ) };

    ghost view = { λ p. pieces p.wanted (fields_from p.reader.0 p.reader.1).fields };
}

impl<'a> OperationReader<'a> {
    /// All operations of a request.
    pub fn new(n: &Numbering, message: &'a [u8]) -> OperationReader<'a>
        ensures { result ≡ repeated_at (field_of n.now field_name.ModifyRequestOperation) message.now }
    {
        OperationReader {
            wanted: n.field(FieldName::ModifyRequestOperation),
            reader: FieldReader::new(message),
        }
    }

    /// The bytes of the next operation. After `None` it answers the same again.
    #[inline(always)]
    pub fn next(&mut self) -> Option<&'a [u8]>
        ensures { MatchOption result ((self.old ≡ []) × (self.new ≡ [])) (λ piece. self.old ≡ piece.now ∷ self.new) }
    {
        loop {
            match self.reader.next() {
                Next::Field(field) => {
                    if let Some(piece) = piece_of(self.wanted, &field) {
                        return Some(piece);
                    }
                }
                _ => return None,
            }
        }
    }
}
