ghost use Rattle.std.specs.Prelude.{◌≡◌, IfSome};
ghost use Rattle.aft_entries.specs.IndexOnly.{index_only_raw};
ghost use Rattle.aft_entries.specs.declared.key.Kind.TheVariants as kind;
ghost use Rattle.aft_entries.specs.declared.operation.RawEntry.TheVariants as entry;
ghost use Rattle.proto_wire.specs.Wire.{value_of};
ghost use Rattle.proto_schema.specs.FieldValues.{piece_in};
ghost use Rattle.aft_messages.specs.Reading.{entry_of, is_nonempty};

use proto_schema::{number_of, piece_of};
use proto_wire::{Field, FieldReader, Next};
use schema_numbers::{FieldName, Numbering};

// Whether the field gives the wanted one bytes.
#[inline(always)]
fn has_bytes(wanted: u32, field: &Field<'_>) -> bool
    ensures { result ≡ is_nonempty (piece_in wanted field.now.number (value_of field.now.value)) }
{
    match piece_of(wanted, field) {
        None => false,
        Some(piece) => match piece {
            [] => false,
            _ => true,
        },
    }
}

/// The index of a next hop, where the message of one says nothing else of it, heard in one pass.
pub fn index_only_hop_index(n: &Numbering, bytes: &[u8]) -> Option<u64>
    ensures { IfSome result (λ index. entry_of n.now kind.Hop bytes.now ≡ entry.Hop index index_only_raw) }
{
    let index_number = n.field(FieldName::NextHopKeyIndex);
    let payload_number = n.field(FieldName::NextHopKeyNextHop);
    let mut index = None;
    let mut reader = FieldReader::new(bytes);
    loop {
        match reader.next() {
            Next::Field(field) => {
                if has_bytes(payload_number, &field) {
                    return None;
                }
                index = number_of(index_number, &field).or(index);
            }
            _ => return Some(index.unwrap_or(0)),
        }
    }
}
