ghost use Rattle.std.specs.Prelude.{◌≡◌, ◌+◌, ◌≤◌, ◌<◌, ◌^◌, ℕ, List, Some, length};
ghost use Rattle.schema_numbers.specs.Numbers.{Numbers};
ghost use Rattle.proto_schema.specs.declared.schema.MessageKind.{MessageKind};
ghost use Rattle.proto_schema.specs.Schema.{kind_of};
ghost use Rattle.proto_schema.specs.Legal.{fault_of_bytes, fault_of_value, fault_within, first_fault as fault_of, deeper_than};
ghost use Rattle.proto_wire.specs.Wire.{value_of, bytes_len};

use crate::schema::{FieldKind, MessageKind, field_kind};
use proto_wire::{FieldReader, Next, WireFault, WireValue};
use schema_numbers::Numbering;

/// Why a message is not read. A place is that of the first byte of the field's tag, counted from the beginning of the
/// outermost message.
#[derive(Clone, Copy, Debug, PartialEq, Eq)]
pub enum MessageFault {
    /// A field isn't well formed on the wire.
    Wire(usize, WireFault),
    /// The bytes of a text are not UTF-8.
    Utf8(usize),
    /// There was no memory for the value. No message has this as its first fault: only a decoder tells it.
    NoMemory,
}

// The first fault of a field's bytes, which begin at `base`; the field's tag is at `place`.
#[cycle(legal)]
#[tactic(auto, using(crate::proofs::Faults::utf8, crate::proofs::Nothing::no_fault), unfolding(crate::specs::Legal::deeper_than))]
fn fault_of_bytes(
    depth: u32,
    n: &Numbering,
    kind: FieldKind,
    place: usize,
    base: usize,
    bytes: &[u8],
) -> Option<MessageFault>
    requires { base + length bytes.now < 2 ^ 64 }
    ensures { result ≡ fault_of_bytes (deeper_than depth n.now) kind place base bytes.now }
{
    match kind {
        FieldKind::Text => match std::str::from_utf8(bytes) {
            Ok(_) => None,
            Err(_) => Some(MessageFault::Utf8(place)),
        },
        FieldKind::Message(message) => {
            // Nothing is wrong with no bytes.
            if depth == 0 || bytes.is_empty() {
                None
            } else {
                fault_within(depth - 1, n, message, base, bytes)
            }
        }
        _ => None,
    }
}

// The first fault of a value, behind which its field ends.
#[cycle(legal)]
fn fault_of_value(
    depth: u32,
    n: &Numbering,
    message: MessageKind,
    number: u32,
    place: usize,
    ending: usize,
    value: WireValue<'_>,
) -> Option<MessageFault>
    requires { bytes_len (value_of value) ≤ ending }
    ensures { result ≡ fault_of_value (deeper_than depth n.now) (kind_of n.now message number) place ending (value_of value.entry) }
{
    match value {
        WireValue::Bytes(bytes) => {
            let kind = field_kind(n, message, number);
            fault_of_bytes(depth, n, kind, place, ending - bytes.len(), bytes)
        }
        _ => None,
    }
}

// The first fault of a message whose bytes begin at `base`, with messages in it looked at to this depth.
#[cycle(legal)]
#[tactic(auto, using(crate::proofs::Faults::faults), unfolding(crate::specs::Legal::deeper_than))]
fn fault_within(
    depth: u32,
    n: &Numbering,
    message: MessageKind,
    base: usize,
    bytes: &[u8],
) -> Option<MessageFault>
    requires { base + length bytes.now < 2 ^ 64 }
    ensures { result ≡ fault_within depth n.now message base bytes.now }
{
    let mut reader = FieldReader::at(bytes, base);
    loop {
        match reader.next() {
            Next::End => return None,
            Next::Refused(place, fault) => return Some(MessageFault::Wire(place, fault)),
            Next::Field(field) => {
                let ending = reader.place();
                let found = fault_of_value(
                    depth,
                    n,
                    message,
                    field.number,
                    field.place,
                    ending,
                    field.value,
                );
                if found.is_some() {
                    return found;
                }
            }
        }
    }
}

/// The first fault of a message, also of one deep inside it: of its wire form, or of a text that is not UTF-8. It takes no memory.
#[tactic(auto, using(crate::proofs::Never::first_never), unfolding(crate::specs::Legal::first_fault))]
pub fn first_fault(n: &Numbering, message: MessageKind, bytes: &[u8]) -> Option<MessageFault>
    ensures first { result ≡ fault_of n.now message bytes.now }
    ensures never { result ≡ Some MessageFault.NoMemory → ⊥ }
{
    fault_within(6, n, message, 0, bytes)
}

/// Looking into messages to a greater depth finds the same first fault.
pub fn depth_is_enough()
    ensures { (more : ℕ) (n : Numbers) (m : MessageKind) (bytes : List ℕ) → fault_within (6 + more) n m 0 bytes ≡ fault_of n m bytes }
{}
