ghost use Rattle.std.specs.Prelude.{◌≡◌, ◌≤◌, ◌<◌, ◌^◌, ◌+◌, ◌++◌, ℕ, List, [], Ok, All, None, length};
ghost use Rattle.proto_wire.specs.Wire.{varint_at, Varint, Bytes};
ghost use Rattle.proto_wire.specs.Fields.{fields_from, prepend_field, nothing};
ghost use Rattle.proto_wire.specs.Written.{varint, uint_field, bytes_field, WrittenField, IsLegal, encoded_fields, field_spans};

/// A varint that was written is read again, whatever follows it.
pub fn varint_is_read_again()
    ensures { (n : ℕ) (more : List ℕ) → n < 2 ^ 64 →
        varint_at (varint n ++ more) ≡ Ok (n, length (varint n)) }
{}

/// No spelling that is read as a number has fewer bytes than the one that is written.
pub fn varint_is_shortest()
    ensures { (n size : ℕ) (bytes : List ℕ) → All (λ byte. byte < 256) bytes →
        varint_at bytes ≡ Ok (n, size) → length (varint n) ≤ size }
{}

/// A field that was written is read again at its place, and what follows is read behind it.
pub fn field_is_read_again()
    ensures uint { (place number value : ℕ) (more : List ℕ) →
        1 ≤ number → number < 2 ^ 29 → value < 2 ^ 64 →
        let ending = place + length (uint_field number value) in
        fields_from place (uint_field number value ++ more)
        ≡ prepend_field
        (record { number = number; place = place; ending = ending; value = Varint value })
        (fields_from ending more) }
    ensures bytes { (place number : ℕ) (value more : List ℕ) →
        1 ≤ number → number < 2 ^ 29 → length value < 2 ^ 64 →
        let ending = place + length (bytes_field number value) in
        fields_from place (bytes_field number value ++ more)
        ≡ prepend_field
        (record { number = number; place = place; ending = ending; value = Bytes value })
        (fields_from ending more) }
{}

/// A message of written fields is read as those fields, with no fault.
pub fn message_is_read_again()
    ensures { (place : ℕ) (parts : List WrittenField) → All IsLegal parts →
        fields_from place (encoded_fields parts) ≡ record { fields = field_spans place parts; fault = None } }
{}
