ghost use Rattle.std.specs.Prelude.{◌≡◌, ◌<◌, ◌^◌, IfSome, length};
ghost use Rattle.schema_numbers.specs.Numbers.{Numbers};
ghost use Rattle.schema_numbers.specs.Valid.{IsValid};
ghost use Rattle.aft_entries.specs.declared.operation.RawEntry.{RawEntry};
ghost use Rattle.aft_messages.specs.Writing.{raw_bytes};
ghost use Rattle.aft_messages.specs.Encodable.{IsEncodable, IsReadAgain, raw_kind};

/// The bytes that are written of an entry have no fault, and are read as that entry again.
pub fn entry_is_read_again()
    ensures { (n : Numbers) (raw : RawEntry) → IsValid n → IsEncodable raw → length (raw_bytes n raw) < 2 ^ 64 →
        IfSome (raw_kind raw) (λ kind. IsReadAgain n kind raw) }
{}
