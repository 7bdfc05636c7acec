//! Laws over header blocks. Each call does nothing: its contract is the law.
ghost use Rattle.hpack_tables.specs.Laws.{OneReading, StaysInStep, WrittenIsRead};

/// A block has one reading: the fields and the table behind it, or one fault.
pub fn blocks_have_one_reading()
    ensures { OneReading }
{}

/// What an encoder writes is read as its fields, by a reader that is in step with it, and both stay
/// in step.
pub fn written_is_read()
    ensures { WrittenIsRead }
{}

/// An encoder that is told a size stays in step with its reader.
pub fn stays_in_step()
    ensures { StaysInStep }
{}
