ghost use Rattle.hpack_huffman.specs.Laws.{HaveOneReading, HaveOneString};

/// Bytes are the Huffman string of one text, or have one fault.
pub fn strings_have_one_reading()
    ensures { HaveOneReading }
{}

/// A text has one Huffman string.
pub fn texts_have_one_string()
    ensures { HaveOneString }
{}
