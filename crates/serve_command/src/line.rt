//! The line of counts.
ghost use Rattle.std.specs.Prelude.{◌≡◌, ◌+◌, ◌≤◌, ◌++◌};
ghost use Rattle.std.specs.Fmt.{decimal};
ghost use Rattle.arrayvec.specs.ArrayString.{array_string_len};
ghost use Rattle.serve_command.specs.Line as spec;

use arrayvec::ArrayString;
use itoa::Buffer;

// Three numbers of at most 20 digits fit with the words between them.
const LONGEST: usize = 96;

/// A line, which takes no memory but its own.
pub(crate) type Line = ArrayString<LONGEST>;

// Appends a number in decimal digits.
fn append_count(line: &mut Line, count: u64)
    requires { array_string_len line.old + 20 ≤ 96 }
    ensures bytes { line.new.bytes ≡ line.old.bytes ++ decimal count }
    ensures len { array_string_len line.new ≤ array_string_len line.old + 20 }
{
    let mut buffer = Buffer::new();
    line.push_str(buffer.format(count));
}

/// The line that tells these counts, and its newline.
pub(crate) fn counts_line(entries: u64, installed: u64, events: u64) -> Line
    ensures { result.bytes ≡ spec.counts_line entries installed events }
{
    let mut line = Line::new();
    line.push_str("entries ");
    append_count(&mut line, entries);
    line.push_str(" installed ");
    append_count(&mut line, installed);
    line.push_str(" events ");
    append_count(&mut line, events);
    line.push_str("\n");
    line
}
