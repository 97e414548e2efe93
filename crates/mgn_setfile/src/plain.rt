//! Files that one reader reads as they stand.

ghost use Rattle.std.specs.Prelude.{◌≡◌};
ghost use Rattle.mgn_setfile.specs.Plain.{has_mark, is_bare_text, is_plain, is_plain_line};

use crate::scan::{Shape, shape_of};

// Whether a line begins with a byte order mark, which a reader skips at the start of its text alone.
fn has_mark(line: &[u8]) -> bool
    ensures { result ≡ has_mark line.now }
{
    matches!(line, [0xEF, 0xBB, 0xBF, ..])
}

// Whether a line has no more than one record, and ends outside of quotes.
fn is_plain_line(line: &[u8]) -> bool
    ensures { result ≡ is_plain_line line.now }
{
    !has_mark(line) && shape_of(line) == Shape::Closed
}

// Whether a text has no quote, no carriage return and no byte that begins a byte order mark, as most texts have none.
// A search for one byte looks at many at a time.
fn is_bare_text(text: &[u8]) -> bool
    ensures { result ≡ is_bare_text text.now }
{
    !text.contains(&b'"') && !text.contains(&b'\r') && !text.contains(&0xEF)
}

// The same as `is_plain`, line by line.
fn has_plain_lines(text: &[u8]) -> bool
    ensures { result ≡ is_plain text.now }
{
    text.split(|byte| *byte == b'\n').all(is_plain_line)
}

// Whether one reader finds in a text what readers of its lines find.
pub(crate) fn is_plain(text: &[u8]) -> bool
    ensures { result ≡ is_plain text.now }
{
    is_bare_text(text) || has_plain_lines(text)
}
