//! The lines of a file, and the fields of a record.

ghost use Rattle.std.specs.Prelude.{◌≡◌, ◌<◌, ◌≤◌, ◌∷◌, ◌==◌, length, map, option_map, position, take, IfOk, IfSome};
ghost use Rattle.std.specs.List.{slice_split};
ghost use Rattle.csv.specs.Records.{fields_of};
ghost use Rattle.csv.specs.Reading.{strip_bom};
ghost use Rattle.mgn_setfile.specs.File.{line_of_record};
ghost use Rattle.mgn_setfile.specs.Lines.{is_blank, lines_left};

use csv::ByteRecord;
use std::alloc::{AllocError, Global};

// Where the first end of line stands.
fn end_of_line(text: &[u8]) -> Option<usize>
    ensures place { result ≡ position (λ b. b == 10) text.now }
    ensures within { IfSome result (λ at. at < length text.now) }
{
    text.iter().position(|byte| *byte == b'\n')
}

// The first line of a text, and what follows its end of line.
pub(crate) fn cut_line(text: &[u8]) -> (&[u8], Option<&[u8]>)
    ensures parts { slice_split (λ b. b == 10) text.now ≡ result.0.now ∷ lines_left (option_map (λ s. s.now) result.1) }
    ensures shorter { IfSome result.1 (λ rest. length rest.now < length text.now) }
{
    match end_of_line(text) {
        None => (text, None),
        Some(at) => (&text[..at], Some(&text[at + 1..])),
    }
}

// A line without the byte order mark that it may begin with.
#[tactic(auto, unfolding(csv::specs::Reading::strip_bom))]
pub(crate) fn unmarked(line: &[u8]) -> &[u8]
    ensures { result.now ≡ strip_bom line.now }
{
    match line {
        [0xEF, 0xBB, 0xBF, rest @ ..] => rest,
        _ => line,
    }
}

// Whether a line has nothing, or carriage returns alone, so that no record can stand in it.
fn is_blank(line: &[u8]) -> bool
    ensures { result ≡ is_blank line.now }
{
    unmarked(line).iter().all(|byte| *byte == b'\r')
}

// The line of the record of a number, both from 1: each line that is not blank has one. It is line 1 where no line has it.
pub(crate) fn line_of(text: &[u8], number: u64) -> u64
    requires { 0 < number }
    ensures { result ≡ line_of_record text.now number }
{
    let mut lines = 0u64;
    let mut count = 0u64;
    let mut rest = Some(text);
    while let Some(left) = rest {
        let (line, more) = cut_line(left);
        rest = more;
        lines += 1;
        if is_blank(line) {
            continue;
        }
        count += 1;
        if count == number {
            return lines;
        }
    }
    1
}

/// How many fields a record may have to be read without memory of its own: those of a contract. Only a spread between
/// commodities of many legs has more.
pub(crate) const SHORT_RECORD: usize = 24;

// The fields of a short record, and then empty ones.
pub(crate) fn short_fields(row: &ByteRecord) -> [&[u8]; 24]
    requires { length (fields_of row.now) ≤ 24 }
    ensures fields { map (λ s. s.now) (take (length (fields_of row.now)) result) ≡ fields_of row.now }
    ensures len { length result ≡ 24 }
{
    let mut words = [b"".as_slice(); 24];
    for i in 0..row.len() {
        if let Some(word) = row.get(i) {
            words[i] = word;
        }
    }
    words
}

// The fields of a record.
pub(crate) fn fields<'a>(alloc: Global, row: &'a ByteRecord) -> Result<Vec<&'a [u8]>, AllocError>
    ensures { IfOk result (λ words. map (λ s. s.now) words.items ≡ fields_of row.now) }
{
    let mut words = Vec::with_capacity(alloc, row.len())?;
    for i in 0..row.len() {
        if let Some(word) = row.get(i) {
            words.push_reserved(word);
        }
    }
    Ok(words)
}
