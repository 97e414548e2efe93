//! A text as one reader reads it, whatever its lines hold.

ghost use Rattle.std.specs.Prelude.{◌≡◌, IfOk, option_map};
ghost use Rattle.csv.specs.Reading.{strip_bom};
ghost use Rattle.mgn_setfile.specs.Plain.{Adds, Begins, end_of};

use crate::line::{cut_line, unmarked};
use crate::scan::{Shape, shape_of};
use std::alloc::{AllocError, Global};

/// The lines of a text up to one that has two records, each without its byte order mark and with its last quote closed.
#[derive(Drop)]
pub(crate) struct Body {
    pub bytes: Vec<u8>,
    /// Whether a line that has two records comes next.
    pub is_cut: bool,
}

// What ends a line of this shape so that a reader may go on behind it.
fn end_of(shape: Shape) -> Option<&'static [u8]>
    ensures { option_map (λ s. s.now) result ≡ end_of shape }
{
    match shape {
        Shape::Closed => Some(b"\n"),
        Shape::Open => Some(b"\"\n"),
        Shape::Second => None,
    }
}

// Adds a line where it has no second record, and says whether it has none.
fn add_line(bytes: &mut Vec<u8>, line: &[u8]) -> Result<bool, AllocError>
    ensures { IfOk result (Adds bytes.old.items line.now bytes.new.items) }
{
    let bare = unmarked(line);
    let Some(end) = end_of(shape_of(bare)) else {
        return Ok(false);
    };
    bytes.extend_from_slice(bare)?;
    bytes.extend_from_slice(end)?;
    Ok(true)
}

/// The lines of any text, one behind the other.
pub(crate) fn close_lines(alloc: Global, text: &[u8]) -> Result<Body, AllocError>
    ensures { IfOk result (λ body. Begins text.now (strip_bom body.bytes.items) body.is_cut) }
{
    let mut bytes = Vec::with_capacity(alloc, text.len())?;
    // A reader passes over a byte order mark at its start, and over this one alone.
    bytes.extend_from_slice(b"\xEF\xBB\xBF")?;
    let mut rest = Some(text);
    while let Some(left) = rest {
        let (line, more) = cut_line(left);
        if !add_line(&mut bytes, line)? {
            return Ok(Body {
                bytes,
                is_cut: true,
            });
        }
        rest = more;
    }
    Ok(Body {
        bytes,
        is_cut: false,
    })
}
