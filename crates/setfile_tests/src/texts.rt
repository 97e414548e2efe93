//! Texts of sets, and what is wrong with them.

use mgn_setfile::{Cause, Field, SetFault, read_set};
use std::alloc::{AllocError, Global};

/// The fault of a text, if it has one.
pub(crate) fn fault_of(alloc: Global, text: &[u8]) -> Option<(u64, Cause)> {
    match read_set(alloc, text) {
        Ok(_) => None,
        Err(SetFault { number, cause, .. }) => Some((number, cause)),
    }
}

/// The number of the faulty record, its line and its field.
pub(crate) fn place_of(alloc: Global, text: &[u8]) -> Option<(u64, u64, Option<Field>)> {
    match read_set(alloc, text) {
        Ok(_) => None,
        Err(
            SetFault {
                number,
                line,
                field,
                ..
            },
        ) => Some((number, line, field)),
    }
}

/// A text with another line at a place, counted from 0.
pub(crate) fn edited(
    alloc: Global,
    text: &str,
    place: usize,
    line: &str,
) -> Result<Vec<u8>, AllocError> {
    let mut out = Vec::new(alloc);
    for (i, old) in text.as_bytes().split(|byte| *byte == b'\n').enumerate() {
        let new = if i == place { line.as_bytes() } else { old };
        out.extend_from_slice(new)?;
        out.push(b'\n')?;
    }
    Ok(out)
}

/// A text with another end of line.
pub(crate) fn ended_by(alloc: Global, text: &str, end: &[u8]) -> Result<Vec<u8>, AllocError> {
    let mut out = Vec::new(alloc);
    for line in text.as_bytes().split(|byte| *byte == b'\n') {
        out.extend_from_slice(line)?;
        out.extend_from_slice(end)?;
    }
    Ok(out)
}
