//! Texts that are read line by line, and the files of sets.

use mgn_ids::SetName;
use mgn_machine::Request;
use mgn_params::ParamSet;
use mgn_setfile::read_set;
use mgn_wire::{Line, read_line};
use std::alloc::Global;
use worked_sets::{one, two};

/// What is left of a text of lines.
#[derive(Clone, Copy)]
pub(crate) struct Rest<'t>(pub(crate) &'t [u8]);

impl<'t> Rest<'t> {
    /// Takes the next line, without its line feed.
    pub(crate) fn next_line(&mut self) -> Option<&'t [u8]> {
        let text = self.0;
        let end = text.iter().position(|byte| *byte == b'\n')?;
        self.0 = &text[end + 1..];
        Some(&text[..end])
    }
}

/// The set of a name.
pub(crate) fn set_of(alloc: Global, name: &SetName) -> Option<ParamSet> {
    let text = if name.as_bytes() == b"TWO".as_slice() {
        two()
    } else {
        one()
    };
    read_set(alloc, text.as_bytes()).ok()
}

// What is asked for.
fn request(alloc: Global, line: &Line) -> Option<Request> {
    match line {
        Line::Do(command) => Some(Request::Do(*command)),
        Line::Switch(name) => Some(Request::Switch(set_of(alloc, name)?)),
    }
}

/// What a line asks for.
pub(crate) fn request_of(alloc: Global, line: &[u8]) -> Option<Request> {
    match read_line(line) {
        Ok(line) => request(alloc, &line),
        Err(_) => None,
    }
}
