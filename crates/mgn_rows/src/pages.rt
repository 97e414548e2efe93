//! Values in pages of 16 neighbours.

ghost use Rattle.std.specs.Prelude.{◌≡◌, ◌<◌, ◌≤◌, ◌+◌, ◌++◌, ℕ, length, replicate, slice_index, IfOk};
ghost use Rattle.std.specs.Vec.{vec_capacity};
ghost use Rattle.mgn_rows.specs.Pages.{ArePages, paged};

use std::alloc::{AllocError, Global};

/// How many neighbouring values a page has.
pub(crate) const PAGE: usize = 16;

// One page more, all of one value.
pub(crate) fn push_page<T: Copy>(cells: &mut Vec<T>, value: T)
    requires { length cells.old.items + 16 ≤ vec_capacity cells.old }
    ensures items { cells.new.items ≡ cells.old.items ++ replicate 16 value }
    ensures capacity { vec_capacity cells.new ≡ vec_capacity cells.old }
{
    for _ in 0..PAGE {
        cells.push_reserved(value);
    }
}

// A page of one value, with room for so many values.
pub(crate) fn first_page<T: Copy>(
    alloc: Global,
    value: T,
    room: usize,
) -> Result<Vec<T>, AllocError>
    requires { 16 ≤ room }
    ensures page { IfOk result (λ cells. cells.items ≡ replicate 16 value) }
    ensures room { IfOk result (λ cells. room ≤ vec_capacity cells) }
{
    let mut cells = Vec::with_capacity(alloc, room)?;
    push_page(&mut cells, value);
    Ok(cells)
}

// Keeps a page from now on, as it is, unless it is kept already.
pub(crate) fn keep<T: Copy>(places: &mut Vec<u16>, cells: &mut Vec<T>, page: usize)
    requires pages { (count : ℕ) × ArePages count places.old.items cells.old.items (vec_capacity cells.old) }
    requires page { page < length places.old.items }
    ensures pages { (count : ℕ) → ArePages count places.old.items cells.old.items (vec_capacity cells.old) →
        ArePages count places.new.items cells.new.items (vec_capacity cells.new) }
    ensures kept { 0 < slice_index places.new.items page }
    ensures same { (count : ℕ) → ArePages count places.old.items cells.old.items (vec_capacity cells.old) →
        paged count places.new.items cells.new.items ≡ paged count places.old.items cells.old.items }
    ensures long { length places.new.items ≡ length places.old.items }
{
    if places[page] == 0 {
        let value = cells[0];
        places[page] = (cells.len() / PAGE) as u16;
        push_page(cells, value);
    }
}
