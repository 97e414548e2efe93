ghost use Rattle.std.specs.Prelude.{◌≡◌, ◌<◌, ◌≤◌, ◌+◌, ℕ, length, replicate, slice_index_or, slice_set, IfOk};
ghost use Rattle.std.specs.Borrow.{Lends, sem};
ghost use Rattle.std.specs.Int.{div_ceil};

use crate::pages::{PAGE, first_page, keep, push_page};
use std::alloc::{AllocError, Global};
use std::marker::Model;

/// A list of values in pages of 16 neighbours, of which those pages are kept that were written to; the others read as one
/// value. Contracts see the list.
///
/// So what it costs to copy it and to flatten it grows with what is kept, and with the length only by two bytes a page.
/// There is room for all pages from the start.
#[derive(Drop)]
pub struct SparseList<T> {
    count: usize,
    // For each page which one of `cells` it is; 0, the page of the value that the others read as, for one that is not kept.
    places: Vec<u16>,
    cells: Vec<T>,
}

impl<T> Model for SparseList<T> {
    ghost use Rattle.std.specs.Prelude.{List};
    ghost use Rattle.std.specs.Vec.{vec_capacity};
    ghost use Rattle.mgn_rows.specs.Pages.{ArePages, paged};

    ghost Value = { List T };

    ghost view = { λ l. paged l.count l.places.items l.cells.items };

    ghost invariant = { λ l. ArePages l.count l.places.items l.cells.items (vec_capacity l.cells) };
}

impl<T: Copy> SparseList<T> {
    ghost use Rattle.mgn_rows.specs.contracts.list.SparseList.{the_row};

    /// So many values that are all one, of which no page is kept. An error says that memory was refused.
    pub fn new(alloc: Global, count: usize, value: T) -> Result<SparseList<T>, AllocError>
        requires { count ≤ 65536 }
        ensures { IfOk result (λ list. list ≡ replicate count value) }
    {
        SparseList::of_pages(alloc, count, count.div_ceil(PAGE), value)
    }

    // The same in so many pages.
    fn of_pages(
        alloc: Global,
        count: usize,
        pages: usize,
        value: T,
    ) -> Result<SparseList<T>, AllocError>
        requires few { count ≤ 65536 }
        requires pages { pages ≡ div_ceil count 16 }
        ensures { IfOk result (λ list. list ≡ replicate count value) }
    {
        let places = vec![in alloc; 0; pages]?;
        let cells = first_page(alloc, value, PAGE * pages + PAGE)?;
        Ok(SparseList {
            count,
            places,
            cells,
        })
    }

    /// How many values there are.
    pub fn len(&self) -> usize
        ensures { result ≡ length self.now }
    {
        self.count
    }

    /// The value at a place.
    pub fn at(&self, i: usize) -> &T
        requires { i < length self.now }
        ensures { result.now ≡ slice_index_or self.now i result.now }
    {
        &self.cells[usize::from(self.places[i / PAGE]) * PAGE + i % PAGE]
    }

    /// The value at a place, to write to. Its page is kept from now on, also where nothing is written. It takes no memory.
    pub fn at_mut(&mut self, i: usize) -> &mut T
        requires { i < length self.old }
        ensures* writes_back { sem 𝓛 (Lends (the_row T.row) T.row self.entry result (slice_set self.old i)) }
        ensures value { result.now ≡ slice_index_or self.old i result.now }
    {
        keep(&mut self.places, &mut self.cells, i / PAGE);
        let place = usize::from(self.places[i / PAGE]) * PAGE + i % PAGE;
        &mut self.cells[place]
    }

    /// How many values from a place on are surely the one there: all to the end of a page that is not kept, and else that
    /// one alone. So a pass over the list costs what is kept, and little for each page that is not.
    pub fn run_from(&self, from: usize) -> usize
        requires { from < length self.now }
        ensures some { 1 ≤ result }
        ensures within { from + result ≤ length self.now }
        ensures same { (i : ℕ) (d : T) → from ≤ i → i < from + result → slice_index_or self.now i d ≡ slice_index_or self.now from d }
    {
        if self.places[from / PAGE] != 0 {
            return 1;
        }
        (PAGE - from % PAGE).min(self.count - from)
    }

    /// Makes all values one, and no page is kept. It takes no memory.
    pub fn flatten(&mut self, value: T)
        ensures { self.new ≡ replicate (length self.old) value }
    {
        self.places.fill(0);
        self.cells.clear();
        push_page(&mut self.cells, value);
    }

    /// Takes over the values of a list that is as long. It takes no memory, and costs what the other keeps.
    pub fn copy_from(&mut self, other: &SparseList<T>)
        requires { length self.old ≡ length other.now }
        ensures { self.new ≡ other.now }
    {
        self.places.copy_from_slice(&other.places);
        self.cells.clear();
        if self.cells.extend_from_slice(&other.cells).is_err() {
            unreachable!();
        }
    }
}
