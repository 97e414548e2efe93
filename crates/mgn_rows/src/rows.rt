ghost use Rattle.std.specs.Prelude.{◌≡◌, ◌<◌, ◌≤◌, length, replicate, slice_index_or, slice_set, IfOk};
ghost use Rattle.std.specs.Borrow.{Lends, sem};

use crate::places::keep;
use std::alloc::{AllocError, Global};
use std::marker::Model;

/// A list of rows, of which those are kept that were written to; the others read as one value. Contracts see the list.
///
/// So what it costs to make the list, to copy it and to flatten it does not grow with the size of a row but for those that
/// are kept. There is room for all rows from the start.
#[derive(Drop)]
pub struct SparseRows<T> {
    // For each row where it stands in `kept`; 0, where the value of the others stands, for one that is not kept.
    places: Vec<u16>,
    kept: Vec<T>,
}

impl<T> Model for SparseRows<T> {
    ghost use Rattle.std.specs.Prelude.{List, length};
    ghost use Rattle.std.specs.Vec.{vec_capacity};
    ghost use Rattle.mgn_rows.specs.Rows.{ArePlaces, listed};

    ghost Value = { List T };

    ghost view = { λ r. listed r.places.items r.kept.items };

    ghost invariant = { λ r. ArePlaces r.places.items (length r.kept.items) (vec_capacity r.kept) };
}

impl<T: Copy> SparseRows<T> {
    ghost use Rattle.mgn_rows.specs.contracts.rows.SparseRows.{the_row};

    /// As many rows of one value, of which none is kept. An error says that memory was refused.
    pub fn new(alloc: Global, count: usize, value: T) -> Result<SparseRows<T>, AllocError>
        requires { count ≤ 4096 }
        ensures { IfOk result (λ rows. rows ≡ replicate count value) }
    {
        let places = vec![in alloc; 0; count]?;
        let mut kept = Vec::with_capacity(alloc, count + 1)?;
        kept.push_reserved(value);
        Ok(SparseRows { places, kept })
    }

    /// How many rows there are.
    pub fn len(&self) -> usize
        ensures { result ≡ length self.now }
    {
        self.places.len()
    }

    /// The row at a place.
    pub fn row(&self, i: usize) -> &T
        requires { i < length self.now }
        ensures { result.now ≡ slice_index_or self.now i result.now }
    {
        &self.kept[usize::from(self.places[i])]
    }

    /// The row at a place, to write to. It is kept from now on, also where nothing is written. It takes no memory.
    pub fn row_mut(&mut self, i: usize) -> &mut T
        requires { i < length self.old }
        ensures* writes_back { sem 𝓛 (Lends (the_row T.row) T.row self.entry result (slice_set self.old i)) }
        ensures value { result.now ≡ slice_index_or self.old i result.now }
    {
        keep(&mut self.places, &mut self.kept, i);
        let place = usize::from(self.places[i]);
        &mut self.kept[place]
    }

    /// Makes all rows one value, and none is kept. It takes no memory.
    pub fn flatten(&mut self, value: T)
        ensures { self.new ≡ replicate (length self.old) value }
    {
        self.places.fill(0);
        self.kept.clear();
        self.kept.push_reserved(value);
    }

    /// Takes over the rows of a list that is as long. It takes no memory, and costs what the other keeps.
    pub fn copy_from(&mut self, other: &SparseRows<T>)
        requires { length self.old ≡ length other.now }
        ensures { self.new ≡ other.now }
    {
        self.places.copy_from_slice(&other.places);
        self.kept.clear();
        if self.kept.extend_from_slice(&other.kept).is_err() {
            unreachable!();
        }
    }
}
