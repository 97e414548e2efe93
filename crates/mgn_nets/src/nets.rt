ghost use Rattle.std.specs.Prelude.{◌≡◌, ◌≢◌, ◌<◌, ◌≤◌, ◌+◌, ◌*◌, ◌+ℤ◌, pos, length, map, replicate, slice_set, IfOk, IfSome, IsTrue, ◌↔◌, ℕ, None};
ghost use Rattle.std.specs.Int.{div_ceil};
ghost use Rattle.mgn_num.specs.Amount.{IsQuantity};
ghost use Rattle.mgn_span.specs.Scan.{value_at};
ghost use Rattle.mgn_nets.specs.Numbers.{number_at};

use crate::page_set::PageSet;
use crate::pages::{
    PAGE, add_to, are_same, cell_at, cell_count, different_from, held_from, page_count, with_room,
};
use mgn_num::Quantity;
use std::alloc::{AllocError, Global};
use std::marker::Model;

/// One quantity for each contract of a set. Contracts see the list.
///
/// They stand in pages of 16, of which those are kept that were written to, so that a copy and a comparison cost what is
/// held and not what the set has. There is room for all of them from the start.
#[derive(Drop)]
pub struct Nets {
    count: usize,
    // The pages that are kept.
    kept: PageSet,
    // Where the page of each 16 contracts begins in `cells`; 0, where a page of zeros stands, for one that is not kept.
    starts: Vec<u16>,
    cells: Vec<Quantity>,
}

impl Model for Nets {
    ghost use Rattle.std.specs.Prelude.{List, ℤ};
    ghost use Rattle.std.specs.Vec.{vec_capacity};
    ghost use Rattle.mgn_nets.specs.Pages.{listed};
    ghost use Rattle.mgn_nets.specs.PageSets.{AreKept};

    ghost Value = { List ℤ };

    ghost view = { λ n. listed n.count n.starts.items n.cells.items };

    ghost invariant = { λ n. AreKept n.kept.words n.count n.starts.items n.cells.items (vec_capacity n.cells) };
}

impl Nets {
    /// As many quantities of 0. An error says that memory was refused.
    pub fn flat(alloc: Global, count: usize) -> Result<Nets, AllocError>
        requires { count ≤ 4096 }
        ensures { IfOk result (λ nets. nets ≡ replicate count (pos 0)) }
    {
        Nets::of_pages(alloc, count, page_count(count))
    }

    // The same in so many pages, of which none is kept.
    fn of_pages(alloc: Global, count: usize, pages: usize) -> Result<Nets, AllocError>
        requires few { count ≤ 4096 }
        requires pages { pages ≡ div_ceil count 16 }
        ensures { IfOk result (λ nets. nets ≡ replicate count (pos 0)) }
    {
        let starts = vec![in alloc; 0; pages]?;
        let cells = with_room(alloc, &[Quantity::ZERO; PAGE], cell_count(pages))?;
        Ok(Nets {
            count,
            kept: PageSet::NONE,
            starts,
            cells,
        })
    }

    /// These quantities, in their order. An error says that memory was refused.
    pub fn of(alloc: Global, list: &[Quantity]) -> Result<Nets, AllocError>
        requires { length list.now ≤ 4096 }
        ensures { IfOk result (λ nets. nets ≡ list.now) }
    {
        let mut nets = Nets::flat(alloc, list.len())?;
        for i in 0..list.len() {
            nets.fill(i, list[i]);
        }
        Ok(nets)
    }

    // Puts a quantity where there is 0. One of 0 has no page kept.
    fn fill(&mut self, contract: usize, quantity: Quantity)
        requires contract { contract < length self.old }
        requires empty { value_at self.old contract ≡ pos 0 }
        ensures { self.new ≡ slice_set self.old contract quantity }
    {
        if quantity.size() != 0 {
            self.add(contract, quantity);
        }
    }

    /// An equal list. An error says that memory was refused.
    pub fn copy(&self, alloc: Global) -> Result<Nets, AllocError>
        ensures { IfOk result (λ nets. nets ≡ self.now) }
    {
        let starts = self.starts.as_slice().to_vec(alloc)?;
        let cells = with_room(alloc, &self.cells, cell_count(starts.len()))?;
        Ok(Nets {
            count: self.count,
            kept: self.kept,
            starts,
            cells,
        })
    }

    /// How many quantities there are.
    pub fn len(&self) -> usize
        ensures { result ≡ length self.now }
    {
        self.count
    }

    /// The quantity at a place.
    pub fn at(&self, contract: usize) -> Quantity
        requires { contract < length self.now }
        ensures { result ≡ value_at self.now contract }
    {
        cell_at(&self.starts, &self.cells, contract)
    }

    /// The quantities at these places, in their order, and 0 where there is no place. An error says that memory was
    /// refused.
    pub fn at_places(&self, alloc: Global, places: &[Option<usize>]) -> Result<Nets, AllocError>
        requires { length places.now ≤ 4096 }
        ensures { IfOk result (λ nets. nets ≡ map (number_at self.now) places.now) }
    {
        let mut nets = Nets::flat(alloc, places.len())?;
        for i in 0..places.len() {
            nets.fill(i, self.at_place(places[i]));
        }
        Ok(nets)
    }

    /// Whether these are the quantities of another list at these places, in their order, and 0 where there is no place.
    pub fn are_at_places(&self, other: &Nets, places: &[Option<usize>]) -> bool
        ensures { IsTrue result ↔ (self.now ≡ map (number_at other.now) places.now) }
    {
        if self.len() != places.len() {
            return false;
        }
        for i in 0..places.len() {
            if self.at(i) != other.at_place(places[i]) {
                return false;
            }
        }
        true
    }

    fn at_place(&self, place: Option<usize>) -> Quantity
        ensures { result ≡ number_at self.now place }
    {
        match place {
            Some(contract) if contract < self.len() => self.at(contract),
            _ => Quantity::ZERO,
        }
    }

    /// The first contract from one on with a quantity that is not 0.
    pub fn next_held(&self, from: usize) -> Option<usize>
        ensures found { IfSome result (λ c. (from ≤ c) × (c < length self.now)) }
        ensures held { IfSome result (λ c. value_at self.now c ≢ pos 0) }
        ensures before { IfSome result (λ c. (k : ℕ) → from ≤ k → k < c → value_at self.now k ≡ pos 0) }
        ensures none { result ≡ None → (k : ℕ) → from ≤ k → value_at self.now k ≡ pos 0 }
    {
        let mut contract = from;
        while contract < self.len() {
            let page = contract / PAGE;
            if let Some(place) = self.held_in(page, contract % PAGE) {
                return Some(page * PAGE + place);
            }
            contract = self.kept_from(page + 1) * PAGE;
        }
        None
    }

    // The first page from one on that is kept, or how many pages there are.
    fn kept_from(&self, page: usize) -> usize
        requires { page * 16 < length self.now + 16 }
        ensures from { page ≤ result }
        ensures few { result ≤ 256 }
        ensures passed { (k : ℕ) → page * 16 ≤ k → k < result * 16 → value_at self.now k ≡ pos 0 }
    {
        self.kept.next(page)
    }

    // The first place of a page from one on with a quantity that is not 0.
    fn held_in(&self, page: usize, from: usize) -> Option<usize>
        requires { page * 16 < length self.now }
        ensures found { IfSome result (λ place. (from ≤ place) × (place < 16) × (page * 16 + place < length self.now)) }
        ensures held { IfSome result (λ place. value_at self.now (page * 16 + place) ≢ pos 0) }
        ensures before { IfSome result (λ place. (i : ℕ) → from ≤ i → i < place → value_at self.now (page * 16 + i) ≡ pos 0) }
        ensures none { result ≡ None → (i : ℕ) → from ≤ i → i < 16 → value_at self.now (page * 16 + i) ≡ pos 0 }
        ensures few { page < 256 }
    {
        let start = usize::from(self.starts[page]);
        if start == 0 {
            return None;
        }
        held_from(&self.cells, start, from)
    }

    /// The first contract from one on with another quantity than a list that is as long.
    pub fn next_different(&self, other: &Nets, from: usize) -> Option<usize>
        requires { length self.now ≡ length other.now }
        ensures found { IfSome result (λ c. (from ≤ c) × (c < length self.now)) }
        ensures different { IfSome result (λ c. value_at self.now c ≢ value_at other.now c) }
        ensures before { IfSome result (λ c. (k : ℕ) → from ≤ k → k < c → value_at self.now k ≡ value_at other.now k) }
        ensures none { result ≡ None → (k : ℕ) → from ≤ k → value_at self.now k ≡ value_at other.now k }
    {
        let mut contract = from;
        while contract < self.len() {
            let page = contract / PAGE;
            if let Some(place) = self.different_in(other, page, contract % PAGE) {
                return Some(page * PAGE + place);
            }
            contract = self.kept_in_one_from(other, page + 1) * PAGE;
        }
        None
    }

    // The first page from one on that is kept in one of two lists at least, or how many pages there are.
    fn kept_in_one_from(&self, other: &Nets, page: usize) -> usize
        requires long { length self.now ≡ length other.now }
        requires page { page * 16 < length self.now + 16 }
        ensures from { page ≤ result }
        ensures few { result ≤ 256 }
        ensures passed { (k : ℕ) → page * 16 ≤ k → k < result * 16 → value_at self.now k ≡ value_at other.now k }
    {
        self.kept.union(&other.kept).next(page)
    }

    // The first place of a page from one on with another quantity than a list that is as long.
    fn different_in(&self, other: &Nets, page: usize, from: usize) -> Option<usize>
        requires long { length self.now ≡ length other.now }
        requires page { page * 16 < length self.now }
        ensures found { IfSome result (λ place. (from ≤ place) × (place < 16) × (page * 16 + place < length self.now)) }
        ensures different { IfSome result (λ place. value_at self.now (page * 16 + place) ≢ value_at other.now (page * 16 + place)) }
        ensures before { IfSome result (λ place. (i : ℕ) → from ≤ i → i < place →
            value_at self.now (page * 16 + i) ≡ value_at other.now (page * 16 + i)) }
        ensures none { result ≡ None → (i : ℕ) → from ≤ i → i < 16 →
            value_at self.now (page * 16 + i) ≡ value_at other.now (page * 16 + i) }
        ensures few { page < 256 }
    {
        let start = usize::from(self.starts[page]);
        let other_start = usize::from(other.starts[page]);
        different_from(&self.cells, start, &other.cells, other_start, from)
    }

    /// The quantity at a place, with another added.
    pub fn add(&mut self, contract: usize, quantity: Quantity)
        requires contract { contract < length self.old }
        requires small { IsQuantity (value_at self.old contract +ℤ quantity) }
        ensures { self.new ≡ slice_set self.old contract (value_at self.old contract +ℤ quantity) }
    {
        add_to(
            &mut self.kept,
            &mut self.starts,
            &mut self.cells,
            contract,
            quantity,
        );
    }

    /// Quantities of 0 in place of these. It takes no memory.
    pub fn clear(&mut self)
        ensures { self.new ≡ replicate (length self.old) (pos 0) }
    {
        self.kept = PageSet::NONE;
        self.starts.fill(0);
        self.cells.truncate(PAGE);
    }

    /// Takes over the quantities of a list that is as long. It takes no memory.
    pub fn copy_from(&mut self, other: &Nets)
        requires { length self.old ≡ length other.now }
        ensures { self.new ≡ other.now }
    {
        self.kept = other.kept;
        self.starts.copy_from_slice(&other.starts);
        self.cells.clear();
        if self.cells.extend_from_slice(&other.cells).is_err() {
            unreachable!();
        }
    }

    /// Whether each quantity is the other's.
    pub fn is_same(&self, other: &Nets) -> bool
        ensures { IsTrue result ↔ (self.now ≡ other.now) }
    {
        let kept = self.kept.union(&other.kept);
        self.count == other.count
            && are_same(
                &kept,
                &self.starts,
                &self.cells,
                &other.starts,
                &other.cells,
            )
    }
}
