//! Quantities in pages of 16: of a margin unit that holds some contracts of a set, the pages of these alone are kept.

ghost use Rattle.std.specs.Prelude.{◌≡◌, ◌≢◌, ◌<◌, ◌≤◌, ◌+◌, ◌*◌, ◌/◌, ◌++◌, ◌+ℤ◌, ◌↔◌, ℕ, IfOk, IfSome, IsTrue, None, length, pos, replicate, slice_index, slice_set};
ghost use Rattle.std.specs.Int.{div_ceil};
ghost use Rattle.std.specs.Vec.{vec_capacity};
ghost use Rattle.mgn_num.specs.Amount.{IsQuantity};
ghost use Rattle.mgn_span.specs.Scan.{value_at};
ghost use Rattle.mgn_nets.specs.Pages.{ArePages, cell};
ghost use Rattle.mgn_nets.specs.PageSets.{AreAmong, has_page};

use crate::page_set::PageSet;
use mgn_num::Quantity;
use std::alloc::{AllocError, Global};

/// How many neighbouring quantities a page has.
pub(crate) const PAGE: usize = 16;

// How many pages so many quantities stand in.
pub(crate) fn page_count(count: usize) -> usize
    ensures { result ≡ div_ceil count 16 }
{
    count.div_ceil(PAGE)
}

// How many quantities these pages have, with the page of zeros before them.
pub(crate) fn cell_count(pages: usize) -> usize
    requires { pages ≤ 4096 }
    ensures { result ≡ 16 * pages + 16 }
{
    PAGE * pages + PAGE
}

// These quantities, with room for so many.
pub(crate) fn with_room(
    alloc: Global,
    cells: &[Quantity],
    room: usize,
) -> Result<Vec<Quantity>, AllocError>
    ensures cells { IfOk result (λ list. list.items ≡ cells.now) }
    ensures room { IfOk result (λ list. room ≤ vec_capacity list) }
{
    let mut list = Vec::with_capacity(alloc, room)?;
    list.extend_from_slice(cells)?;
    Ok(list)
}

// The quantity of a contract.
pub(crate) fn cell_at(starts: &[u16], cells: &[Quantity], contract: usize) -> Quantity
    requires page { contract / 16 < length starts.now }
    requires inside { slice_index starts.now (contract / 16) + 16 ≤ length cells.now }
    ensures { result ≡ cell starts.now cells.now contract }
{
    cells[usize::from(starts[contract / PAGE]) + contract % PAGE]
}

// Keeps a page from now on, all its quantities 0 as before.
fn open(kept: &mut PageSet, starts: &mut Vec<u16>, cells: &mut Vec<Quantity>, page: usize)
    requires pages { (count : ℕ) × ArePages count starts.old.items cells.old.items (vec_capacity cells.old) }
    requires page { page < length starts.old.items }
    requires closed { slice_index starts.old.items page ≡ 0 }
    ensures kept { has_page kept.new.words page ≡ 1 }
    ensures others_kept { (other : ℕ) → other ≢ page → has_page kept.new.words other ≡ has_page kept.old.words other }
    ensures starts { starts.new.items ≡ slice_set starts.old.items page (length cells.old.items) }
    ensures cells { cells.new.items ≡ cells.old.items ++ replicate 16 (pos 0) }
    ensures capacity { vec_capacity cells.new ≡ vec_capacity cells.old }
{
    kept.insert(page);
    starts[page] = cells.len() as u16;
    for _ in 0..PAGE {
        cells.push_reserved(Quantity::ZERO);
    }
}

// The same, unless it is kept already.
fn keep(kept: &mut PageSet, starts: &mut Vec<u16>, cells: &mut Vec<Quantity>, page: usize)
    requires pages { (count : ℕ) × ArePages count starts.old.items cells.old.items (vec_capacity cells.old) }
    requires page { page < length starts.old.items }
    ensures pages { (count : ℕ) → ArePages count starts.old.items cells.old.items (vec_capacity cells.old) →
        ArePages count starts.new.items cells.new.items (vec_capacity cells.new) }
    ensures kept { 0 < slice_index starts.new.items page }
    ensures among { AreAmong kept.old.words starts.old.items → AreAmong kept.new.words starts.new.items }
    ensures same { (c : ℕ) → cell starts.new.items cells.new.items c ≡ cell starts.old.items cells.old.items c }
    ensures long { length starts.new.items ≡ length starts.old.items }
{
    if starts[page] == 0 {
        open(kept, starts, cells, page);
    }
}

// Adds to the quantity of a contract.
pub(crate) fn add_to(
    kept: &mut PageSet,
    starts: &mut Vec<u16>,
    cells: &mut Vec<Quantity>,
    contract: usize,
    quantity: Quantity,
)
    requires pages { (count : ℕ) × (contract < count)
        × ArePages count starts.old.items cells.old.items (vec_capacity cells.old) }
    requires small { IsQuantity (cell starts.old.items cells.old.items contract +ℤ quantity) }
    ensures pages { (count : ℕ) → contract < count →
        ArePages count starts.old.items cells.old.items (vec_capacity cells.old) →
        ArePages count starts.new.items cells.new.items (vec_capacity cells.new) }
    ensures among { AreAmong kept.old.words starts.old.items → AreAmong kept.new.words starts.new.items }
    ensures here { cell starts.new.items cells.new.items contract
        ≡ cell starts.old.items cells.old.items contract +ℤ quantity }
    ensures others { (other : ℕ) → other ≢ contract →
        cell starts.new.items cells.new.items other ≡ cell starts.old.items cells.old.items other }
{
    keep(kept, starts, cells, contract / PAGE);
    let place = usize::from(starts[contract / PAGE]) + contract % PAGE;
    cells[place] = cells[place].plus(quantity);
}

// The first place of a page from one on with a quantity that is not 0.
pub(crate) fn held_from(cells: &[Quantity], start: usize, from: usize) -> Option<usize>
    requires inside { start + 16 ≤ length cells.now }
    ensures found { IfSome result (λ place. (from ≤ place) × (place < 16)) }
    ensures held { IfSome result (λ place. value_at cells.now (start + place) ≢ pos 0) }
    ensures before { IfSome result (λ place. (i : ℕ) → from ≤ i → i < place → value_at cells.now (start + i) ≡ pos 0) }
    ensures none { result ≡ None → (i : ℕ) → from ≤ i → i < 16 → value_at cells.now (start + i) ≡ pos 0 }
{
    for place in from..PAGE {
        if cells[start + place] != Quantity::ZERO {
            return Some(place);
        }
    }
    None
}

// The first place of a page from one on with another quantity than a page of another list.
pub(crate) fn different_from(
    cells: &[Quantity],
    start: usize,
    others: &[Quantity],
    other_start: usize,
    from: usize,
) -> Option<usize>
    requires inside { start + 16 ≤ length cells.now }
    requires other_inside { other_start + 16 ≤ length others.now }
    ensures found { IfSome result (λ place. (from ≤ place) × (place < 16)) }
    ensures different { IfSome result (λ place. value_at cells.now (start + place) ≢ value_at others.now (other_start + place)) }
    ensures before { IfSome result (λ place. (i : ℕ) → from ≤ i → i < place →
        value_at cells.now (start + i) ≡ value_at others.now (other_start + i)) }
    ensures none { result ≡ None → (i : ℕ) → from ≤ i → i < 16 →
        value_at cells.now (start + i) ≡ value_at others.now (other_start + i) }
{
    if is_same_page(cells, start, others, other_start) {
        return None;
    }
    for place in from..PAGE {
        if cells[start + place] != others[other_start + place] {
            return Some(place);
        }
    }
    None
}

// Whether a page is the same in both.
fn is_same_page(cells: &[Quantity], start: usize, others: &[Quantity], other_start: usize) -> bool
    requires inside { start + 16 ≤ length cells.now }
    requires other_inside { other_start + 16 ≤ length others.now }
    ensures { IsTrue result ↔ ((i : ℕ) → i < 16 → value_at cells.now (start + i) ≡ value_at others.now (other_start + i)) }
{
    let mut same = true;
    // No quantity ends the loop, so that several are compared at once.
    for i in 0..PAGE {
        same &= cells[start + i] == others[other_start + i];
    }
    same
}

// Whether both lists begin their pages at the same places. No page ends the loop, so that several are compared at once.
fn are_same_starts(starts: &[u16], others: &[u16]) -> bool
    requires long { length starts.now ≡ length others.now }
    ensures { IsTrue result ↔ (starts.now ≡ others.now) }
{
    let mut same = true;
    for i in 0..starts.len() {
        same &= starts[i] == others[i];
    }
    same
}

// Whether both keep the same quantities in the same order.
fn are_same_cells(cells: &[Quantity], others: &[Quantity]) -> bool
    requires long { length cells.now ≡ length others.now }
    ensures { IsTrue result ↔ (cells.now ≡ others.now) }
{
    let mut same = true;
    for i in 0..cells.len() {
        same &= cells[i] == others[i];
    }
    same
}

// Whether all quantities are the same in both. The pages of neither are passed.
pub(crate) fn are_same(
    kept: &PageSet,
    starts: &[u16],
    cells: &[Quantity],
    other_starts: &[u16],
    others: &[Quantity],
) -> bool
    requires kept { AreAmong kept.now.words starts.now }
    requires other_kept { AreAmong kept.now.words other_starts.now }
    requires few { length starts.now ≤ 256 }
    requires long { length starts.now ≡ length other_starts.now }
    requires inside { (page : ℕ) → slice_index starts.now page + 16 ≤ length cells.now }
    requires other_inside { (page : ℕ) → slice_index other_starts.now page + 16 ≤ length others.now }
    requires zero { (i : ℕ) → i < 16 → value_at cells.now i ≡ value_at others.now i }
    requires owned { (i : ℕ) → 16 ≤ i → i < length cells.now →
        (page : ℕ) × (slice_index starts.now page ≤ i) × (i < slice_index starts.now page + 16) }
    ensures { IsTrue result ↔ ((c : ℕ) → c / 16 < length starts.now →
        cell starts.now cells.now c ≡ cell other_starts.now others.now c) }
{
    // Of pages that were written to in the same order, as most are, all cells are compared at once.
    if cells.len() == others.len() && are_same_starts(starts, other_starts) {
        return are_same_cells(cells, others);
    }
    let mut page = kept.next(0);
    while page < starts.len() {
        let (start, other) = (usize::from(starts[page]), usize::from(other_starts[page]));
        if !is_same_page(cells, start, others, other) {
            return false;
        }
        page = kept.next(page + 1);
    }
    true
}
