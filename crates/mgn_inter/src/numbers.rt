//! The rows of the commodities, read and written one at a time. Those that are only read are not kept for it.

ghost use Rattle.std.specs.Prelude.{◌≡◌, ◌+◌, ◌-◌, ◌<◌, ◌≤◌, ◌^◌, length, slice_index, slice_set};
ghost use Rattle.mgn_inter.specs.Columns.{credits_in, deltas_in, KeepsRisks, numbers_at, rests_in, risks_in};

use crate::commodity_numbers::CommodityNumbers;
use mgn_rows::SparseRows;
use mgn_span::Delta;

// The numbers of a commodity.
pub(crate) fn numbers_at(numbers: &SparseRows<CommodityNumbers>, g: usize) -> &CommodityNumbers
    requires { g < length numbers.now }
    ensures { result.now ≡ numbers_at numbers.now g }
{
    numbers.row(g)
}

// Gives a commodity a net delta, also as its rest, and a doubled price risk.
pub(crate) fn write_numbers(
    numbers: &mut SparseRows<CommodityNumbers>,
    g: usize,
    delta: Delta,
    risk: u64,
)
    requires { g < length numbers.old }
    ensures deltas { deltas_in numbers.new ≡ slice_set (deltas_in numbers.old) g delta }
    ensures risks { risks_in numbers.new ≡ slice_set (risks_in numbers.old) g risk }
    ensures rests { rests_in numbers.new ≡ slice_set (rests_in numbers.old) g delta }
    ensures credits { credits_in numbers.new ≡ credits_in numbers.old }
{
    let row = numbers.row_mut(g);
    row.delta = delta;
    row.risk = risk;
    row.rest = delta;
}

// Gives a commodity a rest.
pub(crate) fn write_rest(numbers: &mut SparseRows<CommodityNumbers>, g: usize, rest: Delta)
    requires { g < length numbers.old }
    ensures rests { rests_in numbers.new ≡ slice_set (rests_in numbers.old) g rest }
    ensures numbers { KeepsRisks numbers.old numbers.new }
    ensures credits { credits_in numbers.new ≡ credits_in numbers.old }
{
    numbers.row_mut(g).rest = rest;
}

// Takes a credit off those of a commodity, and adds another.
pub(crate) fn move_credit(numbers: &mut SparseRows<CommodityNumbers>, g: usize, old: u64, new: u64)
    requires inside { g < length numbers.old }
    requires covered { old ≤ slice_index (credits_in numbers.old) g }
    requires room { slice_index (credits_in numbers.old) g ≤ 10 ^ 37 }
    ensures credits { credits_in numbers.new ≡
        slice_set (credits_in numbers.old) g (slice_index (credits_in numbers.old) g - old + new) }
    ensures numbers { KeepsRisks numbers.old numbers.new }
    ensures rests { rests_in numbers.new ≡ rests_in numbers.old }
{
    let row = numbers.row_mut(g);
    row.credit = row.credit - u128::from(old) + u128::from(new);
}
