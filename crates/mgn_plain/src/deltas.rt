ghost use Rattle.std.specs.Prelude.{◌≡◌, ◌≢◌, ℕ, ◌+◌, ◌*◌, ◌<◌, ◌≤◌, ◌^◌, ℤ, ◌+ℤ◌, ◌*ℤ◌, pos, unsigned_abs, List, length, IfOk};
ghost use Rattle.mgn_span.specs.Scan.{value_at};
ghost use Rattle.mgn_span.specs.Sizes.{IsDelta};
ghost use Rattle.mgn_span.specs.Words.{month_share};
ghost use Rattle.mgn_plain.specs.Kept.{leg_of, legs_row};
ghost use Rattle.mgn_plain.specs.Months.{AreMonthSums, AreMonthSumsTo};
ghost use Rattle.mgn_plain.specs.Parts.{AreDeltas};
ghost use Rattle.mgn_span.specs.MonthDeltas.{month_net, start_share};

use mgn_num::{Quantity, TenThousandths};
use mgn_params::rows::filled;
use mgn_params::{Contract, Month, ParamSet};
use mgn_rows::{SparseList, SparseRows};
use mgn_span::{Delta, delta_at};
use std::alloc::{AllocError, Global};

// A delta and a net at a contract's delta more.
fn plus_scaled(total: Delta, net: Quantity, delta: &i64) -> Delta
    requires { IsDelta (total +ℤ net *ℤ delta.now) }
    ensures { result ≡ total +ℤ net *ℤ delta.now }
{
    total.plus(TenThousandths::product(net, *delta))
}

// The delta of a month.
fn month_delta_at(deltas: &SparseList<Delta>, m: usize) -> Delta
    requires { m < length deltas.now }
    ensures { result ≡ value_at deltas.now m }
{
    *deltas.at(m)
}

// Adds what a position in a contract counts for in its month.
pub(crate) fn add_position(deltas: &mut SparseList<Delta>, contract: &Contract, net: Quantity)
    requires month { contract.now.month < length deltas.old }
    requires room { IsDelta (value_at deltas.old contract.now.month +ℤ net *ℤ contract.now.delta) }
    ensures one_each { length deltas.new ≡ length deltas.old }
    ensures deltas { (m : ℕ) → m < length deltas.old →
        value_at deltas.new m ≡ value_at deltas.old m +ℤ month_share m (contract.now, net) }
{
    let delta = deltas.at_mut(contract.month);
    *delta = plus_scaled(*delta, net, &contract.delta);
}

// Adds a month's delta to the leg of its tier that has the delta's direction.
fn add_start(starts: &mut SparseRows<[u64; 16]>, month: &Month, delta: TenThousandths)
    requires commodity { month.now.commodity < length starts.old }
    requires tier { month.now.tier < 8 }
    requires delta { unsigned_abs delta ≤ 10 ^ 16 }
    requires room { (g leg : ℕ) → g < length starts.old → leg < 16 → leg_of starts.old g leg ≤ 10 ^ 16 }
    ensures one_each { length starts.new ≡ length starts.old }
    ensures starts { (g leg : ℕ) → g < length starts.old → leg < 16 →
        leg_of starts.new g leg ≡ leg_of starts.old g leg + start_share month.now delta g leg }
    ensures as_long { (g : ℕ) → g < length starts.old → length (legs_row starts.new g) ≡ length (legs_row starts.old g) }
{
    let leg = if delta.is_negative() {
        8 + month.tier
    } else {
        month.tier
    };
    let row = starts.row_mut(month.commodity);
    row[leg] += delta.size() as u64;
}

// Adds a month's delta to the net delta of its commodity.
fn add_net(nets: &mut [Delta], month: &Month, delta: TenThousandths)
    requires commodity { month.now.commodity < length nets.old }
    requires room { IsDelta (value_at nets.old month.now.commodity +ℤ delta) }
    ensures one_each { length nets.new ≡ length nets.old }
    ensures nets { (g : ℕ) → g < length nets.old →
        value_at nets.new g ≡ value_at nets.old g +ℤ month_net month.now delta g }
{
    let commodity = month.commodity;
    nets[commodity] = delta_at(nets, commodity).plus(delta);
}

// What the months come to.
#[derive(Drop)]
pub(crate) struct MonthSums {
    // What the legs of the commodities start with; kept are the rows of commodities with a month's delta.
    pub starts: SparseRows<[u64; 16]>,
    // The net deltas of the commodities.
    pub nets: Vec<Delta>,
}

// What no month comes to.
fn nothing(alloc: Global, set: &ParamSet) -> Result<MonthSums, AllocError>
    ensures { IfOk result (λ sums. (deltas : List ℤ) → AreMonthSumsTo set.now deltas 0 sums) }
{
    set.limits();
    Ok(MonthSums {
        starts: SparseRows::new(alloc, set.commodity_count(), [0; 16])?,
        nets: filled(alloc, set.commodity_count(), Delta::ZERO)?,
    })
}

// Adds what the month at `m` counts for, after all those before it.
fn add_month(sums: &mut MonthSums, set: &ParamSet, deltas: &SparseList<Delta>, m: usize)
    requires month { m < length set.now.months }
    requires deltas { (nets : List ℤ) × AreDeltas set.now nets deltas.now }
    requires sums { AreMonthSumsTo set.now deltas.now m sums.old }
    ensures { AreMonthSumsTo set.now deltas.now (m + 1) sums.new }
{
    set.limits();
    let delta = month_delta_at(deltas, m).ten_thousandths();
    let month = set.month_at(m);
    add_start(&mut sums.starts, month, delta);
    add_net(&mut sums.nets, month, delta);
}

// The first place from one on where the delta is not 0, or the number of deltas if there is none.
fn next_moved(deltas: &SparseList<Delta>, from: usize) -> usize
    requires { from ≤ length deltas.now }
    ensures within { (from ≤ result) × (result ≤ length deltas.now) }
    ensures passed { (m : ℕ) → from ≤ m → m < result → value_at deltas.now m ≡ pos 0 }
    ensures moved { result < length deltas.now → value_at deltas.now result ≢ pos 0 }
{
    let mut place = from;
    while place < deltas.len() && month_delta_at(deltas, place) == Delta::ZERO {
        place += deltas.run_from(place);
    }
    place
}

// Adds what all months count for. Those where the delta is 0, as it is in most, are passed over.
fn add_months(sums: &mut MonthSums, set: &ParamSet, deltas: &SparseList<Delta>)
    requires deltas { (nets : List ℤ) × AreDeltas set.now nets deltas.now }
    requires sums { AreMonthSumsTo set.now deltas.now 0 sums.old }
    ensures { AreMonthSumsTo set.now deltas.now (length set.now.months) sums.new }
{
    let mut m = next_moved(deltas, 0);
    while m < set.month_count() {
        add_month(sums, set, deltas, m);
        m = next_moved(deltas, m + 1);
    }
}

// What the months come to, in one pass over them.
pub(crate) fn month_sums(
    alloc: Global,
    set: &ParamSet,
    deltas: &SparseList<Delta>,
) -> Result<MonthSums, AllocError>
    requires { (nets : List ℤ) × AreDeltas set.now nets deltas.now }
    ensures { IfOk result (λ sums. (nets : List ℤ) → AreDeltas set.now nets deltas.now → AreMonthSums set.now nets sums) }
{
    set.limits();
    let mut sums = nothing(alloc, set)?;
    add_months(&mut sums, set, deltas);
    Ok(sums)
}
