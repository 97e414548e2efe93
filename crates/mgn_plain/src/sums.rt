ghost use Rattle.std.specs.Prelude.{◌≡◌, ◌<◌, ◌+◌, ℤ, List, length, IfOk};
ghost use Rattle.mgn_plain.specs.Parts.{AreNets, AreSums};
ghost use Rattle.mgn_plain.specs.Sums.{AreSumsTo};

use crate::{deltas, options, scan};
use mgn_nets::Nets;
use mgn_num::Cents;
use mgn_params::rows::filled;
use mgn_params::{ParamSet, Work};
use mgn_rows::{SparseList, SparseRows};
use mgn_span::shares::share_of_value;
use mgn_span::{Delta, Total};
use std::alloc::{AllocError, Global};

// What positions come to.
#[derive(Drop)]
pub(crate) struct Sums {
    // The totals of the 16 scenarios, a row for each commodity; kept are those of commodities with a position.
    pub totals: SparseRows<[Total; 16]>,
    // The deltas of the months; kept are the pages of months with a position.
    pub deltas: SparseList<Delta>,
    // The short option minimums of the commodities.
    pub minimums: Vec<u128>,
    // Whether a commodity has a net other than 0.
    pub marks: Vec<bool>,
    // The net option value.
    pub option_value: Cents,
}

// What no position comes to.
fn nothing(alloc: Global, set: &ParamSet) -> Result<Sums, AllocError>
    ensures { IfOk result (λ sums. (nets : List ℤ) → AreNets set.now nets → AreSumsTo set.now nets 0 sums) }
{
    set.limits();
    Ok(Sums {
        totals: SparseRows::new(alloc, set.commodity_count(), [Total::ZERO; 16])?,
        deltas: SparseList::new(alloc, set.month_count(), Delta::ZERO)?,
        minimums: filled(alloc, set.commodity_count(), 0)?,
        marks: filled(alloc, set.commodity_count(), false)?,
        option_value: Cents::ZERO,
    })
}

// Adds what the position in the contract at `i` counts for, after all those before it.
fn add_position(sums: &mut Sums, set: &ParamSet, nets: &Nets, i: usize, work: &mut Work)
    requires contract { i < length set.now.contracts }
    requires sums { AreSumsTo set.now nets.now i sums.old }
    ensures { AreSumsTo set.now nets.now (i + 1) sums.new }
{
    set.limits();
    let net = nets.at(i);
    let contract = set.contract_at(i);
    scan::add_position(&mut sums.totals, set, i, net, work);
    deltas::add_position(&mut sums.deltas, contract, net);
    options::add_minimum(&mut sums.minimums, set, i, net);
    sums.marks[contract.commodity] = true;
    sums.option_value = sums.option_value.plus(share_of_value(contract, net));
}

// Adds what all positions count for. Nothing is read of a contract where the net is 0, as most are.
fn add_positions(sums: &mut Sums, set: &ParamSet, nets: &Nets, work: &mut Work)
    requires sums { AreSumsTo set.now nets.now 0 sums.old }
    ensures { AreSumsTo set.now nets.now (length set.now.contracts) sums.new }
{
    set.limits();
    let mut from = 0;
    while let Some(i) = nets.next_held(from) {
        add_position(sums, set, nets, i, work);
        from = i + 1;
    }
}

// What the positions come to, in one pass over the contracts.
pub(crate) fn sums_of(
    alloc: Global,
    set: &ParamSet,
    nets: &Nets,
    work: &mut Work,
) -> Result<Sums, AllocError>
    requires { AreNets set.now nets.now }
    ensures { IfOk result (AreSums set.now nets.now) }
{
    set.limits();
    let mut sums = nothing(alloc, set)?;
    add_positions(&mut sums, set, nets, work);
    Ok(sums)
}
