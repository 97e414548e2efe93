ghost use Rattle.std.specs.Prelude.{◌≡◌, ℕ, ◌+◌, ◌<◌, ◌≤◌, ◌^◌, length, slice_index};
ghost use Rattle.mgn_params.specs.Tables.{commodity_at, contract_at};
ghost use Rattle.mgn_span.specs.Positions.{IsNet};
ghost use Rattle.mgn_span.specs.Words.{short_share_of};

use mgn_num::Quantity;
use mgn_params::ParamSet;
use mgn_span::shares::share_of_minimum;

// Adds what a position in the contract at `i` counts for in its commodity's minimum. Of the contract nothing is read
// where the net is not short, as most are not.
pub(crate) fn add_minimum(minimums: &mut [u128], set: &ParamSet, i: usize, net: Quantity)
    requires contract { i < length set.now.contracts }
    requires net { IsNet net }
    requires one_each { length minimums.old ≡ length set.now.commodities }
    requires room { (g : ℕ) → g < length minimums.old → slice_index minimums.old g ≤ 10 ^ 30 }
    ensures one_each { length minimums.new ≡ length minimums.old }
    ensures minimums { (g : ℕ) → g < length minimums.old → slice_index minimums.new g ≡ slice_index minimums.old g
        + short_share_of g (commodity_at set.now.commodities g).short_option_charge (contract_at set.now.contracts i, net) }
{
    set.limits();
    if !net.is_short() {
        return;
    }
    let contract = set.contract_at(i);
    let charge = &set.commodity_at(contract.commodity).short_option_charge;
    minimums[contract.commodity] += u128::from(share_of_minimum(contract, net, charge));
}
