//! The nets that are measured.

ghost use Rattle.std.specs.Prelude.{◌≡◌, ◌<◌, length, All, IfOk};
ghost use Rattle.mgn_span.specs.Positions.{IsNet};
ghost use Rattle.mgn_span.specs.Scan.{value_at};

use mgn_num::Quantity;
use mgn_params::ParamSet;
use std::alloc::{AllocError, Global};

// One contract, short in each third month and long in the others; the other way round in each second commodity. So
// spreads within commodities and between them have what they are formed of.
fn net_of(set: &ParamSet, contract: usize) -> Quantity
    requires { contract < length set.now.contracts }
    ensures { IsNet result }
{
    set.limits();
    let month = set.month_at(set.contract_at(contract).month);
    let is_short = month.number % 3 == 0;
    let is_reversed = month.commodity % 2 == 1;
    Quantity::new(if is_short == is_reversed { 1 } else { -1 })
}

/// Nets of one contract each, some long and some short.
pub fn mixed_nets(alloc: Global, set: &ParamSet) -> Result<Vec<Quantity>, AllocError>
    ensures one_each { IfOk result (λ nets. length nets.items ≡ length set.now.contracts) }
    ensures small { IfOk result (λ nets. All IsNet nets.items) }
{
    let mut nets = Vec::new(alloc);
    nets.resize(set.contract_count(), Quantity::ZERO)?;
    for i in 0..set.contract_count() {
        nets[i] = net_of(set, i);
    }
    Ok(nets)
}

/// The net of the contract at a place.
pub fn net_at(nets: &[Quantity], contract: usize) -> Quantity
    requires contract { contract < length nets.now }
    requires nets { All IsNet nets.now }
    ensures value { result ≡ value_at nets.now contract }
    ensures small { IsNet result }
{
    nets[contract]
}
