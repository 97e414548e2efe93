ghost use Rattle.std.specs.Prelude.{◌≡◌, ℤ, List, ◌*◌, ◌<◌, ◌≤◌, ◌^◌, pos, ◌+ℤ◌, ◌≤ℤ◌, unsigned_abs, length, replicate, slice_index, slice_set, IfOk, IsTrue, ◌↔◌};
ghost use Rattle.mgn_span.specs.Options.{net_option_value};
ghost use Rattle.mgn_span.specs.Positions.{IsNet, positions};
ghost use Rattle.mgn_span.specs.Requirement.{minimum};
ghost use Rattle.mgn_span.specs.Scan.{value_at};
ghost use Rattle.mgn_params.specs.Tables.{Tables};
ghost use Rattle.mgn_option.specs.Sums.{AreSums};

use crate::minimum::Minimum;
use crate::value::OptionValue;
use mgn_nets::Nets;
use mgn_num::{Cents, Quantity};
use mgn_params::ParamSet;
use mgn_params::rows::{fill, filled};
use std::alloc::{AllocError, Global};
use std::marker::Model;

/// The short option minimum of each commodity of a set and the net option value, kept while the nets of its contracts
/// change.
///
/// The nets themselves are the caller's. Contracts see the minimums and the value; `AreSums set nets sums` says that they
/// are those of these nets under this set.
#[derive(Drop)]
pub struct OptionSums {
    minimums: Vec<Minimum>,
    value: OptionValue,
}

impl Model for OptionSums {
    ghost use Rattle.mgn_option.specs.Sums.{Sums};

    ghost Value = { Sums };

    ghost view = { λ s. record { minimums = s.minimums.items; value = s.value } };
}

fn minimum_at(minimums: &[Minimum], commodity: usize) -> Minimum
    requires { commodity < length minimums.now }
    ensures { result ≡ slice_index minimums.now commodity }
{
    minimums[commodity]
}

impl OptionSums {
    /// The sums of nets of 0 under a set. An error says that memory was refused; no later call takes any.
    pub fn new(alloc: Global, set: &ParamSet) -> Result<Self, AllocError>
        ensures { IfOk result (AreSums set.now (replicate (length set.now.contracts) (pos 0))) }
    {
        let minimums = filled(alloc, set.commodity_count(), Minimum::ZERO)?;
        Ok(OptionSums {
            minimums,
            value: OptionValue::ZERO,
        })
    }

    /// Whether there is one minimum for each commodity of a set.
    pub fn fits(&self, set: &ParamSet) -> bool
        ensures { IsTrue result ↔ (length self.now.minimums ≡ length set.now.commodities) }
    {
        self.minimums.len() == set.commodity_count()
    }

    /// The sums of nets of 0 in place of what was kept, under each set that the minimums fit. Takes no memory.
    pub fn flatten(&mut self)
        ensures { (set : Tables) → length self.old.minimums ≡ length set.commodities →
            AreSums set (replicate (length set.contracts) (pos 0)) self.new }
    {
        fill(&mut self.minimums, Minimum::ZERO);
        self.value = OptionValue::ZERO;
    }

    /// Follows a change of one net: a quantity more of the contract at `i`, bought above 0 and sold below.
    ///
    /// The nets are those before the change, since a sale counts only for the part that leaves a net short. The set must
    /// be the one of the sums, and the changed net at most 10,000,000 in size. The cost does not hang on the number of
    /// contracts.
    pub fn add(&mut self, set: &ParamSet, nets: &Nets, i: usize, quantity: Quantity)
        requires sums { AreSums set.now nets.now self.old }
        requires contract { i < length set.now.contracts }
        requires net { IsNet (value_at nets.now i +ℤ quantity) }
        ensures { AreSums set.now (slice_set nets.now i (value_at nets.now i +ℤ quantity)) self.new }
    {
        set.limits();
        let commodity = set.contract_at(i).commodity;
        self.minimums[commodity].follow(set, i, nets.at(i), quantity);
        self.value.follow(set, i, quantity);
    }

    /// Takes over other sums for as many commodities. Takes no memory.
    pub fn copy_from(&mut self, others: &OptionSums)
        requires { length self.old.minimums ≡ length others.now.minimums }
        ensures { self.new ≡ others.now }
    {
        self.minimums.copy_from_slice(&others.minimums);
        self.value = others.value;
    }

    /// The short option minimum of a commodity in cents, 0 to 256 * 10^16: its charge for each option sold and not
    /// bought back, puts and calls added (CME SPAN).
    pub fn minimum(&self, commodity: usize) -> Cents
        requires { commodity < length self.now.minimums }
        ensures minimum { (set : Tables) (nets : List ℤ) → AreSums set nets self.now →
            result ≡ pos (minimum set (positions set.contracts nets) commodity) }
        ensures kept { result ≡ pos (slice_index self.now.minimums commodity) }
        ensures not_negative { pos 0 ≤ℤ result }
        ensures small { unsigned_abs result ≤ 256 * 10 ^ 16 }
    {
        minimum_at(&self.minimums, commodity).cents()
    }

    /// The net option value in cents, at most 4,096 * 10^15 in size: net times market value over the options that are
    /// paid for at once (CME SPAN).
    pub fn value(&self) -> Cents
        ensures value { (set : Tables) (nets : List ℤ) → AreSums set nets self.now →
            result ≡ net_option_value (positions set.contracts nets) }
        ensures small { unsigned_abs result ≤ 4096 * 10 ^ 15 }
    {
        self.value.cents()
    }
}
