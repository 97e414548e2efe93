//! The rows of a set as far as its file is read, with what finds and counts them.

ghost use Rattle.std.specs.Prelude.{◌≡◌, ◌<◌, ◌++◌, ◌∷◌, ◌==◌, [], count_by, length, position, IfSome, OnOk};
ghost use Rattle.mgn_params.specs.Limits.{IsNextClass, IsNextCommodity, IsNextContract, IsNextCreditSpread, IsNextMonth, IsNextSpot, IsNextSpread};
ghost use Rattle.mgn_params.specs.Tables.{is_month, month_at, no_tables};

use indexmap::IndexSet;
use mgn_ids::SetName;
use mgn_params::{Class, Commodity, Contract, CreditSpread, Month, ParamSet, SpotCharge, Spread};
use std::alloc::{AllocError, Global};
use std::marker::Model;

// A month, by which it is found.
#[derive(Clone, Copy, PartialEq, Eq, Hash)]
struct MonthKey {
    commodity: usize,
    number: u64,
}

/// A set as far as its file is read. Contracts see its tables.
///
/// Beside them stand an index of the months, and how many months, contracts and spreads each commodity has, so that
/// reading a record walks no table.
#[derive(Drop)]
pub(crate) struct Rows {
    set: ParamSet,
    months: IndexSet<MonthKey>,
    months_of: Vec<usize>,
    contracts_of: Vec<usize>,
    spreads_of: Vec<usize>,
}

impl Model for Rows {
    ghost use Rattle.mgn_params.specs.Tables.{Tables};

    ghost Value = { Tables };

    ghost use Rattle.mgn_setfile.specs.Inside.{IsRows};

    ghost view = { λ r. r.set };

    ghost invariant = { IsRows };
}

impl Rows {
    // No rows.
    pub(crate) fn new(alloc: Global, name: SetName) -> Rows
        ensures { result ≡ no_tables name }
    {
        Rows {
            set: ParamSet::new(alloc, name),
            months: IndexSet::new(alloc),
            months_of: Vec::new(alloc),
            contracts_of: Vec::new(alloc),
            spreads_of: Vec::new(alloc),
        }
    }

    // The set of the rows so far.
    pub(crate) fn set(&self) -> &ParamSet
        ensures { result.now ≡ self.now }
    {
        &self.set
    }

    pub(crate) fn into_set(self) -> ParamSet
        ensures { result ≡ self }
    {
        self.set
    }

    // Where the month of a number stands, if the commodity at a place has one. One hash.
    pub(crate) fn month(&self, commodity: usize, number: u64) -> Option<usize>
        ensures place { result ≡ position (is_month commodity number) self.now.months }
        ensures own_month { IfSome result (λ m. (m < length self.now.months) × ((month_at self.now.months m).commodity ≡ commodity)) }
    {
        self.months.get_index_of(&MonthKey { commodity, number })
    }

    // How many months a commodity has.
    pub(crate) fn months_of(&self, commodity: usize) -> usize
        requires { commodity < length self.now.commodities }
        ensures { result ≡ count_by (λ m. m.commodity == commodity) self.now.months }
    {
        self.months_of[commodity]
    }

    // How many contracts a commodity has.
    pub(crate) fn contracts_of(&self, commodity: usize) -> usize
        requires { commodity < length self.now.commodities }
        ensures { result ≡ count_by (λ c. c.commodity == commodity) self.now.contracts }
    {
        self.contracts_of[commodity]
    }

    // How many spreads within it a commodity has.
    pub(crate) fn spreads_of(&self, commodity: usize) -> usize
        requires { commodity < length self.now.commodities }
        ensures { result ≡ count_by (λ s. s.commodity == commodity) self.now.spreads }
    {
        self.spreads_of[commodity]
    }

    pub(crate) fn push_commodity(&mut self, commodity: Commodity) -> Result<(), AllocError>
        requires { IsNextCommodity self.old commodity }
        ensures { OnOk result (self.new ≡ record self.old { commodities = self.old.commodities ++ commodity ∷ [] }) }
    {
        self.set.limits();
        self.months_of.reserve(1)?;
        self.contracts_of.reserve(1)?;
        self.spreads_of.reserve(1)?;
        self.set.push_commodity(commodity)?;
        self.months_of.push_reserved(0);
        self.contracts_of.push_reserved(0);
        self.spreads_of.push_reserved(0);
        Ok(())
    }

    pub(crate) fn push_month(&mut self, month: Month) -> Result<(), AllocError>
        requires { IsNextMonth self.old month }
        ensures { OnOk result (self.new ≡ record self.old { months = self.old.months ++ month ∷ [] }) }
    {
        let key = MonthKey {
            commodity: month.commodity,
            number: month.number,
        };
        self.months.reserve(1)?;
        self.set.push_month(month)?;
        self.months_of[month.commodity] += 1;
        match self.months.insert(key) {
            Ok(_) => Ok(()),
            Err(_) => unreachable!(),
        }
    }

    pub(crate) fn push_contract(&mut self, contract: Contract) -> Result<(), AllocError>
        requires { IsNextContract self.old contract }
        ensures { OnOk result (self.new ≡ record self.old { contracts = self.old.contracts ++ contract ∷ [] }) }
    {
        let commodity = contract.commodity;
        self.set.push_contract(contract)?;
        self.contracts_of[commodity] += 1;
        Ok(())
    }

    pub(crate) fn push_spread(&mut self, spread: Spread) -> Result<(), AllocError>
        requires { IsNextSpread self.old spread }
        ensures { OnOk result (self.new ≡ record self.old { spreads = self.old.spreads ++ spread ∷ [] }) }
    {
        self.set.push_spread(spread)?;
        self.spreads_of[spread.commodity] += 1;
        Ok(())
    }

    pub(crate) fn push_credit_spread(&mut self, spread: CreditSpread) -> Result<(), AllocError>
        requires { IsNextCreditSpread self.old spread }
        ensures { OnOk result (self.new ≡ record self.old { credits = self.old.credits ++ spread ∷ [] }) }
    {
        self.set.push_credit_spread(spread)
    }

    pub(crate) fn push_class(&mut self, class: Class) -> Result<(), AllocError>
        requires { IsNextClass self.old class }
        ensures { OnOk result (self.new ≡ record self.old { classes = self.old.classes ++ class ∷ [] }) }
    {
        self.set.push_class(class)
    }

    pub(crate) fn push_spot(&mut self, spot: SpotCharge) -> Result<(), AllocError>
        requires { IsNextSpot self.old spot }
        ensures { OnOk result (self.new ≡ record self.old { spots = self.old.spots ++ spot ∷ [] }) }
    {
        self.set.push_spot(spot)
    }
}
