ghost use Rattle.std.specs.Prelude.{◌≡◌, ◌+◌, ◌-◌, ◌<◌, ◌≤◌, ◌^◌, ◌==◌, length, min, position, IfSome, count_by};
ghost use Rattle.std.specs.List.{filter, find, list_any};
ghost use Rattle.std.specs.Str.{bytes_eq};
ghost use Rattle.mgn_params.specs.Limits.{IsWithinLimits, class_names, commodity_names, contract_names};
ghost use Rattle.mgn_params.specs.Naming.{IsNaming};
ghost use Rattle.mgn_params.specs.Tables.{is_month, class_at, commodity_at, contract_at, credit_spread_at, month_at, spot_at, spread_at};

use crate::commodity_rows::CommodityRows;
use crate::tables::{Class, Commodity, Contract, CreditSpread, Month, SpotCharge, Spread};
use crate::work::Work;
use mgn_ids::{ClassName, CommodityName, ContractName, Places, SetName};
use std::marker::Model;

mod copies;
mod growth;
mod sameness;

/// A parameter set. Contracts see its tables, each in file order.
///
/// Every set is within the limits of the profile: 256 commodities with 64 months, 256 contracts and 32 spreads each,
/// 4,096 contracts, 64 intercommodity spreads and 16 collateral classes, and each number within its range.
#[derive(Drop)]
pub struct ParamSet {
    name: SetName,
    commodities: Vec<Commodity>,
    months: Vec<Month>,
    contracts: Vec<Contract>,
    spreads: Vec<Spread>,
    credits: Vec<CreditSpread>,
    classes: Vec<Class>,
    spots: Vec<SpotCharge>,
    commodity_places: Places<CommodityName>,
    contract_places: Places<ContractName>,
    class_places: Places<ClassName>,
    commodity_rows: Vec<CommodityRows>,
    // For each commodity the intercommodity spreads that name it.
    naming: Vec<u64>,
}

impl Model for ParamSet {
    ghost use Rattle.mgn_params.specs.Tables.{Tables};

    ghost Value = { Tables };

    ghost use Rattle.mgn_params.specs.Inside.{IsParamSet, tables_of};

    ghost view = { tables_of };

    ghost invariant = { IsParamSet };
}

impl ParamSet {
    /// What every set meets: no work, a fact for callers.
    pub fn limits(&self)
        ensures { IsWithinLimits self.now }
    {
        let _ = &self.contracts;
    }

    /// The set's name.
    pub fn name(&self) -> SetName
        ensures { result ≡ self.now.name }
    {
        self.name
    }

    /// Where the contract of a name stands, if the set has one. One hash, no memory.
    pub fn contract(&self, name: ContractName) -> Option<usize>
        ensures place { result ≡ position (bytes_eq name) (contract_names self.now.contracts) }
        ensures within { IfSome result (λ i. i < length self.now.contracts) }
    {
        self.contract_places.place(name)
    }

    /// Where the commodity of a name stands, if the set has one. One hash, no memory.
    pub fn commodity(&self, name: CommodityName) -> Option<usize>
        ensures place { result ≡ position (bytes_eq name) (commodity_names self.now.commodities) }
        ensures within { IfSome result (λ g. g < length self.now.commodities) }
    {
        self.commodity_places.place(name)
    }

    /// Where the collateral class of a name stands, if the set has one. One hash, no memory.
    pub fn class(&self, name: ClassName) -> Option<usize>
        ensures place { result ≡ position (bytes_eq name) (class_names self.now.classes) }
        ensures within { IfSome result (λ k. k < length self.now.classes) }
    {
        self.class_places.place(name)
    }

    /// Whether the set has a commodity of a name. One hash, no memory.
    pub fn has_commodity(&self, name: CommodityName) -> bool
        ensures { result ≡ list_any (bytes_eq name) (commodity_names self.now.commodities) }
    {
        self.commodity_places.has(name)
    }

    /// Whether the set has a contract of a name. One hash, no memory.
    pub fn has_contract(&self, name: ContractName) -> bool
        ensures { result ≡ list_any (bytes_eq name) (contract_names self.now.contracts) }
    {
        self.contract_places.has(name)
    }

    /// Whether the set has a collateral class of a name. One hash, no memory.
    pub fn has_class(&self, name: ClassName) -> bool
        ensures { result ≡ list_any (bytes_eq name) (class_names self.now.classes) }
    {
        self.class_places.has(name)
    }

    /// Where the month of a number stands, if the commodity at a place has one. It goes through the months.
    pub fn month(&self, commodity: usize, number: u64) -> Option<usize>
        ensures place { result ≡ position (is_month commodity number) self.now.months }
        ensures own_month { IfSome result (λ m. (m < length self.now.months) × ((month_at self.now.months m).commodity ≡ commodity)) }
    {
        self.months.iter().position(|month| month.commodity == commodity && month.number == number)
    }

    /// How many months a commodity has. It goes through the months, as the next three through their tables.
    pub fn months_of(&self, commodity: usize) -> usize
        ensures { result ≡ count_by (λ m. m.commodity == commodity) self.now.months }
    {
        self.months
            .iter()
            .filter(|month| month.commodity == commodity)
            .count()
    }

    /// How many contracts a commodity has.
    pub fn contracts_of(&self, commodity: usize) -> usize
        ensures { result ≡ count_by (λ c. c.commodity == commodity) self.now.contracts }
    {
        self.contracts
            .iter()
            .filter(|contract| contract.commodity == commodity)
            .count()
    }

    /// How many intracommodity spreads a commodity has.
    pub fn spreads_of(&self, commodity: usize) -> usize
        ensures { result ≡ count_by (λ s. s.commodity == commodity) self.now.spreads }
    {
        self.spreads
            .iter()
            .filter(|spread| spread.commodity == commodity)
            .count()
    }

    /// How many spot month charges a commodity has, at most one.
    pub fn spots_of(&self, commodity: usize) -> usize
        ensures { result ≡ count_by (λ s. s.commodity == commodity) self.now.spots }
    {
        self.spots
            .iter()
            .filter(|spot| spot.commodity == commodity)
            .count()
    }

    /// The number of commodities, at most 256.
    pub fn commodity_count(&self) -> usize
        ensures value { result ≡ length self.now.commodities }
        ensures few { result ≤ 256 }
    {
        self.commodities.len()
    }

    /// The number of months, at most 64 for each of 256 commodities.
    pub fn month_count(&self) -> usize
        ensures value { result ≡ length self.now.months }
        ensures few { result ≤ 16384 }
    {
        self.months.len()
    }

    /// The number of contracts, at most 4,096.
    pub fn contract_count(&self) -> usize
        ensures value { result ≡ length self.now.contracts }
        ensures few { result ≤ 4096 }
    {
        self.contracts.len()
    }

    /// The number of collateral classes, at most 16.
    pub fn class_count(&self) -> usize
        ensures value { result ≡ length self.now.classes }
        ensures few { result ≤ 16 }
    {
        self.classes.len()
    }

    /// The commodity at a place.
    pub fn commodity_at(&self, g: usize) -> &Commodity
        requires { g < length self.now.commodities }
        ensures { result.now ≡ commodity_at self.now.commodities g }
    {
        &self.commodities[g]
    }

    /// The month at a place.
    pub fn month_at(&self, m: usize) -> &Month
        requires { m < length self.now.months }
        ensures { result.now ≡ month_at self.now.months m }
    {
        &self.months[m]
    }

    /// The contract at a place.
    pub fn contract_at(&self, i: usize) -> &Contract
        requires { i < length self.now.contracts }
        ensures { result.now ≡ contract_at self.now.contracts i }
    {
        &self.contracts[i]
    }

    /// The collateral class at a place.
    pub fn class_at(&self, k: usize) -> &Class
        requires { k < length self.now.classes }
        ensures { result.now ≡ class_at self.now.classes k }
    {
        &self.classes[k]
    }

    /// The commodities in file order.
    pub fn commodities(&self) -> &[Commodity]
        ensures { result.now ≡ self.now.commodities }
    {
        self.commodities.as_slice()
    }

    /// The months in file order.
    pub fn months(&self) -> &[Month]
        ensures { result.now ≡ self.now.months }
    {
        self.months.as_slice()
    }

    /// The intracommodity spreads in file order.
    pub fn spreads(&self) -> &[Spread]
        ensures { result.now ≡ self.now.spreads }
    {
        self.spreads.as_slice()
    }

    /// The intracommodity spreads of the commodity at a place, in file order. No search.
    pub fn spreads_in(&self, g: usize) -> &[Spread]
        requires { g < length self.now.commodities }
        ensures { result.now ≡ filter (λ s. s.commodity == g) self.now.spreads }
    {
        self.commodity_rows[g].spreads()
    }

    /// The intercommodity spreads in file order.
    pub fn credits(&self) -> &[CreditSpread]
        ensures { result.now ≡ self.now.credits }
    {
        self.credits.as_slice()
    }

    /// The intercommodity spreads that name the commodity at a place: bit `i` stands for the one at place `i`. One look,
    /// no memory.
    pub fn naming(&self, g: usize) -> u64
        requires { g < length self.now.commodities }
        ensures { IsNaming self.now.credits g result }
    {
        self.naming[g]
    }

    /// The collateral classes in file order.
    pub fn classes(&self) -> &[Class]
        ensures { result.now ≡ self.now.classes }
    {
        self.classes.as_slice()
    }

    /// The spot month charges in file order.
    pub fn spots(&self) -> &[SpotCharge]
        ensures { result.now ≡ self.now.spots }
    {
        self.spots.as_slice()
    }

    /// The spot month charge of the commodity at a place, if it has one. No search.
    pub fn spot_in(&self, g: usize) -> Option<SpotCharge>
        requires { g < length self.now.commodities }
        ensures { result ≡ find (λ s. s.commodity == g) self.now.spots }
    {
        self.commodity_rows[g].spot()
    }

    /// The risk array of the contract at a place, which no other call hands out. Each read is counted.
    pub fn array(&self, i: usize, work: &mut Work) -> &[i32; 16]
        requires { i < length self.now.contracts }
        ensures array { result.now ≡ (contract_at self.now.contracts i).array }
        ensures counted { work.new ≡ min (work.old + 1) (2 ^ 64 - 1) }
    {
        work.count_array();
        self.contracts[i].array.losses()
    }
}
