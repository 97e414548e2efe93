ghost use Rattle.std.specs.Prelude.{◌≡◌, IfOk};
ghost use Rattle.std.specs.List.{IsDistinct};
ghost use Rattle.std.specs.Str.{bytes_eq};
ghost use Rattle.mgn_params.specs.Limits.{class_names, commodity_names, contract_names};

use crate::commodity_rows::CommodityRows;
use crate::set::ParamSet;
use crate::tables::{Class, Commodity, Contract, CreditSpread, Month, SpotCharge, Spread};
use mgn_ids::{ClassName, CommodityName, ContractName, Places};
use std::alloc::{AllocError, Global};

fn places_of_commodities(
    alloc: Global,
    commodities: &[Commodity],
) -> Result<Places<CommodityName>, AllocError>
    requires { IsDistinct bytes_eq (commodity_names commodities.now) }
    ensures { IfOk result (λ places. places ≡ commodity_names commodities.now) }
{
    let mut places = Places::new(alloc);
    for row in commodities {
        places.push(row.name)?;
    }
    Ok(places)
}

fn places_of_contracts(
    alloc: Global,
    contracts: &[Contract],
) -> Result<Places<ContractName>, AllocError>
    requires { IsDistinct bytes_eq (contract_names contracts.now) }
    ensures { IfOk result (λ places. places ≡ contract_names contracts.now) }
{
    let mut places = Places::new(alloc);
    for row in contracts {
        places.push(row.name)?;
    }
    Ok(places)
}

fn places_of_classes(alloc: Global, classes: &[Class]) -> Result<Places<ClassName>, AllocError>
    requires { IsDistinct bytes_eq (class_names classes.now) }
    ensures { IfOk result (λ places. places ≡ class_names classes.now) }
{
    let mut places = Places::new(alloc);
    for row in classes {
        places.push(row.name)?;
    }
    Ok(places)
}

fn copies_of_rows(alloc: Global, rows: &[CommodityRows]) -> Result<Vec<CommodityRows>, AllocError>
    ensures { IfOk result (λ copies. copies.items ≡ rows.now) }
{
    let mut copies = Vec::new(alloc);
    for row in rows {
        copies.push(row.copy(alloc)?)?;
    }
    Ok(copies)
}

impl ParamSet {
    // Its commodities, months and contracts.
    fn copied_contracts(
        &self,
        alloc: Global,
    ) -> Result<(Vec<Commodity>, Vec<Month>, Vec<Contract>), AllocError>
        ensures commodities { IfOk result (λ rows. rows.0.items ≡ self.now.commodities) }
        ensures months { IfOk result (λ rows. rows.1.items ≡ self.now.months) }
        ensures contracts { IfOk result (λ rows. rows.2.items ≡ self.now.contracts) }
    {
        let commodities = Vec::from_slice(alloc, self.commodities.as_slice())?;
        let months = Vec::from_slice(alloc, self.months.as_slice())?;
        let contracts = Vec::from_slice(alloc, self.contracts.as_slice())?;
        Ok((commodities, months, contracts))
    }

    // Its spreads of both kinds, classes and spot charges.
    fn copied_charges(
        &self,
        alloc: Global,
    ) -> Result<(Vec<Spread>, Vec<CreditSpread>, Vec<Class>, Vec<SpotCharge>), AllocError>
        ensures spreads { IfOk result (λ rows. rows.0.items ≡ self.now.spreads) }
        ensures credits { IfOk result (λ rows. rows.1.items ≡ self.now.credits) }
        ensures classes { IfOk result (λ rows. rows.2.items ≡ self.now.classes) }
        ensures spots { IfOk result (λ rows. rows.3.items ≡ self.now.spots) }
    {
        let spreads = Vec::from_slice(alloc, self.spreads.as_slice())?;
        let credits = Vec::from_slice(alloc, self.credits.as_slice())?;
        let classes = Vec::from_slice(alloc, self.classes.as_slice())?;
        let spots = Vec::from_slice(alloc, self.spots.as_slice())?;
        Ok((spreads, credits, classes, spots))
    }

    // Where its names stand.
    fn copied_places(
        &self,
        alloc: Global,
    ) -> Result<
        (
            Places<CommodityName>,
            Places<ContractName>,
            Places<ClassName>,
        ),
        AllocError,
    >
        ensures commodities { IfOk result (λ places. places.0 ≡ commodity_names self.now.commodities) }
        ensures contracts { IfOk result (λ places. places.1 ≡ contract_names self.now.contracts) }
        ensures classes { IfOk result (λ places. places.2 ≡ class_names self.now.classes) }
    {
        let commodities = places_of_commodities(alloc, self.commodities.as_slice())?;
        let contracts = places_of_contracts(alloc, self.contracts.as_slice())?;
        let classes = places_of_classes(alloc, self.classes.as_slice())?;
        Ok((commodities, contracts, classes))
    }

    /// An equal set.
    pub fn copy(&self, alloc: Global) -> Result<ParamSet, AllocError>
        ensures { IfOk result (λ set. set ≡ self.now) }
    {
        // (each way out drops all that it owns, so what is copied comes in parts)
        let commodity_rows = copies_of_rows(alloc, self.commodity_rows.as_slice())?;
        let naming = Vec::from_slice(alloc, self.naming.as_slice())?;
        let (commodities, months, contracts) = self.copied_contracts(alloc)?;
        let (spreads, credits, classes, spots) = self.copied_charges(alloc)?;
        let (commodity_places, contract_places, class_places) = self.copied_places(alloc)?;
        Ok(ParamSet {
            name: self.name,
            commodities,
            months,
            contracts,
            spreads,
            credits,
            classes,
            spots,
            commodity_places,
            contract_places,
            class_places,
            commodity_rows,
            naming,
        })
    }
}
