ghost use Rattle.std.specs.Prelude.{◌≡◌, ◌++◌, ◌∷◌, [], OnOk, OnErr};
ghost use Rattle.mgn_params.specs.Limits.{IsNextClass, IsNextCommodity, IsNextContract, IsNextCreditSpread, IsNextMonth, IsNextSpot, IsNextSpread};
ghost use Rattle.mgn_params.specs.Tables.{no_tables};

use crate::commodity_rows::CommodityRows;
use crate::naming::name_legs;
use crate::set::ParamSet;
use crate::tables::{Class, Commodity, Contract, CreditSpread, Month, SpotCharge, Spread};
use mgn_ids::{Places, SetName};
use std::alloc::{AllocError, Global};

impl ParamSet {
    /// A set of a name, without rows. Takes no memory.
    pub fn new(alloc: Global, name: SetName) -> ParamSet
        ensures { result ≡ no_tables name }
    {
        ParamSet {
            name,
            commodities: Vec::new(alloc),
            months: Vec::new(alloc),
            contracts: Vec::new(alloc),
            spreads: Vec::new(alloc),
            credits: Vec::new(alloc),
            classes: Vec::new(alloc),
            spots: Vec::new(alloc),
            commodity_places: Places::new(alloc),
            contract_places: Places::new(alloc),
            class_places: Places::new(alloc),
            commodity_rows: Vec::new(alloc),
            naming: Vec::new(alloc),
        }
    }

    /// Adds a commodity, which is to be within the limits and new. At an error nothing has changed.
    pub fn push_commodity(&mut self, commodity: Commodity) -> Result<(), AllocError>
        requires { IsNextCommodity self.old commodity }
        ensures ok { OnOk result (self.new ≡ record self.old { commodities = self.old.commodities ++ commodity ∷ [] }) }
        ensures err { OnErr result (self.new ≡ self.old) }
    {
        let alloc = *self.commodity_rows.allocator();
        self.commodities.reserve(1)?;
        self.commodity_rows.reserve(1)?;
        self.naming.reserve(1)?;
        self.commodity_places.push(commodity.name)?;
        self.commodities.push_reserved(commodity);
        self.commodity_rows.push_reserved(CommodityRows::new(alloc));
        self.naming.push_reserved(0);
        Ok(())
    }

    /// Adds a month, which is to be within the limits. At an error nothing has changed.
    pub fn push_month(&mut self, month: Month) -> Result<(), AllocError>
        requires { IsNextMonth self.old month }
        ensures ok { OnOk result (self.new ≡ record self.old { months = self.old.months ++ month ∷ [] }) }
        ensures err { OnErr result (self.new ≡ self.old) }
    {
        self.months.push(month)?;
        Ok(())
    }

    /// Adds a contract, which is to be within the limits and new. At an error nothing has changed.
    pub fn push_contract(&mut self, contract: Contract) -> Result<(), AllocError>
        requires { IsNextContract self.old contract }
        ensures ok { OnOk result (self.new ≡ record self.old { contracts = self.old.contracts ++ contract ∷ [] }) }
        ensures err { OnErr result (self.new ≡ self.old) }
    {
        self.contracts.reserve(1)?;
        self.contract_places.push(contract.name)?;
        self.contracts.push_reserved(contract);
        Ok(())
    }

    /// Adds an intracommodity spread, which is to be within the limits. At an error nothing has changed.
    pub fn push_spread(&mut self, spread: Spread) -> Result<(), AllocError>
        requires { IsNextSpread self.old spread }
        ensures ok { OnOk result (self.new ≡ record self.old { spreads = self.old.spreads ++ spread ∷ [] }) }
        ensures err { OnErr result (self.new ≡ self.old) }
    {
        self.spreads.reserve(1)?;
        self.commodity_rows[spread.commodity].push_spread(spread)?;
        self.spreads.push_reserved(spread);
        Ok(())
    }

    /// Adds an intercommodity spread, which is to be within the limits. At an error nothing has changed.
    pub fn push_credit_spread(&mut self, spread: CreditSpread) -> Result<(), AllocError>
        requires { IsNextCreditSpread self.old spread }
        ensures ok { OnOk result (self.new ≡ record self.old { credits = self.old.credits ++ spread ∷ [] }) }
        ensures err { OnErr result (self.new ≡ self.old) }
    {
        let place = self.credits.len();
        self.credits.push(spread)?;
        name_legs(&mut self.naming, &spread.legs[..spread.count], place);
        Ok(())
    }

    /// Adds a collateral class, which is to be within the limits and new. At an error nothing has changed.
    pub fn push_class(&mut self, class: Class) -> Result<(), AllocError>
        requires { IsNextClass self.old class }
        ensures ok { OnOk result (self.new ≡ record self.old { classes = self.old.classes ++ class ∷ [] }) }
        ensures err { OnErr result (self.new ≡ self.old) }
    {
        self.classes.reserve(1)?;
        self.class_places.push(class.name)?;
        self.classes.push_reserved(class);
        Ok(())
    }

    /// Adds a spot month charge, which is to be within the limits and the commodity's only one. At an error nothing
    /// has changed.
    pub fn push_spot(&mut self, spot: SpotCharge) -> Result<(), AllocError>
        requires { IsNextSpot self.old spot }
        ensures ok { OnOk result (self.new ≡ record self.old { spots = self.old.spots ++ spot ∷ [] }) }
        ensures err { OnErr result (self.new ≡ self.old) }
    {
        self.spots.push(spot)?;
        self.commodity_rows[spot.commodity].set_spot(spot);
        Ok(())
    }
}
