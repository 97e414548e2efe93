ghost use Rattle.std.specs.Prelude.{◌≡◌, ◌++◌, ◌∷◌, [], Some, IfOk, OnErr, OnOk};
ghost use Rattle.mgn_params.specs.CommodityRows.{no_rows};

use crate::tables::{SpotCharge, Spread};
use std::alloc::{AllocError, Global};
use std::marker::Model;

/// The rows of one commodity, at hand without a search of the tables: its intracommodity spreads in file order, and its
/// spot month charge, if it has one. Contracts see both.
#[derive(Drop)]
pub(crate) struct CommodityRows {
    spreads: Vec<Spread>,
    spot: Option<SpotCharge>,
}

impl Model for CommodityRows {
    ghost use Rattle.mgn_params.specs.CommodityRows.{Rows};

    ghost Value = { Rows };

    ghost view = { λ r. record { spreads = r.spreads.items; spot = r.spot } };
}

impl CommodityRows {
    // No rows. Takes no memory.
    pub fn new(alloc: Global) -> CommodityRows
        ensures { result ≡ no_rows }
    {
        CommodityRows {
            spreads: Vec::new(alloc),
            spot: None,
        }
    }

    // Equal rows.
    pub fn copy(&self, alloc: Global) -> Result<CommodityRows, AllocError>
        ensures { IfOk result (λ rows. rows ≡ self.now) }
    {
        Ok(CommodityRows {
            spreads: Vec::from_slice(alloc, self.spreads.as_slice())?,
            spot: self.spot,
        })
    }

    // Adds a spread behind the others. At an error nothing has changed.
    pub fn push_spread(&mut self, spread: Spread) -> Result<(), AllocError>
        ensures ok { OnOk result (self.new ≡ record self.old { spreads = self.old.spreads ++ spread ∷ [] }) }
        ensures err { OnErr result (self.new ≡ self.old) }
    {
        self.spreads.push(spread)?;
        Ok(())
    }

    // Sets the spot month charge.
    pub fn set_spot(&mut self, spot: SpotCharge)
        ensures { self.new ≡ record self.old { spot = Some spot } }
    {
        self.spot = Some(spot);
    }

    pub fn spreads(&self) -> &[Spread]
        ensures { result.now ≡ self.now.spreads }
    {
        self.spreads.as_slice()
    }

    pub fn spot(&self) -> Option<SpotCharge>
        ensures { result ≡ self.now.spot }
    {
        self.spot
    }
}
