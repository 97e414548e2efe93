ghost use Rattle.std.specs.Prelude.{◌≡◌};

use crate::commodity::CommodityFigures;
use mgn_num::Cents;
use std::marker::Model;

/// The figures of a list of nets under a set. Contracts see the commodities' figures as a list in file order, the net
/// option value and the requirement.
#[derive(Drop)]
pub struct Figures {
    commodities: Vec<CommodityFigures>,
    option_value: Cents,
    requirement: Cents,
}

impl Model for Figures {
    ghost use Rattle.mgn_plain.specs.Figures.{WholeFigures};

    ghost Value = { WholeFigures };

    ghost view = { λ f. record { commodities = f.commodities.items; option_value = f.option_value; requirement = f.requirement } };
}

impl Figures {
    // The figures of the commodities with the sums beside them.
    pub(crate) fn new(
        commodities: Vec<CommodityFigures>,
        option_value: Cents,
        requirement: Cents,
    ) -> Self
        ensures { result ≡ record { commodities = commodities.items; option_value = option_value; requirement = requirement } }
    {
        Figures {
            commodities,
            option_value,
            requirement,
        }
    }

    /// The figures of the commodities, in file order of the set.
    pub fn commodities(&self) -> &[CommodityFigures]
        ensures { result.now ≡ self.now.commodities }
    {
        self.commodities.as_slice()
    }

    /// The net option value in cents: what long options of premium style are worth, less what short ones are.
    pub fn option_value(&self) -> Cents
        ensures { result ≡ self.now.option_value }
    {
        self.option_value
    }

    /// The requirement in cents, at least 0.
    pub fn requirement(&self) -> Cents
        ensures { result ≡ self.now.requirement }
    {
        self.requirement
    }
}
