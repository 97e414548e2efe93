ghost use Rattle.std.specs.Prelude.{◌≡◌, IsTrue, ◌↔◌};

use crate::set::ParamSet;
use crate::tables::{Class, Commodity, Contract, CreditSpread, Month, SpotCharge, Spread};

fn are_same_commodities(mine: &[Commodity], other: &[Commodity]) -> bool
    ensures { IsTrue result ↔ (mine.now ≡ other.now) }
{
    mine == other
}

fn are_same_months(mine: &[Month], other: &[Month]) -> bool
    ensures { IsTrue result ↔ (mine.now ≡ other.now) }
{
    mine == other
}

fn are_same_contracts(mine: &[Contract], other: &[Contract]) -> bool
    ensures { IsTrue result ↔ (mine.now ≡ other.now) }
{
    mine == other
}

fn are_same_spreads(mine: &[Spread], other: &[Spread]) -> bool
    ensures { IsTrue result ↔ (mine.now ≡ other.now) }
{
    mine == other
}

fn are_same_credits(mine: &[CreditSpread], other: &[CreditSpread]) -> bool
    ensures { IsTrue result ↔ (mine.now ≡ other.now) }
{
    mine == other
}

fn are_same_classes(mine: &[Class], other: &[Class]) -> bool
    ensures { IsTrue result ↔ (mine.now ≡ other.now) }
{
    mine == other
}

fn are_same_spots(mine: &[SpotCharge], other: &[SpotCharge]) -> bool
    ensures { IsTrue result ↔ (mine.now ≡ other.now) }
{
    mine == other
}

impl ParamSet {
    /// Whether the other set has the same name and in each table the same rows in the same order. Takes no memory. The
    /// arrays that are compared are not counted.
    pub fn is_same(&self, other: &ParamSet) -> bool
        ensures { IsTrue result ↔ (self.now ≡ other.now) }
    {
        self.name == other.name
            && are_same_commodities(self.commodities(), other.commodities())
            && are_same_months(self.months(), other.months())
            && are_same_contracts(self.contracts.as_slice(), other.contracts.as_slice())
            && are_same_spreads(self.spreads(), other.spreads())
            && are_same_credits(self.credits(), other.credits())
            && are_same_classes(self.classes(), other.classes())
            && are_same_spots(self.spots(), other.spots())
    }
}
