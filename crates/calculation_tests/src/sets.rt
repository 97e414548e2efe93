//! Sets that tests read, and nets to begin with.

ghost use Rattle.std.specs.Prelude.{◌≡◌, pos, length, replicate, IfOk};

use mgn_num::Quantity;
use mgn_params::ParamSet;
use mgn_setfile::read_set;
use std::alloc::{AllocError, Global};
use std::test::Fail;
use worked_sets::{
    extreme, flat, fut, legs, neg, odd, odd_legs, one, options, shared, spodd, spot,
    three_commodities, three_tiers, tiers, two, win,
};

/// A worked set.
#[derive(Clone, Copy)]
pub(crate) enum Worked {
    Extreme,
    Flat,
    Fut,
    Legs,
    Neg,
    Odd,
    OddLegs,
    One,
    Options,
    Shared,
    Spodd,
    Spot,
    ThreeCommodities,
    ThreeTiers,
    Tiers,
    Two,
    Win,
}

/// Those with contracts.
pub(crate) const WITH_CONTRACTS: [Worked; 14] = [
    Worked::Extreme,
    Worked::Flat,
    Worked::Fut,
    Worked::Legs,
    Worked::Neg,
    Worked::Odd,
    Worked::One,
    Worked::Options,
    Worked::Shared,
    Worked::Spodd,
    Worked::Spot,
    Worked::Tiers,
    Worked::Two,
    Worked::Win,
];

impl Worked {
    // Its file.
    fn text(self) -> &'static str {
        match self {
            Worked::Extreme => extreme(),
            Worked::Flat => flat(),
            Worked::Fut => fut(),
            Worked::Legs => legs(),
            Worked::Neg => neg(),
            Worked::Odd => odd(),
            Worked::OddLegs => odd_legs(),
            Worked::One => one(),
            Worked::Options => options(),
            Worked::Shared => shared(),
            Worked::Spodd => spodd(),
            Worked::Spot => spot(),
            Worked::ThreeCommodities => three_commodities(),
            Worked::ThreeTiers => three_tiers(),
            Worked::Tiers => tiers(),
            Worked::Two => two(),
            Worked::Win => win(),
        }
    }

    /// The set, read.
    pub(crate) fn read(self, alloc: Global) -> Result<ParamSet, Fail> {
        read_text(alloc, self.text())
    }
}

/// The set of a text, read.
pub(crate) fn read_text(alloc: Global, text: &str) -> Result<ParamSet, Fail> {
    Ok(read_set(alloc, text.as_bytes())?)
}

/// Nets of 0, one for each contract of a set.
pub(crate) fn flat_nets(alloc: Global, set: &ParamSet) -> Result<Vec<Quantity>, AllocError>
    ensures { IfOk result (λ nets. nets.items ≡ replicate (length set.now.contracts) (pos 0)) }
{
    vec![in alloc; Quantity::ZERO; set.contract_count()]
}
