//! What units require under a set, worked out before that set comes into force.

ghost use Rattle.std.specs.Prelude.{◌≡◌, IfOk, IsOk};
ghost use Rattle.mgn_nets.specs.Portfolios.{AreNets, AreUnitNets, behind};
ghost use Rattle.mgn_unit.specs.NewSets.{IsPrepared, IsPreparedPortfolio, IsRequired, carried, is_unit_covered};
ghost use Rattle.mgn_unit.specs.Prepared.{AreCarried, ArePriced, IsBeside};
ghost use Rattle.mgn_unit.specs.Rows.{nets_in};

use crate::new_set::{Switch, are_covered};
use crate::row::{CopiedNets, PortfolioRow, PreparedPortfolio, PreparedUnit, PricedNets, Row};
use mgn_nets::{Nets, Portfolios};
use mgn_num::Cents;
use mgn_params::{ParamSet, Work};
use mgn_plain::requirement;
use std::alloc::{AllocError, Global};

impl PreparedPortfolio {
    // Its nets with what they require.
    fn priced(&self) -> PricedNets<'_>
        ensures nets { result.nets.now ≡ self.now.nets }
        ensures requirement { result.requirement ≡ self.now.requirement }
    {
        PricedNets {
            nets: &self.nets,
            requirement: self.requirement,
        }
    }
}

impl PortfolioRow {
    // Its nets with what they require under the set in force.
    pub(crate) fn priced(&self) -> PricedNets<'_>
        ensures nets { result.nets.now ≡ self.now.nets }
        ensures requirement { result.requirement ≡ self.now.requirement }
    {
        PricedNets {
            nets: &self.nets,
            requirement: self.requirement,
        }
    }

    // Its nets with what they require under another set.
    pub(crate) fn priced_at(&self, requirement: Cents) -> PricedNets<'_>
        ensures nets { result.nets.now ≡ self.now.nets }
        ensures requirement { result.requirement ≡ requirement }
    {
        PricedNets {
            nets: &self.nets,
            requirement,
        }
    }
}

impl Row {
    /// The nets, as they are kept.
    pub fn nets(&self) -> Portfolios<&Nets>
        ensures { behind result ≡ nets_in self.now }
    {
        Portfolios {
            lots: &self.lots.nets,
            buys: &self.buys.nets,
            sales: &self.sales.nets,
            all: &self.all.nets,
        }
    }

    /// A copy of the nets. An error says that memory was refused.
    pub fn copy_nets(&self, alloc: Global) -> Result<CopiedNets, AllocError>
        ensures { IfOk result (λ nets. nets ≡ nets_in self.now) }
    {
        Ok(CopiedNets {
            lots: self.lots.nets.copy(alloc)?,
            buys: self.buys.nets.copy(alloc)?,
            sales: self.sales.nets.copy(alloc)?,
            all: self.all.nets.copy(alloc)?,
        })
    }
}

// What nets require under a set. An error says that memory was refused.
pub(crate) fn required(
    alloc: Global,
    set: &ParamSet,
    nets: &Nets,
    work: &mut Work,
) -> Result<Cents, AllocError>
    requires { AreNets set.now nets.now }
    ensures { IfOk result (IsRequired set.now nets.now) }
{
    requirement(alloc, set, nets, work)
}

// What nets under the old set of a switch require under the new one. An error says that memory was refused.
pub(crate) fn prepare(
    alloc: Global,
    switch: &Switch,
    nets: &Nets,
    work: &mut Work,
) -> Result<PreparedPortfolio, AllocError>
    requires nets { AreNets switch.now.old nets.now }
    ensures prepared { IfOk result (IsPreparedPortfolio switch.now.new) }
    ensures nets { IfOk result (λ side. side.nets ≡ carried switch.now.old switch.now.new nets.now) }
    ensures limits { IfOk result (λ side. AreNets switch.now.new side.nets) }
{
    let carried = switch.carry(alloc, nets)?;
    let requirement = required(alloc, switch.new_set(), &carried, work)?;
    Ok(PreparedPortfolio {
        nets: carried,
        requirement,
    })
}

// What nets require under a set, beside others for which it was worked out already: equal nets require as much.
pub(crate) fn required_beside(
    alloc: Global,
    set: &ParamSet,
    nets: &Nets,
    others: &[PricedNets],
    work: &mut Work,
) -> Result<Cents, AllocError>
    requires nets { AreNets set.now nets.now }
    requires others { ArePriced set.now others.now }
    ensures required { IfOk result (IsRequired set.now nets.now) }
    ensures taken { IsBeside nets.now others.now → IsOk result }
    ensures alike { IsBeside nets.now others.now → work.new ≡ work.old }
{
    for other in others {
        if nets.is_same(other.nets) {
            return Ok(other.requirement);
        }
    }
    required(alloc, set, nets, work)
}

// The same as `prepare` beside nets under the new set for which it was worked out already.
pub(crate) fn prepare_beside(
    alloc: Global,
    switch: &Switch,
    nets: &Nets,
    others: &[PricedNets],
    work: &mut Work,
) -> Result<PreparedPortfolio, AllocError>
    requires nets { AreNets switch.now.old nets.now }
    requires others { ArePriced switch.now.new others.now }
    ensures prepared { IfOk result (IsPreparedPortfolio switch.now.new) }
    ensures nets { IfOk result (λ side. side.nets ≡ carried switch.now.old switch.now.new nets.now) }
    ensures limits { IfOk result (λ side. AreNets switch.now.new side.nets) }
    ensures alike { IsBeside (carried switch.now.old switch.now.new nets.now) others.now → work.new ≡ work.old }
{
    let carried = switch.carry(alloc, nets)?;
    let requirement = required_beside(alloc, switch.new_set(), &carried, others, work)?;
    Ok(PreparedPortfolio {
        nets: carried,
        requirement,
    })
}

/// Whether the new set has each contract of the old one in which a net of a unit is not 0.
pub fn is_unit_covered(nets: &CopiedNets, old: &ParamSet, new: &ParamSet) -> bool
    requires { AreUnitNets old.now nets.now }
    ensures { result ≡ is_unit_covered old.now new.now nets.now }
{
    are_covered(&nets.lots, old, new)
        && are_covered(&nets.buys, old, new)
        && are_covered(&nets.sales, old, new)
        && are_covered(&nets.all, old, new)
}

impl<'a> Switch<'a> {
    /// What the nets of a unit under the old set require under the new one, by the contracts' names. An error says that
    /// memory was refused.
    pub fn prepare(
        &self,
        alloc: Global,
        nets: &CopiedNets,
        work: &mut Work,
    ) -> Result<PreparedUnit, AllocError>
        requires { AreUnitNets self.now.old nets.now }
        ensures prepared { IfOk result (IsPrepared self.now.new) }
        ensures nets { IfOk result (AreCarried self.now.old self.now.new nets.now) }
    {
        let lots = prepare(alloc, self, &nets.lots, work)?;
        let buys = prepare_beside(alloc, self, &nets.buys, &[lots.priced()], work)?;
        let sales = prepare_beside(alloc, self, &nets.sales, &[lots.priced()], work)?;
        let others = [buys.priced(), sales.priced(), lots.priced()];
        let all = prepare_beside(alloc, self, &nets.all, &others, work)?;
        Ok(PreparedUnit {
            lots,
            buys,
            sales,
            all,
        })
    }
}
