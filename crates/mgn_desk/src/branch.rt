ghost use Rattle.std.specs.Prelude.{◌≡◌, ◌≢◌, ◌<◌, ◌+ℤ◌, length, true, false, All, IfOk};
ghost use Rattle.mgn_params.specs.Tables.{Tables};
ghost use Rattle.mgn_span.specs.Positions.{IsNet};
ghost use Rattle.mgn_span.specs.Scan.{value_at};
ghost use Rattle.mgn_desk.specs.UnitLists.{AreLists, IsFollowed, IsTogether, nets_in};
ghost use Rattle.mgn_desk.specs.WorkedPortfolios.{AreFigures, AreParts, IsPortfolio, worked};
ghost use Rattle.mgn_desk.specs.declared.figures.Figures.{Figures};
ghost use Rattle.mgn_desk.specs.declared.portfolio.Portfolio.{Portfolio};
ghost use Rattle.mgn_desk.specs.declared.portfolio.Portfolio.TheVariants.{Lots};
ghost use Rattle.mgn_desk.specs.declared.unit_lists.UnitLists.{UnitLists};

use crate::bringing::bring_branch;
use crate::figures::Figures;
use crate::portfolio::Portfolio;
use crate::unit_lists::UnitLists;
use mgn_nets::Nets;
use mgn_num::Quantity;
use mgn_params::ParamSet;
use std::alloc::{AllocError, Global};

/// The figures of a portfolio of a margin unit beside those of its lots. Until it first has other nets than the lots, the
/// figures of these are its figures too, and nothing counts of its own but how many there are.
#[derive(Drop)]
pub(crate) struct Branch {
    pub own: Figures,
    pub apart: bool,
}

impl Branch {
    ghost use Rattle.mgn_desk.specs.Portfolios.{IsUnder, figures_of};

    // The branch of a unit that holds nothing. The only error is that memory was refused.
    pub fn new(alloc: Global, set: &ParamSet) -> Result<Branch, AllocError>
        ensures { IfOk result (λ b. AreFigures set.now b.own) }
    {
        Ok(Branch {
            own: Figures::new(alloc, set)?,
            apart: false,
        })
    }

    // Its figures.
    pub fn figures<'a>(&'a self, lots: &'a Figures) -> &'a Figures
        ensures { result.now ≡ figures_of lots.now self.now }
    {
        if self.apart { &self.own } else { lots }
    }

    // These nets beside those of the lots, in lists in which it has the nets of the lots still. Takes no memory.
    pub fn renew(
        &mut self,
        set: &ParamSet,
        lists: &mut UnitLists,
        portfolio: Portfolio,
        lots: &Figures,
        lots_nets: &Nets,
        nets: &Nets,
    )
        requires branch { portfolio ≢ Lots }
        requires lists { AreLists set.now lists.old }
        requires rows { AreFigures set.now self.old.own }
        requires lots { IsPortfolio set.now (worked Lots lists.old lots.now) }
        requires lots_nets { nets_in Lots lists.old ≡ lots_nets.now }
        requires together { IsTogether portfolio lists.old }
        requires parts { (w : Portfolio) → (f : Figures) × AreParts set.now (worked w lists.old f) }
        requires one_each { length nets.now ≡ length set.now.contracts }
        requires nets { All IsNet nets.now }
        ensures under { IsUnder set.now portfolio lists.new self.new }
        ensures lists { AreLists set.now lists.new }
        ensures nets { nets_in portfolio lists.new ≡ nets.now }
        ensures together { nets.now ≡ lots_nets.now → self.new.apart ≡ false }
        ensures others { (w : Portfolio) → w ≢ portfolio → (f : Figures) → worked w lists.new f ≡ worked w lists.old f }
        ensures others_together { (w : Portfolio) → w ≢ portfolio → IsTogether w lists.old → IsTogether w lists.new }
    {
        self.apart = !nets.is_same(lots_nets);
        if self.apart {
            self.own.copy_from(lots);
            bring_branch(set, lists, &mut self.own, portfolio, lots_nets, nets);
        }
    }

    // Has its own figures from now on, if it is to have other nets than the lots.
    pub fn part(&mut self, lots: &Figures, is_other: bool)
        requires { (set : Tables) × AreFigures set self.old.own × AreFigures set lots.now }
        ensures under { (set : Tables) (w : Portfolio) (l : UnitLists) → IsPortfolio set (worked Lots l lots.now) →
            IsUnder set w l self.old → IsUnder set w l self.new }
        ensures apart { is_other ≡ true → self.new.apart ≡ true }
        ensures together { is_other ≡ false → self.new.apart ≡ self.old.apart }
    {
        if is_other && !self.apart {
            self.own.copy_from(lots);
            self.apart = true;
        }
    }

    // Brings its figures after a quantity more of a contract that its lists have followed, where it is apart.
    pub fn follow(
        &mut self,
        set: &ParamSet,
        lists: &UnitLists,
        portfolio: Portfolio,
        i: usize,
        quantity: Quantity,
    )
        requires lists { AreLists set.now lists.now }
        requires contract { i < length set.now.contracts }
        requires rows { AreFigures set.now self.old.own }
        requires before { self.old.apart ≡ true → (old : UnitLists)
            × IsPortfolio set.now (worked portfolio old self.old.own)
            × IsFollowed set.now i quantity portfolio old lists.now
            × IsNet (value_at (nets_in portfolio old) i +ℤ quantity) }
        requires together { self.old.apart ≡ false → IsTogether portfolio lists.now }
        ensures under { IsUnder set.now portfolio lists.now self.new }
        ensures apart { self.new.apart ≡ self.old.apart }
    {
        if self.apart {
            self.own.follow(set, lists, portfolio, i, quantity);
        }
    }
}
