ghost use Rattle.std.specs.Prelude.{◌≡◌, ◌<◌, length, false, IfOk, IsTrue, ◌↔◌};
ghost use Rattle.mgn_params.specs.Tables.{Tables};
ghost use Rattle.mgn_desk.specs.Moved.{counted};

use crate::branch::Branch;
use crate::bringing::bring_lots;
use crate::figures::Figures;
use crate::moves::Moves;
use crate::portfolio::Portfolio;
use crate::unit_lists::UnitLists;
use mgn_nets::{Nets, Portfolios};
use mgn_num::{Cents, Quantity};
use mgn_params::{ParamSet, Work};
use std::alloc::{AllocError, Global};

/// The four portfolios of a margin unit under one set.
#[derive(Drop)]
pub(crate) struct UnitPortfolios {
    pub lists: UnitLists,
    pub lots: Figures,
    pub buys: Branch,
    pub sales: Branch,
    pub all: Branch,
}

impl UnitPortfolios {
    ghost use Rattle.mgn_nets.specs.Portfolios.{AreUnitNets, behind};
    ghost use Rattle.mgn_desk.specs.Portfolios.{AreFlat, AreParted, ArePortfolios, AreRows, AreSmall, AreTogether, CanMove, KeepsTogether, StaysApart, arrays_of, moved_by, nets_of, requirements_of};

    // Nets of 0. The only error is that memory was refused.
    fn new(alloc: Global, set: &ParamSet) -> Result<UnitPortfolios, AllocError>
        ensures { IfOk result (AreFlat set.now) }
    {
        let lists = UnitLists::new(alloc, set)?;
        let lots = Figures::new(alloc, set)?;
        let buys = Branch::new(alloc, set)?;
        let sales = Branch::new(alloc, set)?;
        let all = Branch::new(alloc, set)?;
        Ok(UnitPortfolios {
            lists,
            lots,
            buys,
            sales,
            all,
        })
    }

    // These nets. The only error is that memory was refused.
    pub fn of_nets(
        alloc: Global,
        set: &ParamSet,
        nets: &Portfolios<&Nets>,
    ) -> Result<UnitPortfolios, AllocError>
        requires { AreUnitNets set.now (behind nets.now) }
        ensures portfolios { IfOk result (ArePortfolios set.now) }
        ensures nets { IfOk result (λ p. nets_of p ≡ behind nets.now) }
        ensures together { IfOk result (λ p. AreTogether (behind nets.now) (p.buys, p.sales, p.all)) }
    {
        let mut portfolios = UnitPortfolios::new(alloc, set)?;
        portfolios.bring(set, nets);
        Ok(portfolios)
    }

    // Whether all that is kept is as long as a set asks for.
    pub fn fits(&self, set: &ParamSet) -> bool
        ensures { IsTrue result ↔ AreRows set.now self.now }
    {
        self.lists.fits(set)
            && self.lots.fits(set)
            && self.buys.own.fits(set)
            && self.sales.own.fits(set)
            && self.all.own.fits(set)
    }

    // These nets in place of its own, under a set that the rows fit. Takes no memory.
    pub fn renew(&mut self, set: &ParamSet, nets: &Portfolios<&Nets>)
        requires rows { AreRows set.now self.old }
        requires nets { AreUnitNets set.now (behind nets.now) }
        ensures portfolios { ArePortfolios set.now self.new }
        ensures nets { nets_of self.new ≡ behind nets.now }
        ensures together { AreTogether (behind nets.now) (self.new.buys, self.new.sales, self.new.all) }
    {
        self.lists.flatten();
        self.lots.flatten(set);
        self.bring(set, nets);
    }

    // These nets in place of nets of 0. Takes no memory.
    fn bring(&mut self, set: &ParamSet, nets: &Portfolios<&Nets>)
        requires flat { AreFlat set.now self.old }
        requires nets { AreUnitNets set.now (behind nets.now) }
        ensures portfolios { ArePortfolios set.now self.new }
        ensures nets { nets_of self.new ≡ behind nets.now }
        ensures together { AreTogether (behind nets.now) (self.new.buys, self.new.sales, self.new.all) }
    {
        let lists = &mut self.lists;
        let lots = &mut self.lots;
        bring_lots(set, lists, lots, nets.lots);
        self.buys.renew(set, lists, Portfolio::WithBuys, lots, nets.lots, nets.buys);
        self.sales.renew(
            set,
            lists,
            Portfolio::WithSales,
            lots,
            nets.lots,
            nets.sales,
        );
        self.all
            .renew(set, lists, Portfolio::WithAll, lots, nets.lots, nets.all);
    }

    // Has those apart that are to move by something else than the lots.
    fn part(&mut self, moves: &Moves)
        requires { (set : Tables) × ArePortfolios set self.old }
        ensures portfolios { (set : Tables) → ArePortfolios set self.old → ArePortfolios set self.new }
        ensures lists { self.new.lists ≡ self.old.lists }
        ensures parted { AreParted moves.now self.new }
        ensures together { KeepsTogether moves.now self.old self.new }
    {
        self.buys.part(&self.lots, differ(moves.buys, moves.lots));
        self.sales.part(&self.lots, differ(moves.sales, moves.lots));
        self.all.part(&self.lots, differ(moves.all, moves.lots));
    }

    // Moves the nets of one contract, once those are apart that move by something else than the lots.
    fn follow(&mut self, set: &ParamSet, moves: &Moves, work: &mut Work)
        requires portfolios { ArePortfolios set.now self.old }
        requires contract { moves.now.contract < length set.now.contracts }
        requires nets { CanMove moves.now (nets_of self.old) }
        requires parted { AreParted moves.now self.old }
        ensures portfolios { ArePortfolios set.now self.new }
        ensures nets { nets_of self.new ≡ moved_by moves.now (nets_of self.old) }
        ensures apart { StaysApart self.old self.new }
        ensures counted { work.new ≡ counted work.old (arrays_of moves.now) }
    {
        let together = Portfolios {
            lots: false,
            buys: !self.buys.apart,
            sales: !self.sales.apart,
            all: !self.all.apart,
        };
        self.lists.follow(set, moves, &together, work);
        let (lists, i) = (&self.lists, moves.contract);
        self.lots.follow(set, lists, Portfolio::Lots, i, moves.lots);
        self.buys
            .follow(set, lists, Portfolio::WithBuys, i, moves.buys);
        self.sales
            .follow(set, lists, Portfolio::WithSales, i, moves.sales);
        self.all
            .follow(set, lists, Portfolio::WithAll, i, moves.all);
    }

    // Moves the nets of one contract. A portfolio that is not moved costs nothing.
    pub fn apply(&mut self, set: &ParamSet, moves: &Moves, work: &mut Work)
        requires portfolios { ArePortfolios set.now self.old }
        requires contract { moves.now.contract < length set.now.contracts }
        requires nets { CanMove moves.now (nets_of self.old) }
        ensures portfolios { ArePortfolios set.now self.new }
        ensures nets { nets_of self.new ≡ moved_by moves.now (nets_of self.old) }
        ensures together { KeepsTogether moves.now self.old self.new }
        ensures counted { work.new ≡ counted work.old (arrays_of moves.now) }
    {
        self.part(moves);
        self.follow(set, moves, work);
    }

    pub fn requirements(&self) -> Portfolios<Cents>
        ensures requirements { (set : Tables) → ArePortfolios set self.now →
            result ≡ requirements_of set (nets_of self.now) }
        ensures small { AreSmall result }
    {
        Portfolios {
            lots: self.lots.requirement(),
            buys: self.buys.figures(&self.lots).requirement(),
            sales: self.sales.figures(&self.lots).requirement(),
            all: self.all.figures(&self.lots).requirement(),
        }
    }
}

fn differ(a: Quantity, b: Quantity) -> bool
    ensures alike { result ≡ false → a ≡ b }
    ensures other { a ≡ b → result ≡ false }
{
    a.contracts() != b.contracts()
}
