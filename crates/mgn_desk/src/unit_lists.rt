ghost use Rattle.std.specs.Prelude.{◌≡◌, ◌≢◌, ◌<◌, ◌+ℤ◌, ◌↔◌, true, pos, length, slice_set, None, IfOk, IsSomeAnd, IsTrue};
ghost use Rattle.mgn_params.specs.Tables.{Tables};
ghost use Rattle.mgn_span.specs.Positions.{IsNet};
ghost use Rattle.mgn_span.specs.Scan.{value_at};
ghost use Rattle.mgn_desk.specs.KeptRows.{HasRowRoom, IsRowStepped, KeptRow};
ghost use Rattle.mgn_desk.specs.UnitLists.{AreLists, IsFollowed, IsTogether, either_row, flat_lists, four_at, nets_in, one_of, own_at, own_of, quantity_of, row_at, row_before};
ghost use Rattle.mgn_desk.specs.Steps.{AreDeltasRoomy, AreNetsRoomy, StaysAsLots, deltas_after, nets_after, steps_of};
ghost use Rattle.mgn_desk.specs.Moved.{arrays_of_quantity, counted};
ghost use Rattle.mgn_desk.specs.Portfolios.{arrays_of};
ghost use Rattle.mgn_desk.specs.WorkedPortfolios.{AreParts, worked};
ghost use Rattle.mgn_desk.specs.declared.figures.Figures.{Figures};
ghost use Rattle.mgn_desk.specs.declared.portfolio.Portfolio.{Portfolio};
ghost use Rattle.mgn_desk.specs.declared.portfolio.Portfolio.TheVariants.{Lots};

use crate::commodity_row::CommodityRow;
use crate::moves::Moves;
use crate::own_rows::OwnRows;
use crate::portfolio::Portfolio;
use crate::step::Step;
use mgn_nets::Portfolios;
use mgn_num::Quantity;
use mgn_params::{Contract, ParamSet, Work};
use mgn_rows::{SparseList, SparseRows};
use mgn_span::Delta;
use std::alloc::{AllocError, Global};

/// What is kept of the four portfolios of a margin unit by their nets alone: the nets, the deltas of the months in
/// ten-thousandths, and a row for each commodity. Of what a branch holds as the lots do, it has the lots' row.
///
/// Nothing but `new` takes memory, and a row or a page of nets or deltas is kept only once it is written to.
#[derive(Drop)]
pub(crate) struct UnitLists {
    pub nets: SparseList<Portfolios<Quantity>>,
    pub deltas: SparseList<Portfolios<Delta>>,
    pub rows: SparseRows<CommodityRow>,
    pub own: SparseRows<OwnRows>,
}

const NO_NETS: Portfolios<Quantity> = Portfolios {
    lots: Quantity::ZERO,
    buys: Quantity::ZERO,
    sales: Quantity::ZERO,
    all: Quantity::ZERO,
};

const NO_DELTAS: Portfolios<Delta> = Portfolios {
    lots: Delta::ZERO,
    buys: Delta::ZERO,
    sales: Delta::ZERO,
    all: Delta::ZERO,
};

impl UnitLists {
    /// The lists of nets of 0 under a set. The only error is that memory was refused.
    pub fn new(alloc: Global, set: &ParamSet) -> Result<UnitLists, AllocError>
        ensures { IfOk result (λ l. l ≡ flat_lists set.now) }
    {
        set.limits();
        Ok(UnitLists {
            nets: SparseList::new(alloc, set.contract_count(), NO_NETS)?,
            deltas: SparseList::new(alloc, set.month_count(), NO_DELTAS)?,
            rows: SparseRows::new(alloc, set.commodity_count(), CommodityRow::NOTHING)?,
            own: SparseRows::new(alloc, set.commodity_count(), OwnRows::NONE)?,
        })
    }

    /// Whether all lists are as long as a set asks for.
    pub fn fits(&self, set: &ParamSet) -> bool
        ensures { IsTrue result ↔ AreLists set.now self.now }
    {
        self.nets.len() == set.contract_count()
            && self.deltas.len() == set.month_count()
            && self.rows.len() == set.commodity_count()
            && self.own.len() == set.commodity_count()
    }

    /// The lists of nets of 0 in place of these, under each set that they fit.
    pub fn flatten(&mut self)
        ensures { (set : Tables) → AreLists set self.old → self.new ≡ flat_lists set }
    {
        self.nets.flatten(NO_NETS);
        self.deltas.flatten(NO_DELTAS);
        self.rows.flatten(CommodityRow::NOTHING);
        self.own.flatten(OwnRows::NONE);
    }

    /// The nets of a contract.
    pub fn nets_at(&self, contract: usize) -> Portfolios<Quantity>
        requires { contract < length self.now.nets }
        ensures { result ≡ four_at self.now.nets contract }
    {
        *self.nets.at(contract)
    }

    /// The row that a portfolio has of the commodity at a place.
    pub fn row(&self, portfolio: Portfolio, g: usize) -> &CommodityRow
        requires { (set : Tables) × AreLists set self.now × (g < length set.commodities) }
        ensures { result.now ≡ row_at portfolio self.now g }
    {
        if portfolio == Portfolio::Lots {
            return self.rows.row(g);
        }
        match self.own.row(g).of(portfolio) {
            Some(row) => row,
            None => self.rows.row(g),
        }
    }

    // How the portfolios hold a contract of a month before moves, and by how much these move them.
    fn steps(&self, moves: &Moves, month: usize) -> Portfolios<Step>
        requires contract { moves.now.contract < length self.now.nets }
        requires month { month < length self.now.deltas }
        ensures { result ≡ steps_of moves.now (four_at self.now.nets moves.now.contract) (four_at self.now.deltas month) }
    {
        let nets = self.nets.at(moves.contract);
        let deltas = self.deltas.at(month);
        Portfolios {
            lots: Step::new(nets.lots, deltas.lots, moves.lots),
            buys: Step::new(nets.buys, deltas.buys, moves.buys),
            sales: Step::new(nets.sales, deltas.sales, moves.sales),
            all: Step::new(nets.all, deltas.all, moves.all),
        }
    }

    // Writes nets and month deltas after steps.
    fn write(&mut self, i: usize, contract: &Contract, steps: &Portfolios<Step>)
        requires contract { i < length self.old.nets }
        requires month { contract.now.month < length self.old.deltas }
        requires nets { AreNetsRoomy steps.now }
        requires deltas { AreDeltasRoomy contract.now.delta steps.now }
        ensures { self.new ≡ record self.old { nets = slice_set self.old.nets i (nets_after steps.now); deltas = slice_set self.old.deltas contract.now.month (deltas_after contract.now.delta steps.now) } }
    {
        *self.nets.at_mut(i) = Portfolios {
            lots: steps.lots.net_after(),
            buys: steps.buys.net_after(),
            sales: steps.sales.net_after(),
            all: steps.all.net_after(),
        };
        *self.deltas.at_mut(contract.month) = Portfolios {
            lots: steps.lots.delta_after(contract.delta),
            buys: steps.buys.delta_after(contract.delta),
            sales: steps.sales.delta_after(contract.delta),
            all: steps.all.delta_after(contract.delta),
        };
    }

    // Whether a branch needs no row of its own for a step, beside that of the lots: it has the lots' row and moves as this
    // does, or nothing moves.
    fn stays(&self, g: usize, branch: Portfolio, lots: &Step, step: &Step) -> bool
        requires { g < length self.now.own }
        ensures stays { IsTrue result → StaysAsLots branch (own_at self.now g) lots.now step.now }
        ensures alike { own_of branch (own_at self.now g) ≡ None → step.now ≡ lots.now → IsTrue result }
    {
        (step.quantity.size() == 0 && lots.quantity.size() == 0)
            || (step.is_same(lots) && self.own.row(g).of(branch).is_none())
    }

    // Moves the row that a branch has of its own, made from that of the lots where it had none.
    fn move_own(
        &mut self,
        set: &ParamSet,
        i: usize,
        g: usize,
        branch: Portfolio,
        step: &Step,
        work: &mut Work,
    )
        requires branch { branch ≢ Lots }
        requires contract { i < length set.now.contracts }
        requires rows { g < length self.old.rows }
        requires own { g < length self.old.own }
        requires room { step.now.quantity ≢ pos 0 → HasRowRoom set.now i (row_before branch self.old g) step.now }
        ensures kept { self.new ≡ record self.old { own = slice_set self.old.own g (own_at self.new g) } }
        ensures others { (w : Portfolio) → w ≢ branch → own_of w (own_at self.new g) ≡ own_of w (own_at self.old g) }
        ensures row { IsSomeAnd (own_of branch (own_at self.new g)) (λ r. IsRowStepped set.now i (row_before branch self.old g) r step.now) }
        ensures counted { work.new ≡ counted work.old (arrays_of_quantity step.now.quantity) }
    {
        let lots = self.rows.row(g);
        let own = self.own.row_mut(g);
        match branch {
            Portfolio::Lots => unreachable!(),
            Portfolio::WithBuys => move_row(&mut own.buys, lots, set, i, step, work),
            Portfolio::WithSales => move_row(&mut own.sales, lots, set, i, step, work),
            Portfolio::WithAll => move_row(&mut own.all, lots, set, i, step, work),
        }
    }

    // Follows a step of a branch beside one of the lots, which are still to move.
    fn follow_branch(
        &mut self,
        set: &ParamSet,
        i: usize,
        g: usize,
        branch: Portfolio,
        together: bool,
        lots: &Step,
        step: &Step,
        work: &mut Work,
    )
        requires branch { branch ≢ Lots }
        requires contract { i < length set.now.contracts }
        requires rows { g < length self.old.rows }
        requires own { g < length self.old.own }
        requires room { step.now.quantity ≢ pos 0 → HasRowRoom set.now i (row_before branch self.old g) step.now }
        requires together { together ≡ true → (own_of branch (own_at self.old g) ≡ None) × (step.now ≡ lots.now) }
        ensures kept { self.new ≡ record self.old { own = slice_set self.old.own g (own_at self.new g) } }
        ensures others { (w : Portfolio) → w ≢ branch → own_of w (own_at self.new g) ≡ own_of w (own_at self.old g) }
        ensures row { (after : KeptRow) → IsRowStepped set.now i (row_before Lots self.old g) after lots.now →
            IsRowStepped set.now i (row_before branch self.old g) (either_row after (own_of branch (own_at self.new g))) step.now }
        ensures together { own_of branch (own_at self.old g) ≡ None → step.now ≡ lots.now →
            own_of branch (own_at self.new g) ≡ None }
        ensures counted { work.new ≡ counted work.old (arrays_of_quantity step.now.quantity) }
    {
        if !together && !self.stays(g, branch, lots, step) {
            self.move_own(set, i, g, branch, step, work);
        } else if step.quantity.size() != 0 {
            let _array = set.array(i, work);
        }
    }

    // Follows a step of the lots.
    fn follow_lots(&mut self, set: &ParamSet, i: usize, g: usize, step: &Step, work: &mut Work)
        requires contract { i < length set.now.contracts }
        requires rows { g < length self.old.rows }
        requires room { step.now.quantity ≢ pos 0 → HasRowRoom set.now i (row_before Lots self.old g) step.now }
        ensures kept { self.new ≡ record self.old { rows = slice_set self.old.rows g (row_before Lots self.new g) } }
        ensures row { IsRowStepped set.now i (row_before Lots self.old g) (row_before Lots self.new g) step.now }
        ensures counted { work.new ≡ counted work.old (arrays_of_quantity step.now.quantity) }
    {
        if step.quantity.size() != 0 {
            self.rows.row_mut(g).add(set, i, step, work);
        }
    }

    /// Follows moves of the nets of one contract. A branch of which it is known that it is together with the lots stays so;
    /// so does its row of the commodity where it moves by as much and from the same as that of the lots. Else it has a row
    /// of its own from then on.
    pub fn follow(
        &mut self,
        set: &ParamSet,
        moves: &Moves,
        together: &Portfolios<bool>,
        work: &mut Work,
    )
        requires lists { AreLists set.now self.old }
        requires contract { moves.now.contract < length set.now.contracts }
        requires nets { (w : Portfolio) → IsNet (value_at (nets_in w self.old) moves.now.contract +ℤ quantity_of w moves.now) }
        requires parts { (w : Portfolio) → (f : Figures) × AreParts set.now (worked w self.old f) }
        requires together { (w : Portfolio) → one_of w together.now ≡ true →
            IsTogether w self.old × (quantity_of w moves.now ≡ moves.now.lots) }
        ensures lists { AreLists set.now self.new }
        ensures followed { (w : Portfolio) →
            IsFollowed set.now moves.now.contract (quantity_of w moves.now) w self.old self.new }
        ensures together { (w : Portfolio) → IsTogether w self.old → quantity_of w moves.now ≡ moves.now.lots → IsTogether w self.new }
        ensures counted { work.new ≡ counted work.old (arrays_of moves.now) }
    {
        set.limits();
        let i = moves.contract;
        let contract = set.contract_at(i);
        let g = contract.commodity;
        let steps = self.steps(moves, contract.month);
        let lots = &steps.lots;
        self.follow_branch(
            set,
            i,
            g,
            Portfolio::WithBuys,
            together.buys,
            lots,
            &steps.buys,
            work,
        );
        self.follow_branch(
            set,
            i,
            g,
            Portfolio::WithSales,
            together.sales,
            lots,
            &steps.sales,
            work,
        );
        self.follow_branch(
            set,
            i,
            g,
            Portfolio::WithAll,
            together.all,
            lots,
            &steps.all,
            work,
        );
        self.follow_lots(set, i, g, lots, work);
        self.write(i, contract, &steps);
    }
}

// Moves the row that a branch has of its own, made from that of the lots where it had none.
fn move_row(
    own: &mut Option<CommodityRow>,
    lots: &CommodityRow,
    set: &ParamSet,
    i: usize,
    step: &Step,
    work: &mut Work,
)
    requires contract { i < length set.now.contracts }
    requires room { step.now.quantity ≢ pos 0 → HasRowRoom set.now i (either_row lots.now own.old) step.now }
    ensures row { IsSomeAnd own.new (λ r. IsRowStepped set.now i (either_row lots.now own.old) r step.now) }
    ensures counted { work.new ≡ counted work.old (arrays_of_quantity step.now.quantity) }
{
    let row = own.get_or_insert(*lots);
    if step.quantity.size() != 0 {
        row.add(set, i, step, work);
    }
}
