//! Lists and figures that are brought to nets, one net after another. Neighbours are mostly of one commodity, and their nets
//! are brought before what hangs on them.

ghost use Rattle.std.specs.Prelude.{◌≡◌, ◌≢◌, ◌<◌, ◌+ℤ◌, true, length, All};
ghost use Rattle.mgn_params.specs.Tables.{contract_at};
ghost use Rattle.mgn_span.specs.Positions.{IsNet};
ghost use Rattle.mgn_span.specs.Scan.{value_at};
ghost use Rattle.mgn_desk.specs.UnitLists.{AreLists, IsFollowed, IsTogether, flat_lists, nets_in, one_of, quantity_of};
ghost use Rattle.mgn_desk.specs.WorkedPortfolios.{AreFigures, AreFlatFigures, AreParts, IsBehind, IsPortfolio, worked};
ghost use Rattle.mgn_desk.specs.declared.figures.Figures.{Figures};
ghost use Rattle.mgn_desk.specs.declared.portfolio.Portfolio.{Portfolio};
ghost use Rattle.mgn_desk.specs.declared.portfolio.Portfolio.TheVariants.{Lots};

use crate::figures::Figures;
use crate::moves::Moves;
use crate::portfolio::Portfolio;
use crate::unit_lists::UnitLists;
use mgn_nets::{Nets, Portfolios};
use mgn_params::{ParamSet, Work};

// Follows moves in the lists and in the figures of a portfolio, once what waits of another commodity is brought after its
// rows. Tells the commodity of which it waits then.
fn bring_net(
    set: &ParamSet,
    lists: &mut UnitLists,
    figures: &mut Figures,
    portfolio: Portfolio,
    moves: &Moves,
    together: &Portfolios<bool>,
    g: usize,
) -> usize
    requires lists { AreLists set.now lists.old }
    requires commodity { g < length set.now.commodities }
    requires behind { IsBehind set.now g (worked portfolio lists.old figures.old) }
    requires rows { AreFigures set.now figures.old }
    requires contract { moves.now.contract < length set.now.contracts }
    requires nets { (w : Portfolio) → IsNet (value_at (nets_in w lists.old) moves.now.contract +ℤ quantity_of w moves.now) }
    requires parts { (w : Portfolio) → (f : Figures) × AreParts set.now (worked w lists.old f) }
    requires together { (w : Portfolio) → one_of w together.now ≡ true →
        IsTogether w lists.old × (quantity_of w moves.now ≡ moves.now.lots) }
    ensures lists { AreLists set.now lists.new }
    ensures commodity { result < length set.now.commodities }
    ensures behind { IsBehind set.now result (worked portfolio lists.new figures.new) }
    ensures rows { AreFigures set.now figures.new }
    ensures followed { (w : Portfolio) →
        IsFollowed set.now moves.now.contract (quantity_of w moves.now) w lists.old lists.new }
    ensures together { (w : Portfolio) → IsTogether w lists.old → quantity_of w moves.now ≡ moves.now.lots → IsTogether w lists.new }
{
    set.limits();
    let commodity = set.contract_at(moves.contract).commodity;
    figures.turn_to(set, lists, portfolio, g, commodity);
    lists.follow(set, moves, together, &mut Work::new());
    figures.add(set, lists, portfolio, moves.contract, moves.of(portfolio));
    commodity
}

/// Brings the lists of all portfolios from nets of 0 to these, and the figures of the lots with them.
pub(crate) fn bring_lots(set: &ParamSet, lists: &mut UnitLists, figures: &mut Figures, nets: &Nets)
    requires flat { lists.old ≡ flat_lists set.now }
    requires figures { AreFlatFigures set.now figures.old }
    requires one_each { length nets.now ≡ length set.now.contracts }
    requires nets { All IsNet nets.now }
    ensures lists { AreLists set.now lists.new }
    ensures portfolio { IsPortfolio set.now (worked Lots lists.new figures.new) }
    ensures rows { AreFigures set.now figures.new }
    ensures nets { nets_in Lots lists.new ≡ nets.now }
    ensures together { (w : Portfolio) → IsTogether w lists.new }
{
    let Some(first) = nets.next_held(0) else {
        return;
    };
    set.limits();
    let mut behind = set.contract_at(first).commodity;
    let mut from = first;
    while let Some(i) = nets.next_held(from) {
        let moves = Moves::alike(i, nets.at(i));
        behind = bring_net(
            set,
            lists,
            figures,
            Portfolio::Lots,
            &moves,
            &TOGETHER,
            behind,
        );
        from = i + 1;
    }
    figures.settle(set, lists, Portfolio::Lots, behind);
}

/// Brings the lists of a branch from the nets of the lots to these, and its figures with them.
pub(crate) fn bring_branch(
    set: &ParamSet,
    lists: &mut UnitLists,
    figures: &mut Figures,
    portfolio: Portfolio,
    lots: &Nets,
    nets: &Nets,
)
    requires branch { portfolio ≢ Lots }
    requires lists { AreLists set.now lists.old }
    requires portfolio { IsPortfolio set.now (worked portfolio lists.old figures.old) }
    requires rows { AreFigures set.now figures.old }
    requires lots { nets_in portfolio lists.old ≡ lots.now }
    requires parts { (w : Portfolio) → (f : Figures) × AreParts set.now (worked w lists.old f) }
    requires one_each { length nets.now ≡ length set.now.contracts }
    requires nets { All IsNet nets.now }
    ensures lists { AreLists set.now lists.new }
    ensures portfolio { IsPortfolio set.now (worked portfolio lists.new figures.new) }
    ensures rows { AreFigures set.now figures.new }
    ensures nets { nets_in portfolio lists.new ≡ nets.now }
    ensures others { (w : Portfolio) → w ≢ portfolio → (f : Figures) → worked w lists.new f ≡ worked w lists.old f }
    ensures together { (w : Portfolio) → w ≢ portfolio → IsTogether w lists.old → IsTogether w lists.new }
{
    let Some(first) = nets.next_different(lots, 0) else {
        return;
    };
    set.limits();
    let mut behind = set.contract_at(first).commodity;
    let mut from = first;
    while let Some(i) = nets.next_different(lots, from) {
        let more = nets.at(i).plus(lots.at(i).negated());
        let moves = Moves::of_one(portfolio, i, more);
        behind = bring_net(set, lists, figures, portfolio, &moves, &UNKNOWN, behind);
        from = i + 1;
    }
    figures.settle(set, lists, portfolio, behind);
}

// The branches are together with the lots.
const TOGETHER: Portfolios<bool> = Portfolios {
    lots: true,
    buys: true,
    sales: true,
    all: true,
};

// It is not known of any that it is.
const UNKNOWN: Portfolios<bool> = Portfolios {
    lots: false,
    buys: false,
    sales: false,
    all: false,
};
