ghost use Rattle.std.specs.Prelude.{◌≡◌, ◌<◌, ◌≤◌, ◌*◌, ◌^◌, length, unsigned_abs, All, IfOk};
ghost use Rattle.mgn_span.specs.Options.{net_option_value};
ghost use Rattle.mgn_span.specs.Positions.{IsNet, positions};
ghost use Rattle.mgn_plain.specs.Figures.{commodity_figures};

use crate::calculation::{figures_of, work_out};
use crate::commodity::CommodityFigures;
use crate::figure_rows::FigureRows;
use mgn_nets::Nets;
use mgn_num::Cents;
use mgn_params::{ParamSet, Work};
use std::alloc::{AllocError, Global};
use std::marker::Model;

/// The figures of a list of nets under a set, of which those of a commodity are worked out when they are asked for.
/// Contracts see the set and the nets.
#[derive(Drop)]
pub struct NetFigures<'a> {
    set: &'a ParamSet,
    nets: &'a Nets,
    rows: FigureRows,
}

impl<'a> Model for NetFigures<'a> {
    ghost use Rattle.mgn_plain.specs.Figures.{SetAndNets};
    ghost use Rattle.mgn_plain.specs.Parts.{AreFigureRows};

    ghost Value = { SetAndNets };

    ghost view = { λ f. record { set = f.set.now; nets = f.nets.now } };

    ghost invariant = { λ f. AreFigureRows f.set.now f.nets.now f.rows };
}

impl<'a> NetFigures<'a> {
    /// Those of one net for each contract of the set in file order, each at most 10,000,000 in size.
    ///
    /// An error says that memory was refused, and nothing else fails. `work` counts the risk arrays that the calculation
    /// reads.
    pub fn of(
        alloc: Global,
        set: &'a ParamSet,
        nets: &'a Nets,
        work: &mut Work,
    ) -> Result<NetFigures<'a>, AllocError>
        requires one_each { length nets.now ≡ length set.now.contracts }
        requires nets { All IsNet nets.now }
        ensures { IfOk result (λ f. f ≡ record { set = set.now; nets = nets.now }) }
    {
        let rows = work_out(alloc, set, nets, work)?;
        Ok(NetFigures { set, nets, rows })
    }

    /// The figures of the commodity at a place of the set.
    pub fn commodity(&self, commodity: usize) -> CommodityFigures
        requires { commodity < length self.now.set.commodities }
        ensures figures { result ≡ commodity_figures self.now.set (positions self.now.set.contracts self.now.nets) commodity }
        ensures small { unsigned_abs result.risk ≤ 3 * 10 ^ 27 }
    {
        figures_of(self.set, &self.rows, commodity)
    }

    /// The net option value in cents: what long options of premium style are worth, less what short ones are.
    pub fn option_value(&self) -> Cents
        ensures { result ≡ net_option_value (positions self.now.set.contracts self.now.nets) }
    {
        self.rows.sums.option_value
    }
}
