//! Copies of the nets of margin units, as a switch is prepared from them.

ghost use Rattle.std.specs.Prelude.{◌≡◌, map, IfOk};
ghost use Rattle.mgn_unit.specs.Rows.{nets_in};
ghost use Rattle.mgn_day.specs.Copies.{beside};

use mgn_nets::Nets;
use mgn_unit::{CopiedNets, Row};
use std::alloc::{AllocError, Global};
use std::marker::Model;

/// A copy of the nets of a margin unit's four portfolios. Of a portfolio that has the nets of the lots, as all have where
/// no order is held, there is no copy of its own: the book's lock is held while the copies are made. Contracts see the nets
/// of all four.
#[derive(Drop)]
pub struct UnitCopy {
    lots: Nets,
    buys: Option<Nets>,
    sales: Option<Nets>,
    all: Option<Nets>,
}

impl Model for UnitCopy {
    ghost use Rattle.mgn_nets.specs.Portfolios.{UnitNets};
    ghost use Rattle.mgn_day.specs.Copies.{beside};

    ghost Value = { UnitNets };

    ghost view = { λ c. record {
      lots = c.lots;
      buys = beside c.lots c.buys;
      sales = beside c.lots c.sales;
      all = beside c.lots c.all;
    } };
}

// A copy of nets beside those of the lots.
fn copy_beside(alloc: Global, lots: &Nets, nets: &Nets) -> Result<Option<Nets>, AllocError>
    ensures { IfOk result (λ copy. beside lots.now copy ≡ nets.now) }
{
    if nets.is_same(lots) {
        return Ok(None);
    }
    Ok(Some(nets.copy(alloc)?))
}

// The nets of a copy beside those of the lots.
fn whole(alloc: Global, lots: &Nets, copy: Option<Nets>) -> Result<Nets, AllocError>
    ensures { IfOk result (λ nets. nets ≡ beside lots.now copy) }
{
    match copy {
        Some(nets) => Ok(nets),
        None => lots.copy(alloc),
    }
}

impl UnitCopy {
    // The nets of a row.
    fn of_row(alloc: Global, row: &Row) -> Result<UnitCopy, AllocError>
        ensures { IfOk result (λ copy. copy ≡ nets_in row.now) }
    {
        let lots = &row.lots.nets;
        Ok(UnitCopy {
            lots: lots.copy(alloc)?,
            buys: copy_beside(alloc, lots, &row.buys.nets)?,
            sales: copy_beside(alloc, lots, &row.sales.nets)?,
            all: copy_beside(alloc, lots, &row.all.nets)?,
        })
    }

    // The nets of each portfolio in a list of its own.
    fn into_nets(self, alloc: Global) -> Result<CopiedNets, AllocError>
        ensures { IfOk result (λ nets. nets ≡ self) }
    {
        let UnitCopy {
            lots,
            buys,
            sales,
            all,
        } = self;
        let buys = whole(alloc, &lots, buys)?;
        let sales = whole(alloc, &lots, sales)?;
        let all = whole(alloc, &lots, all)?;
        Ok(CopiedNets {
            lots,
            buys,
            sales,
            all,
        })
    }
}

/// A copy of the nets of each row. An error says that memory was refused.
pub fn copies_of(alloc: Global, rows: &[Row]) -> Result<Vec<UnitCopy>, AllocError>
    ensures { IfOk result (λ copies. copies.items ≡ map nets_in rows.now) }
{
    let mut copies = Vec::with_capacity(alloc, rows.len())?;
    for row in rows {
        copies.push_reserved(UnitCopy::of_row(alloc, row)?);
    }
    Ok(copies)
}

/// The nets of each copy, of each portfolio in a list of its own. An error says that memory was refused.
pub fn whole_nets(alloc: Global, copies: Vec<UnitCopy>) -> Result<Vec<CopiedNets>, AllocError>
    ensures { IfOk result (λ nets. nets.items ≡ copies.items) }
{
    let mut nets = Vec::with_capacity(alloc, copies.len())?;
    for copy in copies {
        nets.push(copy.into_nets(alloc)?)?;
    }
    Ok(nets)
}
