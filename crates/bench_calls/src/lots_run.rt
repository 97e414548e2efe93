ghost use Rattle.std.specs.Prelude.{IfOk, ◌<◌};
ghost use Rattle.mgn_lots.specs.Lots.{IsLot};

use anyhow::{Result, bail};
use itoa::Buffer;
use mgn_ids::{ContractName, LotId, LotQuantity, ShortId};
use mgn_lots::{Lot, Lots, Mark};
use std::alloc::Global;
use std::rt::Clock;
use std::time::Instant;

/// Nanoseconds that the calls of each kind took.
#[derive(Clone, Copy)]
pub struct Costs {
    pub add: u128,
    pub find: u128,
    pub bust: u128,
}

/// The numbers from 1 on.
pub fn numbers(alloc: Global, count: usize) -> Result<Vec<LotId>> {
    let mut numbers = Vec::new(alloc);
    for i in 1..=count {
        let mut buffer = Buffer::new();
        let Ok(number) = LotId::read(buffer.format(i).as_bytes()) else {
            bail!("{i} is no number of a lot");
        };
        numbers.push(number)?;
    }
    Ok(numbers)
}

/// A lot of one contract, whose number the runs replace.
pub fn template() -> Result<Lot>
    ensures { IfOk result IsLot }
{
    let (Ok(number), Ok(contract), Ok(quantity)) = (
        LotId::read(b"1"),
        ContractName::read(b"AAA1"),
        LotQuantity::read(b"1"),
    ) else {
        bail!("a word was refused");
    };
    Ok(Lot {
        number: ShortId::of_lot(number),
        contract,
        quantity: quantity.quantity(),
        premium: 0,
        mark: Mark::Traded,
    })
}

/// Adds, finds and busts a lot of each number, in accounts of so many lots each.
pub fn measure(
    clock: &impl Clock,
    alloc: Global,
    numbers: &[LotId],
    size: usize,
    template: &Lot,
) -> Result<Costs>
    requires template { IsLot template.now }
    requires size { 0 < size }
{
    let mut costs = Costs {
        add: 0,
        find: 0,
        bust: 0,
    };
    for part in numbers.chunks(size) {
        let mut lots = Lots::new(alloc);
        measure_part(clock, &mut lots, part, template, &mut costs)?;
    }
    Ok(costs)
}

// Adds, finds and busts a lot of each number, and adds the nanoseconds of it to the costs.
fn measure_part(
    clock: &impl Clock,
    lots: &mut Lots,
    part: &[LotId],
    template: &Lot,
    costs: &mut Costs,
) -> Result<()>
    requires { IsLot template.now }
{
    let start = Instant::now(clock)?;
    add_all(lots, part, template)?;
    costs.add = costs.add.saturating_add(start.elapsed(clock)?.as_nanos());
    let start = Instant::now(clock)?;
    find_all(lots, part)?;
    costs.find = costs.find.saturating_add(start.elapsed(clock)?.as_nanos());
    let start = Instant::now(clock)?;
    bust_all(lots, part)?;
    costs.bust = costs.bust.saturating_add(start.elapsed(clock)?.as_nanos());
    Ok(())
}

fn add_all(lots: &mut Lots, numbers: &[LotId], template: &Lot) -> Result<()>
    requires { IsLot template.now }
{
    for number in numbers {
        let lot = Lot {
            number: ShortId::of_lot(*number),
            contract: template.contract,
            quantity: template.quantity,
            premium: template.premium,
            mark: Mark::Traded,
        };
        if lots.has(lot.number.lot()) || lots.is_full() {
            bail!("a lot was refused");
        }
        lots.add(&lot)?;
    }
    Ok(())
}

fn find_all(lots: &Lots, numbers: &[LotId]) -> Result<()> {
    for number in numbers {
        let Some(place) = lots.place(*number) else {
            bail!("a lot was not found");
        };
        if !lots.at(place).mark.is_live() {
            bail!("a lot counts no more");
        }
    }
    Ok(())
}

fn bust_all(lots: &mut Lots, numbers: &[LotId]) -> Result<()> {
    for number in numbers {
        let Some(place) = lots.place(*number) else {
            bail!("a lot was not found");
        };
        if !lots.at(place).mark.is_live() {
            bail!("a lot counts no more");
        }
        lots.bust(place);
    }
    Ok(())
}
