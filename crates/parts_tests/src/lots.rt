//! Lists of lots, alone and two beside one another.
ghost use Rattle.std.specs.Prelude.{IfOk};
ghost use Rattle.mgn_lots.specs.Lots.{IsLot};

use mgn_ids::{ContractName, IdFault, LotId, LotQuantity, Premium, ShortId};
use mgn_lots::{Lot, Lots, Mark, add_both};
use mgn_num::Quantity;
use std::alloc::Global;
use std::process::Abort;
use std::test::Fail;

// A bought lot of 3 contracts, by a trade at 50 cents each.
fn bought(number: LotId, contract: ContractName) -> Lot
    ensures { IsLot result }
{
    Lot {
        number: ShortId::of_lot(number),
        contract,
        quantity: Quantity::new(3),
        premium: 50,
        mark: Mark::Traded,
    }
}

// A sold lot of 1 contract, by a transfer at 50 cents.
fn sold(number: LotId, contract: ContractName) -> Lot
    ensures { IsLot result }
{
    Lot {
        number: ShortId::of_lot(number),
        contract,
        quantity: Quantity::new(-1),
        premium: 50,
        mark: Mark::Moved,
    }
}

// Adds a lot, and tells whether its number was new and there was room.
fn add(lots: &mut Lots, lot: &Lot) -> bool
    requires { IsLot lot.now }
{
    if lots.has(lot.number.lot()) || lots.is_full() {
        return false;
    }
    lots.add(lot).is_ok()
}

// Busts the lot of a number, and tells whether there was a live one.
fn bust(lots: &mut Lots, number: LotId) -> bool {
    let Some(place) = lots.place(number) else {
        return false;
    };
    if !lots.at(place).mark.is_live() {
        return false;
    }
    lots.bust(place);
    true
}

// How many lots there are, and what those of a contract come to.
fn figures(lots: &Lots, contract: &ContractName) -> (usize, i64, u64) {
    (lots.len(), lots.net(contract), lots.gross(contract))
}

// Adds a bought and a sold lot, and busts the bought one.
fn check_bust(rt: &impl Abort, lots: &mut Lots, bought: &Lot, sold: &Lot)
    requires bought { IsLot bought.now }
    requires sold { IsLot sold.now }
{
    assert!(rt; add(lots, bought) && add(lots, sold));
    assert_eq!(rt; figures(lots, &bought.contract), (2, 2, 4));
    assert!(rt; bust(lots, bought.number.lot()));
    assert_eq!(rt; figures(lots, &bought.contract), (2, -1, 1));
    assert!(rt; !bust(lots, bought.number.lot()) && !add(lots, bought));
}

#[test]
fn a_busted_lot_counts_no_more(rt: HostRuntime) -> Result<(), Fail> {
    let contract = ContractName::read(b"AAA1")?;
    let bought = bought(LotId::read(b"1")?, contract);
    let sold = sold(LotId::read(b"2")?, contract);
    let mut lots = Lots::new(rt.alloc());
    check_bust(&rt, &mut lots, &bought, &sold);
    Ok(())
}

// A lot of these words, by a trade.
fn lot_of(number: &[u8], contract: &[u8], quantity: &[u8], premium: &[u8]) -> Result<Lot, IdFault>
    ensures { IfOk result IsLot }
{
    Ok(Lot {
        number: ShortId::of_lot(LotId::read(number)?),
        contract: ContractName::read(contract)?,
        quantity: LotQuantity::read(quantity)?.quantity(),
        premium: Premium::read(premium)?.cents(),
        mark: Mark::Traded,
    })
}

// Adds a lot, after which these are the figures of its contract.
fn check_added(rt: &impl Abort, lots: &mut Lots, lot: &Lot, expected: (usize, i64, u64))
    requires { IsLot lot.now }
{
    assert!(rt; add(lots, lot));
    assert_eq!(rt; figures(lots, &lot.contract), expected);
}

// A spread between two contracts.
fn check_spread(rt: &impl Abort, lots: &mut Lots) -> Result<(), IdFault> {
    check_added(rt, lots, &lot_of(b"1", b"AAA1", b"2", b"0")?, (1, 2, 2));
    check_added(rt, lots, &lot_of(b"2", b"AAA2", b"-2", b"0")?, (2, -2, 2));
    assert_eq!(rt; figures(lots, &ContractName::read(b"AAA1")?), (2, 2, 2));
    Ok(())
}

#[test]
fn lots_are_added_and_counted_by_their_contracts(rt: HostRuntime) -> Result<(), Fail> {
    let mut spread = Lots::new(rt.alloc());
    check_spread(&rt, &mut spread)?;
    let bought = lot_of(b"1", b"AAAC", b"4", b"60")?;
    let mut options = Lots::new(rt.alloc());
    check_added(&rt, &mut options, &bought, (1, 4, 4));
    Ok(())
}

// Reserves memory for a lot, and adds it.
fn check_reserved(rt: &impl Abort, lots: &mut Lots, lot: &Lot)
    requires { IsLot lot.now }
{
    assert!(rt; !lots.has(lot.number.lot()) && !lots.is_full());
    assert!(rt; lots.reserve().is_ok());
    lots.add_reserved(lot);
    assert_eq!(rt; lots.place(lot.number.lot()), Some(0));
    assert_eq!(rt; lots.as_slice().len(), 1);
}

#[test]
fn a_lot_is_added_to_what_is_reserved(rt: HostRuntime) -> Result<(), Fail> {
    let lot = bought(LotId::read(b"7")?, ContractName::read(b"AAA1")?);
    let mut lots = Lots::new(rt.alloc());
    check_reserved(&rt, &mut lots, &lot);
    Ok(())
}

// One lot for each of two lists.
fn check_transfer(rt: &impl Abort, giver: &mut Lots, taker: &mut Lots, given: &Lot, taken: &Lot)
    requires given { IsLot given.now }
    requires taken { IsLot taken.now }
{
    assert!(rt; !giver.has(given.number.lot()) && !giver.is_full());
    assert!(rt; !taker.has(taken.number.lot()) && !taker.is_full());
    assert!(rt; add_both(giver, taker, given, taken).is_ok());
    assert_eq!(rt; figures(giver, &given.contract), (1, -1, 1));
    assert_eq!(rt; figures(taker, &taken.contract), (1, 3, 3));
}

#[test]
fn a_transfer_adds_to_both_lists(rt: HostRuntime) -> Result<(), Fail> {
    let number = LotId::read(b"7")?;
    let contract = ContractName::read(b"AAA1")?;
    let given = sold(number, contract);
    let taken = bought(number, contract);
    let mut giver = Lots::new(rt.alloc());
    let mut taker = Lots::new(rt.alloc());
    check_transfer(&rt, &mut giver, &mut taker, &given, &taken);
    Ok(())
}

// The numbers that a text spells, with a space between two.
fn numbers(alloc: Global, text: &[u8]) -> Result<Vec<LotId>, Fail> {
    let mut numbers = Vec::new(alloc);
    for word in text.split(|byte| *byte == b' ') {
        numbers.push(LotId::read(word)?)?;
    }
    Ok(numbers)
}

// Each of some numbers is found where a plain list of those that were added has it, or nowhere.
fn check_places(rt: &impl Abort, lots: &Lots, added: &[LotId], asked: &[LotId]) {
    for number in asked {
        let place = added.iter().position(|other| other == number);
        assert_eq!(rt; lots.place(*number), place);
        assert_eq!(rt; lots.has(*number), place.is_some());
    }
}

// Adds lots of even numbers, which come in a certain order, and busts them again. After each change all of these and
// the odd ones between them are asked for.
fn check_order(rt: &impl Abort, alloc: Global, order: &[u8]) -> Result<(), Fail> {
    let contract = ContractName::read(b"AAA1")?;
    let asked = numbers(
        alloc,
        b"1 2 3 4 5 6 7 8 9 10 11 12 13 14 15 16 17 18 19 20 21 22 23 24 25",
    )?;
    let mut lots = Lots::new(alloc);
    let mut added = Vec::new(alloc);
    for number in &numbers(alloc, order)? {
        assert!(rt; add(&mut lots, &bought(*number, contract)));
        added.push(*number)?;
        check_places(rt, &lots, &added, &asked);
    }
    for number in &added {
        assert!(rt; bust(&mut lots, *number));
        check_places(rt, &lots, &added, &asked);
    }
    Ok(())
}

#[test]
fn a_lot_is_found_in_whatever_order_numbers_came(rt: HostRuntime) -> Result<(), Fail> {
    for order in [
        b"2 4 6 8 10 12 14 16 18 20 22 24".as_slice(),
        b"24 22 20 18 16 14 12 10 8 6 4 2".as_slice(),
        b"4 8 12 6 2 24 10 14 22 16 20 18".as_slice(),
    ] {
        check_order(&rt, rt.alloc(), order)?;
    }
    Ok(())
}
