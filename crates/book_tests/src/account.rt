//! An account with one thing in it at a time: collateral, a lot, a hold.
ghost use Rattle.std.specs.Prelude.{◌<◌, IfOk, length};
ghost use Rattle.mgn_lots.specs.Lots.{IsLot};
ghost use Rattle.mgn_holds.specs.Holds.{IsHeld};

use mgn_holds::Held;
use mgn_ids::{
    AccountName, ClassName, ContractName, IdFault, LotId, LotQuantity, OrderId, Premium, ShortId,
};
use mgn_lots::{Lot, Mark};
use mgn_params::ParamSet;
use mgn_setfile::read_set;
use mgn_unit::Account;
use std::alloc::{AllocError, Global};
use std::process::Abort;
use std::test::Fail;
use worked_sets::bills;

fn opened(alloc: Global) -> Result<Account, IdFault> {
    Ok(Account::open(alloc, AccountName::read(b"A1")?, 2, 3))
}

// A lot traded at 60 cents.
pub(crate) fn lot_of(number: &[u8], quantity: &[u8]) -> Result<Lot, IdFault>
    ensures { IfOk result IsLot }
{
    Ok(Lot {
        number: ShortId::of_lot(LotId::read(number)?),
        contract: ContractName::read(b"AAAC")?,
        quantity: LotQuantity::read(quantity)?.quantity(),
        premium: Premium::read(b"60")?.cents(),
        mark: Mark::Traded,
    })
}

// Adds a lot where it is new and there is room.
fn add(account: &mut Account, lot: &Lot) -> Result<(), AllocError>
    requires { IsLot lot.now }
{
    if account.has_lot(lot.number.lot()) {
        return Ok(());
    }
    if account.is_full() {
        return Ok(());
    }
    account.add_lot(lot)
}

// An account with lot 7, of 10 contracts.
fn with_lot(alloc: Global) -> Result<Account, Fail> {
    let mut account = opened(alloc)?;
    let lot = lot_of(b"7", b"10")?;
    add(&mut account, &lot)?;
    Ok(account)
}

// A hold with a limit of 60 cents.
pub(crate) fn held_of(order: &[u8], quantity: &[u8]) -> Result<Held, IdFault>
    ensures { IfOk result IsHeld }
{
    Ok(Held {
        order: OrderId::read(order)?,
        contract: ContractName::read(b"AAAC")?,
        quantity: LotQuantity::read(quantity)?.quantity(),
        limit: Premium::read(b"60")?.cents(),
    })
}

// An account that holds 3 contracts by order 5.
fn with_hold(alloc: Global) -> Result<Account, Fail> {
    let mut account = opened(alloc)?;
    let held = held_of(b"5", b"3")?;
    if !account.holds_full() && !account.has_order(held.order) {
        account.add_hold(&held)?;
    }
    Ok(account)
}

// Fills the hold at a place, where it covers the lot and there is room for it.
fn fill(account: &mut Account, place: usize, lot: &Lot) -> Result<(), AllocError>
    requires place { place < length account.old.holds }
    requires lot { IsLot lot.now }
{
    if !account.hold_at(place).covers(lot.quantity) {
        return Ok(());
    }
    if account.has_lot(lot.number.lot()) {
        return Ok(());
    }
    if account.is_full() {
        return Ok(());
    }
    account.fill(place, lot)
}

// How many contracts an account holds by an order.
fn held(account: &Account, order: OrderId) -> i64 {
    match account.order_place(order) {
        Some(place) => account.hold_at(place).quantity.contracts(),
        None => 0,
    }
}

// The same after a fill of the order.
fn held_after(account: &mut Account, order: OrderId, lot: &Lot) -> Result<i64, AllocError>
    requires { IsLot lot.now }
{
    if let Some(place) = account.order_place(order) {
        fill(account, place, lot)?;
    }
    Ok(held(account, order))
}

#[test]
fn an_account_opens_empty(rt: HostRuntime) -> Result<(), Fail> {
    let account = opened(rt.alloc())?;
    assert_eq!(rt; (account.origin(), account.unit()), (2, 3));
    assert!(rt; !account.is_full() && !account.holds_full());
    Ok(())
}

// What 3 bills come to before they are posted, and after.
fn check_bills(rt: &impl Abort, set: &ParamSet, account: &mut Account) -> Result<(), Fail> {
    let bill = ClassName::read(b"BILL")?;
    assert_eq!(rt; account.value_with(set, &bill, 3).amount(), 28_954);
    account.write_amount(&bill, 3)?;
    assert_eq!(rt; account.amount(&bill), 3);
    assert_eq!(rt; account.collateral_value(set).amount(), 28_954);
    Ok(())
}

#[test]
fn posted_collateral_counts(rt: HostRuntime) -> Result<(), Fail> {
    let set = read_set(rt.alloc(), bills().as_bytes())?;
    let mut account = opened(rt.alloc())?;
    check_bills(&rt, &set, &mut account)
}

// Busts lot 7.
fn check_lot(rt: &impl Abort, account: &mut Account, number: LotId) {
    if let Some(place) = account.lot_place(number) {
        let lot = account.lot_at(place);
        assert_eq!(rt; lot.quantity.contracts(), 10);
        assert!(rt; lot.mark.is_live());
        account.bust(place);
        assert!(rt; !account.lot_at(place).mark.is_live());
    }
    assert!(rt; account.has_lot(number));
}

#[test]
fn a_lot_is_found_and_busted(rt: HostRuntime) -> Result<(), Fail> {
    let mut account = with_lot(rt.alloc())?;
    let number = LotId::read(b"7")?;
    check_lot(&rt, &mut account, number);
    Ok(())
}

// Releases order 5.
fn check_hold(rt: &impl Abort, account: &mut Account, order: OrderId) {
    assert!(rt; account.has_order(order));
    if let Some(place) = account.order_place(order) {
        account.release(place);
    }
    assert!(rt; !account.has_order(order));
}

#[test]
fn a_hold_is_found_and_released(rt: HostRuntime) -> Result<(), Fail> {
    let mut account = with_hold(rt.alloc())?;
    let order = OrderId::read(b"5")?;
    assert_eq!(rt; held(&account, order), 3);
    check_hold(&rt, &mut account, order);
    Ok(())
}

// Fills one contract of order 5.
fn check_fill(
    rt: &impl Abort,
    account: &mut Account,
    order: OrderId,
    lot: &Lot,
) -> Result<(), AllocError>
    requires { IsLot lot.now }
{
    assert_eq!(rt; held_after(account, order, lot)?, 2);
    assert!(rt; account.has_lot(lot.number.lot()));
    Ok(())
}

#[test]
fn a_fill_makes_a_lot_of_a_part_of_a_hold(rt: HostRuntime) -> Result<(), Fail> {
    let mut account = with_hold(rt.alloc())?;
    let lot = lot_of(b"8", b"1")?;
    let order = OrderId::read(b"5")?;
    check_fill(&rt, &mut account, order, &lot)?;
    Ok(())
}
