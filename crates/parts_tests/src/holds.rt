//! Holds, and lists of them.
ghost use Rattle.mgn_holds.specs.Holds.{IsHeld};

use mgn_holds::{Held, Holds};
use mgn_ids::{ContractName, OrderId};
use mgn_num::Quantity;
use std::process::Abort;
use std::test::Fail;

// Buys 3 contracts for at most 60 cents each.
fn buy(order: OrderId, contract: ContractName) -> Held
    ensures { IsHeld result }
{
    Held {
        order,
        contract,
        quantity: Quantity::new(3),
        limit: 60,
    }
}

// Sells 2 contracts for at least 50 cents each.
fn sale(order: OrderId, contract: ContractName) -> Held
    ensures { IsHeld result }
{
    Held {
        order,
        contract,
        quantity: Quantity::new(-2),
        limit: 50,
    }
}

// Adds a hold, and tells whether its order was new and there was room.
fn add(holds: &mut Holds, held: &Held) -> bool
    requires { IsHeld held.now }
{
    if holds.has(held.order) || holds.is_full() {
        return false;
    }
    holds.add(held).is_ok()
}

// Fills an order at a premium in cents, and tells whether it was held, within its limit and covered.
fn fill(holds: &mut Holds, order: OrderId, quantity: Quantity, premium: u32) -> bool {
    let Some(place) = holds.place(order) else {
        return false;
    };
    let held = holds.at(place);
    if !held.meets_limit(premium) || !held.covers(quantity) {
        return false;
    }
    holds.fill(place, quantity);
    true
}

// Releases an order, and tells whether it was held.
fn release(holds: &mut Holds, order: OrderId) -> bool {
    let Some(place) = holds.place(order) else {
        return false;
    };
    holds.release(place);
    true
}

// How many holds there are, and how many contracts the first of them holds.
fn figures(holds: &Holds) -> (usize, Option<i64>) {
    let first = holds
        .as_slice()
        .first()
        .map(|held| held.quantity.contracts());
    (holds.len(), first)
}

#[test]
fn a_hold_has_a_limit_and_covers_its_size(rt: HostRuntime) -> Result<(), Fail> {
    let contract = ContractName::read(b"AAAC")?;
    let order = OrderId::read(b"1")?;
    let buy = buy(order, contract);
    let sale = sale(order, contract);
    assert!(rt; buy.meets_limit(60) && !buy.meets_limit(61));
    assert!(rt; sale.meets_limit(50) && !sale.meets_limit(49));
    assert!(rt; buy.covers(Quantity::new(3)) && !buy.covers(Quantity::new(4)));
    assert!(rt; !buy.covers(Quantity::new(-1)) && !buy.covers(Quantity::ZERO));
    assert!(rt; sale.covers(Quantity::new(-2)) && !sale.covers(Quantity::new(-3)));
    Ok(())
}

// Adds a buy of 3 and a sale of 2, and fills the buy in two parts.
fn check_fills(rt: &impl Abort, holds: &mut Holds, buy: &Held, sale: &Held)
    requires buy { IsHeld buy.now }
    requires sale { IsHeld sale.now }
{
    assert!(rt; add(holds, buy) && add(holds, sale));
    assert!(rt; !add(holds, sale));
    assert!(rt; fill(holds, buy.order, Quantity::new(1), 60));
    assert_eq!(rt; figures(holds), (2, Some(2)));
    assert!(rt; fill(holds, buy.order, Quantity::new(2), 60));
    assert_eq!(rt; figures(holds), (1, Some(-2)));
}

#[test]
fn a_fill_lessens_a_hold_and_the_last_frees_its_order(rt: HostRuntime) -> Result<(), Fail> {
    let contract = ContractName::read(b"AAAC")?;
    let buy = buy(OrderId::read(b"1")?, contract);
    let sale = sale(OrderId::read(b"2")?, contract);
    let mut holds = Holds::new(rt.alloc());
    check_fills(&rt, &mut holds, &buy, &sale);
    Ok(())
}

// Adds two holds, and releases the first.
fn check_release(rt: &impl Abort, holds: &mut Holds, buy: &Held, sale: &Held)
    requires buy { IsHeld buy.now }
    requires sale { IsHeld sale.now }
{
    assert!(rt; add(holds, buy) && add(holds, sale));
    assert!(rt; release(holds, buy.order) && !release(holds, buy.order));
    assert!(rt; holds.has(sale.order));
    assert_eq!(rt; figures(holds), (1, Some(-2)));
}

#[test]
fn a_released_hold_is_gone(rt: HostRuntime) -> Result<(), Fail> {
    let contract = ContractName::read(b"AAAC")?;
    let buy = buy(OrderId::read(b"1")?, contract);
    let sale = sale(OrderId::read(b"2")?, contract);
    let mut holds = Holds::new(rt.alloc());
    check_release(&rt, &mut holds, &buy, &sale);
    Ok(())
}

// Holds 4 options at 60 cents, and fills them all at once: not 5, and not above the limit.
fn check_whole(rt: &impl Abort, holds: &mut Holds, held: &Held)
    requires { IsHeld held.now }
{
    assert!(rt; add(holds, held));
    assert_eq!(rt; figures(holds), (1, Some(4)));
    assert!(rt; !fill(holds, held.order, Quantity::new(5), 60));
    assert!(rt; !fill(holds, held.order, Quantity::new(4), 61));
    assert!(rt; fill(holds, held.order, Quantity::new(4), 60));
    assert_eq!(rt; figures(holds), (0, None));
    assert!(rt; !fill(holds, held.order, Quantity::new(1), 60));
}

#[test]
fn a_hold_is_filled_whole(rt: HostRuntime) -> Result<(), Fail> {
    let held = Held {
        order: OrderId::read(b"5")?,
        contract: ContractName::read(b"AAAC")?,
        quantity: Quantity::new(4),
        limit: 60,
    };
    let mut holds = Holds::new(rt.alloc());
    check_whole(&rt, &mut holds, &held);
    Ok(())
}
