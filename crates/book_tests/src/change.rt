//! What a lot, a bust, a hold, a release and a fill change, in contracts and cents.

use crate::account::{held_of, lot_of};
use mgn_ids::{LotQuantity, Premium};
use mgn_unit::{Change, Gain};
use std::process::Abort;
use std::test::Fail;

fn numbers(gain: &Gain) -> (i64, i128) {
    (gain.quantity.contracts(), gain.worth.cents().amount())
}

// Asserts what a change in contract 2 comes to in size, and what lots, buys, sales and all gain by it.
fn check(rt: &impl Abort, change: &Change, size: i64, gains: [(i64, i128); 4]) {
    assert_eq!(rt; (change.contract, change.size.contracts()), (2, size));
    assert_eq!(rt;
        (numbers(&change.lots), numbers(&change.buys)),
        (gains[0], gains[1])
    );
    assert_eq!(rt;
        (numbers(&change.sales), numbers(&change.all)),
        (gains[2], gains[3])
    );
}

#[test]
fn a_lot_costs_its_premium(rt: HostRuntime) -> Result<(), Fail> {
    let change = Change::of_lot(2, LotQuantity::read(b"10")?, Premium::read(b"60")?);
    check(&rt, &change, 10, [(10, -600); 4]);
    Ok(())
}

#[test]
fn a_bust_gives_the_premium_back(rt: HostRuntime) -> Result<(), Fail> {
    let change = Change::of_bust(2, &lot_of(b"7", b"10")?);
    check(&rt, &change, -10, [(-10, 600); 4]);
    Ok(())
}

#[test]
fn a_held_sale_counts_with_sales(rt: HostRuntime) -> Result<(), Fail> {
    let change = Change::of_hold(2, LotQuantity::read(b"-1")?, Premium::read(b"50")?);
    check(&rt, &change, 1, [(0, 0), (0, 0), (-1, 50), (-1, 50)]);
    Ok(())
}

#[test]
fn a_release_gives_the_limit_back(rt: HostRuntime) -> Result<(), Fail> {
    let change = Change::of_release(2, &held_of(b"5", b"3")?);
    check(&rt, &change, -3, [(0, 0), (-3, 180), (0, 0), (-3, 180)]);
    Ok(())
}

#[test]
fn a_fill_below_its_limit_saves_the_difference(rt: HostRuntime) -> Result<(), Fail> {
    let change = Change::of_fill(2, LotQuantity::read(b"1")?, 60, Premium::read(b"55")?);
    check(&rt, &change, 0, [(1, -55), (0, 5), (1, -55), (0, 5)]);
    Ok(())
}
