//! The worked sets are read, and show their rows.

use crate::texts::{ended_by, fault_of};
use mgn_ids::{ClassName, CommodityName, ContractName, IdFault};
use mgn_params::{ParamSet, Work};
use mgn_setfile::read_set;
use std::alloc::Global;
use std::process::Abort;
use std::test::Fail;
use worked_sets::{
    bills, extreme, flat, fut, legs, neg, odd, odd_legs, one, options, shared, spodd, spot,
    three_commodities, three_tiers, tiers, two, win,
};

// How many rows the first set has, and how many of them are of its first commodity.
fn check_counts(rt: &impl Abort, set: &ParamSet) {
    let counts = (
        set.commodity_count(),
        set.month_count(),
        set.contract_count(),
        set.class_count(),
    );
    assert_eq!(rt; counts, (2, 3, 4, 1));
    let own = (
        set.months_of(0),
        set.contracts_of(0),
        set.spreads_of(0),
        set.spots_of(0),
    );
    assert_eq!(rt; own, (2, 3, 1, 0));
}

// The tables of the first set, whole.
fn check_tables(rt: &impl Abort, set: &ParamSet) {
    let rows = (
        set.commodities().len(),
        set.months().len(),
        set.classes().len(),
    );
    assert_eq!(rt; rows, (2, 3, 1));
    let spreads = (set.spreads().len(), set.credits().len(), set.spots().len());
    assert_eq!(rt; spreads, (1, 1, 0));
}

// The names that the first set has.
fn check_names(rt: &impl Abort, set: &ParamSet) -> Result<(), IdFault> {
    assert!(rt; set.has_commodity(CommodityName::read(b"BBB")?));
    assert!(rt; set.has_contract(ContractName::read(b"AAAC")?));
    assert!(rt; !set.has_contract(ContractName::read(b"AAA")?));
    assert!(rt; set.has_class(ClassName::read(b"BILL")?));
    assert_eq!(rt; set.month(0, 2), Some(1));
    Ok(())
}

// Single rows of the first set, and an array that is counted.
fn check_rows(rt: &impl Abort, set: &ParamSet) {
    assert!(rt; set.commodity_count() == 2 && set.month_count() == 3);
    assert!(rt; set.contract_count() == 4 && set.class_count() == 1);
    assert_eq!(rt; set.commodity_at(0).short_option_charge, 25);
    assert_eq!(rt; set.month_at(1).tier, 1);
    assert_eq!(rt; set.contract_at(2).option_value, 60);
    assert_eq!(rt; set.class_at(0).price, 9950);
    let mut work = Work::new();
    assert_eq!(rt; set.array(3, &mut work)[2], -50);
    assert_eq!(rt; work.arrays(), 1);
}

fn check_shown(rt: &impl Abort, set: &ParamSet) -> Result<(), Fail> {
    check_counts(rt, set);
    check_tables(rt, set);
    check_rows(rt, set);
    Ok(check_names(rt, set)?)
}

#[test]
fn shows_its_rows(rt: HostRuntime) -> Result<(), Fail> {
    let set = read_set(rt.alloc(), one().as_bytes())?;
    check_shown(&rt, &set)
}

// A set is the same as one of the same text, and another than one of another text.
fn check_same(rt: &impl Abort, set: &ParamSet, again: &ParamSet, other: &ParamSet) {
    assert!(rt; set.is_same(again) && again.is_same(set));
    assert!(rt; !set.is_same(other) && !other.is_same(set));
}

fn check_other(
    rt: &impl Abort,
    alloc: Global,
    set: &ParamSet,
    again: &ParamSet,
) -> Result<(), Fail> {
    let other = read_set(alloc, fut().as_bytes())?;
    check_same(rt, set, again, &other);
    Ok(())
}

fn check_again(rt: &impl Abort, alloc: Global, set: &ParamSet) -> Result<(), Fail> {
    let again = read_set(alloc, one().as_bytes())?;
    check_other(rt, alloc, set, &again)
}

#[test]
fn tells_equal_sets(rt: HostRuntime) -> Result<(), Fail> {
    let set = read_set(rt.alloc(), one().as_bytes())?;
    check_again(&rt, rt.alloc(), &set)
}

// The text of a worked set, by number.
fn text_of(number: usize) -> &'static str {
    match number {
        0 => one(),
        1 => fut(),
        2 => two(),
        3 => odd(),
        4 => flat(),
        5 => neg(),
        6 => win(),
        7 => spot(),
        8 => spodd(),
        9 => extreme(),
        10 => legs(),
        11 => shared(),
        12 => tiers(),
        13 => options(),
        14 => bills(),
        15 => three_tiers(),
        16 => three_commodities(),
        _ => odd_legs(),
    }
}

#[test]
fn reads_the_sets(rt: HostRuntime) {
    for number in 0..18 {
        let text = text_of(number);
        assert_eq!(rt; fault_of(rt.alloc(), text.as_bytes()), None, "at {number}");
    }
}

fn contract_place(set: &ParamSet, name: &[u8]) -> Option<usize> {
    ContractName::read(name).map_or(None, |name| set.contract(name))
}

fn commodity_place(set: &ParamSet, name: &[u8]) -> Option<usize> {
    CommodityName::read(name).map_or(None, |name| set.commodity(name))
}

fn class_place(set: &ParamSet, name: &[u8]) -> Option<usize> {
    ClassName::read(name).map_or(None, |name| set.class(name))
}

// Whether the first set is found in a text of its lines.
fn check_lines(rt: &impl Abort, alloc: Global, text: &[u8]) -> Result<(), Fail> {
    let set = read_set(alloc, text)?;
    assert_eq!(rt; contract_place(&set, b"BBB1"), Some(3));
    assert_eq!(rt; class_place(&set, b"BILL"), Some(0));
    Ok(())
}

fn check_ended(rt: &impl Abort, alloc: Global, end: &[u8]) -> Result<(), Fail> {
    let text = ended_by(alloc, one(), end)?;
    check_lines(rt, alloc, &text)
}

#[test]
fn reads_other_ends_of_line(rt: HostRuntime) -> Result<(), Fail> {
    check_ended(&rt, rt.alloc(), b"\r\n")?;
    check_ended(&rt, rt.alloc(), b"\n\n\n")?;
    check_ended(&rt, rt.alloc(), b"\n\xEF\xBB\xBF")
}

// Where the first set has its rows.
fn check_places(rt: &impl Abort, set: &ParamSet) {
    assert_eq!(rt; contract_place(set, b"BBB1"), Some(3));
    assert_eq!(rt; contract_place(set, b"BBB2"), None);
    assert_eq!(rt; commodity_place(set, b"BBB"), Some(1));
    assert_eq!(rt; class_place(set, b"BILL"), Some(0));
}

#[test]
fn finds_rows_by_name(rt: HostRuntime) -> Result<(), Fail> {
    let set = read_set(rt.alloc(), one().as_bytes())?;
    check_places(&rt, &set);
    Ok(())
}

// Where a copy of the set finds a contract.
fn copied_place(alloc: Global, set: &ParamSet, name: &[u8]) -> Option<usize> {
    match set.copy(alloc) {
        Ok(copy) => contract_place(&copy, name),
        Err(_) => None,
    }
}

#[test]
fn copies_a_set(rt: HostRuntime) -> Result<(), Fail> {
    let set = read_set(rt.alloc(), one().as_bytes())?;
    assert_eq!(rt; copied_place(rt.alloc(), &set, b"AAAC"), Some(2));
    Ok(())
}
