//! The rows of a set's tables. A row names rows of other tables by their place in file order, from 0.

use crate::array::RiskArray;
use mgn_ids::{ClassName, CommodityName, ContractName};

/// What a contract is.
#[derive(Clone, Copy, PartialEq, Eq, Debug)]
pub enum Kind {
    Future,
    Call,
    Put,
}

/// How an option is paid for: at once by a premium, or otherwise, as a future is.
#[derive(Clone, Copy, PartialEq, Eq, Debug)]
pub enum Style {
    Premium,
    Other,
}

/// A commodity with its charge for each short option, 0 to 10^9 cents.
#[derive(Clone, Copy, PartialEq, Eq, Debug)]
pub struct Commodity {
    pub name: CommodityName,
    pub short_option_charge: u64,
}

/// A month of a commodity, numbered 1 to 999,999, in a tier from 0 to 7, which files call 1 to 8.
#[derive(Clone, Copy, PartialEq, Eq, Debug)]
pub struct Month {
    pub commodity: usize,
    pub number: u64,
    pub tier: usize,
}

/// A contract of a commodity, in one of that commodity's months.
///
/// `delta` is the scaled delta in ten-thousandths, at most 10^5 in size; `option_value` the market value, 0 to 10^8
/// cents; no value of `array` is more than 10^8 in size.
#[derive(Clone, Copy, PartialEq, Eq, Debug)]
pub struct Contract {
    pub name: ContractName,
    pub commodity: usize,
    pub month: usize,
    pub kind: Kind,
    pub style: Style,
    pub delta: i64,
    pub option_value: u64,
    pub array: RiskArray,
}

/// A spread between two tiers of a commodity.
///
/// Ratios are deltas for each spread in ten-thousandths, 1 to 10^6; the charge is in cents for each spread, 0 to 10^9.
#[derive(Clone, Copy, PartialEq, Eq, Debug)]
pub struct Spread {
    pub commodity: usize,
    pub first_tier: usize,
    pub first_ratio: u64,
    pub second_tier: usize,
    pub second_ratio: u64,
    pub charge: u64,
}

/// A side of an intercommodity spread. All legs of side A have one direction, those of side B the opposite one.
#[derive(Clone, Copy, PartialEq, Eq, Debug)]
pub enum LegSide {
    A,
    B,
}

/// A leg of an intercommodity spread, with its delta for each spread in ten-thousandths, 1 to 10^6.
#[derive(Clone, Copy, PartialEq, Eq, Debug)]
pub struct Leg {
    pub commodity: usize,
    pub side: LegSide,
    pub ratio: u64,
}

/// An intercommodity spread: its credit rate in ten-thousandths, 0 to 10,000, and its first `count` legs, 2 to 4.
#[derive(Clone, Copy, PartialEq, Eq, Debug)]
pub struct CreditSpread {
    pub rate: u64,
    pub count: usize,
    pub legs: [Leg; 4],
}

/// A collateral class: the price of a unit, 0 to 10^8 cents, and the haircut in ten-thousandths, 0 to 10,000.
#[derive(Clone, Copy, PartialEq, Eq, Debug)]
pub struct Class {
    pub name: ClassName,
    pub price: u64,
    pub haircut: u64,
}

/// The spot month charge of a commodity: the tier of its spot month, and two rates in cents for each 10,000
/// ten-thousandths of delta, 0 to 10^9: one for delta that spreads used, one for delta left outright.
#[derive(Clone, Copy, PartialEq, Eq, Debug)]
pub struct SpotCharge {
    pub commodity: usize,
    pub tier: usize,
    pub spread_rate: u64,
    pub outright_rate: u64,
}
