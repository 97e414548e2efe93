//! A stage of intracommodity spreading.

/// A stage of intracommodity spreading: two legs, each a tier with a direction, with their ratios, and the charge.
///
/// The long leg of tier t is number t, its short leg number 8 + t.
#[derive(Clone, Copy, PartialEq, Eq, Debug)]
pub struct Stage {
    pub first_leg: usize,
    pub first_ratio: u64,
    pub second_leg: usize,
    pub second_ratio: u64,
    pub charge: u64,
}
