ghost use Rattle.std.specs.Prelude.{◌≡◌, ◌↔◌, ◌+ℤ◌, ◌*ℤ◌, IsTrue};
ghost use Rattle.mgn_num.specs.Amount.{IsQuantity};
ghost use Rattle.mgn_span.specs.Sizes.{IsDelta};

use mgn_num::{Quantity, TenThousandths};
use mgn_span::Delta;

/// What a portfolio has of a contract, the delta of the contract's month there, and how much more of the contract it is to
/// have.
#[derive(Clone, Copy)]
pub(crate) struct Step {
    pub net: Quantity,
    pub delta: Delta,
    pub quantity: Quantity,
}

impl Step {
    ghost use Rattle.mgn_desk.specs.KeptRows.{step_of};

    pub fn new(net: Quantity, delta: Delta, quantity: Quantity) -> Step
        ensures { result ≡ step_of net delta quantity }
    {
        Step {
            net,
            delta,
            quantity,
        }
    }

    /// Whether another portfolio has as much, and is to have as much more.
    pub fn is_same(&self, other: &Step) -> bool
        ensures { IsTrue result ↔ (self.now ≡ other.now) }
    {
        self.quantity == other.quantity && self.net == other.net && self.delta == other.delta
    }

    /// The net after the step.
    pub fn net_after(&self) -> Quantity
        requires { IsQuantity (self.now.net +ℤ self.now.quantity) }
        ensures { result ≡ self.now.net +ℤ self.now.quantity }
    {
        self.net.plus(self.quantity)
    }

    /// The delta of the month after the step, at a scaled delta for each contract.
    pub fn delta_after(&self, delta: i64) -> Delta
        requires { IsDelta (self.now.delta +ℤ self.now.quantity *ℤ delta) }
        ensures { result ≡ self.now.delta +ℤ self.now.quantity *ℤ delta }
    {
        self.delta.plus(scaled(self.quantity, delta))
    }
}

/// Contracts at a scaled delta for each, in ten-thousandths.
pub(crate) fn scaled(quantity: Quantity, delta: i64) -> TenThousandths
    ensures { result ≡ quantity *ℤ delta }
{
    TenThousandths::product(quantity, delta)
}
