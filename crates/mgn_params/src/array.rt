ghost use Rattle.std.specs.Prelude.{◌≡◌};

use std::marker::Model;

/// What one long contract loses in each of the 16 scenarios, in cents. Contracts see the list of the 16 numbers.
///
/// The numbers of a set's contract are had through `ParamSet::array` alone, which counts. To compare arrays, or to print
/// one for a test, is not counted.
#[derive(Clone, Copy, PartialEq, Eq, Debug)]
pub struct RiskArray {
    losses: [i32; 16],
}

impl Model for RiskArray {
    ghost use Rattle.std.specs.Prelude.{List, ℤ};

    ghost Value = { List ℤ };

    ghost view = { λ a. a.losses };

    ghost inverse = { λ losses. record { losses = losses } };
}

impl RiskArray {
    /// The array of these losses.
    pub fn new(losses: [i32; 16]) -> RiskArray
        ensures { result ≡ losses }
    {
        RiskArray { losses }
    }

    /// The losses, for the one reader that counts.
    pub(crate) fn losses(&self) -> &[i32; 16]
        ensures { result.now ≡ self.now }
    {
        &self.losses
    }
}
