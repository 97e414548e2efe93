ghost use Rattle.std.specs.Prelude.{◌≡◌, ◌*◌, ◌<◌, ◌≤◌, ◌^◌, pos, unsigned_abs, length, replicate, slice_set, IfOk};
ghost use Rattle.mgn_num.specs.Signed.{signed_sum_below};
ghost use Rattle.mgn_span.specs.Scan.{value_at};
ghost use Rattle.mgn_desk.specs.Risks.{IsRisk};

use mgn_num::Cents;
use mgn_rows::SparseRows;
use std::alloc::{AllocError, Global};
use std::marker::Model;

/// The risks of the commodities of a set, in cents, with their sum. Contracts see the risks. Nothing but `new` takes
/// memory, and a risk is kept only once it is other than 0.
#[derive(Drop)]
pub(crate) struct Risks {
    each: SparseRows<Cents>,
    sum: Cents,
}

impl Model for Risks {
    ghost use Rattle.std.specs.Prelude.{List, ℤ};
    ghost use Rattle.mgn_desk.specs.Risks.{AreSummed};

    ghost Value = { List ℤ };

    ghost view = { λ r. r.each };

    ghost invariant = { λ r. AreSummed r.each r.sum };
}

impl Risks {
    /// Risks of 0. The only error is that memory was refused.
    pub fn new(alloc: Global, count: usize) -> Result<Risks, AllocError>
        requires { count ≤ 256 }
        ensures { IfOk result (λ risks. risks ≡ replicate count (pos 0)) }
    {
        Ok(Risks {
            each: SparseRows::new(alloc, count, Cents::ZERO)?,
            sum: Cents::ZERO,
        })
    }

    /// How many risks there are.
    pub fn len(&self) -> usize
        ensures { result ≡ length self.now }
    {
        self.each.len()
    }

    /// Risks of 0 in place of these.
    pub fn flatten(&mut self)
        ensures { self.new ≡ replicate (length self.old) (pos 0) }
    {
        self.each.flatten(Cents::ZERO);
        self.sum = Cents::ZERO;
    }

    /// Takes over as many risks.
    pub fn copy_from(&mut self, other: &Risks)
        requires { length self.old ≡ length other.now }
        ensures { self.new ≡ other.now }
    {
        self.each.copy_from(&other.each);
        self.sum = other.sum;
    }

    /// Writes the risk of the commodity at a place. Where it stays the same nothing is written.
    pub fn write(&mut self, g: usize, risk: Cents)
        requires commodity { g < length self.old }
        requires small { IsRisk risk }
        ensures { self.new ≡ slice_set self.old g risk }
    {
        let before = *self.each.row(g);
        if before != risk {
            self.sum = self.sum.minus(before).plus(risk);
            *self.each.row_mut(g) = risk;
        }
    }

    /// The sum of the risks, in cents.
    pub fn sum(&self) -> Cents
        ensures sum { result ≡ signed_sum_below (value_at self.now) (length self.now) }
        ensures small { unsigned_abs result ≤ 8 * 10 ^ 29 }
    {
        self.sum
    }
}
