ghost use Rattle.std.specs.Prelude.{◌≡◌, ℕ, ◌<◌, ℤ, List, pos, length, false, IfOk};
ghost use Rattle.mgn_span.specs.Words.{AreNumbers, total_of};
ghost use Rattle.mgn_plain.specs.Kept.{mark_at};
ghost use Rattle.mgn_plain.specs.Parts.{AreCredits, AreCreditsFrom, AreNetDeltas, AreRisks, AreSums};

use crate::sums::Sums;
use crate::{credits, scan};
use mgn_params::ParamSet;
use mgn_params::rows::filled;
use mgn_rows::SparseRows;
use mgn_span::{Delta, Total};
use std::alloc::{AllocError, Global};

// The doubled price risks of the commodities. Nothing is read of one of which each net is 0, as of most.
fn price_risks(
    alloc: Global,
    totals: &SparseRows<[Total; 16]>,
    marks: &[bool],
) -> Result<Vec<u64>, AllocError>
    requires one_each { length marks.now ≡ length totals.now }
    requires flat { (g s : ℕ) → mark_at marks.now g ≡ false → g < length totals.now → s < 16 → total_of totals.now g s ≡ pos 0 }
    ensures { IfOk result (λ risks. AreRisks totals.now risks.items) }
{
    let mut risks = filled(alloc, totals.len(), 0)?;
    scan::fill_price_risks(&mut risks, totals, marks);
    Ok(risks)
}

// What intercommodity spreads credit to each commodity.
fn credit_row(
    alloc: Global,
    set: &ParamSet,
    deltas: &[Delta],
    risks: &[u64],
) -> Result<Vec<u128>, AllocError>
    requires one_each { length deltas.now ≡ length set.now.commodities }
    requires numbers { AreNumbers deltas.now risks.now }
    ensures { IfOk result (λ row. AreCreditsFrom set.now deltas.now risks.now row.items) }
{
    set.limits();
    let mut rests = Vec::from_slice(alloc, deltas)?;
    let mut row = filled(alloc, deltas.len(), 0)?;
    credits::add_credits(deltas, risks, &mut rests, &mut row, set.credits());
    Ok(row)
}

// The credits by the net deltas and the totals of the commodities. Where the set has no intercommodity spread nothing is
// worked out.
pub(crate) fn work_out_credits(
    alloc: Global,
    set: &ParamSet,
    deltas: &[Delta],
    sums: &Sums,
) -> Result<Vec<u128>, AllocError>
    requires { (nets : List ℤ) × AreNetDeltas set.now nets deltas.now × AreSums set.now nets sums.now }
    ensures { IfOk result (λ row. (nets : List ℤ) → AreNetDeltas set.now nets deltas.now → AreSums set.now nets sums.now →
        AreCredits set.now nets row.items) }
{
    set.limits();
    if set.credits().is_empty() {
        return filled(alloc, set.commodity_count(), 0);
    }
    let risks = price_risks(alloc, &sums.totals, &sums.marks)?;
    credit_row(alloc, set, deltas, &risks)
}
