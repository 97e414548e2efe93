//! What rows become under another set where it is known what units require there.

ghost use Rattle.std.specs.Prelude.{◌≡◌, ◌<◌, ℕ, IfOk, IsSome, None, OnOk, Some, length, slice_index_or, true};
ghost use Rattle.mgn_machine.specs.NewSet.{covers, set_fits};
ghost use Rattle.mgn_params.specs.Limits.{IsWithinLimits};
ghost use Rattle.mgn_unit.specs.Amounts.{AreAllKnown, AreKnown, AreRequired, KeepsPlaces, no_amounts, row_with_amounts};
ghost use Rattle.mgn_unit.specs.NewSets.{AreWorths, row_under};
ghost use Rattle.mgn_unit.specs.Rows.{IsRow, Priced as AnyPriced, row_with_worth};
ghost use Rattle.mgn_unit.specs.declared.amounts.NewRows.TheVariants.{Kept};
ghost use Rattle.mgn_unit.specs.declared.row.Row.{Row as UnitRow};
ghost use Rattle.mgn_register.specs.BookStates.{IsKept, IsUnitRow};
ghost use Rattle.mgn_register.specs.Fits.{Fits};
ghost use Rattle.mgn_register.specs.UnderSets.{AreGains, AreNewRows};

use crate::register::Register;
use crate::step_fault::StepFault;
use crate::switch::gain_of;
use mgn_num::Cents;
use mgn_params::{ParamSet, Work};
use mgn_unit::{Priced, Row, Switch, UnitAmounts};
use std::alloc::{AllocError, Global};

// What is known of a unit's requirements, if anything is.
fn known_of(known: &[Option<Priced>], unit: usize) -> Option<Priced>
    ensures { result ≡ slice_index_or known.now unit None }
{
    if unit < known.len() {
        known[unit]
    } else {
        None
    }
}

// The amounts of a unit under the new set of a switch in which each contract keeps its place. What its row requires
// there is worked out, unless it is known.
fn amounts_where(
    alloc: Global,
    row: &Row,
    switch: &Switch,
    gain: Cents,
    known: Option<Priced>,
    work: &mut Work,
) -> Result<UnitAmounts, AllocError>
    requires row { IsRow switch.now.old row.now }
    requires keeps { KeepsPlaces switch.now.old switch.now.new }
    requires known { (priced : AnyPriced) → known ≡ Some priced → AreRequired switch.now.new row.now priced }
    requires worths { AreWorths (row_with_worth gain row.now) }
    ensures row { IfOk result (λ it. row_with_amounts it row.now ≡ row_under switch.now.old switch.now.new gain row.now) }
    ensures limits { IfOk result (λ it. IsRow switch.now.new (row_with_amounts it row.now)) }
    ensures idle { IsSome known → work.new ≡ work.old }
{
    match known {
        Some(priced) => Ok(row.amounts(gain, &priced)),
        None => row.amounts_under(alloc, switch, gain, work),
    }
}

impl Register {
    // The amounts of all units under the new set of a switch in which each contract keeps its place, with what is known
    // of their requirements there.
    fn amounts_known(
        &self,
        alloc: Global,
        switch: &Switch,
        gains: &[Cents],
        known: &[Option<Priced>],
        work: &mut Work,
    ) -> Result<Vec<UnitAmounts>, AllocError>
        requires kept { IsKept switch.now.old self.now }
        requires limits { IsWithinLimits switch.now.new }
        requires keeps { KeepsPlaces switch.now.old switch.now.new }
        requires gains { AreGains switch.now.old switch.now.new self.now gains.now }
        requires known { AreKnown switch.now.new self.now.rows known.now }
        ensures long { IfOk result (λ amounts. length amounts.items ≡ length self.now.rows) }
        ensures rows { IfOk result (λ amounts. (u : ℕ) (d : UnitRow) → u < length self.now.rows →
            IsUnitRow switch.now.new self.now.state.accounts u
            (row_with_amounts (slice_index_or amounts.items u no_amounts) (slice_index_or self.now.rows u d))) }
        ensures idle { AreAllKnown self.now.rows known.now → work.new ≡ work.old }
    {
        let mut all = Vec::with_capacity(alloc, self.rows.len())?;
        for unit in 0..self.rows.len() {
            let gain = gain_of(gains, unit);
            let known = known_of(known, unit);
            let amounts = amounts_where(alloc, &self.rows[unit], switch, gain, known, work)?;
            all.push_reserved(amounts);
        }
        Ok(all)
    }

    /// What `rows_under` gives for another set in which each contract keeps its place: the amounts of all units there.
    /// What units require under it may be known, by their numbers; any other unit is worked out anew. Where it is known
    /// of all units no risk array is read.
    pub fn amounts_under(
        &self,
        alloc: Global,
        old: &ParamSet,
        new: &ParamSet,
        known: &[Option<Priced>],
        work: &mut Work,
    ) -> Result<Vec<UnitAmounts>, StepFault>
        requires kept { IsKept old.now self.now }
        requires keeps { KeepsPlaces old.now new.now }
        requires known { AreKnown new.now self.now.rows known.now }
        ensures fits { Fits (set_fits new.now self.now.state) result }
        ensures covers { OnOk result (covers new.now self.now.state.accounts ≡ true) }
        ensures few { OnOk result (self.now.state.version < 64) }
        ensures rows { IfOk result (λ amounts. AreNewRows new.now self.now (Kept amounts)) }
        ensures idle { AreAllKnown self.now.rows known.now → work.new ≡ work.old }
    {
        self.set_fits(old, new)?;
        new.limits();
        let switch = Switch::new(alloc, old, new)?;
        let gains = switch.gains(alloc, self.accounts.as_slice(), self.rows.len())?;
        Ok(self.amounts_known(alloc, &switch, &gains, known, work)?)
    }
}
