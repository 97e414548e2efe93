ghost use Rattle.std.specs.Prelude.{◌≡◌, ◌≢◌, ◌↔◌, ℕ, ◌+◌, ◌*◌, ◌^◌, ◌<◌, ◌≤◌, ◌≤ℤ◌, true, false, pos, unsigned_abs, [], ◌∷◌, ◌++◌, if◌then◌else◌, length, replicate, slice_index, slice_set, All, IfOk, IsTrue, min};
ghost use Rattle.std.specs.List.{Contains};
ghost use Rattle.std.specs.List.Sorted.{IsStrictlyIncreasing};
ghost use Rattle.mgn_inter.specs.Credited.{AreCreditRows, AreCreditsOf, IsAtTurn};
ghost use Rattle.mgn_inter.specs.Rows.{Credited, IsNextOf, AreWaiting, KeepsNumbers, kept_at, moved_at, named, names};
ghost use Rattle.mgn_inter.specs.Quiet.{AreAlike, IsMoved, NoneForms};
ghost use Rattle.mgn_inter.specs.Sizes.{IsRisk};
ghost use Rattle.mgn_inter.specs.Told.{credits_at, credits_else, told_of};
ghost use Rattle.mgn_span.specs.Credits.{credits_of};
ghost use Rattle.mgn_params.specs.Naming.{IsNaming};
ghost use Rattle.mgn_params.specs.Tables.{Tables, credit_spread_at, legs_of};
ghost use Rattle.mgn_span.specs.Scan.{value_at};
ghost use Rattle.mgn_span.specs.Sizes.{IsDelta};

use crate::commodity_numbers::CommodityNumbers;
use crate::naming::{await_moved, first_place, next_place, spread_at};
use crate::numbers::{numbers_at, write_numbers};
use crate::reworked::Reworked;
use crate::rows::{
    bring_rests, change_credits, form_spread, have_same_sign, kept_forms, mark_moved, move_rest,
    write_rests,
};
use crate::spread_state::SpreadState;
use mgn_num::{Cents, TenThousandths};
use mgn_params::ParamSet;
use mgn_rows::SparseRows;
use mgn_span::Delta;
use std::alloc::{AllocError, Global};
use std::marker::Model;

/// What the intercommodity spreads of a set credit to each commodity, kept under changes of the commodities' net deltas
/// and price risks.
///
/// Contracts see the net deltas, in ten-thousandths, and twice the price risks, in cents, that the changes so far leave,
/// one for each commodity of the set in file order, beside the rows that are kept. `AreCreditsOf` ties all of them to the
/// set: `new` gives it, `refresh` asks for it and keeps it, and the question answers by the definition over these numbers.
/// Nothing but `new` takes memory.
#[derive(Drop)]
pub struct InterCredits {
    // Kept are the rows of commodities that were refreshed: no other has a net delta or a credit.
    numbers: SparseRows<CommodityNumbers>,
    // Kept are the states of spreads that name a commodity which was refreshed.
    kept: SparseRows<SpreadState>,
}

impl Model for InterCredits {
    ghost use Rattle.mgn_inter.specs.Rows.{Credited};

    ghost Value = { Credited };

    ghost use Rattle.mgn_inter.specs.CreditRows.{credited_of};

    ghost view = { credited_of };
}

impl InterCredits {
    /// Nothing held: each net delta and each price risk is 0. The only error is that memory was refused.
    pub fn new(alloc: Global, set: &ParamSet) -> Result<InterCredits, AllocError>
        ensures of_set { IfOk result (AreCreditsOf set.now) }
        ensures net_deltas { IfOk result (λ c. c.deltas ≡ replicate (length set.now.commodities) (pos 0)) }
        ensures price_risks { IfOk result (λ c. c.risks ≡ replicate (length set.now.commodities) 0) }
    {
        set.limits();
        let count = set.commodity_count();
        Ok(InterCredits {
            numbers: SparseRows::new(alloc, count, CommodityNumbers::NOTHING)?,
            kept: SparseRows::new(alloc, set.credits().len(), SpreadState::NOTHING)?,
        })
    }

    /// Whether there is one row of each kind for each commodity of a set, and one for each of its spreads.
    pub fn fits(&self, set: &ParamSet) -> bool
        ensures { IsTrue result ↔ AreCreditRows set.now self.now }
    {
        self.numbers.len() == set.commodity_count() && self.kept.len() == set.credits().len()
    }

    /// Nothing held in place of what was kept, under a set that the rows fit. Takes no memory.
    pub fn flatten(&mut self, set: &ParamSet)
        requires { AreCreditRows set.now self.old }
        ensures of_set { AreCreditsOf set.now self.new }
        ensures net_deltas { self.new.deltas ≡ replicate (length set.now.commodities) (pos 0) }
        ensures price_risks { self.new.risks ≡ replicate (length set.now.commodities) 0 }
    {
        set.limits();
        self.numbers.flatten(CommodityNumbers::NOTHING);
        self.kept.flatten(SpreadState::NOTHING);
    }

    // Writes the numbers of a commodity, and its net delta as its rest.
    fn write_numbers(&mut self, g: usize, delta: Delta, risk: u64)
        requires { g < length self.old.deltas }
        ensures { self.new ≡ record self.old { deltas = slice_set self.old.deltas g delta; risks = slice_set self.old.risks g risk; rests = slice_set self.old.rests g delta } }
    {
        write_numbers(&mut self.numbers, g, delta, risk);
    }

    // Forms the spread at a place again, of the rests at its turn, and tells whether it now credits something else.
    fn rework(&mut self, set: &ParamSet, i: usize, moved: &mut [bool; 256]) -> bool
        requires inside { i < length set.now.credits }
        requires turn { (g : ℕ) × (was : Credited) × IsAtTurn set.now g was moved.old i self.old }
        ensures turn { (g : ℕ) (was : Credited) → IsAtTurn set.now g was moved.old i self.old →
            IsAtTurn set.now g was moved.new (i + 1) self.new }
        ensures numbers { KeepsNumbers self.old self.new }
        ensures marks { (k : ℕ) → names k (legs_of (credit_spread_at set.now.credits i)) ≡ false →
            moved_at moved.new k ≡ moved_at moved.old k }
        ensures others { (k : ℕ) → names k (legs_of (credit_spread_at set.now.credits i)) ≡ false →
            slice_index self.new.credits k ≡ slice_index self.old.credits k }
        ensures same { result ≡ false → (k : ℕ) → slice_index self.new.credits k ≡ slice_index self.old.credits k }
        ensures kept { (j : ℕ) → j ≢ i → kept_at self.new.kept j ≡ kept_at self.old.kept j }
        ensures told { result ≡ credits_else self.old.kept self.new.kept i }
    {
        set.limits();
        let spread = spread_at(set.credits(), i);
        let legs = &spread.legs[..spread.count];
        let kept = self.kept.row_mut(i);
        bring_rests(moved, &self.numbers, legs, &mut kept.rests);
        let mut after = kept.rests;
        let credits = form_spread(&self.numbers, &mut after, spread);
        mark_moved(moved, legs, &kept.after, &after);
        write_rests(&mut self.numbers, moved, legs, &after);
        kept.after = after;
        change_credits(&mut self.numbers, legs, &mut kept.credits, &credits)
    }

    // Forms the spread at a place again. Those that the change then reaches wait too.
    fn turn(
        &mut self,
        set: &ParamSet,
        g: usize,
        i: usize,
        waiting: &mut u64,
        moved: &mut [bool; 256],
        reworked: &mut Reworked,
    )
        requires inside { i < length set.now.credits }
        requires turn { (was : Credited) × IsAtTurn set.now g was moved.old i self.old }
        requires waiting { AreWaiting set.now.credits g moved.old i waiting.old }
        requires behind { All (λ k. k < i) reworked.old }
        ensures turn { (was : Credited) → IsAtTurn set.now g was moved.old i self.old →
            IsAtTurn set.now g was moved.new (i + 1) self.new }
        ensures waiting { AreWaiting set.now.credits g moved.new (i + 1) waiting.new }
        ensures numbers { KeepsNumbers self.old self.new }
        ensures places { IsNextOf reworked.old i reworked.new }
        ensures kept { (j : ℕ) → j ≢ i → kept_at self.new.kept j ≡ kept_at self.old.kept j }
        ensures told { reworked.new ≡
            (if credits_else self.old.kept self.new.kept i then reworked.old ++ i ∷ [] else reworked.old) }
        ensures others { (k : ℕ) → named k set.now.credits reworked.new ≡ false →
            slice_index self.new.credits k ≡ slice_index self.old.credits k }
    {
        set.limits();
        let spread = spread_at(set.credits(), i);
        let legs = &spread.legs[..spread.count];
        let is_told = self.rework(set, i, moved);
        await_moved(waiting, set, moved, legs);
        reworked.tell(is_told, i);
    }

    // Forms again the spreads that a change of a commodity reaches. Those that name it wait for their turn, and those
    // that a rest reaches which has moved.
    fn rework_reached(&mut self, set: &ParamSet, g: usize, naming: u64) -> Reworked
        requires commodity { g < length set.now.commodities }
        requires naming { IsNaming set.now.credits g naming }
        requires turn { (was : Credited) ×
            IsAtTurn set.now g was (slice_set (replicate 256 false) g true) 0 self.old }
        ensures of_set { AreCreditsOf set.now self.new }
        ensures numbers { KeepsNumbers self.old self.new }
        ensures places { All (λ i. i < length set.now.credits) result }
        ensures others { (k : ℕ) → named k set.now.credits result ≡ false →
            slice_index self.new.credits k ≡ slice_index self.old.credits k }
        ensures told { result ≡ told_of self.old.kept self.new.kept (length set.now.credits) }
    {
        set.limits();
        let mut moved = [false; 256];
        moved[g] = true;
        let mut reworked = Reworked::none();
        let mut waiting = naming;
        let count = set.credits().len();
        let mut i = first_place(waiting).min(count);
        while i < count {
            self.turn(set, g, i, &mut waiting, &mut moved, &mut reworked);
            i = next_place(waiting, i).min(count);
        }
        reworked
    }

    // Whether none of some spreads forms, by what is kept of them.
    fn none_forms(&self, set: &ParamSet, naming: u64) -> bool
        requires { AreCreditsOf set.now self.now }
        ensures { IsTrue result → NoneForms set.now.credits self.now.deltas self.now.risks naming }
    {
        set.limits();
        let spreads = set.credits().len();
        let mut i = first_place(naming).min(spreads);
        while i < spreads {
            let spread = spread_at(set.credits(), i);
            if kept_forms(&self.kept.row(i).rests, &spread.legs[..spread.count]) {
                return false;
            }
            i = next_place(naming, i).min(spreads);
        }
        true
    }

    // Whether a commodity's net delta may become this one with no spread noticing.
    fn is_quiet(&self, set: &ParamSet, g: usize, naming: u64, delta: Delta) -> bool
        requires of_set { AreCreditsOf set.now self.now }
        requires commodity { g < length set.now.commodities }
        ensures alike { IsTrue result → AreAlike delta (value_at self.now.deltas g) }
        ensures none { IsTrue result → NoneForms set.now.credits self.now.deltas self.now.risks naming }
    {
        have_same_sign(delta, numbers_at(&self.numbers, g).delta) && self.none_forms(set, naming)
    }

    // Gives the legs of a commodity another rest in what is kept of the spread at a place.
    fn pass(&mut self, set: &ParamSet, g: usize, i: usize, rest: Delta)
        requires inside { i < length set.now.credits }
        requires kept { length self.old.kept ≡ length set.now.credits }
        ensures { (own : SpreadState) × (self.new ≡ record self.old { kept = slice_set self.old.kept i own })
            × IsMoved g rest (legs_of (credit_spread_at set.now.credits i)) (kept_at self.old.kept i) own }
    {
        set.limits();
        let spread = spread_at(set.credits(), i);
        move_rest(self.kept.row_mut(i), &spread.legs[..spread.count], g, rest);
    }

    // The same of all spreads that name the commodity, of which none forms of the old rest, nor of this.
    fn pass_all(&mut self, set: &ParamSet, g: usize, naming: u64, rest: Delta)
        requires commodity { g < length set.now.commodities }
        requires naming { IsNaming set.now.credits g naming }
        requires rest { value_at self.old.rests g ≡ rest }
        requires quiet { (was : Credited) × IsAtTurn set.now g was (slice_set (replicate 256 false) g true) 0 self.old
            × AreAlike rest (value_at was.deltas g)
            × NoneForms set.now.credits was.deltas was.risks naming }
        ensures of_set { AreCreditsOf set.now self.new }
        ensures numbers { KeepsNumbers self.old self.new }
        ensures credits { self.new.credits ≡ self.old.credits }
        ensures same { (i : ℕ) → credits_at self.new.kept i ≡ credits_at self.old.kept i }
    {
        set.limits();
        let spreads = set.credits().len();
        let mut i = first_place(naming).min(spreads);
        while i < spreads {
            self.pass(set, g, i, rest);
            i = next_place(naming, i).min(spreads);
        }
    }

    /// Gives the commodity at a place a net delta, in ten-thousandths, and twice a price risk, in cents. Only those
    /// spreads are formed again that name it, or of which a leg's rest at its turn is not what it was; none is where the
    /// net delta keeps its sign and no spread that names the commodity forms. The answer has the places of those that
    /// credit something else, and a commodity that none of them names has the credit that it had. The net delta is at
    /// most 2.56 * 10^14 in size, the doubled price risk 0 to 1.1 * 10^18.
    pub fn refresh(
        &mut self,
        set: &ParamSet,
        g: usize,
        net_delta: TenThousandths,
        price_risk2: Cents,
    ) -> Reworked
        requires of_set { AreCreditsOf set.now self.old }
        requires commodity { g < length set.now.commodities }
        requires net_delta { IsDelta net_delta }
        requires not_negative { pos 0 ≤ℤ price_risk2 }
        requires price_risk2 { IsRisk (unsigned_abs price_risk2) }
        ensures net_deltas { self.new.deltas ≡ slice_set self.old.deltas g net_delta }
        ensures price_risks { self.new.risks ≡ slice_set self.old.risks g (unsigned_abs price_risk2) }
        ensures of_set { AreCreditsOf set.now self.new }
        ensures places { All (λ i. i < length set.now.credits) result }
        ensures others { (k : ℕ) → named k set.now.credits result ≡ false →
            slice_index self.new.credits k ≡ slice_index self.old.credits k }
        ensures told { (i : ℕ) → i < length set.now.credits →
            Contains result i ↔ (credits_at self.new.kept i ≢ credits_at self.old.kept i) }
        ensures once { IsStrictlyIncreasing result }
    {
        set.limits();
        let delta = Delta::new(net_delta);
        let naming = set.naming(g);
        let is_quiet = self.is_quiet(set, g, naming, delta);
        self.write_numbers(g, delta, price_risk2.size() as u64);
        if is_quiet {
            self.pass_all(set, g, naming, delta);
            return Reworked::none();
        }
        self.rework_reached(set, g, naming)
    }

    /// Takes over what is kept for a set that the rows fit. Takes no memory.
    pub fn copy_from(&mut self, others: &InterCredits)
        requires { (set : Tables) × AreCreditRows set self.old × AreCreditRows set others.now }
        ensures { self.new ≡ others.now }
    {
        self.numbers.copy_from(&others.numbers);
        self.kept.copy_from(&others.kept);
    }

    /// What the intercommodity spreads credit to the commodity at a place, in cents.
    pub fn credit(&self, g: usize) -> Cents
        requires { (set : Tables) × AreCreditsOf set self.now × (g < length set.commodities) }
        ensures value { (set : Tables) → AreCreditsOf set self.now → result ≡ pos (slice_index (credits_of self.now.deltas self.now.risks set.credits) g) }
        ensures kept { result ≡ pos (slice_index self.now.credits g) }
        ensures small { unsigned_abs result ≤ 256 * 10 ^ 33 }
    {
        Cents::new(self.credited(g) as i128)
    }

    fn credited(&self, g: usize) -> u128
        requires { (set : Tables) × AreCreditsOf set self.now × (g < length set.commodities) }
        ensures value { result ≡ slice_index self.now.credits g }
        ensures small { result ≤ 256 * 10 ^ 33 }
    {
        numbers_at(&self.numbers, g).credit
    }
}
