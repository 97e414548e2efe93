ghost use Rattle.std.specs.Prelude.{◌≡◌, ◌≤◌, ◌*◌, ◌^◌, pos, OnOk, OnErr, IsOk, true};
ghost use Rattle.mgn_coll.specs.Posted.{IsPosted, nothing, is_cash, has_entry, units_of, amount_of, with_amount, most_of, value, is_priced_by};

use crate::amounts::{class_value, is_cash};
use indexmap::IndexMap;
use mgn_ids::ClassName;
use mgn_num::Cents;
use mgn_params::ParamSet;
use std::alloc::{AllocError, Global};
use std::marker::Model;

/// The collateral of an account: cash in cents, and units of classes by their names, since a later set of parameters
/// may order its classes otherwise. A class is found by one hash.
#[derive(Drop)]
pub struct Collateral {
    cash: u64,
    units: IndexMap<ClassName, u64>,
}

impl Model for Collateral {
    ghost use Rattle.mgn_coll.specs.Posted.{Posted, IsPosted};

    ghost Value = { Posted };

    ghost view = { λ c. record { cash = c.cash; units = c.units.entries } };

    ghost invariant = { λ c. IsPosted c.cash c.units.entries };
}

impl Collateral {
    /// Nothing is posted. Takes no memory.
    pub fn new(alloc: Global) -> Collateral
        ensures { result ≡ nothing }
    {
        Collateral {
            cash: 0,
            units: IndexMap::new(alloc),
        }
    }

    /// The cash in cents, 0 to 10^15.
    pub fn cash(&self) -> u64
        ensures { result ≡ self.now.cash }
    {
        self.cash
    }

    /// What is posted by a name: cents of cash by `CASH`, at most 10^15, and units of a class by another, at most 10^9.
    pub fn amount(&self, class: &ClassName) -> u64
        ensures amount { result ≡ amount_of class.now self.now }
        ensures most { result ≤ most_of class.now }
    {
        if is_cash(class) {
            self.cash
        } else {
            self.class_units(class)
        }
    }

    /// The units of a class, 0 to 10^9.
    pub fn class_units(&self, class: &ClassName) -> u64
        ensures units { result ≡ units_of class.now self.now.units }
        ensures most { result ≤ 10 ^ 9 }
    {
        match self.units.get(class) {
            Some(units) => *units,
            None => 0,
        }
    }

    /// What is posted in value under a set, in cents: the cash, and for each class of the set its units times the price
    /// less the haircut, each rounded down.
    pub fn value(&self, set: &ParamSet) -> Cents
        ensures value { result ≡ pos (value set.now.classes self.now) }
        ensures most { value set.now.classes self.now ≤ 2 * 10 ^ 18 }
    {
        set.limits();
        let mut total = self.cash;
        for class in set.classes() {
            total += class_value(class, self.class_units(&class.name));
        }
        Cents::new(i128::from(total))
    }

    /// The same, in cents, if another amount were posted by a name: cents by `CASH`, units by another.
    pub fn value_with(&self, set: &ParamSet, class: &ClassName, amount: u64) -> Cents
        requires { amount ≤ most_of class.now }
        ensures value { result ≡ pos (value set.now.classes (with_amount self.now class.now amount)) }
        ensures most { value set.now.classes (with_amount self.now class.now amount) ≤ 2 * 10 ^ 18 }
    {
        set.limits();
        let mut worth = if is_cash(class) { amount } else { self.cash };
        for priced in set.classes() {
            worth += class_value(priced, self.units_with(&priced.name, class, amount));
        }
        Cents::new(i128::from(worth))
    }

    // The units of a class where another amount of some class is posted.
    #[tactic(auto, using(crate::proofs::OtherAmounts::units_with_cash, crate::proofs::OtherAmounts::units_with_own, crate::proofs::OtherAmounts::units_with_other))]
    fn units_with(&self, name: &ClassName, class: &ClassName, amount: u64) -> u64
        requires { amount ≤ most_of class.now }
        ensures units { result ≡ units_of name.now (with_amount self.now class.now amount).units }
        ensures most { result ≤ 10 ^ 9 }
    {
        if is_cash(class) {
            return self.class_units(name);
        }
        if name == class {
            return amount;
        }
        self.class_units(name)
    }

    /// Whether a set has each class of which units are posted. Of cash it asks nothing.
    pub fn is_priced_by(&self, set: &ParamSet) -> bool
        ensures { result ≡ is_priced_by set.now.classes self.now }
    {
        self.units.iter().all(|(class, units)| *units == 0 || set.class(*class).is_some())
    }

    /// Writes what is posted by a name, in cents of cash or in units, within its limit. Memory is taken, and may be
    /// refused, only to a class that was never written; then nothing has changed.
    pub fn write(&mut self, class: &ClassName, amount: u64) -> Result<(), AllocError>
        requires { amount ≤ most_of class.now }
        ensures ok { OnOk result (self.new ≡ with_amount self.old class.now amount) }
        ensures err { OnErr result (self.new ≡ self.old) }
        ensures limits { IsPosted self.new.cash self.new.units }

        // Cash takes no memory, nor does a class that was written before, and so one of which units are posted.
        ensures cash { is_cash class.now ≡ true → IsOk result }
        ensures written { has_entry class.now self.old ≡ true → IsOk result }
        ensures posted { 1 ≤ amount_of class.now self.old → IsOk result }
    {
        if is_cash(class) {
            self.cash = amount;
            return Ok(());
        }
        self.units.insert(*class, amount)?;
        Ok(())
    }
}
