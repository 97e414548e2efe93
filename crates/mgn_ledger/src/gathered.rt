//! What a switch is prepared from, of the units of a ledger, and which of them it finds changed since.

ghost use Rattle.std.specs.Prelude.{◌≡◌, ◌<◌, ◌≤◌, ℕ, length, map, false, slice_index_or, true, All, IfOk, IsTrue};
ghost use Rattle.mgn_nets.specs.Portfolios.{AreUnitNets};
ghost use Rattle.mgn_unit.specs.Prepared.{AreCurrent};
ghost use Rattle.mgn_unit.specs.Rows.{nets_in};
ghost use Rattle.mgn_day.specs.Changes.{SameUnit};
ghost use Rattle.mgn_day.specs.Days.{set_of};
ghost use Rattle.mgn_day.specs.Gathering.{AreReady, AreSeen, IsUnchanged};

use crate::image::Image;
use crate::ledger::Ledger;
use mgn_day::{Gathered, copies_of, late_units};
use mgn_params::ParamSet;
use mgn_slots::{SlotNames, Stamp};
use mgn_table::TableName;
use mgn_unit::PreparedUnits;
use std::alloc::{AllocError, Global};

impl<'a, T: Image, J: TableName + SlotNames> Ledger<'a, T, J> {
    /// The set in force, and a copy of the nets of all units, with what shows since when each has them. An error says
    /// that memory was refused.
    pub fn gather(&self, alloc: Global) -> Result<Gathered<'a, T, J>, AllocError>
        ensures set { IfOk result (λ gathered. gathered.set.now ≡ set_of self.now) }
        ensures nets { IfOk result (λ gathered. gathered.nets.items ≡ map nets_in self.now.book.book.rows) }
        ensures copied { IfOk result (λ gathered. All (AreUnitNets gathered.set.now) gathered.nets.items) }
        ensures seen { IfOk result (λ gathered.
            AreSeen T.shown gathered.set.now gathered.nets.items gathered.since.items) }
    {
        Ok(Gathered {
            set: self.set(),
            nets: copies_of(alloc, self.rows())?,
            since: self.stamps_of_units(alloc)?,
        })
    }

    // What shows since when each unit has its nets; none where the ledger is broken. An error says that memory was
    // refused.
    fn stamps_of_units(&self, alloc: Global) -> Result<Vec<Stamp<'a, T, J>>, AllocError>
        ensures few { IfOk result (λ since. length since.items ≤ length self.now.book.book.rows) }
        ensures since { IfOk result (λ since. (u : ℕ) (s : _) → u < length since.items →
            SameUnit (T.shown (slice_index_or since.items u s).1) self.now u) }
    {
        let units = self.rows().len();
        let mut since = Vec::with_capacity(alloc, units)?;
        for unit in 0..units {
            let Some(stamp) = self.since(unit) else {
                return Ok(Vec::new(alloc));
            };
            since.push_reserved(stamp);
        }
        Ok(since)
    }

    // Notes of which units it is known that they have the nets that they were prepared for: those whose nets, and the
    // set in force, have not changed since. Two numbers are compared for each. Tells how many units a switch then has
    // to work out itself.
    pub(crate) fn note_current(
        &self,
        set: &ParamSet,
        prepared: &mut PreparedUnits,
        since: &[Stamp<'a, T, J>],
    ) -> u64
        requires { AreReady T.shown set.now prepared.old.units.items since.now }
        ensures units { prepared.new.units.items ≡ prepared.old.units.items }
        ensures current { AreCurrent (set_of self.now) set.now self.now.book.book.rows
            prepared.new.units.items prepared.new.current.items }
    {
        self.note(&mut prepared.current, since);
        late_units(self.rows(), self.set(), set, prepared)
    }

    // Notes of each unit whether it has its nets since the entry that its stamp shows.
    fn note(&self, current: &mut Vec<bool>, since: &[Stamp<'a, T, J>])
        ensures long { length current.new.items ≡ length current.old.items }
        ensures noted { (u : ℕ) → slice_index_or current.new.items u false ≡ true → IsUnchanged T.shown self.now since.now u }
    {
        for unit in 0..current.len() {
            current[unit] = self.is_unchanged(unit, since);
        }
    }

    // Whether a unit has its nets, under the set in force, since the entry that its stamp shows.
    fn is_unchanged(&self, unit: usize, since: &[Stamp<'a, T, J>]) -> bool
        ensures { IsTrue result → IsUnchanged T.shown self.now since.now unit }
    {
        match since.get(unit) {
            Some(stamp) => self.is_since(unit, stamp),
            None => false,
        }
    }
}
