ghost use Rattle.std.specs.Prelude.{◌≡◌, ◌<◌, ◌≤◌, ◌++◌, ◌∷◌, [], length, map, IfOk, IfErr, OnErr, OnOk};
ghost use Rattle.boxcar.specs.Table.{Shows};
ghost use Rattle.mgn_params.specs.Shelves.{set_at};

use crate::names::TableName;
use boxcar::Pushed;
use mgn_params::{MOST_SETS, ParamSet, PutFault, Version};
use std::alloc::{AllocError, Global};
use std::marker::{Model, PhantomData};
use std::sync::Wait;

/// The sets that threads share. `SetTable::new(alloc)` makes one with no set. A set stays where it was put for as long as the
/// table stands, whatever else is put.
pub type SetTable = boxcar::Vec<ParamSet>;

/// Shows which set stands at a place of a table. It has no lifetime, and a thread may keep it.
pub type Seen = Pushed<ParamSet>;

/// The sets of a table by version, 1 to 65 of them. It belongs under the lock of the book whose versions these are. Contracts
/// see the sets, in order of version.
#[derive(Drop)]
pub struct Tokens<J: TableName> {
    row: Vec<Seen>,
    of: PhantomData<J>,
}

impl<J: TableName> Model for Tokens<J> {
    ghost use Rattle.std.specs.Prelude.{List, map};
    ghost use Rattle.mgn_params.specs.Tables.{Tables};
    ghost use Rattle.mgn_table.specs.Tokens.{AreTokens};

    ghost Value = { List Tables };

    ghost view = { λ t. map (λ seen. seen.value) t.row.items };

    ghost invariant = { λ t. AreTokens J.table t.row.items };
}

impl<J: TableName> Tokens<J> {
    /// Puts the first set into a table, under version 0. An error says that memory was refused.
    pub fn open<R: Wait>(
        rt: &R,
        alloc: Global,
        table: &SetTable,
        first: ParamSet,
    ) -> Result<Tokens<J>, AllocError>
        requires { table.now ≡ J.table }
        ensures { IfOk result (λ tokens. tokens ≡ first ∷ []) }
    {
        let mut row = Vec::with_capacity(alloc, 1)?;
        let Ok(seen) = table.push_shown(rt, first) else {
            return Err(AllocError);
        };
        row.push_reserved(seen);
        Ok(Tokens {
            row,
            of: PhantomData,
        })
    }

    /// How many sets there are, 1 to 65.
    pub fn len(&self) -> usize
        ensures count { result ≡ length self.now }
        ensures some { 0 < result }
        ensures few { result ≤ 65 }
    {
        self.row.len()
    }

    /// What shows each set, in order of version.
    pub fn row(&self) -> &Vec<Seen>
        ensures { map (λ seen. seen.value) result.now.items ≡ self.now }
    {
        &self.row
    }

    /// Puts a set into the table, under the next version. It is refused with `Sets` where there are 65, or with `Memory` where
    /// memory was refused; then it comes back, and no version has changed.
    pub fn put<R: Wait>(
        &mut self,
        rt: &R,
        table: &SetTable,
        set: ParamSet,
    ) -> Result<Version, (PutFault, ParamSet)>
        requires { table.now ≡ J.table }
        ensures version { IfOk result (λ version. version ≡ length self.old) }
        ensures put { OnOk result (self.new ≡ self.old ++ set ∷ []) }
        ensures room { OnOk result (length self.old ≤ 64) }
        ensures back { IfErr result (λ refused. refused.1 ≡ set) }
        ensures same { OnErr result (self.new ≡ self.old) }
        ensures full { IfErr result (λ refused. refused.0 ≡ PutFault.Sets → length self.old ≡ 65) }
    {
        let number = self.row.len();
        if number >= MOST_SETS {
            return Err((PutFault::Sets, set));
        }
        if self.row.reserve(1).is_err() {
            return Err((PutFault::Memory, set));
        }
        match table.push_shown(rt, set) {
            Ok(seen) => {
                self.row.push_reserved(seen);
                Ok(Version::new(number as u8))
            }
            Err(set) => Err((PutFault::Memory, set)),
        }
    }

    /// The set of a version, which can be read for as long as the table stands, also once the lock over these tokens is given
    /// back, and what shows that it is that version's. It takes no memory.
    pub fn look<'t>(&self, table: &'t SetTable, version: Version) -> (&'t ParamSet, Seen)
        requires table { table.now ≡ J.table }
        requires version { version < length self.now }
        ensures set { result.0.now ≡ set_at self.now version }
        ensures shown { Shows J.table result.1 }
        ensures value { result.1.value ≡ set_at self.now version }
    {
        let seen = self.row[version.number() as usize].again();
        (table.value(&seen), seen)
    }
}
