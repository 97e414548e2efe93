ghost use Rattle.std.specs.Prelude.{◌≡◌};

use crate::names::TableName;
use crate::tokens::{SetTable, Tokens};
use mgn_params::{ParamSet, PutFault, Shelf, Version};
use std::sync::Wait;

/// The shelf of a book over a table that threads share, for one call of the book. It borrows the tokens, which tell the caller
/// afterwards what was put.
#[derive(Drop)]
pub struct TableShelf<'r, 'a, 't, R: Wait, J: TableName> {
    rt: &'r R,
    table: &'a SetTable,
    tokens: &'t mut Tokens<J>,
    pub ghost here: { table.now ≡ J.table },
}

impl<'r, 'a, 't, R: Wait, J: TableName> TableShelf<'r, 'a, 't, R, J> {
    /// The shelf with the sets of these tokens, by the table that they are of. It takes no memory.
    pub fn new(
        rt: &'r R,
        table: &'a SetTable,
        tokens: &'t mut Tokens<J>,
    ) -> TableShelf<'r, 'a, 't, R, J>
        requires { table.now ≡ J.table }
        ensures same_reference { result.tokens.ghost_name ≡ tokens.entry.ghost_name }
        ensures sets { result.tokens.now ≡ tokens.old }
    {
        TableShelf { rt, table, tokens }
    }
}

impl<'r, 'a, 't, R: Wait, J: TableName> Shelf for TableShelf<'r, 'a, 't, R, J> {
    ghost sets = { λ s. s.tokens.now };

    ghost place = { λ s. s.tokens.ghost_name };

    fn first(&self) -> Version {
        let _ = self.tokens.len();
        Version::new(0)
    }

    fn put(&mut self, set: ParamSet) -> Result<Version, (PutFault, ParamSet)> {
        self.tokens.put(self.rt, self.table, set)
    }

    fn get(&self, version: Version) -> Option<&ParamSet> {
        if version.number() as usize >= self.tokens.len() {
            return None;
        }
        let (set, _) = self.tokens.look(self.table, version);
        Some(set)
    }
}
