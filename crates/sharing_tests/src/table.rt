//! A table of sets that threads share: what stands under a version stays there, whatever is put after it and whoever
//! looks.

ghost use Rattle.std.specs.Prelude.{◌≡◌};

use mgn_params::{ParamSet, Shelf, Version, Work};
use mgn_setfile::read_set;
use mgn_table::{SetTable, TableName, TableShelf, Tokens};
use std::alloc::Global;
use std::marker::Brand;
use std::process::Abort;
use std::sync::Wait;
use std::test::Fail;
use std::thread;
use std::thread::Threads;
use worked_sets::{fut, one, two};

// How many sets a reader finds.
const SETS: u8 = 3;

// How many readers there are.
const READERS: usize = 2;

// The scenario in which the first contract of the sets loses most.
const WORST: usize = 12;

// The name of the set of a version, and the most that one of its first contract loses.
fn wanted(version: u8) -> (&'static str, i32) {
    match version {
        0 => ("ONE", 300),
        1 => ("TWO", 600),
        _ => ("FUT", 300),
    }
}

// Whether a set is that of a version.
fn is_of(rt: &impl Abort, set: &ParamSet, version: u8) -> bool {
    let (name, loss) = wanted(version);
    assert!(rt; set.contract_count() > 0);
    set.name().as_bytes() == name.as_bytes() && set.array(0, &mut Work::new())[WORST] == loss
}

// Who looks the sets up by their versions, on a thread of its own.
#[derive(Drop)]
struct Reader<'r, 'a, 't, R, J: TableName> {
    rt: &'r R,
    table: &'a SetTable,
    tokens: &'t Tokens<J>,
    ghost here: { table.now ≡ J.table },
}

impl<'r, 'a, 't, R: Abort, J: TableName> Reader<'r, 'a, 't, R, J> {
    fn read(&self) {
        for number in 0..SETS {
            assert!(self.rt; usize::from(number) < self.tokens.len());
            let (set, seen) = self.tokens.look(self.table, Version::new(number));
            assert!(self.rt; is_of(self.rt, set, number));
            assert!(self.rt; is_of(self.rt, self.table.value(&seen), number));
        }
    }
}

// Puts two sets after the first: by the tokens, and by the shelf that a book is lent.
fn put_both<R: Wait + Abort, J: TableName>(
    rt: &R,
    alloc: Global,
    table: &SetTable,
    tokens: &mut Tokens<J>,
) -> Result<(), Fail>
    requires { table.now ≡ J.table }
{
    let second = tokens.put(rt, table, read_set(alloc, two().as_bytes())?);
    assert!(rt; second.is_ok_and(|version| version.number() == 1));
    let mut shelf = TableShelf::new(rt, table, tokens);
    let third = shelf.put(read_set(alloc, fut().as_bytes())?);
    assert!(rt; third.is_ok_and(|version| version.number() == 2));
    let first = shelf.get(shelf.first());
    assert!(rt; first.is_some_and(|set| is_of(rt, set, 0)));
    Ok(())
}

fn look_up_all<R: Threads + Wait + Abort + Sync, J: TableName + Send + Sync>(
    rt: &R,
    alloc: Global,
    table: &SetTable,
) -> Result<(), Fail>
    requires { table.now ≡ J.table }
{
    let mut tokens = Tokens::<J>::open(rt, alloc, table, read_set(alloc, one().as_bytes())?)?;
    let (kept, _) = tokens.look(table, Version::new(0));
    put_both(rt, alloc, table, &mut tokens)?;
    assert!(rt; is_of(rt, kept, 0));
    let tokens = &tokens;
    let mut readers = Vec::new(alloc);
    readers.push(Reader { rt, table, tokens })?;
    readers.push(Reader { rt, table, tokens })?;
    thread::for_each_mut(
        rt,
        readers.as_mut_slice(),
        READERS,
        &|_place, reader| reader.read(),
    );
    Ok(())
}

#[test]
fn a_set_stays_under_its_version(rt: HostRuntime) -> Result<(), Fail> {
    let table = SetTable::new(rt.alloc())?;
    look_up_all::<_, Brand>(&rt, rt.alloc(), &table)
}
