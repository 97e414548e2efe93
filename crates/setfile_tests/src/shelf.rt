//! A shelf of sets.

use mgn_ids::{IdFault, SetName};
use mgn_params::{ParamSet, PutFault, SetList, Shelf, Version};
use std::alloc::Global;
use std::process::Abort;
use std::test::Fail;

// A set without rows.
fn bare(alloc: Global, name: &[u8]) -> Result<ParamSet, IdFault> {
    Ok(ParamSet::new(alloc, SetName::read(name)?))
}

// Whether the set of a version has a name.
fn shows(shelf: &SetList, version: Version, name: &[u8]) -> bool {
    match shelf.get(version) {
        Some(set) => set.name().as_bytes() == name,
        None => false,
    }
}

// As many sets more as a shelf takes.
fn put_all(rt: &impl Abort, alloc: Global, shelf: &mut SetList) -> Result<(), Fail> {
    for number in 1..65 {
        let set = bare(alloc, b"LATER")?;
        let version = shelf.put(set).ok().ok_or("a set is refused")?;
        assert_eq!(rt; version.number(), number);
    }
    Ok(())
}

// One more is refused, and the others are still shown.
fn check_full(rt: &impl Abort, alloc: Global, shelf: &mut SetList) -> Result<(), Fail> {
    let refused = shelf.put(bare(alloc, b"MORE")?).err();
    assert!(rt; refused.is_some_and(|back| back.0 == PutFault::Sets));
    assert!(rt; shows(shelf, shelf.first(), b"FIRST"));
    assert!(rt; shows(shelf, Version::new(64), b"LATER"));
    Ok(())
}

#[test]
fn a_shelf_takes_64_sets_more(rt: HostRuntime) -> Result<(), Fail> {
    let mut shelf = SetList::new(rt.alloc(), bare(rt.alloc(), b"FIRST")?)?;
    put_all(&rt, rt.alloc(), &mut shelf)?;
    check_full(&rt, rt.alloc(), &mut shelf)
}

// Sets as a day has them that goes back and forth between two.
const NAMES: [&[u8]; 5] = [b"FIRST", b"ONE", b"FIRST", b"ONE", b"TWO"];

#[test]
fn each_version_shows_its_set_though_one_is_put_again(rt: HostRuntime) -> Result<(), Fail> {
    let mut shelf = SetList::new(rt.alloc(), bare(rt.alloc(), NAMES[0])?)?;
    for i in 1..NAMES.len() {
        let set = bare(rt.alloc(), NAMES[i])?;
        let version = shelf.put(set).ok().ok_or("a set is refused")?;
        assert_eq!(&rt; usize::from(version.number()), i);
    }
    for i in 0..NAMES.len() {
        assert!(&rt; shows(&shelf, Version::new(i as u8), NAMES[i]));
    }
    Ok(())
}
