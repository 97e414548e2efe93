//! Collateral that is posted, and what it is worth under a set of one class.
ghost use Rattle.std.specs.Prelude.{◌≤◌};
ghost use Rattle.mgn_coll.specs.Posted.{most_of};

use mgn_coll::amounts::is_cash;
use mgn_coll::{Collateral, MOST_CASH, MOST_CLASS_UNITS, is_known, most_of};
use mgn_ids::{ClassName, IdFault, SetName};
use mgn_params::{Class, ParamSet};
use std::alloc::{AllocError, Global};
use std::process::Abort;
use std::test::Fail;

// A set of one class: 99.50 for a unit, with a haircut of 3 hundredths.
fn set_of(alloc: Global, name: SetName, class: ClassName) -> Result<ParamSet, AllocError> {
    let mut set = ParamSet::new(alloc, name);
    let bill = Class {
        name: class,
        price: 9_950,
        haircut: 300,
    };
    if !is_cash(&class) && set.class(class).is_none() && set.class_count() < 16 {
        set.push_class(bill)?;
    }
    Ok(set)
}

// Posts 10 dollars of cash, and after these 9, and 3 bills: 900 and 3 * 9,950 * 0.97 = 28,954.5, rounded down.
fn check_value(
    rt: &impl Abort,
    collateral: &mut Collateral,
    set: &ParamSet,
    cash: &ClassName,
    bill: &ClassName,
)
    requires cash { 1000 ≤ most_of cash.now }
    requires bill { 3 ≤ most_of bill.now }
{
    assert!(rt; collateral.write(cash, 1000).is_ok());
    assert_eq!(rt; collateral.value(set).amount(), 1000);
    assert!(rt; collateral.write(cash, 900).is_ok());
    assert_eq!(rt; collateral.value_with(set, bill, 3).amount(), 29_854);
    assert!(rt; collateral.write(bill, 3).is_ok());
    assert_eq!(rt; collateral.value(set).amount(), 29_854);
    assert_eq!(rt; collateral.value_with(set, cash, 0).amount(), 28_954);
    assert_eq!(rt;
        (collateral.amount(cash), collateral.amount(bill)),
        (900, 3)
    );
}

// What is known and how much may be posted, and whether a set prices a class that is posted.
fn check_names(
    rt: &impl Abort,
    collateral: &mut Collateral,
    set: &ParamSet,
    cash: &ClassName,
    bond: &ClassName,
)
    requires bond { 1 ≤ most_of bond.now }
{
    assert!(rt; is_known(set, cash) && !is_known(set, bond));
    assert_eq!(rt;
        (most_of(cash), most_of(bond)),
        (MOST_CASH, MOST_CLASS_UNITS)
    );
    assert!(rt; collateral.is_priced_by(set));
    assert!(rt; collateral.write(bond, 1).is_ok());
    assert!(rt; !collateral.is_priced_by(set));
}

// Both, each of a collateral of its own.
fn check(rt: &impl Abort, alloc: Global, set: &ParamSet, bill: &ClassName) -> Result<(), IdFault> {
    let cash = ClassName::read(b"CASH")?;
    let bond = ClassName::read(b"BOND")?;
    assert!(rt; is_known(set, bill));
    let mut collateral = Collateral::new(alloc);
    check_value(rt, &mut collateral, set, &cash, bill);
    let mut collateral = Collateral::new(alloc);
    check_names(rt, &mut collateral, set, &cash, &bond);
    Ok(())
}

#[test]
fn collateral_is_written_and_priced(rt: HostRuntime) -> Result<(), Fail> {
    let bill = ClassName::read(b"BILL")?;
    let set = set_of(rt.alloc(), SetName::read(b"ONE")?, bill)?;
    check(&rt, rt.alloc(), &set, &bill)?;
    Ok(())
}
