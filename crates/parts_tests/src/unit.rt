//! Nets on plain values.

use mgn_nets::Nets;
use mgn_num::Quantity;
use std::test::Fail;

#[test]
fn nets_are_added_to(rt: HostRuntime) -> Result<(), Fail> {
    let flat = Nets::flat(rt.alloc(), 2)?;
    let mut nets = Nets::flat(rt.alloc(), 2)?;
    assert!(rt; nets.is_same(&flat));
    nets.add(1, Quantity::new(-4));
    assert_eq!(rt; (nets.at(0).contracts(), nets.at(1).contracts()), (0, -4));
    assert_eq!(rt; (nets.is_same(&flat), nets.len()), (false, 2));
    Ok(())
}
