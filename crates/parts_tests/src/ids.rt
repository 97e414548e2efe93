//! Names and numbers are read as lines spell them, and keys have the places in which they came.

use mgn_ids::{
    AccountName, ClassName, CommodityName, ContractName, IdFault, LotId, LotQuantity, OrderId,
    OriginName, Places, Premium, SessionNo, SetName, Units,
};
use std::test::Fail;

const LONGEST: &[u8] = b"ABCDEFGHIJKLMN09";

const TOO_LONG: &[u8] = b"ABCDEFGHIJKLMN091";

#[test]
fn names_are_read(rt: HostRuntime) -> Result<(), Fail> {
    assert!(rt; AccountName::read(b"A1")?.as_bytes() == b"A1".as_slice());
    assert!(rt; ContractName::read(b"AAA1")?.as_bytes() == b"AAA1".as_slice());
    assert!(rt; CommodityName::read(b"AAA")?.as_bytes() == b"AAA".as_slice());
    assert!(rt; ClassName::read(b"CASH")?.as_bytes() == b"CASH".as_slice());
    assert!(rt; OriginName::read(b"CUST")?.as_bytes() == b"CUST".as_slice());
    assert!(rt; SetName::read(LONGEST)?.as_bytes() == LONGEST);
    Ok(())
}

#[test]
fn other_names_are_refused(rt: HostRuntime) {
    for word in [b"a1".as_slice(), b"A-1", b"", b"A 1", b"AAAAAAAAAAAAAAAA1a"] {
        assert_eq!(rt; AccountName::read(word).err(), Some(IdFault::Syntax));
        assert_eq!(rt; ContractName::read(word).err(), Some(IdFault::Syntax));
        assert_eq!(rt; ClassName::read(word).err(), Some(IdFault::Syntax));
    }
    assert_eq!(rt; AccountName::read(TOO_LONG).err(), Some(IdFault::Range));
    assert_eq!(rt; CommodityName::read(TOO_LONG).err(), Some(IdFault::Range));
    assert_eq!(rt; OriginName::read(TOO_LONG).err(), Some(IdFault::Range));
    assert_eq!(rt; SetName::read(TOO_LONG).err(), Some(IdFault::Range));
}

#[test]
fn numbers_are_read_in_their_ranges(rt: HostRuntime) -> Result<(), Fail> {
    assert_eq!(rt; LotId::read(b"1")?.number(), 1);
    assert_eq!(rt;
        OrderId::read(b"1000000000000")?.number(),
        1_000_000_000_000
    );
    assert_eq!(rt;
        LotQuantity::read(b"-1000000")?.quantity().contracts(),
        -1_000_000
    );
    assert_eq!(rt; Premium::read(b"100000000")?.cents(), 100_000_000);
    assert_eq!(rt;
        Units::read(b"1000000000000000")?.number(),
        1_000_000_000_000_000
    );
    Ok(())
}

#[test]
fn other_numbers_are_refused(rt: HostRuntime) {
    for word in [b"0".as_slice(), b"-5", b"1000000000001"] {
        assert_eq!(rt; LotId::read(word).err(), Some(IdFault::Range));
        assert_eq!(rt; OrderId::read(word).err(), Some(IdFault::Range));
    }
    for word in [b"0".as_slice(), b"1000001", b"-1000001"] {
        assert_eq!(rt; LotQuantity::read(word).err(), Some(IdFault::Range));
    }
    assert_eq!(rt; Premium::read(b"100000001").err(), Some(IdFault::Range));
    assert_eq!(rt; Premium::read(b"-1").err(), Some(IdFault::Range));
    assert_eq!(rt; Units::read(b"0").err(), Some(IdFault::Range));
    assert_eq!(rt;
        Units::read(b"1000000000000001").err(),
        Some(IdFault::Range)
    );
    assert_eq!(rt; LotId::read(b"01").err(), Some(IdFault::Syntax));
    assert_eq!(rt; Premium::read(b"-0").err(), Some(IdFault::Syntax));
}

#[test]
fn sessions_are_numbered(rt: HostRuntime) {
    assert_eq!(rt;
        (SessionNo::new(1).number(), SessionNo::new(16).number()),
        (1, 16)
    );
}

#[test]
fn keys_keep_their_places(rt: HostRuntime) -> Result<(), Fail> {
    let mut places = Places::new(rt.alloc());
    let first = ContractName::read(b"AAA2")?;
    let second = ContractName::read(b"AAA1")?;
    places.push(first)?;
    assert_eq!(rt;
        (places.place(first), places.place(second)),
        (Some(0), None)
    );
    if !places.has(second) {
        places.push(second)?;
    }
    assert_eq!(rt;
        (places.place(first), places.place(second)),
        (Some(0), Some(1))
    );
    let other = ContractName::read(b"AAA3")?;
    assert_eq!(rt; (places.has(second), places.has(other)), (true, false));
    Ok(())
}
