//! Files with a fault are refused with the record and its cause.

use crate::texts::{edited, fault_of};
use mgn_setfile::Cause;
use std::test::Fail;
use worked_sets::{one, spot};

const ARRAY: &str = ",0,0,-100,-100,100,100,-200,-200,200,200,-300,-300,300,300,-210,210";

// What stands before the array in a faulty first contract of the first set, and the cause.
fn faulty_contract(number: usize) -> (&'static str, Cause) {
    match number {
        0 => ("K,AAA1,AAA,3,F,F,10000,0", Cause::Unknown),
        1 => ("K,AAA1,AAA,1,F,F,10000,0,0", Cause::Fields),
        2 => ("K,aaa1,AAA,1,F,F,10000,0", Cause::Name),
        3 => ("K,AAAAAAAAAAAAAAAAA,AAA,1,F,F,10000,0", Cause::Range),
        4 => ("K,AAA1,AAA,1,F,P,10000,0", Cause::Range),
        5 => ("K,AAA1,AAA,1,F,F,10000,1", Cause::Range),
        6 => ("K,AAA1,AAA,1,F,F,010000,0", Cause::Number),
        7 => ("K,AAA1,AAA,1,F,X,10000,0", Cause::Name),
        8 => ("K,AAA1,AAA,1,F,F,100001,0", Cause::Range),
        _ => ("K,AAA1,CCC,1,F,F,10000,0", Cause::Unknown),
    }
}

// A line at a place of the first set, counted from 0, with the number of the faulty record and its cause.
fn faulty_line(number: usize) -> (usize, &'static str, u64, Cause) {
    match number {
        0 => (10, "S,AAA,1,0,2,10000,40", 11, Cause::Range),
        1 => (11, "I,5000,AAA,A,10000,BBB,A,20000", 12, Cause::Fields),
        2 => (11, "I,5000,AAA,A,10000,AAA,B,20000", 12, Cause::Double),
        3 => (11, "I,5000,AAA,A,10000,CCC,B,20000", 12, Cause::Unknown),
        4 => (12, "V,CASH,9950,300", 13, Cause::Double),
        5 => (13, "T,AAA,1,30,50", 14, Cause::Fields),
        6 => (13, "H,1,ONE", 14, Cause::Header),
        7 => (3, "M,AAA,1,9", 4, Cause::Range),
        8 => (4, "M,AAA,1,2", 5, Cause::Double),
        9 => (2, "G,AAA,0", 3, Cause::Double),
        10 => (0, "H,3,ONE", 1, Cause::Header),
        11 => (0, "H,1,ONE,1", 1, Cause::Header),
        12 => (0, "G,AAA,25", 1, Cause::Header),
        13 => (1, "G,AAA,25\rG,CCC,0", 2, Cause::Fields),
        _ => (
            1,
            "G,\"AAA,25,and so on to the end of the line",
            2,
            Cause::Fields,
        ),
    }
}

#[test]
fn refuses_faulty_contracts(rt: HostRuntime) -> Result<(), Fail> {
    for case in 0..10 {
        let (head, cause) = faulty_contract(case);
        let line = format!(in rt.alloc(); "{head}{ARRAY}")?;
        let text = edited(rt.alloc(), one(), 6, line.as_str())?;
        assert_eq!(rt;
            fault_of(rt.alloc(), text.as_slice()),
            Some((7, cause)),
            "at {head}"
        );
    }
    Ok(())
}

#[test]
fn refuses_a_contract_twice(rt: HostRuntime) -> Result<(), Fail> {
    let line = format!(in rt.alloc(); "K,AAA1,AAA,1,F,F,10000,0{ARRAY}")?;
    let text = edited(rt.alloc(), one(), 10, line.as_str())?;
    assert_eq!(rt;
        fault_of(rt.alloc(), text.as_slice()),
        Some((11, Cause::Double))
    );
    Ok(())
}

#[test]
fn refuses_faulty_records(rt: HostRuntime) -> Result<(), Fail> {
    for case in 0..15 {
        let (place, line, number, cause) = faulty_line(case);
        let text = edited(rt.alloc(), one(), place, line)?;
        assert_eq!(rt;
            fault_of(rt.alloc(), text.as_slice()),
            Some((number, cause)),
            "at {line}"
        );
    }
    let twice = edited(rt.alloc(), spot(), 14, "T,AAA,1,30,50")?;
    assert_eq!(rt;
        fault_of(rt.alloc(), twice.as_slice()),
        Some((15, Cause::Double))
    );
    Ok(())
}
