//! The sentences in which faults are told.

use crate::texts::edited;
use mgn_setfile::{Cause, Field, SetFault, read_set};
use std::alloc::Global;
use std::process::Abort;
use std::test::Fail;
use worked_sets::{one, spot};

// A line at a place of the first set, counted from 0, and what is told of it.
const TOLD: [(usize, &str, &str); 23] = [
    (
        0,
        "H,3,ONE",
        "record 1, field 2 (version): the version must be 1 or 2",
    ),
    (
        0,
        "H,1,one",
        "record 1, field 3 (name): a name must be 1 to 16 of the letters A to Z and digits",
    ),
    (
        1,
        "G,AAA,2.5",
        "record 2, field 3 (charge): it is not spelled as a number",
    ),
    (
        2,
        "G,AAA,0",
        "record 3, field 2 (commodity): an earlier record gives this name",
    ),
    (
        3,
        "M,AAA,1,9",
        "record 4, field 4 (tier): the number is outside its limits",
    ),
    (
        4,
        "M,AAA,1,2",
        "record 5, field 3 (month): an earlier record gives this month of its commodity",
    ),
    (
        4,
        "M,CCC,1,9,1",
        "record 5: it has 5 fields, and an M record has 4",
    ),
    (
        4,
        "N,AAA,1,2",
        "record 5, field 1 (kind of record): this version has no record of this kind",
    ),
    (
        4,
        "H,1,ONE",
        "record 5: the first record, and no other, must be a header: H, version 1 or 2, and a name",
    ),
    (
        10,
        "S,AAA,1,10000,2,0,40",
        "record 11, field 6 (second ratio): the number is outside its limits",
    ),
    (
        10,
        "S,CCC,1,10000,2,0,40",
        "record 11, field 6 (second ratio): the number is outside its limits",
    ),
    (
        10,
        "S,CCC,1,10000,2,10000,40",
        "record 11, field 2 (commodity): no earlier record gives this commodity",
    ),
    (
        11,
        "I,5000,AAA,A,10000,BBB,C,20000",
        "record 12, field 7 (side of leg 2): it must be A or B",
    ),
    (
        11,
        "I,5000,AAA,A,10000,BBB,B,2000000",
        "record 12, field 8 (ratio of leg 2): the number is outside its limits",
    ),
    (
        11,
        "I,5000,AAA,A,10000,BBB,A,20000",
        "record 12: it has no leg on side B",
    ),
    (
        11,
        "I,5000,AAA,A,10000,BBB,B,20000,AAA,B,1",
        "record 12, field 9 (commodity of leg 3): an earlier leg is of this commodity",
    ),
    (
        11,
        "I,5000,AAA,A,10000,CCC,B,20000,DDD,B,1",
        "record 12, field 6 (commodity of leg 2): no earlier record gives this commodity",
    ),
    (
        11,
        "I,5000,AAA,B,10000,BBB,B,20000",
        "record 12: it has no leg on side A",
    ),
    (
        11,
        "I,5000,AAA,A,10000,BBB,A,20000,1",
        "record 12: it has 9 fields, and an I record has 8, 11 or 14",
    ),
    (
        11,
        "I",
        "record 12: it has 1 field, and an I record has 8, 11 or 14",
    ),
    (
        10,
        "S,AAA,1\rS,AAA,1",
        "record 11: it is two records in one line",
    ),
    (
        12,
        "V,CASH,9950,300",
        "record 13, field 2 (class): an earlier record gives this class, or it is CASH, which every set has",
    ),
    (
        13,
        "T,AAA,1,30,50",
        "record 14, field 1 (kind of record): this version has no record of this kind",
    ),
];

// What stands in the place of the first contract of the first set, before and after the array's third value, and what
// is told of it.
const CONTRACTS: [(&str, &str, &str); 9] = [
    (
        "K,AAA1,AAA,1,F,F,10000,0,0,0",
        "-100000001",
        "field 11 (loss in scenario 3): the number is outside its limits",
    ),
    (
        "K,AAA1,AAA,3,F,F,10000,0,0,0",
        "-100",
        "field 4 (month): no earlier record gives this month of its commodity",
    ),
    (
        "K,AAAAAAAAAAAAAAAAA,AAA,1,F,F,10000,0,0,0",
        "-100",
        "field 2 (contract): the name has more than 16 bytes",
    ),
    (
        "K,AAA1,CCC,1,F,F,10000,0,0,0",
        "-100",
        "field 3 (commodity): no earlier record gives this commodity",
    ),
    (
        "K,AAA1,AAA,1,X,F,10000,0,0,0",
        "-100",
        "field 5 (kind): it must be F, C or P",
    ),
    (
        "K,AAA1,AAA,1,F,X,10000,0,0,0",
        "-100",
        "field 6 (style): it must be P or F",
    ),
    (
        "K,AAA1,AAA,1,F,P,10000,0,0,0",
        "-100",
        "field 6 (style): the style of a future must be F",
    ),
    (
        "K,AAA1,AAA,1,F,F,100001,1,0,0",
        "-100",
        "field 7 (delta): the number is outside its limits",
    ),
    (
        "K,AAA1,AAA,1,F,F,10000,1,0,0",
        "x",
        "field 8 (value): the number is outside its limits, or is not 0 though the style is F",
    ),
];

// What is told of a text.
fn check_told(rt: &impl Abort, alloc: Global, text: &[u8], sentence: &str) -> Result<(), Fail> {
    match read_set(alloc, text) {
        Ok(_) => assert_eq!(rt; "", sentence),
        Err(fault) => {
            let told = format!(in alloc; "{fault}")?;
            assert_eq!(rt; told.as_str(), sentence);
        }
    }
    Ok(())
}

#[test]
fn tells_fields(rt: HostRuntime) -> Result<(), Fail> {
    for (place, line, sentence) in TOLD {
        let text = edited(rt.alloc(), one(), place, line)?;
        check_told(&rt, rt.alloc(), text.as_slice(), sentence)?;
    }
    let twice = edited(rt.alloc(), spot(), 14, "T,AAA,1,30,50")?;
    let sentence =
        "record 15, field 2 (commodity): an earlier record gives the charge of this commodity";
    check_told(&rt, rt.alloc(), twice.as_slice(), sentence)
}

#[test]
fn tells_fields_of_contracts(rt: HostRuntime) -> Result<(), Fail> {
    for (head, third, sentence) in CONTRACTS {
        let line = format!(in rt.alloc();
            "{head},{third},-100,100,100,-200,-200,200,200,-300,-300,300,300,-210,210"
        )?;
        let text = edited(rt.alloc(), one(), 6, line.as_str())?;
        let told = format!(in rt.alloc(); "record 7, {sentence}")?;
        check_told(&rt, rt.alloc(), text.as_slice(), told.as_str())?;
    }
    Ok(())
}

#[test]
fn tells_lines(rt: HostRuntime) -> Result<(), Fail> {
    let text = "\n\nH,1,ONE\n\r\n\nG,AAA,x\n";
    check_told(
        &rt,
        rt.alloc(),
        text.as_bytes(),
        "record 2, line 6, field 3 (charge): it is not spelled as a number",
    )?;
    let fault = SetFault {
        number: 7,
        line: 9,
        field: Some(Field::Kind),
        cause: Cause::Limit,
        detail: None,
    };
    let told = format!(in rt.alloc(); "{fault}")?;
    assert_eq!(rt;
        told.as_str(),
        "record 7, line 9, field 1 (kind of record): its table has as many rows as it may have"
    );
    Ok(())
}
