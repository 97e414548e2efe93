//! Files whose lines end otherwise than in LF, and carriage returns elsewhere.

use crate::texts::{ended_by, fault_of, place_of};
use mgn_setfile::{Cause, Field, read_set};
use std::alloc::{AllocError, Global};
use std::process::Abort;
use std::test::Fail;
use worked_sets::one;

// The first set with another end of line is the same set.
fn check_ended(rt: &impl Abort, alloc: Global, end: &[u8]) -> Result<(), Fail> {
    let plain = read_set(alloc, one().as_bytes())?;
    let text = ended_by(alloc, one(), end)?;
    let set = read_set(alloc, &text)?;
    assert!(rt; set.is_same(&plain));
    Ok(())
}

#[test]
fn reads_carriage_returns_at_ends_of_lines(rt: HostRuntime) -> Result<(), Fail> {
    check_ended(&rt, rt.alloc(), b"\r\n")?;
    check_ended(&rt, rt.alloc(), b"\r\r\n")?;
    check_ended(&rt, rt.alloc(), b"\r\n\r\n\n")?;
    check_ended(&rt, rt.alloc(), b"\n\r\n")
}

#[test]
fn reads_no_set_of_empty_lines(rt: HostRuntime) {
    for text in ["", "\r\n", "\n\r\n\r\n", "\r\r\n\r", "\r"] {
        assert_eq!(rt;
            fault_of(rt.alloc(), text.as_bytes()),
            Some((1, Cause::Header))
        );
    }
}

// The first set and some more bytes.
fn followed_by(alloc: Global, more: &[u8]) -> Result<Vec<u8>, AllocError> {
    let mut text = Vec::new(alloc);
    text.extend_from_slice(one().as_bytes())?;
    text.extend_from_slice(more)?;
    Ok(text)
}

// A return that has a record behind it begins another record of its line.
#[test]
fn reads_carriage_returns_within_the_last_line(rt: HostRuntime) -> Result<(), Fail> {
    let cases: [(&[u8], Option<(u64, Cause)>); 7] = [
        (b"\r", None),
        (b"\r\r\n\r\n", None),
        (b"V,B,9950,300\r", None),
        (b"\rV,B,9950,300\r\n", None),
        (b"V,B,9950,300\rV,C,9950,300\n", Some((14, Cause::Fields))),
        (b"V,B\r,9950,300\n", Some((14, Cause::Fields))),
        (b"V,B,9950,300\r,\r\n", Some((14, Cause::Fields))),
    ];
    for (more, want) in cases {
        let text = followed_by(rt.alloc(), more)?;
        assert_eq!(rt; fault_of(rt.alloc(), &text), want);
    }
    Ok(())
}

// Where the fault stands in the first set with these ends of lines and one line more.
fn last_place(alloc: Global, end: &[u8], last: &[u8]) -> Option<(u64, u64, Option<Field>)> {
    let Ok(mut text) = ended_by(alloc, one().trim_end(), end) else {
        return None;
    };
    let Ok(()) = text.extend_from_slice(last) else {
        return None;
    };
    let Ok(()) = text.extend_from_slice(end) else {
        return None;
    };
    place_of(alloc, &text)
}

#[test]
fn tells_the_last_line_whatever_its_end(rt: HostRuntime) {
    let cases: [(&[u8], Option<Field>); 3] = [
        (b"V,CASH,99x0,300", Some(Field::Class(3))),
        (b"V,BILL,9950,300", Some(Field::Class(2))),
        (b"V,CASH,9950", None),
    ];
    for (last, field) in cases {
        let want = Some((14, 14, field));
        assert_eq!(rt; last_place(rt.alloc(), b"\n", last), want);
        assert_eq!(rt; last_place(rt.alloc(), b"\r\n", last), want);
        assert_eq!(rt; last_place(rt.alloc(), b"\r\r\n", last), want);
    }
}
