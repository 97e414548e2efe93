//! Each prefix of a set's file: a whole set, or a fault in the record in which it ends.

use crate::texts::fault_of;
use mgn_setfile::{Cause, read_set};
use std::test::Fail;
use worked_sets::one;

// The commas of a record of this kind, and its causes where it is cut before the last of them, and right behind it.
fn cut_causes(kind: u8) -> (usize, Cause, Cause) {
    match kind {
        b'H' => (2, Cause::Header, Cause::Name),
        b'G' => (2, Cause::Fields, Cause::Number),
        b'M' => (3, Cause::Fields, Cause::Number),
        b'K' => (23, Cause::Fields, Cause::Number),
        b'S' => (6, Cause::Fields, Cause::Number),
        b'I' => (7, Cause::Fields, Cause::Number),
        _ => (3, Cause::Fields, Cause::Number),
    }
}

// The cause of a record that is cut. A last field of the first set that has a byte is a name or a number in its limits.
fn cut_cause(record: &[u8]) -> Option<Cause> {
    let kind = record.first()?;
    let (commas, missing, empty) = cut_causes(*kind);
    if record.iter().filter(|byte| **byte == b',').count() < commas {
        Some(missing)
    } else if record.last() == Some(&b',') {
        Some(empty)
    } else {
        None
    }
}

// The fault of a prefix of the first set: that of the record in which it ends, if it has begun.
fn cut_fault(prefix: &[u8]) -> Option<(u64, Cause)> {
    let mut number = 0u64;
    let mut last = prefix;
    for line in prefix.split(|byte| *byte == b'\n') {
        number = number.wrapping_add(1);
        last = line;
    }
    if prefix.is_empty() {
        Some((1, Cause::Header))
    } else {
        cut_cause(last).map(|cause| (number, cause))
    }
}

#[test]
fn reads_every_prefix(rt: HostRuntime) {
    let text = one().as_bytes();
    for len in 0..text.len() + 1 {
        let prefix = &text[..len];
        assert_eq!(rt; fault_of(rt.alloc(), prefix), cut_fault(prefix), "at {len}");
    }
}

#[test]
fn reads_some_prefixes(rt: HostRuntime) {
    let cases = [
        (0, Some((1, Cause::Header))),
        (7, None),
        (97, Some((7, Cause::Fields))),
        (476, Some((13, Cause::Fields))),
        (477, Some((13, Cause::Number))),
        (478, None),
    ];
    for (len, want) in cases {
        let text = one().as_bytes();
        assert!(rt; len <= text.len());
        assert_eq!(rt; fault_of(rt.alloc(), &text[..len]), want, "at {len}");
    }
}

#[test]
fn reads_the_digit_that_is_left(rt: HostRuntime) -> Result<(), Fail> {
    let text = one().as_bytes();
    assert!(rt; text.len() >= 478);
    let set = read_set(rt.alloc(), &text[..478])?;
    assert_eq!(rt; set.classes().first().map(|class| class.haircut), Some(3));
    Ok(())
}
