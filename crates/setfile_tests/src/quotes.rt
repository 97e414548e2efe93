//! Files with quoted fields.

use crate::texts::place_of;
use mgn_setfile::{Field, read_set};
use std::alloc::{AllocError, Global};
use std::test::Fail;
use worked_sets::one;

// The first set with each field in quotes, and some more bytes.
fn quoted(alloc: Global, more: &[u8]) -> Result<Vec<u8>, AllocError> {
    let mut out = Vec::new(alloc);
    for line in one().trim_end().as_bytes().split(|byte| *byte == b'\n') {
        out.push(b'"')?;
        for byte in line {
            if *byte == b',' {
                out.extend_from_slice(b"\",\"")?;
            } else {
                out.push(*byte)?;
            }
        }
        out.extend_from_slice(b"\"\n")?;
    }
    out.extend_from_slice(more)?;
    Ok(out)
}

#[test]
fn reads_quoted_fields(rt: HostRuntime) -> Result<(), Fail> {
    let plain = read_set(rt.alloc(), one().as_bytes())?;
    let text = quoted(rt.alloc(), b"")?;
    let set = read_set(rt.alloc(), &text)?;
    assert!(rt; set.is_same(&plain));
    Ok(())
}

// An end of line ends quotes that are left open.
#[test]
fn tells_the_last_lines_after_quoted_ones(rt: HostRuntime) -> Result<(), Fail> {
    let cases: [(&[u8], Option<(u64, u64, Option<Field>)>); 8] = [
        (b"\"V\",\"B\",\"9950\",\"300\"\n", None),
        (b"V,B,9950,\"300\nV,C,9950,\"300", None),
        (
            b"\xEF\xBB\xBFV,B,9950,\"300\n\xEF\xBB\xBF\rV,\"C\",9950,300\r\r\n",
            None,
        ),
        (b"V,B,\"99x0\",300\n", Some((14, 14, Some(Field::Class(3))))),
        (
            b"V,\"B\rC\",9950,300\n",
            Some((14, 14, Some(Field::Class(2)))),
        ),
        (b"\r\n\nV,\"B\",\"9950\"\n", Some((14, 16, None))),
        (b"\"V\",B,9950,300\rV,C,9950,300\n", Some((14, 14, None))),
        (
            b"V,B,9950,\"300\nV,\"C,9950\nV,D,9950,300\n",
            Some((15, 15, None)),
        ),
    ];
    for (more, want) in cases {
        let text = quoted(rt.alloc(), more)?;
        assert_eq!(rt; place_of(rt.alloc(), &text), want);
    }
    Ok(())
}
