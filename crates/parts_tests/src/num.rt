//! Numbers: each public function on plain ones.

use mgn_num::{
    Cents, NumFault, Quantity, TenThousandths, mul_div_ceil, mul_div_floor, quotient, read_signed,
    read_unsigned,
};
use std::test::Fail;

const SPELLED: [(&str, i128); 5] = [
    ("0", 0),
    ("7", 7),
    ("-1", -1),
    ("28954", 28_954),
    ("-2700000000", -2_700_000_000),
];

const MISSPELLED: [&str; 9] = ["", "-", "-0", "00", "01", "+1", "1 ", "1a", "- 1"];

#[test]
fn numbers_are_read_and_printed(rt: HostRuntime) -> Result<(), Fail> {
    for (text, number) in &SPELLED {
        let cents = Cents::parse(text.as_bytes())?;
        let parts = TenThousandths::parse(text.as_bytes())?;
        assert_eq!(rt;
            (cents.amount(), parts.parts()),
            (*number, *number),
            "for {text}"
        );
        let (mut sum, mut delta) = (Vec::new(rt.alloc()), Vec::new(rt.alloc()));
        cents.print(&mut sum)?;
        parts.print(&mut delta)?;
        assert!(rt; sum.as_slice() == text.as_bytes(), "for {text}");
        assert!(rt; delta.as_slice() == text.as_bytes(), "for {text}");
    }
    Ok(())
}

#[test]
fn misspelled_numbers_are_refused(rt: HostRuntime) {
    for text in &MISSPELLED {
        let word = text.as_bytes();
        assert_eq!(rt; Cents::parse(word), Err(NumFault::Syntax), "for {text}");
        assert_eq!(rt;
            TenThousandths::parse(word),
            Err(NumFault::Syntax),
            "for {text}"
        );
        assert_eq!(rt; read_signed(word, 10), Err(NumFault::Syntax), "for {text}");
        assert_eq!(rt;
            read_unsigned(word, 0, 10),
            Err(NumFault::Syntax),
            "for {text}"
        );
    }
}

#[test]
fn ranges_hold_at_their_ends(rt: HostRuntime) {
    assert_eq!(rt; read_unsigned(b"1", 1, 16), Ok(1));
    assert_eq!(rt; read_unsigned(b"16", 1, 16), Ok(16));
    assert_eq!(rt; read_unsigned(b"0", 1, 16), Err(NumFault::Range));
    assert_eq!(rt; read_unsigned(b"17", 1, 16), Err(NumFault::Range));
    assert_eq!(rt; read_unsigned(b"-1", 0, 16), Err(NumFault::Range));
    assert_eq!(rt; read_signed(b"-1000000", 1_000_000), Ok(-1_000_000));
    assert_eq!(rt; read_signed(b"1000001", 1_000_000), Err(NumFault::Range));
    let most = b"1000000000000000000000000000000000000";
    let more = b"-1000000000000000000000000000000000001";
    let ten_to_36 = 1_000_000_000_000_000_000_000_000_000_000_000_000;
    assert_eq!(rt; Cents::parse(most), Ok(Cents::new(ten_to_36)));
    assert_eq!(rt; Cents::parse(more), Err(NumFault::Range));
    assert_eq!(rt; TenThousandths::parse(more), Err(NumFault::Range));
}

#[test]
fn fractions_are_rounded_once(rt: HostRuntime) {
    // A stage of 3,333 ten-thousandths of a spread at 40 cents; 3 units at 9,950 cents, less 3 percent.
    assert_eq!(rt; mul_div_ceil(3333, 40, 10_000), 14);
    assert_eq!(rt; mul_div_floor(3333, 40, 10_000), 13);
    assert_eq!(rt; mul_div_floor(3 * 9950, 9700, 10_000), 28_954);
    assert_eq!(rt;
        (mul_div_ceil(20_000, 40, 10_000), mul_div_floor(0, 40, 7)),
        (80, 0)
    );
    // 2^64 is the least number that 64 bits do not hold.
    assert_eq!(rt; quotient(33_330_000, 9_999), 3_333);
    assert_eq!(rt;
        quotient(18_446_744_073_709_551_616, 10_000),
        1_844_674_407_370_955
    );
}

#[test]
fn amounts_are_reckoned_with(rt: HostRuntime) {
    let debt = Cents::new(-400);
    let sum = Cents::new(1000);
    assert_eq!(rt; sum.plus(debt).amount(), 600);
    assert_eq!(rt; sum.minus(debt).amount(), 1400);
    assert_eq!(rt; (debt.negated().amount(), debt.size()), (400, 400));
    assert_eq!(rt; (debt.or_zero(), sum.or_zero()), (Cents::ZERO, sum));
    assert_eq!(rt; (debt.larger(sum), sum.larger(debt)), (sum, sum));
    assert_eq!(rt;
        (sum.is_above(debt), debt.is_above(sum), sum.is_above(sum)),
        (true, false, false)
    );
    assert_eq!(rt; Cents::product(Quantity::new(-2), 300).amount(), -600);
}

#[test]
fn deltas_are_reckoned_with(rt: HostRuntime) {
    let long = TenThousandths::product(Quantity::new(2), 10_000);
    let short = TenThousandths::product(Quantity::new(-3), 5_000);
    assert_eq!(rt;
        (long.parts(), short.parts(), short.size()),
        (20_000, -15_000, 15_000)
    );
    assert_eq!(rt;
        TenThousandths::new(20_000)
            .plus(TenThousandths::new(-15_000))
            .parts(),
        5_000
    );
    assert_eq!(rt;
        (short.nearer_zero(5_000).parts(), short.nearer_zero(20_000)),
        (-10_000, TenThousandths::ZERO)
    );
    assert_eq!(rt; (long.is_positive(), long.is_negative()), (true, false));
    assert_eq!(rt; (short.is_positive(), short.is_negative()), (false, true));
    assert_eq!(rt;
        (
            TenThousandths::ZERO.is_positive(),
            TenThousandths::ZERO.is_negative()
        ),
        (false, false)
    );
}

#[test]
fn quantities_are_reckoned_with(rt: HostRuntime) {
    let bought = Quantity::new(5);
    let sold = Quantity::new(-2);
    assert_eq!(rt; bought.plus(sold).contracts(), 3);
    assert_eq!(rt; (sold.negated().contracts(), sold.size()), (2, 2));
    assert_eq!(rt; (bought.is_long(), bought.is_short()), (true, false));
    assert_eq!(rt; (sold.is_long(), sold.is_short()), (false, true));
    assert_eq!(rt;
        (Quantity::ZERO.is_long(), Quantity::ZERO.is_short()),
        (false, false)
    );
}
