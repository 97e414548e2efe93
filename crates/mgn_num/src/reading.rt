ghost use Rattle.std.specs.Prelude.{◌≡◌, ◌≢◌, ◌+◌, ◌*◌, ◌^◌, ◌<◌, ◌≤◌, length, slice_index, IfOk, IfSome, IsTrue, ◌↔◌, Some, true, unsigned_abs};
ghost use Rattle.mgn_num.specs.Text.{capped_number, is_positive, number_from};
ghost use Rattle.mgn_num.specs.Reading.{number_of, unsigned_in, signed_in};

use thiserror::Error;

/// Why a text is not a number in its range.
#[derive(Clone, Copy, PartialEq, Eq, Debug, Error)]
pub enum NumFault {
    /// It is not spelled as a number.
    #[error("not spelled as a number")]
    Syntax,
    /// It is a number outside the range.
    #[error("outside its range")]
    Range,
}

const LARGEST: u128 = 1_000_000_000_000_000_000_000_000_000_000_000_000;

// So many digits spell a number that fits in 64 bits.
const SHORT: usize = 18;

// A digit 1 to 9 and further digits, as a number in 64 bits; none where there are too many for these, as few numbers have.
#[tactic(auto, using(std::proofs::lemmas::Grind::pow_more, std::proofs::lemmas::List::Sums::fold_more, std::proofs::lemmas::List::Folds::list_all_more, std::proofs::lemmas::List::Folds::list_all_at))]
#[inline(always)]
fn read_short(digits: &[u8]) -> Option<u64>
    ensures { IfSome result (λ n. (is_positive digits.now ≡ true) × (number_from digits.now ≡ n)) }
{
    if digits.is_empty() || SHORT < digits.len() || digits[0] == b'0' {
        return None;
    }
    let mut number: u64 = 0;
    for byte in digits {
        let digit = u64::from(*byte).wrapping_sub(u64::from(b'0'));
        if digit > 9 {
            return None;
        }
        number = number * 10 + digit;
    }
    Some(number)
}

// What digits spell, of which the first is not 0; one above the limit where it is larger.
#[tactic(auto, using(std::proofs::lemmas::List::Sums::fold_more, std::proofs::lemmas::List::Folds::list_all_more, std::proofs::lemmas::List::Folds::list_all_at))]
fn read_long(digits: &[u8]) -> Option<u128>
    requires some { 0 < length digits.now }
    requires first { slice_index digits.now 0 ≢ 48 }
    ensures { result ≡ capped_number digits.now }
{
    let mut number: u128 = 0;
    for byte in digits {
        if *byte < b'0' || *byte > b'9' {
            return None;
        }
        let digit = (*byte - b'0') as u128;
        number = (number * 10 + digit).min(LARGEST + 1);
    }
    Some(number)
}

// A digit 1 to 9 and further digits, as a number; one above the limit where it is larger.
fn read_positive(digits: &[u8]) -> Option<u128>
    ensures { result ≡ capped_number digits.now }
{
    if digits.is_empty() || digits[0] == b'0' {
        return None;
    }
    match read_short(digits) {
        Some(number) => Some(u128::from(number)),
        None => read_long(digits),
    }
}

fn is_amount(number: u128) -> bool
    ensures { IsTrue result ↔ (number ≤ 10 ^ 36) }
{
    number <= LARGEST
}

// The number that a text spells, at most 10^36 in size.
pub(crate) fn read_number(text: &[u8]) -> Result<i128, NumFault>
    ensures value { result ≡ number_of text.now }
    ensures small { IfOk result (λ z. unsigned_abs z ≤ 10 ^ 36) }
{
    if text.len() == 1 && text[0] == b'0' {
        return Ok(0);
    }
    let negative = text.len() > 0 && text[0] == b'-';
    let digits = if negative { &text[1..] } else { text };
    let Some(number) = read_positive(digits) else {
        return Err(NumFault::Syntax);
    };
    if !is_amount(number) {
        return Err(NumFault::Range);
    }
    let size = number as i128;
    Ok(if negative { -size } else { size })
}

// The same as `read_unsigned`, by any number.
#[tactic(auto, unfolding(crate::specs::Reading::unsigned_in))]
#[cold]
#[inline(never)]
fn read_long_unsigned(word: &[u8], low: u64, high: u64) -> Result<u64, NumFault>
    ensures value { result ≡ unsigned_in low high word.now }
    ensures bound { IfOk result (λ n. (low ≤ n) × (n ≤ high)) }
{
    let number = read_number(word)?;
    if number < i128::from(low) || i128::from(high) < number {
        return Err(NumFault::Range);
    }
    Ok(number as u64)
}

/// The number from `low` to `high` that a word spells. `Syntax` where it spells none, `Range` where it spells
/// another number, a negative one too. Takes no memory.
#[tactic(auto, unfolding(crate::specs::Reading::unsigned_in))]
#[inline(always)]
pub fn read_unsigned(word: &[u8], low: u64, high: u64) -> Result<u64, NumFault>
    ensures value { result ≡ unsigned_in low high word.now }
    ensures bound { IfOk result (λ n. (low ≤ n) × (n ≤ high)) }
{
    let Some(number) = read_short(word) else {
        return read_long_unsigned(word, low, high);
    };
    if number < low || high < number {
        return Err(NumFault::Range);
    }
    Ok(number)
}

// The same as `read_signed`, by any number.
#[tactic(auto, unfolding(crate::specs::Reading::signed_in))]
#[cold]
#[inline(never)]
fn read_long_signed(word: &[u8], high: u64) -> Result<i64, NumFault>
    requires { high < 2 ^ 63 }
    ensures value { result ≡ signed_in high word.now }
    ensures bound { IfOk result (λ z. unsigned_abs z ≤ high) }
{
    let number = read_number(word)?;
    if u128::from(high) < number.unsigned_abs() {
        return Err(NumFault::Range);
    }
    Ok(number as i64)
}

/// The number of at most `high` in size that a word spells. `Syntax` where it spells none, `Range` where it spells
/// a larger one. Takes no memory.
#[tactic(auto, unfolding(crate::specs::Reading::signed_in))]
#[inline(always)]
pub fn read_signed(word: &[u8], high: u64) -> Result<i64, NumFault>
    requires { high < 2 ^ 63 }
    ensures value { result ≡ signed_in high word.now }
    ensures bound { IfOk result (λ z. unsigned_abs z ≤ high) }
{
    let is_negative = word.len() > 0 && word[0] == b'-';
    let digits = if is_negative { &word[1..] } else { word };
    let Some(size) = read_short(digits) else {
        return read_long_signed(word, high);
    };
    if high < size {
        return Err(NumFault::Range);
    }
    let number = size as i64;
    Ok(if is_negative { -number } else { number })
}
