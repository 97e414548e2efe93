ghost use Rattle.std.specs.Prelude.{◌≡◌, ◌*◌, ◌/◌, ◌<◌, ◌^◌};
ghost use Rattle.std.specs.Int.{div_ceil};

// Below it 64 bits hold a number.
const SHORT: u128 = 18_446_744_073_709_551_616;

/// A quotient, rounded down. Where 64 bits hold both numbers, as they mostly do, it is had without the long division of
/// 128 bits.
pub fn quotient(n: u128, d: u128) -> u128
    requires { 0 < d }
    ensures { result ≡ n / d }
{
    if n < SHORT {
        if d < SHORT {
            return u128::from(n as u64 / d as u64);
        }
    }
    n / d
}

/// A product over a divisor, rounded down. Credits and collateral values are rounded so. A ratio or a rate of 1 needs no
/// division: a factor that is the divisor leaves the other.
pub fn mul_div_floor(a: u128, b: u128, d: u128) -> u128
    requires product { a * b < 2 ^ 127 }
    requires divisor { 0 < d }
    ensures { result ≡ a * b / d }
{
    if a == d {
        return b;
    }
    if b == d {
        return a;
    }
    quotient(a * b, d)
}

// The same, rounded up.
fn quotient_up(n: u128, d: u128) -> u128
    requires { 0 < d }
    ensures { result ≡ div_ceil n d }
{
    if n < SHORT {
        if d < SHORT {
            return u128::from((n as u64).div_ceil(d as u64));
        }
    }
    n.div_ceil(d)
}

/// A product over a divisor, rounded up. Charges are rounded so.
pub fn mul_div_ceil(a: u128, b: u128, d: u128) -> u128
    requires product { a * b < 2 ^ 127 }
    requires divisor { 0 < d }
    ensures { result ≡ div_ceil (a * b) d }
{
    quotient_up(a * b, d)
}
