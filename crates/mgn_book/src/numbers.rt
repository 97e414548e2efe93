ghost use Rattle.std.specs.Prelude.{◌≡◌, ◌<◌, ◌^◌};

use std::marker::Model;

/// A number below 2^24 in three bytes. Contracts see the number.
#[derive(Clone, Copy)]
pub(crate) struct ThreeBytes {
    low: u8,
    middle: u8,
    high: u8,
}

impl Model for ThreeBytes {
    ghost use Rattle.std.specs.Prelude.{ℕ, ◌+◌, ◌*◌, ◌/◌, ◌%◌, ◌<◌};

    ghost Value = { ℕ };

    ghost view = { λ n. n.low + 256 * (n.middle + 256 * n.high) };

    ghost invariant = { λ n. (n.low < 256) × (n.middle < 256) };

    ghost inverse = { λ n. record { low = n % 256; middle = n / 256 % 256; high = n / 256 / 256 } };
}

impl ThreeBytes {
    pub fn new(number: u32) -> ThreeBytes
        requires { number < 2 ^ 24 }
        ensures { result ≡ number }
    {
        ThreeBytes {
            low: (number % 256) as u8,
            middle: (number / 256 % 256) as u8,
            high: (number / 256 / 256) as u8,
        }
    }

    pub fn number(self) -> u32
        ensures { result ≡ self }
    {
        u32::from(self.low) + 256 * (u32::from(self.middle) + 256 * u32::from(self.high))
    }
}
