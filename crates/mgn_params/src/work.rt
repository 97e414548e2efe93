ghost use Rattle.std.specs.Prelude.{◌≡◌, ◌+◌, ◌-◌, ◌^◌, min};

use std::marker::Model;

/// How many risk arrays were read. The count stays at its greatest value.
#[derive(Drop)]
pub struct Work {
    arrays: u64,
}

impl Model for Work {
    ghost use Rattle.std.specs.Prelude.{ℕ};

    ghost Value = { ℕ };

    ghost view = { λ w. w.arrays };
}

impl Work {
    /// No arrays read. Takes no memory.
    pub fn new() -> Self
        ensures { result ≡ 0 }
    {
        Work { arrays: 0 }
    }

    /// How many arrays were read, at most `u64::MAX`.
    pub fn arrays(&self) -> u64
        ensures { result ≡ self.now }
    {
        self.arrays
    }

    /// Counts one array more.
    pub(crate) fn count_array(&mut self)
        ensures { self.new ≡ min (self.old + 1) (2 ^ 64 - 1) }
    {
        self.arrays = self.arrays.saturating_add(1);
    }
}
