use mgn_num::NumFault;
use thiserror::Error;

/// Why a word is not a name or a number of its kind.
#[derive(Clone, Copy, PartialEq, Eq, Debug, Error)]
pub enum IdFault {
    /// It is not spelled as one.
    #[error("not spelled as a name or a number of its kind")]
    Syntax,
    /// It is rightly spelled and too long, or outside its range.
    #[error("too long, or outside its range")]
    Range,
}

// What is wrong with the number is wrong with the word.
impl From<NumFault> for IdFault {
    ghost use Rattle.std.specs.Prelude.{◌≡◌, ℕ, Err};
    ghost use Rattle.mgn_ids.specs.Number.{id_of};

    ghost from_gives = { λ fault id_fault. id_of {A = ℕ} (Err fault) ≡ Err id_fault };

    fn from(fault: NumFault) -> IdFault {
        match fault {
            NumFault::Syntax => IdFault::Syntax,
            NumFault::Range => IdFault::Range,
        }
    }
}
