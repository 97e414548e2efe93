use mgn_ids::IdFault;
use std::alloc::AllocError;
use thiserror::Error;

/// Why a line asks for nothing.
#[derive(Clone, Copy, PartialEq, Eq, Debug, Error)]
pub enum LineFault {
    /// It has more than 256 bytes.
    #[error("more than 256 bytes")]
    Long,
    /// It is not spelled as a command, nor as a switch.
    #[error("not spelled as a command, nor as a switch")]
    Syntax,
    /// A name on it is too long, or a number outside its range.
    #[error("a name too long, or a number outside its range")]
    Range,
}

// What is wrong with a word is wrong with its line.
impl From<IdFault> for LineFault {
    ghost use Rattle.std.specs.Prelude.{◌≡◌, ℕ, Err};
    ghost use Rattle.mgn_wire.specs.Line.{of_words};

    ghost from_gives = { λ fault line_fault. of_words {A = ℕ} (Err fault) ≡ Err line_fault };

    fn from(fault: IdFault) -> LineFault {
        match fault {
            IdFault::Syntax => LineFault::Syntax,
            IdFault::Range => LineFault::Range,
        }
    }
}

/// Memory could not be had.
#[derive(Clone, Copy, PartialEq, Eq, Debug, Error)]
#[error("memory could not be had")]
pub struct Memory;

impl From<AllocError> for Memory {
    fn from(_error: AllocError) -> Memory {
        Memory
    }
}
