ghost use Rattle.std.specs.Prelude.{◌≡◌};
ghost use Rattle.mgn_register.specs.declared.step_fault.StepFault.TheVariants.{Memory, Refused};

use mgn_machine::Refusal;
use std::alloc::AllocError;
use thiserror::Error;

/// Why a command has changed nothing.
#[derive(Clone, Copy, PartialEq, Eq, Debug, Error)]
pub enum StepFault {
    /// It is refused.
    #[error("the command is refused")]
    Refused(Refusal),
    /// Memory was refused.
    #[error("memory was refused")]
    Memory,
}

impl From<Refusal> for StepFault {
    ghost from_gives = { λ why fault. fault ≡ Refused why };

    fn from(why: Refusal) -> StepFault {
        StepFault::Refused(why)
    }
}

impl From<AllocError> for StepFault {
    ghost from_gives = { λ _ fault. fault ≡ Memory };

    fn from(_: AllocError) -> StepFault {
        StepFault::Memory
    }
}
