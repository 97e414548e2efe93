use mgn_wire::Memory;
use thiserror::Error;

/// Why a session ended before the end of its input.
#[derive(Clone, Copy, PartialEq, Eq, Debug, Error)]
pub enum SessionFault {
    /// A read failed.
    #[error("a read failed")]
    Read,
    /// A write or a flush failed.
    #[error("a write or a flush failed")]
    Write,
    /// Memory could not be had.
    #[error("memory could not be had")]
    Memory,
    /// There are more than 1,000,000 lines or 268,435,456 bytes.
    #[error("more than 1,000,000 lines or 268,435,456 bytes")]
    Lines,
}

impl From<Memory> for SessionFault {
    ghost use Rattle.std.specs.Prelude.{◌≡◌};
    ghost use Rattle.mgn_session.specs.declared.fault.SessionFault.TheVariants.{Memory as NoMemory};

    ghost from_gives = { λ _ fault. fault ≡ NoMemory };

    fn from(_memory: Memory) -> SessionFault {
        SessionFault::Memory
    }
}
