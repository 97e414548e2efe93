ghost use Rattle.std.specs.Prelude.{◌≡◌};
ghost use Rattle.spand_lib.specs.Status.{status_of, usage, usage_status, word_of};
ghost use Rattle.spand_lib.specs.declared.fault.Fault.TheVariants.{Memory};

use clap::error::ErrorKind;
use mgn_session::SessionFault;
use mgn_setfile::SetFault;
use std::alloc::AllocError;
use thiserror::Error;

/// Why the program ends before the end of its input.
#[derive(Debug, Drop, Error)]
pub enum Fault {
    /// The command line is wrong, or asks for help.
    #[error("{0}")]
    Usage(clap::Error),
    /// The set's file is missing, cannot be read, or is too long, or its name is none.
    #[error("set NOSET")]
    NoSet,
    /// A record is no record of a set; its number is told.
    #[error("set BADSET {}", .0.number)]
    BadSet(SetFault),
    /// The same, and the cause is told in words.
    #[error("{0}")]
    BadRecord(SetFault),
    /// The session ended before the end of its input.
    #[error("session {}", name_of(.0))]
    Session(SessionFault),
    /// What a set has could not be written.
    #[error("check WRITE")]
    Output,
    /// The server's port is not to be had, or no more connections are.
    #[error("port")]
    Port,
    /// What the server tells of its beginning and its end could not be written.
    #[error("serve WRITE")]
    ServerOutput,
    /// The audit of the server's book: not each of its sessions was handed back, once.
    #[error("audit PASSES")]
    Passes,
    /// The audit of the server's book: its history has not just the calls of this session.
    #[error("audit UNMATCHED {0}")]
    Unmatched(u8),
    /// Memory could not be had.
    #[error("memory")]
    Memory,
}

/// The word by which a fault of a session is told.
pub fn name_of(fault: &SessionFault) -> &'static str
    ensures { result.now ≡ word_of fault.now }
{
    match fault {
        SessionFault::Read => "READ",
        SessionFault::Write => "WRITE",
        SessionFault::Memory => "MEMORY",
        SessionFault::Lines => "LINES",
    }
}

impl Fault {
    /// Tells the fault, as one line on standard error or as the text of the command line's own, and gives the
    /// program's exit status.
    pub fn report<R: Print + Eprint>(&self, rt: &R) -> u8
        ensures { result ≡ status_of self.now }
    {
        // A line that cannot be written changes no status.
        let _ = match self {
            Fault::Usage(error) => error.print(rt),
            _ => eprintln!(rt; "spand: {self}"),
        };
        self.status()
    }

    fn status(&self) -> u8
        ensures { result ≡ status_of self.now }
    {
        match self {
            Fault::Usage(error) => usage_status(error.kind()),
            Fault::NoSet | Fault::BadSet(_) | Fault::BadRecord(_) => 3,
            Fault::Session(_) | Fault::Output | Fault::Port | Fault::ServerOutput => 4,
            Fault::Passes | Fault::Unmatched(_) => 5,
            Fault::Memory => 6,
        }
    }
}

fn usage_status(kind: ErrorKind) -> u8
    ensures { result ≡ usage_status kind }
{
    match kind {
        ErrorKind::DisplayHelp | ErrorKind::DisplayVersion => 0,
        _ => 2,
    }
}

impl From<AllocError> for Fault {
    ghost from_gives = { λ _ fault. fault ≡ Memory };

    fn from(_error: AllocError) -> Fault {
        Fault::Memory
    }
}

impl From<clap::Error> for Fault {
    ghost from_gives = { λ error fault. fault ≡ usage error };

    fn from(error: clap::Error) -> Fault {
        match error.kind() {
            ErrorKind::OutOfMemory => Fault::Memory,
            _ => Fault::Usage(error),
        }
    }
}
