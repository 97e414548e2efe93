use mgn_session::SessionFault;
use thiserror::Error;

/// Why a connection was closed before the end of its input.
#[derive(Clone, Copy, PartialEq, Eq, Debug, Error)]
pub enum ConnectionFault {
    /// Its session ended by a fault.
    #[error("{0}")]
    Session(SessionFault),
    /// No thread could be had for its session, and nothing was read.
    #[error("no thread could be had for its session")]
    NoThread,
    /// There was no seat for it, and nothing was read.
    #[error("there was no seat for it")]
    NoSeat,
}

impl From<SessionFault> for ConnectionFault {
    ghost use Rattle.std.specs.Prelude.{◌≡◌};
    ghost use Rattle.mgn_server.specs.declared.report.ConnectionFault.TheVariants as connection;

    ghost from_gives = { λ fault made. made ≡ connection.Session fault };

    fn from(fault: SessionFault) -> ConnectionFault {
        ConnectionFault::Session(fault)
    }
}

/// Where it is told which connections were closed by a fault, and by which.
pub trait FaultReport {
    ghost use Rattle.std.specs.Prelude.{ℕ};
    ghost use Rattle.mgn_server.specs.declared.report.ConnectionFault.{ConnectionFault};

    // What a call does: the report before, the connection's number, its fault, the report after.
    ghost tells: { Self → ℕ → ConnectionFault → Self → Type 0 };

    /// Tells the fault of a connection, by its number in order of accepting, from 1. One thread at a time calls this, once
    /// the connection is closed. Where the fault cannot be told, nothing else happens.
    fn tell(&mut self, number: usize, fault: ConnectionFault)
        ensures { tells self.old number fault self.new };
}
