use mgn_server::{ConnectionFault, FaultReport};
use spand_lib::name_of;
use std::io::Write;

/// Writes which connections were closed by a fault on its writer, a line each: `spand: session N NAME`, with the
/// connection's number in order of accepting, from 1. A line that cannot be written is lost, and changes nothing else.
#[derive(Drop)]
pub struct FaultLines<W: Write>(pub W);

// A connection for which no thread or no pass could be had is told as one for which there was no memory.
fn word_of(fault: &ConnectionFault) -> &'static str {
    match fault {
        ConnectionFault::Session(fault) => name_of(fault),
        ConnectionFault::NoThread | ConnectionFault::NoSeat => "MEMORY",
    }
}

impl<W: Write> FaultReport for FaultLines<W> {
    ghost tells = { λ _ _ _ _. Unit {0} };

    fn tell(&mut self, number: usize, fault: ConnectionFault) {
        let _ = writeln!(self.0, "spand: session {number} {}", word_of(&fault));
    }
}
