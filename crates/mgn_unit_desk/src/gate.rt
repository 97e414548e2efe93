use mgn_ids::SessionNo;
use mgn_prepare::UnitGate;

/// Where a call stands when its gate is told. No call has the book's lock there.
#[derive(Clone, Copy, PartialEq, Eq, Debug)]
pub enum Point {
    /// Its desks have moved as the command says, and the book has not been asked to commit it.
    Applied,
    /// What a unit requires under the set of a switch is about to be worked out, by a worker or by the caller.
    Preparing,
    /// What all units require under the new set is worked out, and the book has not been asked to commit the switch.
    Prepared,
}

/// Is told where a call stands. A test keeps a call there until another one has come as far as it should.
pub trait Gate {
    /// A call of a session stands at a point.
    fn at(&self, point: Point, session: SessionNo);
}

/// The gate that keeps no call.
#[derive(Clone, Copy, Drop)]
pub struct Through;

impl Gate for Through {
    fn at(&self, _point: Point, _session: SessionNo) {}
}

/// What is passed before each unit of a session's switch: its gate, which is told `Preparing`.
#[derive(Drop)]
pub struct SessionGate<'g, G: Gate> {
    /// The gate of the session.
    pub gate: &'g G,
    /// Whose switch it is.
    pub session: SessionNo,
}

impl<'g, G: Gate> UnitGate for SessionGate<'g, G> {
    fn before(&self, _unit: usize) {
        self.gate.at(Point::Preparing, self.session);
    }
}
