ghost use Rattle.std.specs.Prelude.{◌≡◌};

use crate::switches::Switches;
use mgn_ledger::{Image, Pass};
use mgn_machine::{Answer, Command};
use mgn_params::ParamSet;
use mgn_service::{Gate, Service};
use mgn_session::Exec;
use mgn_slots::SlotNames;
use mgn_table::TableName;
use std::marker::Model;
use std::sync::Wait;

/// A session of a service, for one thread: a pass with the service that made it. Contracts see the pass.
#[derive(Drop)]
pub struct Seat<'s, 'a, R: Wait, T: Image, J: TableName + SlotNames, G: Gate, W: Switches> {
    rt: &'s R,
    service: &'s Service<'a, T, J>,
    gate: &'s G,
    pass: Pass<'a, T, J>,
    workers: &'s W,
}

impl<'s, 'a, R: Wait, T: Image, J: TableName + SlotNames, G: Gate, W: Switches> Model
    for Seat<'s, 'a, R, T, J, G, W> {
    ghost use Rattle.mgn_ledger.specs.Passes.{PassView};

    ghost Value = { PassView };

    ghost view = { λ s. s.pass };
}

impl<'s, 'a, R: Wait, T: Image, J: TableName + SlotNames, G: Gate, W: Switches> Seat<
    's,
    'a,
    R,
    T,
    J,
    G,
    W,
> {
    /// The seat of a pass of this service, whose calls pass the gate, and whose switches are worked out by these
    /// workers.
    pub fn new(
        rt: &'s R,
        service: &'s Service<'a, T, J>,
        gate: &'s G,
        pass: Pass<'a, T, J>,
        workers: &'s W,
    ) -> Seat<'s, 'a, R, T, J, G, W>
        ensures { result ≡ pass.entry }
    {
        Seat {
            rt,
            service,
            gate,
            pass,
            workers,
        }
    }

    /// The pass, for the service's audit.
    pub fn into_pass(self) -> Pass<'a, T, J>
        ensures { result ≡ self.entry }
    {
        let Seat {
            rt: _,
            service: _,
            gate: _,
            pass,
            workers: _,
        } = self;
        pass
    }
}

/// What is answered with a place stands last in the pass's transcript. Whether the history is full or the service
/// closed only the service knows, since other sessions use it too; so either may be answered at any time.
impl<'s, 'a, R: Wait, T: Image, J: TableName + SlotNames, G: Gate, W: Switches> Exec
    for Seat<'s, 'a, R, T, J, G, W> {
    ghost use Rattle.mgn_ledger.specs.Ledgers.{PassAnswers};
    ghost use Rattle.mgn_ledger.specs.Passes.{transcript};

    ghost entries = { λ seat. transcript seat };

    ghost is_full = { λ seat. Unit {0} };

    ghost is_broken = { λ seat. Unit {0} };

    ghost does = { λ old request answer new. PassAnswers old request answer new };

    fn exec(&mut self, command: &Command) -> Answer {
        self.service
            .exec(self.rt, &mut self.pass, self.gate, command)
    }

    fn switch(&mut self, set: ParamSet) -> Answer {
        self.workers
            .switch(self.rt, self.service, &mut self.pass, self.gate, set)
    }
}
