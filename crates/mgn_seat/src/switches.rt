ghost use Rattle.mgn_machine.specs.declared.request.Request.TheVariants.{Switch};
ghost use Rattle.mgn_ledger.specs.Ledgers.{PassAnswers};

use mgn_ledger::{Image, Pass};
use mgn_machine::Answer;
use mgn_params::ParamSet;
use mgn_service::{Gate, Service, Workers};
use mgn_slots::SlotNames;
use mgn_table::TableName;
use std::sync::Wait;

/// Who works out what units require under the new set of a switch.
pub trait Switches {
    ghost use Rattle.mgn_machine.specs.declared.request.Request.TheVariants.{Switch};
    ghost use Rattle.mgn_ledger.specs.Ledgers.{PassAnswers};

    /// A switch of a pass to a set, as the service answers it.
    fn switch<'a, R: Wait, T: Image, J: TableName + SlotNames, G: Gate>(
        &self,
        rt: &R,
        service: &Service<'a, T, J>,
        pass: &mut Pass<'a, T, J>,
        gate: &G,
        set: ParamSet,
    ) -> Answer
        ensures { PassAnswers pass.old (Switch set) result pass.new };
}

/// The session itself, on its own thread.
#[derive(Clone, Copy, Drop)]
pub struct Alone;

impl Switches for Alone {
    fn switch<'a, R: Wait, T: Image, J: TableName + SlotNames, G: Gate>(
        &self,
        rt: &R,
        service: &Service<'a, T, J>,
        pass: &mut Pass<'a, T, J>,
        gate: &G,
        set: ParamSet,
    ) -> Answer {
        service.switch_alone(rt, pass, gate, set)
    }
}

/// Workers on threads of their own.
impl Switches for Workers {
    fn switch<'a, R: Wait, T: Image, J: TableName + SlotNames, G: Gate>(
        &self,
        rt: &R,
        service: &Service<'a, T, J>,
        pass: &mut Pass<'a, T, J>,
        gate: &G,
        set: ParamSet,
    ) -> Answer {
        service.switch_by(rt, pass, gate, self, set)
    }
}
