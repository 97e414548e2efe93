//! Answers a script through one seat of a service, for tests and benches: `spand script` does it through a book of one
//! session.
//! `--workers N` has the switches worked out by N workers on threads of their own, as a server's are.
#![tactic(auto)]

mod marking;
mod options;
mod script;

ghost use Rattle.std.specs.Prelude.{◌≡◌, All, map};
ghost use Rattle.std.specs.Result.{ForOk};
ghost use Rattle.mgn_nets.specs.Portfolios.{AreUnitNets};
ghost use Rattle.mgn_unit.specs.NewSets.{ArePrepared};
ghost use Rattle.mgn_prepare.specs.Marks.{mark_of};

use mgn_ids::SessionNo;
use mgn_params::ParamSet;
use mgn_seat::Alone;
use mgn_service::Workers;
use mgn_unit::{CopiedNets, PreparedUnit};
use spand_lib::Fault;
use std::alloc::AllocError;
use std::process::ExitCode;

fn main(rt: HostRuntime) -> ExitCode {
    let ended = match options::read(&rt) {
        Ok(options) if options.workers == 0 => script::run(&rt, &options.file, &Alone),
        Ok(options) => {
            let workers = options.workers;
            let marking = move |session: SessionNo, old: &ParamSet, new: &ParamSet, nets: Vec<
                CopiedNets,
            >| -> Result<Vec<Option<PreparedUnit>>, AllocError>
                requires { All (AreUnitNets old.now) nets.items }
                ensures marks { ForOk result (λ units. units.items ≡ map (mark_of old.now new.now) nets.items) }
                ensures prepared { ForOk result (λ units. ArePrepared new.now units.items) }
            { marking::mark(&rt, session, old, new, nets, workers) };
            match Box::new(rt.alloc(), marking) {
                Ok(marking) => script::run(&rt, &options.file, &Workers::new(marking)),
                Err(refused) => Err(Fault::from(AllocError::from(refused))),
            }
        }
        Err(error) => Err(Fault::from(error)),
    };
    match ended {
        Ok(()) => ExitCode::SUCCESS,
        Err(fault) => ExitCode::from(fault.report(&rt)),
    }
}
