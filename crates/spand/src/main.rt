//! The program `spand`: margin and order credit of clearing members, by lines of commands on standard input, or of
//! several sessions over connections.
#![tactic(auto)]

mod script;

ghost use Rattle.std.specs.Prelude.{◌≡◌, All, map};
ghost use Rattle.std.specs.Result.{ForOk};
ghost use Rattle.mgn_nets.specs.Portfolios.{AreUnitNets};
ghost use Rattle.mgn_unit.specs.NewSets.{ArePrepared};
ghost use Rattle.mgn_prepare.specs.Marks.{mark_of};

use command_line::Invocation;
use mgn_ids::SessionNo;
use mgn_params::ParamSet;
use mgn_service::Workers;
use mgn_unit::{CopiedNets, PreparedUnit};
use spand_lib::{Fault, Folder, check};
use spand_serve::{Clients, Writers};
use std::alloc::AllocError;
use std::io;
use std::net::{Ipv4Addr, TcpListener};
use std::process::ExitCode;

fn main(rt: HostRuntime) -> ExitCode {
    let ended = match command_line::read(&rt) {
        Ok(Invocation::Script(file)) => script::run(&rt, &file),
        Ok(Invocation::Check(file)) => check::run(&rt, &file),
        Ok(Invocation::Serve(options)) => {
            let mut source = Folder::new(&rt, options.file.dir.as_str());
            let marking = move |session: SessionNo, old: &ParamSet, new: &ParamSet, nets: Vec<
                CopiedNets,
            >| -> Result<Vec<Option<PreparedUnit>>, AllocError>
                requires { All (AreUnitNets old.now) nets.items }
                ensures marks { ForOk result (λ units. units.items ≡ map (mark_of old.now new.now) nets.items) }
                ensures prepared { ForOk result (λ units. ArePrepared new.now units.items) }
            { spand_serve::mark(&rt, session, old, new, nets) };
            match spand_lib::read(rt.alloc(), &mut source, options.file.set.as_str()) {
                Ok(first) => match Box::new(rt.alloc(), marking) {
                    Ok(marking) => {
                        let clients = Clients {
                            sessions: options.sessions,
                            source,
                            bind: || TcpListener::bind(&rt, (Ipv4Addr::LOCALHOST, options.port)),
                        };
                        let writers = Writers {
                            out: io::writer(&rt),
                            errors: rt.stderr(),
                        };
                        let workers = Workers::new(marking);
                        spand_serve::run(&rt, rt.alloc(), first.set, clients, &workers, writers)
                    }
                    Err(refused) => Err(Fault::from(AllocError::from(refused))),
                },
                Err(fault) => Err(fault),
            }
        }
        Err(error) => Err(Fault::from(error)),
    };
    match ended {
        Ok(()) => ExitCode::SUCCESS,
        Err(fault) => ExitCode::from(fault.report(&rt)),
    }
}
