use command_line::SetPath;
use mgn_params::ParamSet;
use mgn_script::{Plain, run_script};
use mgn_session::{Conversation, Counted};
use spand_lib::{Fault, Folder};
use std::io;
use std::rt::Files;

/// Answers standard input on standard output, to the end of the input, under the set of a file.
pub fn run<R: Files + Input + Print + AllocGlobal>(rt: &R, file: &SetPath) -> Result<(), Fault> {
    let mut folder = Folder::new(rt, file.dir.as_str());
    let first = spand_lib::read(rt.alloc(), &mut folder, file.set.as_str())?;
    answer(rt, first.set, &mut folder)
}

fn answer<R: Files + Input + Print + AllocGlobal>(
    rt: &R,
    first: ParamSet,
    folder: &mut Folder<'_, R>,
) -> Result<(), Fault> {
    let mut plain = Plain::new(rt.alloc(), first)?;
    let reader = Counted::new(rt.reader());
    let writer = Counted::new(io::writer(rt));
    let mut talk = Conversation::new(rt.alloc(), reader, writer);
    run_script(rt.alloc(), &mut talk, &mut plain, folder)
        .map(|_| ())
        .map_err(Fault::Session)
}
