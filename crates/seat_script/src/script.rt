ghost use Rattle.std.specs.Prelude.{◌≡◌};

use command_line::SetPath;
use mgn_book::MOST_ENTRIES;
use mgn_ledger::{DayImage, Image};
use mgn_params::ParamSet;
use mgn_seat::{Seat, Switches};
use mgn_service::{Gate, Service, Through};
use mgn_session::{Conversation, Counted, run_lines};
use mgn_slots::{SlotNames, Slots};
use mgn_table::{SetTable, TableName};
use spand_lib::{Fault, Folder};
use std::io;
use std::marker::Brand;
use std::rt::Files;
use std::sync::Wait;

/// How many workers share the units of a switch.
const WORKERS: usize = 4;

/// Answers standard input on standard output, to the end of the input, under the set of a file. These work out its
/// switches.
pub(crate) fn run<R: Files + Input + Print + AllocGlobal + Wait, W: Switches>(
    rt: &R,
    file: &SetPath,
    workers: &W,
) -> Result<(), Fault> {
    let mut folder = Folder::new(rt, file.dir.as_str());
    let first = spand_lib::read(rt.alloc(), &mut folder, file.set.as_str())?;
    let slots = Slots::<DayImage>::new(rt.alloc(), MOST_ENTRIES)?;
    let table = SetTable::new(rt.alloc())?;
    answer::<_, Brand, _, _>(rt, &slots, &table, first.set, &mut folder, workers)
}

fn answer<
    T: Image,
    J: TableName + SlotNames,
    R: Files + Input + Print + AllocGlobal + Wait,
    W: Switches,
>(
    rt: &R,
    slots: &Slots<T>,
    table: &SetTable,
    first: ParamSet,
    folder: &mut Folder<'_, R>,
    workers: &W,
) -> Result<(), Fault>
    requires slots { slots.now ≡ J.slots }
    requires table { table.now ≡ J.table }
{
    let service = Service::<T, J>::new(rt, rt.alloc(), slots, table, first, WORKERS)?;
    talk(rt, &service, &Through, folder, workers)
}

// The conversation of one seat.
fn talk<
    'a,
    T: Image,
    J: TableName + SlotNames,
    G: Gate,
    R: Files + Input + Print + AllocGlobal + Wait,
    W: Switches,
>(
    rt: &R,
    service: &Service<'a, T, J>,
    gate: &G,
    folder: &mut Folder<'_, R>,
    workers: &W,
) -> Result<(), Fault> {
    // A new service has 16 of them, so this answers nothing only where that is not so.
    let Some(pass) = service.pass(rt) else {
        return Ok(());
    };
    let mut seat = Seat::new(rt, service, gate, pass, workers);
    let reader = Counted::new(rt.reader());
    let writer = Counted::new(io::writer(rt));
    let mut talk = Conversation::new(rt.alloc(), reader, writer);
    run_lines(rt.alloc(), &mut talk, &mut seat, folder)
        .map(|_| ())
        .map_err(Fault::Session)
}
