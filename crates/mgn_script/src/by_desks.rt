//! Commands whose units are priced by desks.

ghost use Rattle.std.specs.Prelude.{◌≡◌, ◌+◌, ◌⊎◌, IfSome, IsSome, IsTrue, None, Ok, true, false};
ghost use Rattle.mgn_machine.specs.NewSet.{set_fits};
ghost use Rattle.mgn_machine.specs.declared.request.Request.TheVariants.{Do, Switch as AnySwitch};
ghost use Rattle.mgn_machine.specs.History.{calls};
ghost use Rattle.mgn_unit.specs.Amounts.{AreKnown, KeepsPlaces};
ghost use Rattle.mgn_register.specs.BookStates.{IsKept};
ghost use Rattle.mgn_plan.specs.declared.plans.Plan.TheVariants.{Nothing};
ghost use Rattle.mgn_book.specs.BookViews.{Committed, Shelves, Stands};
ghost use Rattle.mgn_pricing.specs.Desks.{AreDesks, AreEmpty, KeepsUnplanned};
ghost use Rattle.mgn_script.specs.Desks.{AreAtRest, is_done, is_in_force, is_new_set, is_refused, is_settled, plan_in};

use mgn_book::{Book, Outcome};
use mgn_ids::SessionNo;
use mgn_machine::{Command, Reply};
use mgn_params::{ParamSet, SetList, Version, Work, set_of};
use mgn_pricing::Desks;
use mgn_unit::{PreparedUnits, Priced, Switch};
use std::alloc::{AllocError, Global};

fn is_settled(reply: &Reply) -> bool
    ensures { result ≡ is_settled reply.now }
{
    match reply {
        Reply::Done => true,
        Reply::Figures(_)
        | Reply::Totals(_)
        | Reply::NewSet(_)
        | Reply::Statement(_)
        | Reply::Refused(_) => false,
    }
}

// Whether a command is done, and has changed what its plan says.
fn is_done(outcome: &Outcome) -> bool
    ensures { result ≡ is_done outcome.now }
{
    match outcome {
        Outcome::Done(_, reply) => is_settled(reply),
        Outcome::Full | Outcome::Memory => false,
    }
}

/// One command in session 1, as `Book::commit_plain` commits it. What its units require is told by their desks, and is
/// worked out only where memory for these was refused: no risk array is counted, or the desks of the command's units
/// are empty (by contract, and by the list in `tests/work_rule.py` of who may start a count of its own). The desks move
/// with the rows, and no others do.
pub(crate) fn commit_command(
    alloc: Global,
    book: &mut Book,
    desks: &mut Desks,
    shelf: &SetList,
    number: u64,
    command: &Command,
    work: &mut Work,
) -> Outcome
    requires stands { Stands shelf.now book.old }
    requires number { number ≡ calls 1 book.old.history + 1 }
    requires desks { AreAtRest shelf.now book.old.book desks.old }
    ensures stands { Stands shelf.now book.new }
    ensures committed { Committed shelf.now book.old 1 number (Do command.now) result book.new }
    ensures desks { AreAtRest shelf.now book.new.book desks.new }
    ensures idle { (work.new ≡ work.old) ⊎ AreEmpty (plan_in shelf.now book.old.book command.now) desks.new }
    ensures others { KeepsUnplanned (plan_in shelf.now book.old.book command.now) desks.old desks.new }
{
    let session = SessionNo::new(1);
    let version = book.version();
    let set = set_of(shelf, version);
    let plan = book.plan(shelf, command);
    let Ok(known) = desks.foresee(alloc, version, set, book.rows(), &plan) else {
        return book.commit_plain(alloc, session, number, command, shelf, work);
    };
    let outcome = book.commit_known(alloc, session, number, command, shelf, &plan, &known, work);
    if !is_done(&outcome) {
        desks.take_back(version, set, book.rows(), &plan);
    }
    outcome
}

// Whether each contract of a set keeps its place in another one. Where memory for the answer is refused it is no.
fn keeps_places(alloc: Global, old: &ParamSet, set: &ParamSet) -> bool
    ensures { IsTrue result → KeepsPlaces old.now set.now }
{
    match Switch::new(alloc, old, set) {
        Ok(switch) => switch.keeps_places(),
        Err(AllocError) => false,
    }
}

// Marks the desks under a set that is to come into force, and tells what units require there, where their desks are
// marked. Where the set would be refused or a contract changes its place nothing is told, and no desk is touched.
fn mark_all(
    alloc: Global,
    book: &Book,
    desks: &mut Desks,
    old: &ParamSet,
    set: &ParamSet,
) -> Option<Vec<Option<Priced>>>
    requires kept { IsKept old.now book.now.book }
    requires desks { let book = book.now.book in AreDesks old.now book.state.version Nothing book.rows desks.old }
    ensures known { IfSome result (λ known. AreKnown set.now book.now.book.rows known.items) }
    ensures keeps { IsSome result → KeepsPlaces old.now set.now }
    ensures fits { IsSome result → set_fits set.now book.now.book.state ≡ Ok tt }
    ensures desks { let book = book.now.book in
        IsSome result → AreDesks set.now (book.state.version + 1) Nothing book.rows desks.new }
    ensures same { result ≡ None → desks.new ≡ desks.old }
{
    if !book.takes(old, set) || !keeps_places(alloc, old, set) {
        return None;
    }
    let version = Version::new(book.version().number() + 1);
    desks.mark_all(alloc, version, set, book.rows()).ok()
}

// Whether a set has come into force.
fn is_in_force(outcome: &Outcome) -> bool
    ensures { result ≡ is_in_force outcome.now }
{
    match outcome {
        Outcome::Done(_, reply) => is_new_set(reply),
        Outcome::Full | Outcome::Memory => false,
    }
}

fn is_new_set(reply: &Reply) -> bool
    ensures { result ≡ is_new_set reply.now }
{
    match reply {
        Reply::NewSet(_) => true,
        Reply::Done
        | Reply::Figures(_)
        | Reply::Totals(_)
        | Reply::Statement(_)
        | Reply::Refused(_) => false,
    }
}

/// One switch in session 1, as `Book::commit_switch` commits it. Where each contract keeps its place the desks are
/// marked under the new set, and units require what these tell; else they stay as they are, and one of an older version
/// is marked anew when it is next asked for. So they do where the set is refused.
#[inline(never)]
pub(crate) fn commit_switch(
    alloc: Global,
    book: &mut Book,
    desks: &mut Desks,
    shelf: &mut SetList,
    number: u64,
    set: ParamSet,
    work: &mut Work,
) -> Outcome
    requires stands { Stands shelf.old book.old }
    requires number { number ≡ calls 1 book.old.history + 1 }
    requires desks { AreAtRest shelf.old book.old.book desks.old }
    ensures stands { Stands shelf.new book.new }
    ensures committed { Committed shelf.new book.old 1 number (AnySwitch set) result book.new }
    ensures sets { Shelves shelf.old (AnySwitch set) result shelf.new }
    ensures desks { AreAtRest shelf.new book.new.book desks.new }
    ensures kept { is_refused result ≡ true → desks.new ≡ desks.old }
{
    let session = SessionNo::new(1);
    let old = set_of(shelf, book.version());
    let Some(known) = mark_all(alloc, book, desks, old, &set) else {
        let mut none = PreparedUnits::none(alloc);
        return book.commit_switch(alloc, session, number, set, shelf, &mut none, work);
    };
    let outcome = book.commit_known_switch(alloc, session, number, set, shelf, &known, work);
    if !is_in_force(&outcome) {
        desks.empty_all();
    }
    outcome
}
