ghost use Rattle.std.specs.Prelude.{◌≡◌, ◌+◌, ◌<◌, ◌≤◌, ◌++◌, ◌∷◌, [], List, filter, length, slice_index_or, IfErr, IfOk, OnErr, OnOk, Ok, true};
ghost use Rattle.mgn_params.specs.Shelves.{set_at};
ghost use Rattle.mgn_machine.specs.declared.request.Recorded.TheVariants.{InForce, SetRefused};
ghost use Rattle.mgn_machine.specs.declared.request.Request.TheVariants.{Switch};
ghost use Rattle.mgn_machine.specs.History.{entry, recorded};
ghost use Rattle.mgn_unit.specs.Amounts.{AreAfter, AreAllKnown, AreKnown, KeepsPlaces};
ghost use Rattle.mgn_unit.specs.NewSets.{ArePrepared, row_on_call};
ghost use Rattle.mgn_unit.specs.Prepared.{AreCurrent, ArePreparedFor};
ghost use Rattle.mgn_unit.specs.declared.row.Row.{Row as UnitRow};
ghost use Rattle.mgn_register.specs.BookStates.{IsKept, book_state};
ghost use Rattle.mgn_register.specs.UnderSets.{FitRows};
ghost use Rattle.mgn_book.specs.Switches.{IsSwitched};

use crate::history::History;
use mgn_ids::SessionNo;
use mgn_machine::{NewSet, Refusal, Reply};
use mgn_params::{ParamSet, PutFault, Shelf, Work, set_of};
use mgn_register::{Register, StepFault};
use mgn_unit::{NewRows, PreparedUnits, Priced, Row};
use std::alloc::Global;

/// A call that asks for a switch: its session, and its number among the calls of that session.
#[derive(Clone, Copy)]
pub(crate) struct SwitchCall {
    pub session: SessionNo,
    pub number: u64,
}

// Puts a set on the shelf, which is the last growth, and brings it into force with what the rows become under it.
fn enter_set<S: Shelf>(
    register: &mut Register,
    history: &mut History,
    call: SwitchCall,
    set: ParamSet,
    rows: NewRows,
    spent: &mut Vec<Row>,
    shelf: &mut S,
) -> Result<Reply, StepFault>
    requires reserved { history.old.reserved ≡ true }
    requires few_entries { length history.old.entries < 1000000 }
    requires number { call.number ≤ 1000000 }
    requires shown { length (S.sets shelf.old) ≡ register.old.state.version + 1 }
    requires few { register.old.state.version < 64 }
    requires fit { FitRows rows register.old.rows }
    requires few_units { (after : List UnitRow) → AreAfter rows register.old.rows after → length after ≤ 1024 }
    ensures place { S.place shelf.new ≡ S.place shelf.old }
    ensures reply { IfOk result (λ reply. reply ≡ Reply.NewSet record {
      version = register.old.state.version + 1;
      on_call = length (filter row_on_call register.new.rows);
    }) }
    ensures entry { IfOk result (λ reply.
        let request = InForce (register.old.state.version + 1) in
        history.new.entries ≡ history.old.entries ++ entry call.session call.number request reply ∷ []) }
    ensures sets { OnOk result (S.sets shelf.new ≡ S.sets shelf.old ++ set ∷ []) }
    ensures state { OnOk result (
        let old = register.old.state in
        register.new ≡ book_state old.origins old.accounts register.new.rows old.closed (old.version + 1)) }
    ensures rows { OnOk result (AreAfter rows register.old.rows register.new.rows) }
    ensures fault { IfErr result (λ fault. fault ≡ StepFault.Memory) }
    ensures same_register { OnErr result (register.new ≡ register.old) }
    ensures same_history { OnErr result (history.new.entries ≡ history.old.entries) }
    ensures same_sets { OnErr result (S.sets shelf.new ≡ S.sets shelf.old) }
{
    let version = match shelf.put(set) {
        Ok(version) => version,
        Err((PutFault::Memory, _)) => return Err(StepFault::Memory),
        Err((PutFault::Sets, _)) => unreachable!(),
    };
    let told = NewSet {
        version: version.number(),
        on_call: register.put_in_force(rows, version, spent),
    };
    history.push_in_force(call.session, call.number, version, told);
    Ok(Reply::NewSet(told))
}

// Keeps a set that may not come into force.
fn refuse_set(
    history: &mut History,
    call: SwitchCall,
    set: ParamSet,
    why: Refusal,
) -> Result<Reply, StepFault>
    requires reserved { history.old.reserved ≡ true }
    requires few_entries { length history.old.entries < 1000000 }
    requires number { call.number ≤ 1000000 }
    ensures reply { IfOk result (λ reply. reply ≡ Reply.Refused why) }
    ensures entry { IfOk result (λ reply.
        history.new.entries ≡ history.old.entries ++ entry call.session call.number (SetRefused set) reply ∷ []) }
    ensures fault { IfErr result (λ fault. fault ≡ StepFault.Memory) }
    ensures same_history { OnErr result (history.new.entries ≡ history.old.entries) }
{
    history.push_refused(call.session, call.number, set, why)?;
    Ok(Reply::Refused(why))
}

/// One switch to a set: it comes into force, or is refused, and the history tells which. Where memory is refused
/// nothing has changed.
pub(crate) fn switch_set<S: Shelf>(
    alloc: Global,
    register: &mut Register,
    history: &mut History,
    call: SwitchCall,
    set: ParamSet,
    shelf: &mut S,
    prepared: &mut PreparedUnits,
    work: &mut Work,
) -> Result<Reply, StepFault>
    requires reserved { history.old.reserved ≡ true }
    requires few_entries { length history.old.entries < 1000000 }
    requires number { call.number ≤ 1000000 }
    requires shown { length (S.sets shelf.old) ≡ register.old.state.version + 1 }
    requires kept { IsKept (set_at (S.sets shelf.old) register.old.state.version) register.old }
    requires prepared { ArePrepared set prepared.old.units.items }
    requires current { let old = set_at (S.sets shelf.old) register.old.state.version in
        AreCurrent old set register.old.rows prepared.old.units.items prepared.old.current.items }
    ensures place { S.place shelf.new ≡ S.place shelf.old }
    ensures switched { IfOk result (λ reply.
        IsSwitched (S.sets shelf.old) (S.sets shelf.new) register.old register.new set reply) }
    ensures entry { IfOk result (λ reply.
        let request = recorded (Switch set) reply in
        history.new.entries ≡ history.old.entries ++ entry call.session call.number request reply ∷ []) }
    ensures fault { IfErr result (λ fault. fault ≡ StepFault.Memory) }
    ensures same_register { OnErr result (register.new ≡ register.old) }
    ensures same_history { OnErr result (history.new.entries ≡ history.old.entries) }
    ensures same_sets { OnErr result (S.sets shelf.new ≡ S.sets shelf.old) }
    ensures idle { let old = set_at (S.sets shelf.old) register.old.state.version in
        ArePreparedFor old set register.old.rows prepared.old.units.items → work.new ≡ work.old }
{
    let old = set_of(shelf, register.version());
    match register.rows_under(alloc, old, &set, prepared, work) {
        Ok(rows) => enter_set(
            register,
            history,
            call,
            set,
            rows,
            &mut prepared.spent,
            shelf,
        ),
        Err(StepFault::Refused(why)) => refuse_set(history, call, set, why),
        Err(StepFault::Memory) => Err(StepFault::Memory),
    }
}

/// The same where each contract keeps its place under the set, and it may be known what units require there, by their
/// numbers.
pub(crate) fn switch_known<S: Shelf>(
    alloc: Global,
    register: &mut Register,
    history: &mut History,
    call: SwitchCall,
    set: ParamSet,
    shelf: &mut S,
    known: &[Option<Priced>],
    work: &mut Work,
) -> Result<Reply, StepFault>
    requires reserved { history.old.reserved ≡ true }
    requires few_entries { length history.old.entries < 1000000 }
    requires number { call.number ≤ 1000000 }
    requires shown { length (S.sets shelf.old) ≡ register.old.state.version + 1 }
    requires kept { IsKept (set_at (S.sets shelf.old) register.old.state.version) register.old }
    requires keeps { KeepsPlaces (set_at (S.sets shelf.old) register.old.state.version) set }
    requires known { AreKnown set register.old.rows known.now }
    ensures place { S.place shelf.new ≡ S.place shelf.old }
    ensures switched { IfOk result (λ reply.
        IsSwitched (S.sets shelf.old) (S.sets shelf.new) register.old register.new set reply) }
    ensures entry { IfOk result (λ reply.
        let request = recorded (Switch set) reply in
        history.new.entries ≡ history.old.entries ++ entry call.session call.number request reply ∷ []) }
    ensures fault { IfErr result (λ fault. fault ≡ StepFault.Memory) }
    ensures same_register { OnErr result (register.new ≡ register.old) }
    ensures same_history { OnErr result (history.new.entries ≡ history.old.entries) }
    ensures same_sets { OnErr result (S.sets shelf.new ≡ S.sets shelf.old) }
    ensures idle { AreAllKnown register.old.rows known.now → work.new ≡ work.old }
{
    let old = set_of(shelf, register.version());
    match register.amounts_under(alloc, old, &set, known, work) {
        Ok(amounts) => {
            let rows = NewRows::Kept(amounts);
            let mut spent = Vec::new(alloc);
            enter_set(register, history, call, set, rows, &mut spent, shelf)
        }
        Err(StepFault::Refused(why)) => refuse_set(history, call, set, why),
        Err(StepFault::Memory) => Err(StepFault::Memory),
    }
}
