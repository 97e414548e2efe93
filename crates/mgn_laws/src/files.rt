//! Which files are sets.

ghost use Rattle.std.specs.Prelude.{◌≡◌, ◌↔◌, ℕ, option_map, Some, Ok, Err, IfOk, IsOk};
ghost use Rattle.mgn_laws.specs.Growth.{AddsRow};
ghost use Rattle.mgn_laws.specs.Passing.{IsAccepted, IsFault, given_by};
ghost use Rattle.mgn_setfile.specs.Fields.{Fields, Flaw};
ghost use Rattle.mgn_setfile.specs.File.{SoFar, judged, outcome, records_of};

/// A file is accepted exactly where it has a record and each record passes its tests against the records before it.
pub fn accepts_where_each_record_passes(text: &[u8])
    ensures { IsOk (outcome (records_of text.now)) ↔ IsAccepted (records_of text.now) }
{}

/// The set of an accepted file is what its records give one after the other.
pub fn sets_what_records_give(text: &[u8])
    ensures { IfOk (outcome (records_of text.now)) (λ set. option_map (λ draft. draft.set) (given_by (records_of text.now)) ≡ Some set) }
{}

/// A file is refused with the number of its first record that does not pass, from 1, and that record's first fault;
/// a file without a record with 1 and `Header`.
pub fn refuses_first_faulty_record(text: &[u8])
    ensures { (number : ℕ) → (fault : Flaw)
        → (outcome (records_of text.now) ≡ Err (number, fault)) ↔ IsFault (records_of text.now) number fault }
{}

/// A record after the first that passes adds one row at the end of one table, and leaves all else as it was; so the
/// tables of a set are in file order.
pub fn adds_one_row_at_the_end()
    ensures { (before after : SoFar) → (fields : Fields) → judged (Some before) (Some fields) ≡ Ok after → AddsRow before.set after.set }
{}
