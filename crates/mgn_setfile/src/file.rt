//! The set of a file.

ghost use Rattle.std.specs.Prelude.{◌≡◌, ◌⊎◌, ◌==◌, [], map, Ok, Err, None, Some, OnOk, IfOk, IfErr};
ghost use Rattle.csv.specs.Records.{fields_of};
ghost use Rattle.mgn_setfile.specs.Fields.{in_field};
ghost use Rattle.mgn_setfile.specs.Words.{detail_by, detail_of, numbered_record};
ghost use Rattle.mgn_setfile.specs.File.{Tells, TellsFile, fault_in, head_from, head_of, judged, later_of, line_of_record, outcome, records_of, told, version_left, version_of, version_told, with_class, with_commodity, with_contract, with_credit_spread, with_month, with_other, with_record, with_spot, with_spot_of, with_spread};

use crate::contracts::read_contract;
use crate::credits::read_credit_spread;
use crate::detail::{Detail, misfit_of};
use crate::draft::{Draft, SetFile};
use crate::fault::{Cause, RecordFault, SetFault};
use crate::fields::read_set_name;
use crate::line::{SHORT_RECORD, fields, short_fields};
use crate::place::Field;
use crate::plain::is_plain;
use crate::read::{read_body, read_closed};
use crate::records::{read_class, read_commodity, read_month};
use crate::rows::Rows;
use crate::spreads::{read_spot, read_spread};
use csv::ByteRecord;
use mgn_params::ParamSet;
use std::alloc::Global;

#[tactic(auto, unfolding(crate::specs::File::with_commodity))]
fn add_commodity(rows: &mut Rows, args: &[&[u8]]) -> Result<(), RecordFault>
    ensures ok { OnOk result (with_commodity rows.old (map (λ s. s.now) args.now) ≡ Ok rows.new) }
    ensures err { IfErr result (λ e. (e.cause ≡ Cause.Memory) ⊎ (with_commodity rows.old (map (λ s. s.now) args.now) ≡ Err e)) }
{
    let row = read_commodity(rows.set(), args)?;
    rows.push_commodity(row)
        .map_err(|_| RecordFault::whole(Cause::Memory))
}

#[tactic(auto, unfolding(crate::specs::File::with_month))]
fn add_month(rows: &mut Rows, args: &[&[u8]]) -> Result<(), RecordFault>
    ensures ok { OnOk result (with_month rows.old (map (λ s. s.now) args.now) ≡ Ok rows.new) }
    ensures err { IfErr result (λ e. (e.cause ≡ Cause.Memory) ⊎ (with_month rows.old (map (λ s. s.now) args.now) ≡ Err e)) }
{
    let row = read_month(rows, args)?;
    rows.push_month(row)
        .map_err(|_| RecordFault::whole(Cause::Memory))
}

#[tactic(auto, unfolding(crate::specs::File::with_contract))]
fn add_contract(rows: &mut Rows, args: &[&[u8]]) -> Result<(), RecordFault>
    ensures ok { OnOk result (with_contract rows.old (map (λ s. s.now) args.now) ≡ Ok rows.new) }
    ensures err { IfErr result (λ e. (e.cause ≡ Cause.Memory) ⊎ (with_contract rows.old (map (λ s. s.now) args.now) ≡ Err e)) }
{
    let row = read_contract(rows, args)?;
    rows.push_contract(row)
        .map_err(|_| RecordFault::whole(Cause::Memory))
}

#[tactic(auto, unfolding(crate::specs::File::with_spread))]
fn add_spread(rows: &mut Rows, args: &[&[u8]]) -> Result<(), RecordFault>
    ensures ok { OnOk result (with_spread rows.old (map (λ s. s.now) args.now) ≡ Ok rows.new) }
    ensures err { IfErr result (λ e. (e.cause ≡ Cause.Memory) ⊎ (with_spread rows.old (map (λ s. s.now) args.now) ≡ Err e)) }
{
    let row = read_spread(rows, args)?;
    rows.push_spread(row)
        .map_err(|_| RecordFault::whole(Cause::Memory))
}

#[tactic(auto, unfolding(crate::specs::File::with_class))]
fn add_class(rows: &mut Rows, args: &[&[u8]]) -> Result<(), RecordFault>
    ensures ok { OnOk result (with_class rows.old (map (λ s. s.now) args.now) ≡ Ok rows.new) }
    ensures err { IfErr result (λ e. (e.cause ≡ Cause.Memory) ⊎ (with_class rows.old (map (λ s. s.now) args.now) ≡ Err e)) }
{
    let row = read_class(rows.set(), args)?;
    rows.push_class(row)
        .map_err(|_| RecordFault::whole(Cause::Memory))
}

#[tactic(auto, unfolding(crate::specs::File::with_spot))]
fn add_spot(rows: &mut Rows, args: &[&[u8]]) -> Result<(), RecordFault>
    ensures ok { OnOk result (with_spot rows.old (map (λ s. s.now) args.now) ≡ Ok rows.new) }
    ensures err { IfErr result (λ e. (e.cause ≡ Cause.Memory) ⊎ (with_spot rows.old (map (λ s. s.now) args.now) ≡ Err e)) }
{
    let row = read_spot(rows.set(), args)?;
    rows.push_spot(row)
        .map_err(|_| RecordFault::whole(Cause::Memory))
}

#[tactic(auto, unfolding(crate::specs::File::with_credit_spread))]
fn add_credit_spread(alloc: Global, rows: &mut Rows, args: &[&[u8]]) -> Result<(), RecordFault>
    ensures ok { OnOk result (with_credit_spread rows.old (map (λ s. s.now) args.now) ≡ Ok rows.new) }
    ensures err { IfErr result (λ e. (e.cause ≡ Cause.Memory) ⊎ (with_credit_spread rows.old (map (λ s. s.now) args.now) ≡ Err e)) }
{
    let row = read_credit_spread(alloc, rows.set(), args)?;
    rows.push_credit_spread(row)
        .map_err(|_| RecordFault::whole(Cause::Memory))
}

// A spot charge is a record of version 2 alone.
#[tactic(auto, unfolding(crate::specs::File::with_spot_of))]
fn add_spot_of(version: u64, rows: &mut Rows, args: &[&[u8]]) -> Result<(), RecordFault>
    ensures ok { OnOk result (with_spot_of version rows.old (map (λ s. s.now) args.now) ≡ Ok rows.new) }
    ensures err { IfErr result (λ e. (e.cause ≡ Cause.Memory) ⊎ (with_spot_of version rows.old (map (λ s. s.now) args.now) ≡ Err e)) }
{
    if version == 2 {
        add_spot(rows, args)
    } else {
        Err(RecordFault::at(Field::Kind, Cause::Fields))
    }
}

// A spread between commodities, a class, a spot charge, or no record of a kind.
#[tactic(auto, unfolding(crate::specs::File::with_other))]
fn add_other(
    alloc: Global,
    version: u64,
    rows: &mut Rows,
    kind: &[u8],
    args: &[&[u8]],
) -> Result<(), RecordFault>
    ensures ok { OnOk result (with_other version rows.old kind.now (map (λ s. s.now) args.now) ≡ Ok rows.new) }
    ensures err { IfErr result (λ e. (e.cause ≡ Cause.Memory) ⊎ (with_other version rows.old kind.now (map (λ s. s.now) args.now) ≡ Err e)) }
{
    if kind == b"I".as_slice() {
        add_credit_spread(alloc, rows, args)
    } else if kind == b"V".as_slice() {
        add_class(rows, args)
    } else if kind == b"T".as_slice() {
        add_spot_of(version, rows, args)
    } else if kind == b"H".as_slice() {
        Err(RecordFault::whole(Cause::Header))
    } else {
        Err(RecordFault::at(Field::Kind, Cause::Fields))
    }
}

#[tactic(auto, unfolding(crate::specs::File::with_record))]
fn add_record(
    alloc: Global,
    version: u64,
    rows: &mut Rows,
    kind: &[u8],
    args: &[&[u8]],
) -> Result<(), RecordFault>
    ensures ok { OnOk result (with_record version rows.old kind.now (map (λ s. s.now) args.now) ≡ Ok rows.new) }
    ensures err { IfErr result (λ e. (e.cause ≡ Cause.Memory) ⊎ (with_record version rows.old kind.now (map (λ s. s.now) args.now) ≡ Err e)) }
{
    if kind == b"G".as_slice() {
        add_commodity(rows, args)
    } else if kind == b"M".as_slice() {
        add_month(rows, args)
    } else if kind == b"K".as_slice() {
        add_contract(rows, args)
    } else if kind == b"S".as_slice() {
        add_spread(rows, args)
    } else {
        add_other(alloc, version, rows, kind, args)
    }
}

// A record after the first.
#[tactic(auto, unfolding(crate::specs::File::later_of))]
fn add_later(
    alloc: Global,
    version: u64,
    rows: &mut Rows,
    words: &[&[u8]],
) -> Result<(), RecordFault>
    ensures ok { OnOk result (later_of version rows.old (map (λ s. s.now) words.now) ≡ Ok rows.new) }
    ensures err { IfErr result (λ e. (e.cause ≡ Cause.Memory) ⊎ (later_of version rows.old (map (λ s. s.now) words.now) ≡ Err e)) }
{
    match words {
        [kind, args @ ..] => add_record(alloc, version, rows, kind, args),
        [] => Err(RecordFault::whole(Cause::Fields)),
    }
}

#[tactic(auto, unfolding(crate::specs::File::version_of, crate::specs::Fields::in_field))]
fn read_version(field: Field, word: &[u8]) -> Result<u64, RecordFault>
    ensures { result ≡ in_field field (version_of word.now) }
{
    if word == b"1".as_slice() {
        Ok(1)
    } else if word == b"2".as_slice() {
        Ok(2)
    } else {
        Err(RecordFault::at(field, Cause::Header))
    }
}

#[tactic(auto, unfolding(crate::specs::File::head_from))]
fn head_from(alloc: Global, kind: &[u8], version: &[u8], name: &[u8]) -> Result<Draft, RecordFault>
    ensures { result ≡ head_from kind.now version.now name.now }
{
    if kind != b"H".as_slice() {
        return Err(RecordFault::whole(Cause::Header));
    }
    let version = read_version(Field::Header(2), version)?;
    let name = read_set_name(Field::Header(3), name)?;
    Ok(Draft {
        version,
        set: Rows::new(alloc, name),
    })
}

// The first record.
#[tactic(auto, unfolding(crate::specs::File::head_of))]
fn read_head(alloc: Global, words: &[&[u8]]) -> Result<Draft, RecordFault>
    ensures { result ≡ head_of (map (λ s. s.now) words.now) }
{
    match words {
        [kind, version, name] => head_from(alloc, kind, version, name),
        _ => Err(RecordFault::whole(Cause::Header)),
    }
}

// A record as the first.
#[tactic(auto, unfolding(crate::specs::File::judged))]
pub(crate) fn add_first(alloc: Global, row: &ByteRecord) -> Result<Draft, RecordFault>
    ensures ok { IfOk result (λ draft. judged None (Some (fields_of row.now)) ≡ Ok draft) }
    ensures err { IfErr result (λ e. (e.cause ≡ Cause.Memory) ⊎ (judged None (Some (fields_of row.now)) ≡ Err e)) }
{
    let Ok(words) = fields(alloc, row) else {
        return Err(RecordFault::whole(Cause::Memory));
    };
    read_head(alloc, words.as_slice())
}

// A record after those that gave this much.
#[tactic(auto, unfolding(crate::specs::File::judged))]
pub(crate) fn add_next(
    alloc: Global,
    draft: &mut Draft,
    row: &ByteRecord,
) -> Result<(), RecordFault>
    ensures ok { OnOk result (judged (Some draft.old) (Some (fields_of row.now)) ≡ Ok draft.new) }
    ensures err { IfErr result (λ e. (e.cause ≡ Cause.Memory) ⊎ (judged (Some draft.old) (Some (fields_of row.now)) ≡ Err e)) }
{
    let count = row.len();
    if count <= SHORT_RECORD {
        let words = short_fields(row);
        return add_later(alloc, draft.version, &mut draft.set, &words[..count]);
    }
    let Ok(words) = fields(alloc, row) else {
        return Err(RecordFault::whole(Cause::Memory));
    };
    add_later(alloc, draft.version, &mut draft.set, words.as_slice())
}

// What is wrong with the fields of a record as a whole, where its fault is one of all fields.
pub(crate) fn detail_of(row: &ByteRecord, cause: Cause, field: Option<Field>) -> Option<Detail>
    ensures { result ≡ detail_by cause field (Some (fields_of row.now)) }
{
    match (cause, field) {
        (Cause::Fields, None) => misfit_of(row),
        _ => None,
    }
}

// The set of the records, if there were any.
pub(crate) fn file_of(draft: Option<Draft>) -> Result<SetFile, SetFault>
    ensures tells { TellsFile result (told [] 0 draft) }
    ensures version { IfOk result (λ file. version_left [] draft ≡ Some file.version) }
    ensures none { IfErr result (λ e. (draft ≡ None) × (e.number ≡ 1) × (e.line ≡ 1)) }
    ensures detail { IfErr result (λ e. (e.cause ≡ Cause.Header) × (e.detail ≡ None)) }
{
    match draft {
        Some(draft) => Ok(SetFile {
            version: draft.version,
            set: draft.set.into_set(),
        }),
        None => Err(SetFault {
            number: 1,
            line: 1,
            field: None,
            cause: Cause::Header,
            detail: None,
        }),
    }
}

/// The set of a file of at most 2^64 - 2 bytes, with the version of its format: lines of comma-separated fields, each
/// line read on its own, of the records `H` (header), `G` (commodity), `M` (month), `K` (contract), `S` (spread within a
/// commodity), `I` (spread between commodities), `V` (collateral class) and, in version 2, `T` (spot month charge). A
/// record refers only to records before it.
///
/// Fails with the number of the first faulty record, from 1, its line, its first cause and the field that has it, or
/// with `Memory` where a growth was refused.
pub fn read_file(alloc: Global, text: &[u8]) -> Result<SetFile, SetFault>
    ensures fault { TellsFile result (outcome (records_of text.now)) }
    ensures version { IfOk result (λ file. version_told (records_of text.now) ≡ Some file.version) }
    ensures line { IfErr result (λ e. (e.cause ≡ Cause.Memory) ⊎ (e.line ≡ line_of_record text.now e.number)) }
    ensures detail { IfErr result (λ e. e.detail ≡ detail_of (numbered_record (records_of text.now) e.number) (fault_in e)) }
{
    if is_plain(text) {
        read_body(alloc, text, text, false)
    } else {
        read_closed(alloc, text)
    }
}

/// The same without the version.
pub fn read_set(alloc: Global, text: &[u8]) -> Result<ParamSet, SetFault>
    ensures fault { Tells result (outcome (records_of text.now)) }
    ensures line { IfErr result (λ e. (e.cause ≡ Cause.Memory) ⊎ (e.line ≡ line_of_record text.now e.number)) }
    ensures detail { IfErr result (λ e. e.detail ≡ detail_of (numbered_record (records_of text.now) e.number) (fault_in e)) }
{
    match read_file(alloc, text) {
        Ok(file) => Ok(file.set),
        Err(fault) => Err(fault),
    }
}
