//! A whole file, read by one reader: making one takes longer than reading most lines does.

ghost use Rattle.std.specs.Prelude.{◌≡◌, ◌⊎◌, ◌<◌, [], List, ℕ, Ok, Err, None, Some, IfOk, IfErr, IfNone, OnOk};
ghost use Rattle.csv.specs.Reading.{strip_bom};
ghost use Rattle.csv.specs.Records.{fields_of};
ghost use Rattle.mgn_setfile.specs.File.{Record, TellsFile, fault_in, judged, line_of_record, outcome, records_of, version_told};
ghost use Rattle.mgn_setfile.specs.Plain.{Begins, Gives, HasRead, TellsFault, ending};
ghost use Rattle.mgn_setfile.specs.Words.{detail_of, numbered_record};

use crate::body::close_lines;
use crate::detail::Detail;
use crate::draft::{Draft, SetFile};
use crate::fault::{Cause, RecordFault, SetFault};
use crate::file::{add_first, add_next, detail_of, file_of};
use crate::line::line_of;
use csv::{ByteRecord, Reader, ReaderBuilder};
use std::alloc::Global;

// The fault of the record of a number, from 1, told where it stands.
fn fault_at(text: &[u8], row: &ByteRecord, number: u64, fault: RecordFault) -> SetFault
    requires { 0 < number }
    ensures { result ≡ record { number = number; line = line_of_record text.now number; field = fault.field; cause = fault.cause; detail = detail_of (Some (fields_of row.now)) fault } }
{
    SetFault {
        number,
        line: line_of(text, number),
        field: fault.field,
        cause: fault.cause,
        detail: detail_of(row, fault.cause, fault.field),
    }
}

// The first record of a text.
fn add_head(alloc: Global, text: &[u8], row: &ByteRecord) -> Result<Draft, SetFault>
    ensures ok { IfOk result (λ draft. judged None (Some (fields_of row.now)) ≡ Ok draft) }
    ensures err { IfErr result (λ e. (e.cause ≡ Cause.Memory) ⊎ (judged None (Some (fields_of row.now)) ≡ Err (fault_in e))) }
    ensures place { IfErr result (λ e. (e.number ≡ 1) × (e.line ≡ line_of_record text.now 1) × (e.detail ≡ detail_of (Some (fields_of row.now)) (fault_in e))) }
{
    match add_first(alloc, row) {
        Ok(draft) => Ok(draft),
        Err(fault) => Err(fault_at(text, row, 1, fault)),
    }
}

// A record of a number after those that gave this much.
fn add_numbered(
    alloc: Global,
    text: &[u8],
    draft: &mut Draft,
    row: &ByteRecord,
    number: u64,
) -> Result<(), SetFault>
    requires { 0 < number }
    ensures ok { OnOk result (judged (Some draft.old) (Some (fields_of row.now)) ≡ Ok draft.new) }
    ensures err { IfErr result (λ e. (e.cause ≡ Cause.Memory) ⊎ (judged (Some draft.old) (Some (fields_of row.now)) ≡ Err (fault_in e))) }
    ensures place { IfErr result (λ e. (e.number ≡ number) × (e.line ≡ line_of_record text.now number) × (e.detail ≡ detail_of (Some (fields_of row.now)) (fault_in e))) }
{
    match add_next(alloc, draft, row) {
        Ok(()) => Ok(()),
        Err(fault) => Err(fault_at(text, row, number, fault)),
    }
}

// The fault of a line that has two records, of which the first has this number, from 1.
fn second_at(text: &[u8], number: u64) -> SetFault
    requires { 0 < number }
    ensures { result ≡ record { number = number; line = line_of_record text.now number; field = None; cause = Cause.Fields; detail = Some Detail.Second } }
{
    SetFault {
        number,
        line: line_of(text, number),
        field: None,
        cause: Cause::Fields,
        detail: Some(Detail::Second),
    }
}

// The rest of the records of a text, after the first, which gave this much: whether they passed.
fn read_rest(
    alloc: Global,
    text: &[u8],
    is_cut: bool,
    reader: &mut Reader<&[u8]>,
    row: &mut ByteRecord,
    draft: &mut Draft,
) -> Result<(), SetFault>
    requires so_far { (more : List Record) × HasRead text.now (ending is_cut more) reader.old (Some draft.old) 1 }
    ensures ok { OnOk result ((count : ℕ) × Gives text.now [] (Some draft.new) count) }
    ensures err { IfErr result (TellsFault text.now) }
{
    let mut count = 1u64;
    'records: loop {
        let number = count + 1;
        match reader.read_byte_record(row) {
            Ok(true) => add_numbered(alloc, text, draft, row, number)?,
            Ok(false) if is_cut => return Err(second_at(text, number)),
            Ok(false) => return Ok(()),
            Err(_) => return Err(fault_at(text, row, number, RecordFault::whole(Cause::Memory))),
        }
        count = number;
    }
}

// What the records of a text give, before any of which is read, if there are any.
fn read_records(
    alloc: Global,
    text: &[u8],
    is_cut: bool,
    reader: &mut Reader<&[u8]>,
    row: &mut ByteRecord,
) -> Result<Option<Draft>, SetFault>
    requires start { (more : List Record) × HasRead text.now (ending is_cut more) reader.old None 0 }
    ensures ok { IfOk result (λ draft. (count : ℕ) × Gives text.now [] draft count × IfNone draft (count ≡ 0)) }
    ensures err { IfErr result (TellsFault text.now) }
{
    match reader.read_byte_record(row) {
        Ok(true) => {}
        Ok(false) if is_cut => return Err(second_at(text, 1)),
        Ok(false) => return Ok(None),
        Err(_) => return Err(fault_at(text, row, 1, RecordFault::whole(Cause::Memory))),
    }
    let mut draft = add_head(alloc, text, row)?;
    read_rest(alloc, text, is_cut, reader, row, &mut draft)?;
    Ok(Some(draft))
}

/// The set of a text, or its first fault, by a body in which one reader finds its records, up to the line that has two
/// where the body is cut.
pub(crate) fn read_body(
    alloc: Global,
    text: &[u8],
    body: &[u8],
    is_cut: bool,
) -> Result<SetFile, SetFault>
    requires { Begins text.now (strip_bom body.now) is_cut }
    ensures fault { TellsFile result (outcome (records_of text.now)) }
    ensures version { IfOk result (λ file. version_told (records_of text.now) ≡ Some file.version) }
    ensures line { IfErr result (λ e. (e.cause ≡ Cause.Memory) ⊎ (e.line ≡ line_of_record text.now e.number)) }
    ensures detail { IfErr result (λ e. e.detail ≡ detail_of (numbered_record (records_of text.now) e.number) (fault_in e)) }
{
    let mut reader = ReaderBuilder::new()
        .has_headers(false)
        .flexible(true)
        .from_reader(alloc, body);
    let mut row = ByteRecord::new(alloc);
    let draft = read_records(alloc, text, is_cut, &mut reader, &mut row)?;
    file_of(draft)
}

/// The same of any text, by its lines, each closed.
pub(crate) fn read_closed(alloc: Global, text: &[u8]) -> Result<SetFile, SetFault>
    ensures fault { TellsFile result (outcome (records_of text.now)) }
    ensures version { IfOk result (λ file. version_told (records_of text.now) ≡ Some file.version) }
    ensures line { IfErr result (λ e. (e.cause ≡ Cause.Memory) ⊎ (e.line ≡ line_of_record text.now e.number)) }
    ensures detail { IfErr result (λ e. e.detail ≡ detail_of (numbered_record (records_of text.now) e.number) (fault_in e)) }
{
    match close_lines(alloc, text) {
        Ok(body) => read_body(alloc, text, &body.bytes, body.is_cut),
        Err(_) => Err(SetFault {
            number: 1,
            line: 1,
            field: None,
            cause: Cause::Memory,
            detail: None,
        }),
    }
}
