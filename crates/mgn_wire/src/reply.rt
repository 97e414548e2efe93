ghost use Rattle.std.specs.Prelude.{◌≡◌, ◌≤◌, ◌+◌, ◌++◌, [], OnOk, OnErr, IsOk, codes, drop, length, take, vec_capacity};
ghost use Rattle.mgn_wire.specs.Fields.{figures_text, number_text};
ghost use Rattle.mgn_wire.specs.Room.{FitsIn};
ghost use Rattle.mgn_wire.specs.Text.{fault_text, line_reply_of, lines_after, place_text, refusal_text, reply_of, set_text, text_of, totals_text};

use crate::fault::{LineFault, Memory};
use crate::row::{LONG_ROW, ROW, write_byte, write_field, write_figures, write_number, write_text};
use crate::statement::{line_count, print_statement};
use mgn_machine::{Answer, NewSet, Refusal, Reply, Totals, UnitFigures};
use std::alloc::AllocError;

/// No line of a reply is longer, with its line feed: five numbers of at most 38 bytes and a place of at most 20, with what
/// stands between them. The further lines of a statement are not bounded by it.
pub const LONGEST_REPLY: usize = 224;

/// What a line is answered.
#[derive(Drop)]
pub enum LineReply {
    /// The answer to the request that it asks for.
    Answered(Answer),
    /// It asks for nothing.
    NotRead(LineFault),
    /// `SWITCH`: the set has no file, or none that can be read and is no longer than a set's file may be.
    NoSet,
    /// `SWITCH`: the record of this number, the first that is wrong, keeps the file from being a set.
    BadSet(u64),
}

fn refusal_text(refusal: Refusal) -> &'static str
    ensures text { result.now ≡ refusal_text refusal }
    ensures short { length result.now ≤ 13 }
{
    match refusal {
        Refusal::NoAccount => "20 NOACCT",
        Refusal::NoOrigin => "21 NOORIGIN",
        Refusal::Duplicate => "22 DUP",
        Refusal::NoContract => "23 NOCONTRACT",
        Refusal::NoTrade => "24 NOTRADE",
        Refusal::NoOrder => "25 NOORDER",
        Refusal::NoClass => "26 NOCLASS",
        Refusal::NoRoom => "30 NOROOM",
        Refusal::Limit => "31 LIMIT",
        Refusal::Premium => "32 PREMIUM",
        Refusal::Over => "33 OVER",
        Refusal::OtherOrigin => "34 ORIGIN",
        Refusal::Moved => "35 MOVED",
        Refusal::Missing => "42 MISSING",
        Refusal::Sets => "43 SETS",
        Refusal::Closed => "50 CLOSED",
        Refusal::Memory => "90 MEMORY",
        Refusal::Full => "91 FULL",
        Refusal::Broken => "92 BROKEN",
    }
}

fn fault_text(fault: LineFault) -> &'static str
    ensures text { result.now ≡ fault_text fault }
    ensures short { length result.now ≤ 9 }
{
    match fault {
        LineFault::Syntax => "10 SYNTAX",
        LineFault::Long => "11 LONG",
        LineFault::Range => "12 RANGE",
    }
}

// The place of an answer after a space, where it has one: at most 21 bytes.
#[inline]
fn write_place(place: Option<u64>, row: &mut [u8], end: usize) -> usize
    requires { (21 ≤ end) × (end ≤ length row.old) }
    ensures start { result + length (place_text place) ≡ end }
    ensures short { end ≤ result + 21 }
    ensures written { drop result row.new ≡ place_text place ++ drop end row.old }
{
    match place {
        Some(place) => write_number(place, row, end),
        None => end,
    }
}

// That a command was done, and the place of its answer: at most 23 bytes.
#[inline]
fn write_done(place: Option<u64>, row: &mut [u8], end: usize) -> usize
    requires { (23 ≤ end) × (end ≤ length row.old) }
    ensures within { result ≤ end }
    ensures short { end ≤ result + 23 }
    ensures written { drop result row.new ≡ codes "OK" ++ place_text place ++ drop end row.old }
{
    let start = write_place(place, row, end);
    write_text(b"OK", row, start)
}

// Three amounts and a number, each after a space: at most 138 bytes.
fn write_totals(totals: &Totals, row: &mut [u8], end: usize) -> usize
    requires { (138 ≤ end) × (end ≤ length row.old) }
    ensures start { result + length (totals_text totals.now) ≡ end }
    ensures short { end ≤ result + 138 }
    ensures written { drop result row.new ≡ totals_text totals.now ++ drop end row.old }
{
    let start = write_number(u64::from(totals.accounts), row, end);
    let start = write_field(totals.call, row, start);
    let start = write_field(totals.value, row, start);
    write_field(totals.requirement, row, start)
}

// Here and below: at any outcome what was there stays in front, so what a failed reply left can be cut off.
fn print_done(place: Option<u64>, out: &mut Vec<u8>) -> Result<(), AllocError>
    ensures ok { OnOk result (out.new.items ≡ out.old.items ++ codes "OK" ++ place_text place ++ codes "\n") }
    ensures kept { take (length out.old.items) out.new.items ≡ out.old.items }
    ensures room { FitsIn 24 out.old out.new result }
{
    let mut row = [0; ROW];
    let start = write_byte(b'\n', &mut row, ROW);
    let start = write_done(place, &mut row, start);
    out.extend_from_slice(&row[start..])
}

fn print_figures(
    figures: &UnitFigures,
    place: Option<u64>,
    out: &mut Vec<u8>,
) -> Result<(), AllocError>
    ensures ok { OnOk result (out.new.items ≡ out.old.items
        ++ codes "OK" ++ place_text place ++ figures_text figures.now ++ codes "\n") }
    ensures kept { take (length out.old.items) out.new.items ≡ out.old.items }
    ensures room { FitsIn 219 out.old out.new result }
{
    let mut row = [0; LONG_ROW];
    let start = write_byte(b'\n', &mut row, LONG_ROW);
    let start = write_figures(figures, &mut row, start);
    let start = write_done(place, &mut row, start);
    out.extend_from_slice(&row[start..])
}

fn print_totals(totals: &Totals, place: Option<u64>, out: &mut Vec<u8>) -> Result<(), AllocError>
    ensures ok { OnOk result (out.new.items ≡ out.old.items
        ++ codes "OK" ++ place_text place ++ totals_text totals.now ++ codes "\n") }
    ensures kept { take (length out.old.items) out.new.items ≡ out.old.items }
    ensures room { FitsIn 162 out.old out.new result }
{
    let mut row = [0; LONG_ROW];
    let start = write_byte(b'\n', &mut row, LONG_ROW);
    let start = write_totals(totals, &mut row, start);
    let start = write_done(place, &mut row, start);
    out.extend_from_slice(&row[start..])
}

fn print_set(told: NewSet, place: Option<u64>, out: &mut Vec<u8>) -> Result<(), AllocError>
    ensures ok { OnOk result (out.new.items ≡ out.old.items
        ++ codes "OK" ++ place_text place ++ set_text told ++ codes "\n") }
    ensures kept { take (length out.old.items) out.new.items ≡ out.old.items }
    ensures room { FitsIn 66 out.old out.new result }
{
    let mut row = [0; ROW];
    let start = write_byte(b'\n', &mut row, ROW);
    let start = write_number(u64::from(told.on_call), &mut row, start);
    let start = write_number(u64::from(told.version), &mut row, start);
    let start = write_done(place, &mut row, start);
    out.extend_from_slice(&row[start..])
}

// How many lines of a statement follow.
fn print_count(count: u64, place: Option<u64>, out: &mut Vec<u8>) -> Result<(), AllocError>
    ensures ok { OnOk result (out.new.items ≡ out.old.items
        ++ codes "OK" ++ place_text place ++ number_text count ++ codes "\n") }
    ensures kept { take (length out.old.items) out.new.items ≡ out.old.items }
    ensures room { FitsIn 45 out.old out.new result }
{
    let mut row = [0; ROW];
    let start = write_byte(b'\n', &mut row, ROW);
    let start = write_number(count, &mut row, start);
    let start = write_done(place, &mut row, start);
    out.extend_from_slice(&row[start..])
}

fn print_refused(refusal: Refusal, place: Option<u64>, out: &mut Vec<u8>) -> Result<(), AllocError>
    ensures ok { OnOk result (out.new.items ≡ out.old.items
        ++ codes "ERR" ++ place_text place ++ codes " " ++ refusal_text refusal ++ codes "\n") }
    ensures kept { take (length out.old.items) out.new.items ≡ out.old.items }
    ensures room { FitsIn 39 out.old out.new result }
{
    let mut row = [0; ROW];
    let start = write_byte(b'\n', &mut row, ROW);
    let start = write_text(refusal_text(refusal).as_bytes(), &mut row, start);
    let start = write_byte(b' ', &mut row, start);
    let start = write_place(place, &mut row, start);
    let start = write_text(b"ERR", &mut row, start);
    out.extend_from_slice(&row[start..])
}

fn print_answer(answer: &Answer, out: &mut Vec<u8>) -> Result<(), AllocError>
    ensures ok { OnOk result (out.new.items ≡ out.old.items ++ reply_of answer.now.place answer.now.reply ++ codes "\n") }
    ensures kept { take (length out.old.items) out.new.items ≡ out.old.items }
    ensures room { FitsIn 219 out.old out.new result }
{
    match &answer.reply {
        Reply::Done => print_done(answer.place, out),
        Reply::Figures(figures) => print_figures(figures, answer.place, out),
        Reply::Totals(totals) => print_totals(totals, answer.place, out),
        Reply::NewSet(told) => print_set(*told, answer.place, out),
        Reply::Statement(shared) => {
            print_count(line_count(shared.statement()), answer.place, out)
        }
        Reply::Refused(refusal) => print_refused(*refusal, answer.place, out),
    }
}

// Why a line asks for nothing, and the number of the record that is wrong, where one is.
fn print_error(text: &str, number: Option<u64>, out: &mut Vec<u8>) -> Result<(), AllocError>
    requires { length text.now ≤ 9 }
    ensures ok { OnOk result (out.new.items ≡ out.old.items
        ++ codes "ERR " ++ text.now ++ place_text number ++ codes "\n") }
    ensures kept { take (length out.old.items) out.new.items ≡ out.old.items }
    ensures room { FitsIn 35 out.old out.new result }
{
    let mut row = [0; ROW];
    let start = write_byte(b'\n', &mut row, ROW);
    let start = write_place(number, &mut row, start);
    let start = write_text(text.as_bytes(), &mut row, start);
    let start = write_text(b"ERR ", &mut row, start);
    out.extend_from_slice(&row[start..])
}

fn print_reply(reply: &LineReply, out: &mut Vec<u8>) -> Result<(), AllocError>
    ensures ok { OnOk result (out.new.items ≡ out.old.items ++ line_reply_of reply.now ++ codes "\n") }
    ensures kept { take (length out.old.items) out.new.items ≡ out.old.items }
    ensures room { FitsIn 219 out.old out.new result }
{
    match reply {
        LineReply::Answered(answer) => print_answer(answer, out),
        LineReply::NotRead(fault) => print_error(fault_text(*fault), None, out),
        LineReply::NoSet => print_error("40 NOSET", None, out),
        LineReply::BadSet(record) => print_error("41 BADSET", Some(*record), out),
    }
}

// A statement has lines of its own after that of its reply.
#[tactic(auto, using(crate::proofs::RoomFacts::statement_filled))]
fn print_lines_after(reply: &LineReply, out: &mut Vec<u8>) -> Result<(), AllocError>
    ensures ok { OnOk result (out.new.items ≡ out.old.items ++ lines_after reply.now) }
    ensures kept { take (length out.old.items) out.new.items ≡ out.old.items }
    ensures room { lines_after reply.now ≡ [] → FitsIn 0 out.old out.new result }
{
    match reply {
        LineReply::Answered(answer) => match &answer.reply {
            Reply::Statement(shared) => print_statement(shared.statement(), out),
            _ => Ok(()),
        },
        _ => Ok(()),
    }
}

#[tactic(auto, unfolding(crate::specs::Text::text_of))]
fn print_line(reply: &LineReply, out: &mut Vec<u8>) -> Result<(), AllocError>
    ensures ok { OnOk result (out.new.items ≡ out.old.items ++ text_of reply.now) }
    ensures kept { take (length out.old.items) out.new.items ≡ out.old.items }
    ensures room { lines_after reply.now ≡ [] → FitsIn 219 out.old out.new result }
{
    print_reply(reply, out)?;
    print_lines_after(reply, out)
}

/// Appends the text of what a line is answered: a line, and after it those of a statement, each with its line feed. On
/// `Memory` the text is as it was. A reply of one line, as all are but a statement, finds memory where the buffer has room
/// for `LONGEST_REPLY` bytes.
pub fn reply_text(reply: &LineReply, out: &mut Vec<u8>) -> Result<(), Memory>
    ensures ok { OnOk result (out.new.items ≡ out.old.items ++ text_of reply.now) }
    ensures err { OnErr result (out.new.items ≡ out.old.items) }
    ensures room { lines_after reply.now ≡ [] → length out.old.items + LONGEST_REPLY ≤ vec_capacity out.old → IsOk result }
    ensures capacity { lines_after reply.now ≡ [] → vec_capacity out.old ≤ vec_capacity out.new }
{
    let before = out.len();
    match print_line(reply, out) {
        Ok(()) => Ok(()),
        Err(_) => {
            out.truncate(before);
            Err(Memory)
        }
    }
}
