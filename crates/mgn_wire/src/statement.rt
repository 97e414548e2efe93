ghost use Rattle.std.specs.Prelude.{◌≡◌, ◌≤◌, ◌+◌, ◌++◌, ◌∷◌, [], OnOk, OnErr, codes, drop, length, take};
ghost use Rattle.std.specs.List.{flat_map};
ghost use Rattle.mgn_wire.specs.StatementText.{account_line, cash_line, charges_text, class_text, commodity_text, figures_line, hold_text, line_count, lot_text, mark_text, mode_text, option_line, own_lines, statement_text, unit_lines};

use crate::fault::Memory;
use crate::row::{
    LONG_ROW, ROW, write_byte, write_field, write_figures, write_name, write_number,
    write_quantity, write_text,
};
use mgn_holds::Held;
use mgn_lots::{Lot, Mark};
use mgn_machine::{ClassLine, CommodityLine, CommodityLines, Heading, Mode, Statement};
use std::alloc::AllocError;

// How the account is margined, after a space: at most 6 bytes.
fn write_mode(mode: Mode, row: &mut [u8], end: usize) -> usize
    requires { (6 ≤ end) × (end ≤ length row.old) }
    ensures start { result + length (mode_text mode) ≡ end }
    ensures short { end ≤ result + 6 }
    ensures written { drop result row.new ≡ mode_text mode ++ drop end row.old }
{
    match mode {
        Mode::Gross => write_text(b" GROSS", row, end),
        Mode::Net => write_text(b" NET", row, end),
    }
}

fn mark_letter(mark: Mark) -> u8
    ensures { codes " " ++ result ∷ [] ≡ mark_text mark }
{
    match mark {
        Mark::Traded => b'T',
        Mark::Moved => b'M',
        Mark::Busted => b'B',
    }
}

// Whether the lot was traded or moved, after a space: 2 bytes.
#[inline]
fn write_mark(mark: Mark, row: &mut [u8], end: usize) -> usize
    requires { (2 ≤ end) × (end ≤ length row.old) }
    ensures start { result + 2 ≡ end }
    ensures written { drop result row.new ≡ mark_text mark ++ drop end row.old }
{
    let start = write_byte(mark_letter(mark), row, end);
    write_byte(b' ', row, start)
}

// As in replies: at any outcome what was there stays in front, so what a failed statement left can be cut off.
fn print_account(heading: &Heading, out: &mut Vec<u8>) -> Result<(), AllocError>
    ensures ok { OnOk result (out.new.items ≡ out.old.items ++ account_line heading.now) }
    ensures kept { take (length out.old.items) out.new.items ≡ out.old.items }
{
    let mut row = [0; ROW];
    let start = write_byte(b'\n', &mut row, ROW);
    let start = write_number(u64::from(heading.version.number()), &mut row, start);
    let start = write_name(heading.set.as_bytes(), &mut row, start);
    let start = write_mode(heading.mode, &mut row, start);
    let start = write_name(heading.origin.as_bytes(), &mut row, start);
    let start = write_name(heading.account.as_bytes(), &mut row, start);
    let start = write_byte(b'S', &mut row, start);
    out.extend_from_slice(&row[start..])
}

fn print_figures_line(heading: &Heading, out: &mut Vec<u8>) -> Result<(), AllocError>
    ensures ok { OnOk result (out.new.items ≡ out.old.items ++ figures_line heading.now) }
    ensures kept { take (length out.old.items) out.new.items ≡ out.old.items }
{
    let mut row = [0; LONG_ROW];
    let start = write_byte(b'\n', &mut row, LONG_ROW);
    let start = write_field(heading.call, &mut row, start);
    let start = write_figures(&heading.figures, &mut row, start);
    let start = write_byte(b'F', &mut row, start);
    out.extend_from_slice(&row[start..])
}

// Five amounts, each after a space: at most 195 bytes.
fn write_charges(line: &CommodityLine, row: &mut [u8], end: usize) -> usize
    requires { (195 ≤ end) × (end ≤ length row.old) }
    ensures start { result + length (charges_text line.now) ≡ end }
    ensures short { end ≤ result + 195 }
    ensures written { drop result row.new ≡ charges_text line.now ++ drop end row.old }
{
    let start = write_field(line.risk, row, end);
    let start = write_field(line.minimum, row, start);
    let start = write_field(line.credit, row, start);
    let start = write_field(line.spot, row, start);
    write_field(line.intra, row, start)
}

fn print_commodity(line: &CommodityLine, out: &mut Vec<u8>) -> Result<(), AllocError>
    ensures ok { OnOk result (out.new.items ≡ out.old.items ++ commodity_text line.now) }
    ensures kept { take (length out.old.items) out.new.items ≡ out.old.items }
{
    let mut row = [0; LONG_ROW];
    let start = write_byte(b'\n', &mut row, LONG_ROW);
    let start = write_charges(line, &mut row, start);
    let start = write_number(u64::from(line.active), &mut row, start);
    let start = write_field(line.scan, &mut row, start);
    let start = write_name(line.commodity.as_bytes(), &mut row, start);
    let start = write_byte(b'G', &mut row, start);
    out.extend_from_slice(&row[start..])
}

fn print_option_value(heading: &Heading, out: &mut Vec<u8>) -> Result<(), AllocError>
    ensures ok { OnOk result (out.new.items ≡ out.old.items ++ option_line heading.now) }
    ensures kept { take (length out.old.items) out.new.items ≡ out.old.items }
{
    let mut row = [0; ROW];
    let start = write_byte(b'\n', &mut row, ROW);
    let start = write_field(heading.option_value, &mut row, start);
    let start = write_byte(b'N', &mut row, start);
    out.extend_from_slice(&row[start..])
}

fn print_lot(lot: &Lot, out: &mut Vec<u8>) -> Result<(), AllocError>
    ensures ok { OnOk result (out.new.items ≡ out.old.items ++ lot_text lot.now) }
    ensures kept { take (length out.old.items) out.new.items ≡ out.old.items }
{
    let mut row = [0; ROW];
    let start = write_byte(b'\n', &mut row, ROW);
    let start = write_mark(lot.mark, &mut row, start);
    let start = write_number(u64::from(lot.premium), &mut row, start);
    let start = write_quantity(lot.quantity, &mut row, start);
    let start = write_name(lot.contract.as_bytes(), &mut row, start);
    let start = write_number(lot.number.number(), &mut row, start);
    let start = write_byte(b'L', &mut row, start);
    out.extend_from_slice(&row[start..])
}

fn print_hold(held: &Held, out: &mut Vec<u8>) -> Result<(), AllocError>
    ensures ok { OnOk result (out.new.items ≡ out.old.items ++ hold_text held.now) }
    ensures kept { take (length out.old.items) out.new.items ≡ out.old.items }
{
    let mut row = [0; ROW];
    let start = write_byte(b'\n', &mut row, ROW);
    let start = write_number(u64::from(held.limit), &mut row, start);
    let start = write_quantity(held.quantity, &mut row, start);
    let start = write_name(held.contract.as_bytes(), &mut row, start);
    let start = write_number(held.order.number(), &mut row, start);
    let start = write_byte(b'O', &mut row, start);
    out.extend_from_slice(&row[start..])
}

fn print_cash(heading: &Heading, out: &mut Vec<u8>) -> Result<(), AllocError>
    ensures ok { OnOk result (out.new.items ≡ out.old.items ++ cash_line heading.now) }
    ensures kept { take (length out.old.items) out.new.items ≡ out.old.items }
{
    let mut row = [0; ROW];
    let start = write_byte(b'\n', &mut row, ROW);
    let start = write_number(heading.cash, &mut row, start);
    let start = write_text(b"C CASH", &mut row, start);
    out.extend_from_slice(&row[start..])
}

fn print_class(line: &ClassLine, out: &mut Vec<u8>) -> Result<(), AllocError>
    ensures ok { OnOk result (out.new.items ≡ out.old.items ++ class_text line.now) }
    ensures kept { take (length out.old.items) out.new.items ≡ out.old.items }
{
    let mut row = [0; ROW];
    let start = write_byte(b'\n', &mut row, ROW);
    let start = write_number(line.value, &mut row, start);
    let start = write_number(line.units, &mut row, start);
    let start = write_name(line.class.as_bytes(), &mut row, start);
    let start = write_byte(b'C', &mut row, start);
    out.extend_from_slice(&row[start..])
}

fn print_commodities(lines: &CommodityLines, out: &mut Vec<u8>) -> Result<(), AllocError>
    ensures ok { OnOk result (out.new.items ≡ out.old.items ++ flat_map commodity_text lines.now) }
    ensures kept { take (length out.old.items) out.new.items ≡ out.old.items }
{
    for place in 0..lines.len() {
        print_commodity(&lines.line(place), out)?;
    }
    Ok(())
}

fn print_lots(lots: &[Lot], out: &mut Vec<u8>) -> Result<(), AllocError>
    ensures ok { OnOk result (out.new.items ≡ out.old.items ++ flat_map lot_text lots.now) }
    ensures kept { take (length out.old.items) out.new.items ≡ out.old.items }
{
    for lot in lots {
        print_lot(lot, out)?;
    }
    Ok(())
}

fn print_holds(holds: &[Held], out: &mut Vec<u8>) -> Result<(), AllocError>
    ensures ok { OnOk result (out.new.items ≡ out.old.items ++ flat_map hold_text holds.now) }
    ensures kept { take (length out.old.items) out.new.items ≡ out.old.items }
{
    for held in holds {
        print_hold(held, out)?;
    }
    Ok(())
}

fn print_classes(lines: &[ClassLine], out: &mut Vec<u8>) -> Result<(), AllocError>
    ensures ok { OnOk result (out.new.items ≡ out.old.items ++ flat_map class_text lines.now) }
    ensures kept { take (length out.old.items) out.new.items ≡ out.old.items }
{
    for line in lines {
        print_class(line, out)?;
    }
    Ok(())
}

#[tactic(auto, unfolding(crate::specs::StatementText::unit_lines))]
fn print_unit(statement: &Statement, out: &mut Vec<u8>) -> Result<(), AllocError>
    ensures ok { OnOk result (out.new.items ≡ out.old.items ++ unit_lines statement.now) }
    ensures kept { take (length out.old.items) out.new.items ≡ out.old.items }
{
    print_figures_line(statement.heading(), out)?;
    print_commodities(statement.commodities(), out)?;
    print_option_value(statement.heading(), out)
}

#[tactic(auto, unfolding(crate::specs::StatementText::own_lines))]
fn print_own(statement: &Statement, out: &mut Vec<u8>) -> Result<(), AllocError>
    ensures ok { OnOk result (out.new.items ≡ out.old.items ++ own_lines statement.now) }
    ensures kept { take (length out.old.items) out.new.items ≡ out.old.items }
{
    print_lots(statement.lots(), out)?;
    print_holds(statement.holds(), out)?;
    print_cash(statement.heading(), out)?;
    print_classes(statement.classes(), out)
}

#[tactic(auto, unfolding(crate::specs::StatementText::statement_text))]
pub(crate) fn print_statement(statement: &Statement, out: &mut Vec<u8>) -> Result<(), AllocError>
    ensures ok { OnOk result (out.new.items ≡ out.old.items ++ statement_text statement.now) }
    ensures kept { take (length out.old.items) out.new.items ≡ out.old.items }
{
    print_account(statement.heading(), out)?;
    print_unit(statement, out)?;
    print_own(statement, out)
}

/// How many lines a statement has.
pub fn line_count(statement: &Statement) -> u64
    ensures { result ≡ line_count statement.now }
{
    let lists = statement.commodities().len() + statement.lots().len() + statement.holds().len();
    4 + (lists + statement.classes().len()) as u64
}

/// Appends the lines of a statement, each with its line feed. On `Memory` the buffer is as it was.
pub fn statement_text(statement: &Statement, out: &mut Vec<u8>) -> Result<(), Memory>
    ensures ok { OnOk result (out.new.items ≡ out.old.items ++ statement_text statement.now) }
    ensures err { OnErr result (out.new.items ≡ out.old.items) }
{
    let before = out.len();
    match print_statement(statement, out) {
        Ok(()) => Ok(()),
        Err(_) => {
            out.truncate(before);
            Err(Memory)
        }
    }
}
