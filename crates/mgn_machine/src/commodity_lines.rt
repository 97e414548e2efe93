//! The lines of a statement on its commodities, in the memory that their amounts need.

ghost use Rattle.std.specs.Prelude.{◌≡◌, ◌<◌, ◌^◌, ◌∷◌, ◌++◌, [], length, slice_get, FitsSigned, IfOk, IfSome, IsSome, OnErr, OnOk, Some};
ghost use Rattle.std.specs.Int.{w64};
ghost use Rattle.mgn_machine.specs.StoredLines.{IsNarrow, IsPlaced, line_of};

use crate::statement::CommodityLine;
use mgn_ids::CommodityName;
use mgn_num::Cents;
use std::alloc::{AllocError, Global};
use std::marker::Model;

// A line whose six amounts fit in 64 bits, or the place of one in a list of those that do not. Fields lie as they are
// listed here, so that the name and the number stand before the amounts.
#[derive(Clone, Copy)]
enum StoredLine {
    Narrow {
        commodity: CommodityName,
        active: u8,
        scan: i64,
        intra: i64,
        spot: i64,
        credit: i64,
        minimum: i64,
        risk: i64,
    },
    Wide(usize),
}

const _: () = prove!(size_of::<StoredLine>() == 72);

fn narrowed(amount: Cents) -> Option<i64>
    ensures same { IfSome result (λ cents. cents ≡ amount) }
    ensures fits { FitsSigned w64 amount → IsSome result }
{
    i64::try_from(amount.amount()).ok()
}

// The line in half the room, none where an amount does not fit.
fn narrow(line: &CommodityLine) -> Option<StoredLine>
    ensures same { IfSome result (λ stored. (wide : _) → line_of wide stored ≡ line.now) }
    ensures placed { IfSome result (λ stored. (wide : _) → IsPlaced wide stored) }
    ensures fits { IsNarrow line.now → IsSome result }
{
    Some(StoredLine::Narrow {
        commodity: line.commodity,
        active: line.active,
        scan: narrowed(line.scan)?,
        intra: narrowed(line.intra)?,
        spot: narrowed(line.spot)?,
        credit: narrowed(line.credit)?,
        minimum: narrowed(line.minimum)?,
        risk: narrowed(line.risk)?,
    })
}

fn line_in(wide: &[CommodityLine], stored: StoredLine) -> CommodityLine
    requires { IsPlaced wide.now stored }
    ensures { result ≡ line_of wide.now stored }
{
    match stored {
        StoredLine::Narrow {
            commodity,
            active,
            scan,
            intra,
            spot,
            credit,
            minimum,
            risk,
        } => CommodityLine {
            commodity,
            scan: Cents::new(i128::from(scan)),
            active,
            intra: Cents::new(i128::from(intra)),
            spot: Cents::new(i128::from(spot)),
            credit: Cents::new(i128::from(credit)),
            minimum: Cents::new(i128::from(minimum)),
            risk: Cents::new(i128::from(risk)),
        },
        StoredLine::Wide(place) => wide[place],
    }
}

/// The lines of a statement on its commodities. Each takes 72 bytes, and 128 more where one of its amounts does not fit in
/// 64 bits. Contracts see the list of the lines.
#[derive(Drop)]
pub struct CommodityLines {
    stored: Vec<StoredLine>,
    wide: Vec<CommodityLine>,
}

impl Model for CommodityLines {
    ghost use Rattle.std.specs.Prelude.{List, map};
    ghost use Rattle.mgn_machine.specs.declared.statement.CommodityLine.{CommodityLine};
    ghost use Rattle.mgn_machine.specs.StoredLines.{AreStored, line_of};

    ghost Value = { List CommodityLine };

    ghost view = { λ s. map (line_of s.wide.items) s.stored.items };

    ghost invariant = { λ s. AreStored s.wide.items s.stored.items };
}

impl CommodityLines {
    /// No lines, with memory for so many whose amounts fit in 64 bits. An error says that memory was refused.
    pub fn with_capacity(alloc: Global, count: usize) -> Result<CommodityLines, AllocError>
        ensures { IfOk result (λ lines. lines ≡ []) }
    {
        Ok(CommodityLines {
            stored: Vec::with_capacity(alloc, count)?,
            wide: Vec::new(alloc),
        })
    }

    /// Appends a line. An error says that memory was refused; the lines are then as they were.
    pub fn push(&mut self, line: &CommodityLine) -> Result<(), AllocError>
        ensures ok { OnOk result (self.new ≡ self.old ++ line.now ∷ []) }
        ensures err { OnErr result (self.new ≡ self.old) }
    {
        self.stored.reserve(1)?;
        match narrow(line) {
            Some(stored) => self.stored.push_reserved(stored),
            None => {
                self.wide.reserve(1)?;
                self.stored.push_reserved(StoredLine::Wide(self.wide.len()));
                self.wide.push_reserved(*line);
            }
        }
        Ok(())
    }

    /// How many lines there are.
    pub fn len(&self) -> usize
        ensures count { result ≡ length self.now }
        ensures few { result < 2 ^ 62 }
    {
        self.stored.as_slice().len()
    }

    /// The line at a place, counted from 0.
    pub fn line(&self, place: usize) -> CommodityLine
        requires { place < length self.now }
        ensures { slice_get self.now place ≡ Some result }
    {
        line_in(&self.wide, self.stored[place])
    }
}
