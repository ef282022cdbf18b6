//! The units of `.debug_info`, one after another.

ghost use Rattle.std.specs.Prelude.{◌≡◌, [], ◌∷◌, MatchOption};
ghost use Rattle.std.specs.Iterator.{YieldsFirst, item_count};
ghost use Rattle.dwarf_units.specs.Units.{units_from, units_of};

use crate::sections::Sections;
use crate::unit::{DwarfUnit, unit_from};
use byte_cursor::{Cursor, Order};
use size_core::BadFile;
use std::marker::Model;

/// The next unit or fault. After a fault nothing follows.
#[tactic(auto, using(crate::proofs::UnitLemmas::comes_none, crate::proofs::UnitLemmas::comes_fault, crate::proofs::UnitLemmas::comes_unit, crate::proofs::UnitLemmas::comes_same, crate::proofs::UnitLemmas::unit_less))]
fn next_unit<'a>(
    cursor: &mut Cursor<'a>,
    order: Order,
    start: u64,
) -> Option<Result<DwarfUnit<'a>, BadFile>>
    ensures { MatchOption result
        ((units_from order start cursor.old ≡ []) × (units_from order start cursor.new ≡ []))
        (λ x. units_from order start cursor.old ≡ x ∷ units_from order start cursor.new) }
{
    while cursor.left() > 0 {
        match unit_from(cursor, order, start) {
            Ok(Some(unit)) => return Some(Ok(unit)),
            Ok(None) => {}
            Err(fault) => {
                let _ = cursor.skip(cursor.left());
                return Some(Err(fault));
            }
        }
    }
    None
}

/// The units of `.debug_info` in order, and then its fault, if there is one. Three kinds of units are
/// skipped: those too short for a version, those of a version other than 2 to 5, and those of a type that the
/// standard doesn't define.
#[derive(Drop)]
pub struct Units<'a> {
    order: Order,
    start: u64,
    cursor: Cursor<'a>,
}

impl<'a> Model for Units<'a> {
    ghost use Rattle.std.specs.Prelude.{List, Result};
    ghost use Rattle.size_core.specs.declared.fault.BadFile.{BadFile};
    ghost use Rattle.dwarf_units.specs.declared.unit.DwarfUnit.{DwarfUnit};
    ghost use Rattle.dwarf_units.specs.Units.{units_from};

    ghost Value = { List (Result DwarfUnit BadFile) };

    ghost view = { λ u. units_from u.order u.start u.cursor };
}

impl<'a> Units<'a> {
    /// The units of the section.
    pub fn new(sections: &Sections<'a>) -> Units<'a>
        ensures { result ≡ units_of sections.now }
    {
        Units {
            order: sections.order,
            start: sections.info.place(),
            cursor: sections.info.fork(),
        }
    }
}

impl<'a> Iterator for Units<'a> {
    type Item = Result<DwarfUnit<'a>, BadFile>;

    ghost next_gives = { YieldsFirst (λ s. s) };

    ghost remaining = { item_count (λ s. s) };

    /// The next unit. Truncated or BadUnit at the unit's file offset if its length or its header can't be
    /// read or doesn't fit the section, or BadUnit if its addresses don't have 2, 4 or 8 bytes. After a fault no
    /// unit follows.
    fn next(&mut self) -> Option<Result<DwarfUnit<'a>, BadFile>> {
        next_unit(&mut self.cursor, self.order, self.start)
    }
}
