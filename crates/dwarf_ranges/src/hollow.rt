//! Range lists that claim nothing, whatever the first base is. Units with different bases can share such a list.

ghost use Rattle.std.specs.Prelude.{◌≡◌, ℕ, true};
ghost use Rattle.dwarf_units.specs.declared.sections.Sections.{Sections as SectionsSpec};
ghost use Rattle.dwarf_ranges.specs.Entries.{entry_item_from, item_from, item_of, pair_item, pair_item_from};
ghost use Rattle.dwarf_ranges.specs.Hollow.{AddsNothing, GivesNothing, IsHollowList, ReadsNothing};

use crate::claims::{claims_nothing, greatest};
use crate::entry::{Entry, entry_from};
use crate::operands::addresses_from;
use byte_cursor::{Cursor, Order};
use dwarf_abbrev::UnitShape;
use dwarf_units::Sections;

/// How a list continues after an entry that claims nothing, whatever the base is.
#[derive(Clone, Copy)]
pub enum Hollow {
    /// The entry ends the list.
    End,
    /// More entries follow.
    More,
}

// Returns how a list continues after a pair of `.debug_ranges`. None if it may claim something.
#[tactic(auto, using(crate::proofs::HollowLemmas::equal_offsets))]
fn after_pair(size: u8, begin: u64, end: u64) -> Option<Hollow>
    ensures { (base : ℕ) → AddsNothing size result (pair_item size base begin end) }
{
    if begin == 0 && end == 0 {
        return Some(Hollow::End);
    }
    (begin == end || begin == greatest(size)).then_some(Hollow::More)
}

// Returns how a list continues after an entry of DWARF 5. None if it may claim something, or needs `.debug_addr`.
fn after_entry(shape: &UnitShape, entry: Entry) -> Option<Hollow>
    ensures { (s : SectionsSpec) (table place base : ℕ)
        → GivesNothing shape.now.address result (item_of s shape.now table place base entry) }
{
    match entry {
        Entry::EndOfList => Some(Hollow::End),
        Entry::BaseAddress(_) => Some(Hollow::More),
        Entry::OffsetPair(begin, end) => (begin == end).then_some(Hollow::More),
        Entry::StartEnd(start, end) => {
            claims_nothing(shape.address, start, end.saturating_sub(start)).then_some(Hollow::More)
        }
        Entry::StartLength(start, len) => claims_nothing(shape.address, start, len).then_some(
            Hollow::More,
        ),
        Entry::BaseAddressx(_) | Entry::StartxEndx(_, _) | Entry::StartxLength(_, _) => None,
    }
}

// Reads a pair of `.debug_ranges`.
fn hollow_pair(cursor: &mut Cursor, order: Order, size: u8) -> Option<Hollow>
    ensures { (base : ℕ) → ReadsNothing size result
        (pair_item_from order size base cursor.old) cursor.new }
{
    match addresses_from(cursor, order, size) {
        Ok((begin, end)) => after_pair(size, begin, end),
        Err(_) => None,
    }
}

// Reads an entry of DWARF 5.
fn hollow_entry(cursor: &mut Cursor, sections: &Sections, shape: &UnitShape) -> Option<Hollow>
    ensures { (table base : ℕ) → ReadsNothing shape.now.address result
        (entry_item_from sections.now shape.now table base cursor.old) cursor.new }
{
    match entry_from(cursor, sections.order, shape.address) {
        Ok(entry) => after_entry(shape, entry),
        Err(_) => None,
    }
}

// Reads an item of a range list, and returns how the list continues. None if the item may claim something, depends on
// `.debug_addr`, or has a fault.
fn hollow_item(cursor: &mut Cursor, sections: &Sections, shape: &UnitShape) -> Option<Hollow>
    ensures { (table base : ℕ) → ReadsNothing shape.now.address result
        (item_from sections.now shape.now table base cursor.old) cursor.new }
{
    if shape.version == 5 {
        hollow_entry(cursor, sections, shape)
    } else {
        hollow_pair(cursor, sections.order, shape.address)
    }
}

/// Returns true only if the list at the cursor has no fault and no range that claims something, whatever the first base
/// and the table of addresses are.
pub fn is_hollow_list(sections: &Sections, shape: &UnitShape, mut cursor: Cursor) -> bool
    ensures { result ≡ true → IsHollowList sections.now shape.now cursor.entry }
{
    'entries: loop {
        match hollow_item(&mut cursor, sections, shape) {
            Some(Hollow::End) => return true,
            Some(Hollow::More) => {}
            None => return false,
        }
    }
}
