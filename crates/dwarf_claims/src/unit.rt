//! The claims of one unit of `.debug_info`.

ghost use Rattle.std.specs.Prelude.{◌≡◌, Ok};
ghost use Rattle.std.specs.List.{flat_map};
ghost use Rattle.claim_sheet.specs.Known.{IsKnown};
ghost use Rattle.dwarf_units.specs.Roots.{root_of, shown_root};
ghost use Rattle.dwarf_claims.specs.Tables.{IsUnitOf};
ghost use Rattle.dwarf_claims.specs.UnderLabel.{AddsUnder};
ghost use Rattle.dwarf_claims.specs.UnitClaims.{range_claim, told_claims};
ghost use Rattle.dwarf_claims.specs.UnitSteps.{AddsUnit};

use crate::last_label::LastLabel;
use crate::last_ranges::{LastRanges, read_ranges};
use crate::table::{LastTables, root_of};
use claim_sheet::{ClaimSheet, KnownLabel, Reach, Stop, span};
use dwarf_line_header::{program_bytes, unit_program};
use dwarf_units::{DwarfUnit, Root, Sections};
use size_core::{NoMemory, Span};
use std::alloc::Global;

/// What was read last for the claims of units. Units in a row often share it.
#[derive(Drop)]
pub struct LastUnit<'a> {
    pub tables: LastTables<'a>,
    pub ranges: LastRanges,
    pub label: LastLabel<'a>,
}

// A unit and its root.
#[derive(Clone, Copy)]
struct UnitWithRoot<'r, 'a> {
    unit: &'r DwarfUnit<'a>,
    root: &'r Root<'a>,
}

// What a unit claims: its ranges of addresses, its bytes, its table of abbreviations and its line program.
#[derive(Clone, Copy)]
struct UnitParts<'r, 'a> {
    unit: &'r DwarfUnit<'a>,
    root: &'r Root<'a>,
    ranges: &'r [(u64, u64)],
    program: Option<Span>,
}

// Adds the claim of a range of addresses.
#[tactic(auto, unfolding(crate::specs::UnitClaims::range_claim))]
fn add_range(
    range: (u64, u64),
    label: &mut KnownLabel<'_>,
    sheet: &mut ClaimSheet,
) -> Result<(), NoMemory>
    requires { IsKnown sheet.old.made label.old }
    ensures { AddsUnder label.old label.new result sheet.old sheet.new
        (range_claim label.old.text.now range) }
{
    sheet.add_known(Reach::in_memory(span(0, range.0, range.1)), label)
}

// Adds the claims of ranges, in order.
#[tactic(auto, using(claim_sheet::proofs::LoopLemmas::list_goes, claim_sheet::proofs::ListLemmas::none_left, std::proofs::lemmas::List::drop_more, std::proofs::lemmas::List::drop_all))]
fn add_ranges(
    ranges: &[(u64, u64)],
    label: &mut KnownLabel<'_>,
    sheet: &mut ClaimSheet,
) -> Result<(), NoMemory>
    requires { IsKnown sheet.old.made label.old }
    ensures { AddsUnder label.old label.new result sheet.old sheet.new
        (flat_map (range_claim label.old.text.now) ranges.now) }
{
    for range in ranges {
        add_range(*range, label, sheet)?;
    }
    Ok(())
}

impl UnitParts<'_, '_> {
    // Adds the claims of the unit.
    #[tactic(auto, using(claim_sheet::proofs::SheetLemmas::adding_more, claim_sheet::proofs::SheetLemmas::adding_none, crate::proofs::StopLemmas::append_none), unfolding(crate::specs::UnitClaims::told_claims))]
    fn add(self, label: &mut KnownLabel<'_>, sheet: &mut ClaimSheet) -> Result<(), NoMemory>
        requires { IsKnown sheet.old.made label.old }
        ensures { AddsUnder label.old label.new result sheet.old sheet.new
            (told_claims self.entry.unit.now (shown_root self.entry.root.now)
            label.old.text.now self.entry.ranges.now self.entry.program) }
    {
        let unit = Reach::in_file(span(0, self.unit.place, self.unit.len));
        let table = Reach::in_file(span(0, self.root.table_place, self.root.table_len));
        add_ranges(self.ranges, label, sheet)?;
        sheet.add_known(unit, label)?;
        sheet.add_known(table, label)?;
        match self.program {
            Some(bytes) => sheet.add_known(Reach::in_file(bytes), label),
            None => Ok(()),
        }
    }
}

// Adds the claims of a unit that has this root, and returns its label. Bad is the fault of its name, its ranges or its
// line program.
#[tactic(auto, unfolding(crate::specs::UnitClaims::unit_claims))]
fn add_unit_with_root<'a>(
    alloc: Global,
    sections: &Sections<'a>,
    with_root: UnitWithRoot<'_, 'a>,
    last: &mut LastUnit<'a>,
    sheet: &mut ClaimSheet,
) -> Result<KnownLabel<'a>, Stop>
    requires last { IsUnitOf sections.now sheet.old last.old }
    requires root { root_of sections.now with_root.unit.now ≡ Ok (shown_root with_root.root.now) }
    ensures { AddsUnit sections.now with_root.entry.unit.now result sheet.old sheet.new last.new }
{
    last.label.read(with_root.root, sections)?;
    read_ranges(alloc, sections, with_root.root, &mut last.ranges)?;
    let program = program_bytes(sections, unit_program(with_root.root))?;
    let parts = UnitParts {
        unit: with_root.unit,
        root: with_root.root,
        ranges: last.ranges.ranges.as_slice(),
        program,
    };
    let mut label = last.label.label;
    parts.add(&mut label, sheet)?;
    last.label.label = label;
    Ok(label)
}

/// Adds the claims of a unit, and returns its label. Bad is the first fault of the unit.
#[tactic(auto, unfolding(crate::specs::UnitClaims::unit_claims))]
pub fn add_unit<'a>(
    alloc: Global,
    sections: &Sections<'a>,
    unit: &DwarfUnit<'a>,
    last: &mut LastUnit<'a>,
    sheet: &mut ClaimSheet,
) -> Result<KnownLabel<'a>, Stop>
    requires { IsUnitOf sections.now sheet.old last.old }
    ensures { AddsUnit sections.now unit.now result sheet.old sheet.new last.new }
{
    match root_of(alloc, sections, unit, &mut last.tables) {
        Ok(root) => {
            let with_root = UnitWithRoot { unit, root: &root };
            add_unit_with_root(alloc, sections, with_root, last, sheet)
        }
        Err(stop) => Err(stop),
    }
}
