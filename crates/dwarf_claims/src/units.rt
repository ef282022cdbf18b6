//! The claims of the units of `.debug_info` and of the sets of `.debug_aranges`.

ghost use Rattle.std.specs.Prelude.{◌≡◌, Ok, ◌++◌, List, IfOk, OnOk};
ghost use Rattle.size_model.specs.declared.view.LabelledClaim.{LabelledClaim};
ghost use Rattle.claim_sheet.specs.Adds.{AddsRead};
ghost use Rattle.claim_sheet.specs.Known.{IsKnown};
ghost use Rattle.dwarf_units.specs.Units.{units_of};
ghost use Rattle.dwarf_claims.specs.SetClaims.{compile_units_claims, labelled, labels_of};
ghost use Rattle.dwarf_claims.specs.Tables.{AreKnownUnits, IsUnitOf, shown_units};
ghost use Rattle.dwarf_claims.specs.UnitClaims.{handed_claims, units_claims};

use crate::known::KnownUnit;
use crate::last_label::LastLabel;
use crate::last_ranges::LastRanges;
use crate::sets::add_sets;
use crate::table::LastTables;
use crate::unit::{LastUnit, add_unit};
use claim_sheet::{ClaimSheet, KnownLabel, Stop};
use dwarf_units::{DwarfUnit, Sections, Units};
use size_core::{BadFile, NoMemory};
use std::alloc::Global;

// The units that were read, with their labels, and what was read last for a unit.
#[derive(Drop)]
struct ReadUnits<'a> {
    known: Vec<KnownUnit<'a>>,
    last: LastUnit<'a>,
}

// Adds the claims of a unit and keeps its label. Bad is the first fault of the unit, or the fault that ends the units.
#[tactic(auto, using(crate::proofs::KnownLemmas::units_more), unfolding(crate::specs::SetClaims::labelled))]
fn add_item<'a>(
    alloc: Global,
    sections: &Sections<'a>,
    unit: Result<DwarfUnit<'a>, BadFile>,
    units: &mut ReadUnits<'a>,
    sheet: &mut ClaimSheet,
) -> Result<(), Stop>
    requires last { IsUnitOf sections.now sheet.old units.old.last }
    requires known { AreKnownUnits sheet.old.made units.old.known.items }
    ensures adds { AddsRead result sheet.old sheet.new (handed_claims sections.now unit.entry) }
    ensures labels { OnOk result (shown_units units.new.known.items
        ≡ shown_units units.old.known.items ++ labelled sections.now unit.entry) }
    ensures known { OnOk result (AreKnownUnits sheet.new.made units.new.known.items) }
    ensures last { OnOk result (IsUnitOf sections.now sheet.new units.new.last) }
{
    match unit {
        Ok(unit) => {
            let label = add_unit(alloc, sections, &unit, &mut units.last, sheet)?;
            let offset = unit.offset;
            let pushed = units.known.push(KnownUnit { offset, label });
            pushed.map_err(NoMemory::from)?;
            Ok(())
        }
        Err(bad) => Err(Stop::Bad(bad)),
    }
}

// Adds the claims of all units, in order, and returns their offsets and labels.
#[tactic(auto, using(crate::proofs::KnownLemmas::units_none, claim_sheet::proofs::LoopLemmas::read_list_goes, claim_sheet::proofs::LoopLemmas::read_list_ends, std::proofs::Common::append_assoc), unfolding(crate::specs::UnitClaims::units_claims))]
fn add_each<'a>(
    alloc: Global,
    sections: &Sections<'a>,
    sheet: &mut ClaimSheet,
) -> Result<Vec<KnownUnit<'a>>, Stop>
    ensures adds { AddsRead result sheet.old sheet.new (units_claims sections.now) }
    ensures labels { IfOk result
        (λ v. shown_units v.items ≡ labels_of sections.now (units_of sections.now)) }
    ensures known { IfOk result (λ v. AreKnownUnits sheet.new.made v.items) }
{
    let last = LastUnit {
        tables: LastTables {
            recent: None,
            older: None,
        },
        ranges: LastRanges {
            key: None,
            ranges: Vec::new(alloc),
            is_hollow: false,
        },
        label: LastLabel {
            name: None,
            label: KnownLabel {
                text: b"",
                claim: None,
            },
        },
    };
    let mut units = ReadUnits {
        known: Vec::new(alloc),
        last,
    };
    for unit in Units::new(sections) {
        add_item(alloc, sections, unit, &mut units, sheet)?;
    }
    Ok(units.known)
}

/// Adds the claims of the units of `.debug_info`, in order, and then those of the sets of `.debug_aranges`.
///
/// A unit claims its ranges of addresses. In the file it claims its bytes, its table of abbreviations and its line
/// program, with their length fields. The label is its name, or `[Unnamed unit]`. An address set claims its tuples and
/// its bytes under the label of its unit; without such a unit it claims nothing. Ranges and tuples that are empty, or
/// that start at 0 or at one of the two greatest addresses, claim nothing.
///
/// Bad is the first fault. Each unit may have the faults of `DwarfUnit::root`, of its name and of `unit_ranges`; and
/// OffsetOutside, Truncated or BadUnit if its line program isn't in `.debug_line` or the length of the program can't be
/// read. The address sets come after all units, with the faults of their lengths.
#[tactic(auto, using(claim_sheet::proofs::LoopLemmas::read_joined, claim_sheet::proofs::LoopLemmas::joined_front, claim_sheet::proofs::LoopLemmas::joined_later, crate::proofs::Ascending::labels_ascend), unfolding(crate::specs::SetClaims::compile_units_claims))]
pub fn add_units(alloc: Global, sections: &Sections<'_>, sheet: &mut ClaimSheet) -> Result<(), Stop>
    ensures { AddsRead result sheet.old sheet.new (compile_units_claims sections.now) }
{
    let units = add_each(alloc, sections, sheet)?;
    add_sets(sections, &units, sheet)?;
    Ok(())
}
