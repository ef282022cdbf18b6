//! The claims of source lines: the walk over the units and their line programs.

ghost use Rattle.std.specs.Prelude.{OnOk};
ghost use Rattle.claim_sheet.specs.Adds.{AddsRead};
ghost use Rattle.dwarf_claims.specs.LineClaims.{handed_lines, lines_claims};
ghost use Rattle.dwarf_claims.specs.Tables.{IsReadOf};

use crate::last_program::{LastProgram, add_program};
use crate::table::{LastTables, root_of};
use claim_sheet::{ClaimSheet, Stop};
use dwarf_units::{DwarfUnit, Sections, Units};
use size_core::BadFile;
use std::alloc::Global;

/// The tables and the line program that were read last. Units in a row often share them.
#[derive(Drop)]
pub struct LastRead<'a> {
    pub tables: LastTables<'a>,
    pub program: Option<LastProgram>,
}

// Adds the claims of the lines of a unit. Bad is its first fault.
#[tactic(auto, unfolding(crate::specs::LineClaims::line_claims))]
fn add_unit_lines<'a>(
    alloc: Global,
    sections: &Sections<'a>,
    unit: Result<DwarfUnit<'a>, BadFile>,
    last: &mut LastRead<'a>,
    sheet: &mut ClaimSheet,
) -> Result<(), Stop>
    requires { IsReadOf sections.now sheet.old last.old }
    ensures adds { AddsRead result sheet.old sheet.new (handed_lines sections.now unit.entry) }
    ensures last { OnOk result (IsReadOf sections.now sheet.new last.new) }
{
    let unit = unit?;
    let root = root_of(alloc, sections, &unit, &mut last.tables)?;
    add_program(alloc, sections, &root, &mut last.program, sheet)
}

/// Adds the claims of the source lines of all units, in order.
///
/// Two consecutive rows of a sequence claim the addresses from the first row up to the second, if the address rises.
/// The label is the path of the first row's file, a colon and its line. A sequence that starts at 0 or at one of the
/// two greatest addresses claims nothing: linkers leave the lines of dropped functions there.
///
/// Bad is the first fault, unit by unit: those of `DwarfUnit::root`, those of `LineProgram::at`, and BadLine at an
/// instruction that can't be read.
#[tactic(auto, using(claim_sheet::proofs::LoopLemmas::read_list_goes, claim_sheet::proofs::LoopLemmas::read_list_ends), unfolding(crate::specs::LineClaims::lines_claims))]
pub fn add_lines(alloc: Global, sections: &Sections<'_>, sheet: &mut ClaimSheet) -> Result<(), Stop>
    ensures { AddsRead result sheet.old sheet.new (lines_claims sections.now) }
{
    let mut last = LastRead {
        tables: LastTables {
            recent: None,
            older: None,
        },
        program: None,
    };
    for unit in Units::new(sections) {
        add_unit_lines(alloc, sections, unit, &mut last, sheet)?;
    }
    Ok(())
}
