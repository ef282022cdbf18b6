//! The claims of the debug sections.

ghost use Rattle.std.specs.Prelude.{◌≡◌};
ghost use Rattle.claim_sheet.specs.Adds.{AddsRead};
ghost use Rattle.macho_claims.specs.DebugClaims.{lines_claims, units_claims};

use crate::dwarf_sections::debug_sections;
use claim_sheet::{ClaimSheet, Stop};
use macho_file::MachoFile;
use std::alloc::Global;

/// Adds the claims of the compile units. Bad is the fault of `debug_sections`, or else that of
/// `dwarf_claims::add_units`.
#[tactic(auto, unfolding(crate::specs::DebugClaims::units_claims))]
pub fn add_units(alloc: Global, file: &MachoFile<'_>, sheet: &mut ClaimSheet) -> Result<(), Stop>
    ensures { AddsRead result sheet.old sheet.new (units_claims file.now) }
{
    match debug_sections(file) {
        Ok(sections) => dwarf_claims::add_units(alloc, &sections, sheet),
        Err(bad) => Err(Stop::Bad(bad)),
    }
}

/// Adds the claims of the source lines. Bad is the fault of `debug_sections`, or else that of
/// `dwarf_claims::add_lines`.
#[tactic(auto, unfolding(crate::specs::DebugClaims::lines_claims))]
pub fn add_lines(alloc: Global, file: &MachoFile<'_>, sheet: &mut ClaimSheet) -> Result<(), Stop>
    ensures { AddsRead result sheet.old sheet.new (lines_claims file.now) }
{
    match debug_sections(file) {
        Ok(sections) => dwarf_claims::add_lines(alloc, &sections, sheet),
        Err(bad) => Err(Stop::Bad(bad)),
    }
}
