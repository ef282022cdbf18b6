//! The line program that was read last. Units in a row often share one: a type unit names the program of its compile
//! unit (DWARF 5, section 3.1.4).

ghost use Rattle.std.specs.Prelude.{◌≡◌, ◌≤◌, List, Ok, IfOk, OnOk, length};
ghost use Rattle.size_model.specs.declared.view.LabelledClaim.{LabelledClaim};
ghost use Rattle.claim_sheet.specs.Adds.{AddsRead};
ghost use Rattle.claim_sheet.specs.Known.{AreAdded};
ghost use Rattle.dwarf_units.specs.Roots.{shown_root};
ghost use Rattle.dwarf_line_header.specs.UnitPrograms.{unit_program};
ghost use Rattle.dwarf_claims.specs.LineClaims.{program_claims, reading_at};
ghost use Rattle.dwarf_claims.specs.Tables.{IsAddedProgram, IsProgramOf};

use crate::row::UnitProgram;
use claim_sheet::{ClaimSheet, Stop};
use dwarf_abbrev::UnitShape;
use dwarf_line_header::unit_program;
use dwarf_lines::LineProgram;
use dwarf_units::{Root, Sections};
use std::alloc::Global;

/// A line program that was read, and the positions of its claims on the sheet.
#[derive(Clone, Copy)]
pub struct LastProgram {
    /// Its offset in `.debug_line`.
    pub offset: u64,
    /// The shape of the units that it was read for.
    pub shape: UnitShape,
    /// The position of the first claim.
    pub first: usize,
    /// The position after the last claim.
    pub end: usize,
}

// Adds the claims of a program again.
fn add_again(last: &LastProgram, sheet: &mut ClaimSheet) -> Result<(), Stop>
    requires order { last.now.first ≤ last.now.end }
    requires within { last.now.end ≤ length sheet.old.made }
    ensures { (claims : List LabelledClaim) → AreAdded sheet.old last.now.first last.now.end claims
        → AddsRead result sheet.old sheet.new (Ok claims) }
{
    sheet.add_again(last.first, last.end).map_err(Stop::from)
}

// A line program that a unit names.
#[derive(Clone, Copy)]
struct NamedProgram {
    // Its offset in `.debug_line`.
    offset: u64,
    // The file offset that the fault reports if `offset` is outside the section.
    place: u64,
    // The shape of the unit.
    shape: UnitShape,
}

// Adds the claims of a line program, and returns the program with the positions of its claims. Bad is the first fault
// of the program.
#[tactic(auto, using(crate::proofs::KeptLemmas::program_new))]
fn read_program(
    alloc: Global,
    sections: &Sections<'_>,
    named: NamedProgram,
    sheet: &mut ClaimSheet,
) -> Result<LastProgram, Stop>
    ensures adds { AddsRead result sheet.old sheet.new
        (reading_at sections.now named.shape named.offset named.place) }
    ensures program { IfOk result (λ p. IsAddedProgram sections.now sheet.new p) }
{
    let first = sheet.len();
    match LineProgram::at(sections, named.offset, named.place, &named.shape) {
        Ok(program) => {
            let unit = UnitProgram {
                program: &program,
                size: named.shape.address,
            };
            unit.add_claims(alloc, sheet)?;
            Ok(LastProgram {
                offset: named.offset,
                shape: named.shape,
                first,
                end: sheet.len(),
            })
        }
        Err(bad) => Err(Stop::Bad(bad)),
    }
}

/// Adds the claims of the line program that a unit names, if it names one. The program that was read last isn't read
/// again for a unit of the same shape: its claims are copied. Bad is the first fault of the program.
#[tactic(auto, using(claim_sheet::proofs::SheetLemmas::adding_none, crate::proofs::KeptLemmas::program_again, crate::proofs::KeptLemmas::program_still))]
pub fn add_program(
    alloc: Global,
    sections: &Sections<'_>,
    root: &Root<'_>,
    last: &mut Option<LastProgram>,
    sheet: &mut ClaimSheet,
) -> Result<(), Stop>
    requires { IsProgramOf sections.now sheet.old last.old }
    ensures adds { AddsRead result sheet.old sheet.new
        (program_claims sections.now (shown_root root.now) (unit_program (shown_root root.now))) }
    ensures program { OnOk result (IsProgramOf sections.now sheet.new last.new) }
{
    let Some((offset, place)) = unit_program(root) else {
        return Ok(());
    };
    if let Some(known) = last
        && known.offset == offset
        && known.shape == root.shape
    {
        return add_again(known, sheet);
    }
    let shape = root.shape;
    let named = NamedProgram {
        offset,
        place,
        shape,
    };
    *last = Some(read_program(alloc, sections, named, sheet)?);
    Ok(())
}
