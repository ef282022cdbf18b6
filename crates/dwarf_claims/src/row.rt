//! The claims of the rows of a line program.

ghost use Rattle.std.specs.Prelude.{◌≡◌, IfOk, OnOk};
ghost use Rattle.claim_sheet.specs.Adds.{Adds, AddsRead};
ghost use Rattle.dwarf_lines.specs.Rows.{line_rows};
ghost use Rattle.dwarf_claims.specs.LineClaims.{rows_claims};
ghost use Rattle.dwarf_claims.specs.RowSteps.{AreRowLabels, claim_before, makes_claims, next_before, previous_of_next, row_claims};

use crate::row_labels::RowLabels;
use claim_sheet::{ClaimSheet, Reach, Stop, span};
use dwarf_lines::{LineProgram, LineRow};
use dwarf_ranges::claims_nothing;
use size_core::{BadFile, NoMemory};
use std::alloc::Global;

/// The previous row of the same sequence, and whether the sequence makes claims.
#[derive(Clone, Copy)]
pub struct Before {
    pub row: LineRow,
    pub claims: bool,
}

/// A line program, and the size of an address in its unit.
#[derive(Clone, Copy)]
pub struct UnitProgram<'p, 'a> {
    pub program: &'p LineProgram<'a>,
    pub size: u8,
}

fn is_claimed(size: u8, before: Option<Before>, row: &LineRow) -> bool
    ensures { result ≡ makes_claims size before row.now }
{
    match before {
        Some(before) => before.claims,
        None => !claims_nothing(size, row.address, 1),
    }
}

fn before_next(size: u8, before: Option<Before>, row: LineRow) -> Option<Before>
    ensures { result ≡ previous_of_next size before row }
{
    if row.end {
        return None;
    }
    let claims = is_claimed(size, before, &row);
    Some(Before { row, claims })
}

// Adds the claim of the previous row, if the sequence has one and makes claims: the addresses up to this row.
#[tactic(auto, using(claim_sheet::proofs::SheetLemmas::adding_none), unfolding(crate::specs::LineClaims::pair_claim))]
fn add_before(
    program: &LineProgram<'_>,
    before: Option<Before>,
    row: &LineRow,
    labels: &mut RowLabels,
    sheet: &mut ClaimSheet,
) -> Result<(), NoMemory>
    requires { AreRowLabels sheet.old.made program.now labels.old }
    ensures adds { Adds result sheet.old sheet.new (claim_before program.now before row.now) }
    ensures labels { OnOk result (AreRowLabels sheet.new.made program.now labels.new) }
{
    let Some(before) = before else {
        return Ok(());
    };
    let start = before.row.address;
    if !before.claims || row.address <= start {
        return Ok(());
    }
    let bytes = span(0, start, row.address - start);
    labels.add(program, &before.row, Reach::in_memory(bytes), sheet)
}

// Adds the claim of the previous row, which ends at this row, and returns the previous row of the next row.
#[tactic(auto, unfolding(crate::specs::RowSteps::row_claims, crate::specs::RowSteps::next_before))]
fn add_row(
    unit: UnitProgram<'_, '_>,
    before: Option<Before>,
    row: Result<LineRow, BadFile>,
    labels: &mut RowLabels,
    sheet: &mut ClaimSheet,
) -> Result<Option<Before>, Stop>
    requires { AreRowLabels sheet.old.made unit.program.now labels.old }
    ensures adds { AddsRead result sheet.old sheet.new
        (row_claims unit.entry.program.now before row) }
    ensures next { IfOk result (λ next. next ≡ next_before unit.entry.size before row) }
    ensures labels { OnOk result (AreRowLabels sheet.new.made unit.entry.program.now labels.new) }
{
    let row = row?;
    add_before(unit.program, before, &row, labels, sheet)?;
    Ok(before_next(unit.size, before, row))
}

impl UnitProgram<'_, '_> {
    // Adds the claims of the rows, one after another. Bad is the fault of the rows.
    #[tactic(auto, using(crate::proofs::RowLemmas::ends, crate::proofs::RowLemmas::passes))]
    fn add_rows(self, alloc: Global, sheet: &mut ClaimSheet) -> Result<(), Stop>
        ensures { AddsRead result sheet.old sheet.new
            (rows_claims self.entry.program.now self.entry.size
            (line_rows self.entry.program.now)) }
    {
        let mut labels = RowLabels::new(alloc, self.program)?;
        let mut before = None;
        for row in self.program.rows() {
            before = add_row(self, before, row, &mut labels, sheet)?;
        }
        Ok(())
    }

    /// Adds the claims of the rows of the line program. Its file names are kept in memory meanwhile, since many rows name
    /// the same file. Bad is the fault of the rows.
    pub fn add_claims(self, alloc: Global, sheet: &mut ClaimSheet) -> Result<(), Stop>
        ensures { AddsRead result sheet.old sheet.new
            (rows_claims self.entry.program.now self.entry.size
            (line_rows self.entry.program.now)) }
    {
        let program = self.program.kept(alloc)?;
        let unit = UnitProgram {
            program: &program,
            size: self.size,
        };
        unit.add_rows(alloc, sheet)
    }
}
