//! Claims under the labels of rows.

ghost use Rattle.std.specs.Prelude.{List, IfOk, OnOk};
ghost use Rattle.size_model.specs.declared.view.LabelledClaim.{LabelledClaim};
ghost use Rattle.claim_sheet.specs.Adds.{Adds};
ghost use Rattle.claim_sheet.specs.Reaches.{claim_on};
ghost use Rattle.dwarf_claims.specs.LineClaims.{row_label};
ghost use Rattle.dwarf_claims.specs.RowSteps.{AreRowLabels};

use crate::known_rows::{KnownRows, NO_ROW, ROWS};
use crate::row_label::RowLabel;
use claim_sheet::{ClaimSheet, Reach};
use dwarf_lines::{LineProgram, LineRow};
use size_core::NoMemory;
use std::alloc::Global;

/// The label that was written last, and the rows whose labels have a claim.
#[derive(Drop)]
pub struct RowLabels {
    pub last: RowLabel,
    pub known: KnownRows,
}

impl RowLabels {
    /// Returns labels for the rows of a program. None is known yet.
    #[tactic(auto, unfolding(crate::specs::RowSteps::AreKnownRows))]
    pub fn new(alloc: Global, program: &LineProgram<'_>) -> Result<RowLabels, NoMemory>
        ensures { IfOk result (λ labels.
            (made : List LabelledClaim) → AreRowLabels made program.now labels) }
    {
        let mut last = RowLabel {
            text: Vec::new(alloc),
            path_len: 0,
            file: 1,
        };
        last.set_file(program, 1)?;
        let rows = vec![in alloc; NO_ROW; ROWS]?;
        Ok(RowLabels {
            last,
            known: KnownRows { rows },
        })
    }

    /// Adds a claim under the label of a row, and stores its position. A label that is known isn't written again.
    #[tactic(auto, using(crate::proofs::KnownLemmas::rows_after))]
    pub fn add(
        &mut self,
        program: &LineProgram<'_>,
        row: &LineRow,
        reach: Reach,
        sheet: &mut ClaimSheet,
    ) -> Result<(), NoMemory>
        requires { AreRowLabels sheet.old.made program.now self.old }
        ensures adds { Adds result sheet.old sheet.new
            (claim_on reach (row_label program.now row.now)) }
        ensures labels { OnOk result (AreRowLabels sheet.new.made program.now self.new) }
    {
        if let Some(claim) = self.known.claim_of(row) {
            return sheet.add_like(reach, claim);
        }
        self.last.set(program, row)?;
        let claim = sheet.add_noted(reach, &self.last.text)?;
        self.known.keep(row, claim);
        Ok(())
    }
}
