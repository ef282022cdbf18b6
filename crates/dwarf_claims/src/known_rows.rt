//! The labels of rows that have a claim. Rows come back to the lines of a function and to those of inlined functions,
//! and a label that is known needn't be written and looked up again.

ghost use Rattle.std.specs.Prelude.{List};
ghost use Rattle.size_model.specs.declared.view.LabelledClaim.{LabelledClaim};
ghost use Rattle.claim_sheet.specs.Known.{IsKnownBy};
ghost use Rattle.dwarf_line_header.specs.Header.{LineHeader};
ghost use Rattle.dwarf_claims.specs.LineClaims.{row_label};
ghost use Rattle.dwarf_claims.specs.RowSteps.{AreKnownRows};

use dwarf_lines::LineRow;

/// A file and a line, and the position on the sheet of a claim that has their label, if one is known.
#[derive(Clone, Copy)]
pub struct KnownRow {
    pub file: u64,
    pub line: u32,
    pub claim: Option<usize>,
}

/// A row that isn't known.
pub const NO_ROW: KnownRow = KnownRow {
    file: 0,
    line: 0,
    claim: None,
};

/// How many rows are known at most.
pub const ROWS: usize = 256;

/// Known rows of one line program. The position of a row follows from its file and line; a new row replaces the one that
/// has its position.
#[derive(Drop)]
pub struct KnownRows {
    pub rows: Vec<KnownRow>,
}

// Returns the position of a row in the table.
fn slot_of(row: &LineRow) -> usize {
    let line = row.line as usize % ROWS;
    let file = (row.file % ROWS as u64) as usize;
    (line + 37 * file) % ROWS
}

impl KnownRows {
    /// Returns the position of a claim that has the label of a row, if one is known.
    #[tactic(auto, using(crate::proofs::KnownLemmas::known_is))]
    pub fn claim_of(&self, row: &LineRow) -> Option<usize>
        ensures { (made : List LabelledClaim) (h : LineHeader)
            → AreKnownRows made h self.now.rows.items
            → IsKnownBy made (row_label h row.now) result }
    {
        match self.rows.get(slot_of(row)) {
            Some(known) if known.file == row.file && known.line == row.line => known.claim,
            _ => None,
        }
    }

    /// Stores the position of a claim that has the label of a row.
    #[tactic(auto, using(crate::proofs::KnownLemmas::stored), unfolding(crate::specs::LineClaims::row_label))]
    pub fn keep(&mut self, row: &LineRow, claim: Option<usize>)
        ensures { (made : List LabelledClaim) (h : LineHeader)
            → AreKnownRows made h self.old.rows.items
            → IsKnownBy made (row_label h row.now) claim
            → AreKnownRows made h self.new.rows.items }
    {
        let slot = slot_of(row);
        if slot < self.rows.len() {
            self.rows[slot] = KnownRow {
                file: row.file,
                line: row.line,
                claim,
            };
        }
    }
}
