//! Trees and rows, independent of which sizes a report shows.

ghost use Rattle.std.specs.Prelude.{◌≡◌, ◌++◌, ℕ, List, OnOk, map};
ghost use Rattle.size_core.specs.declared.choices.Domain.{Domain};
ghost use Rattle.report_rows.specs.declared.row.Row.{Row};
ghost use Rattle.report_text.specs.Labels.{kind_of};
ghost use Rattle.report_text.specs.Records.{Fields};

use crate::fields::Fields;
use itoa::Buffer;
use size_core::{Domain, List, NoMemory};
use std::alloc::Global;

/// The name of a row.
#[derive(Clone, Copy)]
pub enum Name<'a> {
    /// A label.
    Label(&'a [u8]),
    /// This many labels that a limit leaves out.
    Others(u64),
}

/// A row of a report.
pub trait ReportRow: Drop {
    /// The row of a tree of sizes with the same level and name.
    ghost as_row: { Self → Row };

    /// The fields of the row's shown sizes in a record.
    ghost sizes: { Domain → Self → Fields };

    /// The row's level. The first level is 0.
    fn level(&self) -> u32
        ensures { result ≡ (as_row self.now).level };

    /// The row's name.
    fn name(&self) -> Name<'_>
        ensures { kind_of result ≡ (as_row self.now).kind };

    /// Appends the fields of the row's shown sizes. Their digits are written into the buffers.
    fn push_sizes<'b>(
        &self,
        fields: &mut Fields<'b>,
        domain: Domain,
        vm: &'b mut Buffer,
        file: &'b mut Buffer,
    ) -> Result<(), NoMemory>
        ensures { OnOk result (map (λ f. f.now) fields.new.items
            ≡ map (λ f. f.now) fields.old.items ++ sizes domain self.now) };
}

/// A tree of rows to print.
pub trait ReportTree {
    /// The type of the rows.
    type Entry: ReportRow;

    /// The width of a column, without the two spaces after it.
    const PLACES: usize;

    /// The width of a column.
    ghost PLACES: { ℕ };

    /// The number of levels.
    ghost depth: { Self → ℕ };

    /// The rows of all levels.
    ghost rows: { Self → List Self.Entry };

    /// The columns of a row's shown sizes.
    ghost columns: { Domain → Self → Self.Entry → List ℕ };

    /// The columns of the totals.
    ghost total: { Domain → Self → List ℕ };

    /// The number of levels.
    fn depth(&self) -> u32
        ensures { result ≡ depth self.now };

    /// The rows of all levels.
    fn rows(&self) -> &List<Self::Entry>
        ensures { result.now ≡ rows self.now };

    /// Appends the columns of a row's shown sizes.
    fn push_columns(
        &self,
        alloc: Global,
        out: &mut Vec<u8>,
        domain: Domain,
        row: &Self::Entry,
    ) -> Result<(), NoMemory>
        ensures { OnOk result (out.new.items ≡ out.old.items ++ columns domain self.now row.now) };

    /// Appends the columns of the totals.
    fn push_total(&self, alloc: Global, out: &mut Vec<u8>, domain: Domain) -> Result<(), NoMemory>
        ensures { OnOk result (out.new.items ≡ out.old.items ++ total domain self.now) };
}
