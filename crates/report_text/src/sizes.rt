//! The report of sizes.

ghost use Rattle.std.specs.Prelude.{◌≡◌, ◌++◌, length, OnOk, OnErr};
ghost use Rattle.report_rows.specs.Trees.{IsTree};
ghost use Rattle.report_text.specs.Lines.{size_column, columns, report_text};
ghost use Rattle.report_text.specs.Records.{size_fields, csv_text, tsv_text};

use crate::fields::{Fields, push_shown};
use crate::lines::{ColumnWidths, TreeLines};
use crate::numbers::{push_percent, push_size};
use crate::pieces::push_text;
use crate::records::table;
use crate::rows::{Name, ReportRow, ReportTree};
use itoa::Buffer;
use report_rows::{Row, RowKind, RowTree, Rows};
use size_core::{Domain, Names, NoMemory};
use std::alloc::Global;

// The width of a percentage in a column.
const PERCENT_WIDTH: usize = 6;

// The width of a size in a column.
const SIZE_WIDTH: usize = 8;

// A file size and a VM size.
#[derive(Clone, Copy)]
struct Sizes {
    file: u64,
    vm: u64,
}

impl ReportRow for Row {
    ghost as_row = { λ r. r };

    ghost sizes = { size_fields };

    fn level(&self) -> u32 {
        self.level
    }

    fn name(&self) -> Name<'_> {
        match &self.kind {
            RowKind::Label(label) => Name::Label(label.as_slice()),
            RowKind::Others(count) => Name::Others(*count),
        }
    }

    fn push_sizes<'b>(
        &self,
        fields: &mut Fields<'b>,
        domain: Domain,
        vm: &'b mut Buffer,
        file: &'b mut Buffer,
    ) -> Result<(), NoMemory> {
        let vm = vm.format(self.vm).as_bytes();
        let file = file.format(self.file).as_bytes();
        push_shown(fields, domain, vm, file)
    }
}

// Appends the column of a size.
#[tactic(auto, unfolding(crate::specs::Lines::size_column))]
fn push_size_column(alloc: Global, out: &mut Vec<u8>, size: u64, total: u64) -> Result<(), NoMemory>
    ensures { OnOk result (out.new.items ≡ out.old.items ++ size_column size total) }
{
    let mut percent = Vec::new(alloc);
    push_percent(&mut percent, size, total)?;
    let mut amount = Vec::new(alloc);
    push_size(&mut amount, size)?;
    let widths = ColumnWidths {
        part: PERCENT_WIDTH,
        amount: SIZE_WIDTH,
    };
    widths.push_column(out, percent.as_slice(), amount.as_slice())
}

// Appends the shown columns of a file size and a VM size.
#[tactic(auto, unfolding(crate::specs::Lines::columns))]
fn push_columns(
    alloc: Global,
    out: &mut Vec<u8>,
    domain: Domain,
    tree: &RowTree,
    sizes: Sizes,
) -> Result<(), NoMemory>
    ensures { OnOk result (out.new.items
        ≡ out.old.items ++ columns domain tree.now sizes.file sizes.vm) }
{
    match domain {
        Domain::File => push_size_column(alloc, out, sizes.file, tree.file),
        Domain::Vm => push_size_column(alloc, out, sizes.vm, tree.vm),
        Domain::Both => {
            push_size_column(alloc, out, sizes.file, tree.file)?;
            push_size_column(alloc, out, sizes.vm, tree.vm)
        }
    }
}

impl ReportTree for RowTree {
    type Entry = Row;

    const PLACES: usize = PERCENT_WIDTH + 1 + SIZE_WIDTH;

    ghost PLACES = { 15 };

    ghost depth = { λ t. t.depth };

    ghost rows = { λ t. t.rows };

    ghost columns = { λ domain t r. columns domain t r.file r.vm };

    ghost total = { λ domain t. columns domain t t.file t.vm };

    fn depth(&self) -> u32 {
        self.depth
    }

    fn rows(&self) -> &Rows {
        &self.rows
    }

    fn push_columns(
        &self,
        alloc: Global,
        out: &mut Vec<u8>,
        domain: Domain,
        row: &Row,
    ) -> Result<(), NoMemory> {
        let sizes = Sizes {
            file: row.file,
            vm: row.vm,
        };
        push_columns(alloc, out, domain, self, sizes)
    }

    fn push_total(&self, alloc: Global, out: &mut Vec<u8>, domain: Domain) -> Result<(), NoMemory> {
        let sizes = Sizes {
            file: self.file,
            vm: self.vm,
        };
        push_columns(alloc, out, domain, self, sizes)
    }
}

/// Appends the text report of a tree: a title line, a line for each row, and a line for the total. Each size of
/// `domain` has a column, the file size first. Sizes and percentages are rounded down. A control byte of a label is
/// written as `\xNN`. A label of more than 60 bytes is shortened unless `wide`. If memory runs out, `out` is unchanged.
#[tactic(auto, unfolding(crate::specs::Lines::report_text))]
pub fn text(
    alloc: Global,
    tree: &RowTree,
    domain: Domain,
    wide: bool,
    out: &mut Vec<u8>,
) -> Result<(), NoMemory>
    ensures ok { OnOk result (out.new.items ≡ out.old.items ++ report_text tree.now domain wide) }
    ensures err { OnErr result (out.new.items ≡ out.old.items) }
{
    let lines = TreeLines {
        alloc,
        tree,
        domain,
        wide,
    };
    push_text(out, lines.text()?)
}

/// Appends the CSV records of a tree. A header has the names of the data sources and of the shown sizes. Each row
/// without children has a record with the labels of its path and its shown sizes in bytes. If memory runs out, `out` is
/// unchanged.
#[tactic(auto, using(crate::proofs::RecordLemmas::plain_tree), unfolding(crate::specs::Records::csv_text))]
pub fn csv(
    alloc: Global,
    tree: &RowTree,
    domain: Domain,
    sources: &Names,
    out: &mut Vec<u8>,
) -> Result<(), NoMemory>
    requires names { length sources.now ≡ tree.now.depth }
    requires levels { IsTree tree.now.depth tree.now.rows }
    ensures ok { OnOk result (out.new.items
        ≡ out.old.items ++ csv_text tree.now domain sources.now) }
    ensures err { OnErr result (out.new.items ≡ out.old.items) }
{
    let text = table(alloc, b',', tree, domain, sources)?;
    push_text(out, text)
}

/// Appends the same records as `csv`, separated by tabs instead of commas.
#[tactic(auto, using(crate::proofs::RecordLemmas::plain_tree), unfolding(crate::specs::Records::tsv_text))]
pub fn tsv(
    alloc: Global,
    tree: &RowTree,
    domain: Domain,
    sources: &Names,
    out: &mut Vec<u8>,
) -> Result<(), NoMemory>
    requires names { length sources.now ≡ tree.now.depth }
    requires levels { IsTree tree.now.depth tree.now.rows }
    ensures ok { OnOk result (out.new.items
        ≡ out.old.items ++ tsv_text tree.now domain sources.now) }
    ensures err { OnErr result (out.new.items ≡ out.old.items) }
{
    let text = table(alloc, b'\t', tree, domain, sources)?;
    push_text(out, text)
}
